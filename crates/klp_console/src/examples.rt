//! Worked examples of answers, proved by computation. A function here does nothing: its contract is the example, and
//! its proof fails if a definition gives another text.
ghost use Rattle.std.specs.Prelude.{◌≡◌, negsuc, true, false, [], ◌∷◌, codes, None, Some, Ok, Err};
ghost use Rattle.klp_types.specs.declared.version.Version.TheVariants.{Original, New};
ghost use Rattle.klp_model.specs.declared.event.Reply.TheVariants.{Done, Started, Reversed, Pending, Completed};
ghost use Rattle.klp_model.specs.declared.event.Reply.TheVariants.{PreFailed, Value, Freed, Woken};
ghost use Rattle.klp_model.specs.declared.event.Refusal.TheVariants.{NoPatch, Busy, AlreadyThere, Pinned, Incompatible};
ghost use Rattle.klp_model.specs.declared.event.Refusal.TheVariants.{NoSymbol, NoModule, InUse, NoTask, TaskThere};
ghost use Rattle.klp_model.specs.declared.event.Refusal.TheVariants.{WrongMode, BadFrame, Full, JournalFull, NotMoving};
ghost use Rattle.klp_model.specs.declared.event.Refusal.TheVariants.{Exists, NotFound, SameValue};
ghost use Rattle.klp_console_commands.specs.declared.fault.LineFault.TheVariants.{BadLine, BadValue, Refused};
ghost use Rattle.klp_console_commands.specs.declared.request.Query.TheVariants as query;
ghost use Rattle.klp_console.specs.Answered.{done, nothing, refused_with, seen, replied};
ghost use Rattle.klp_console.specs.Refusals.{refusal_text, fault_text, bad_mark_text};
ghost use Rattle.klp_console.specs.Replies.{answer_text};
ghost use Rattle.klp_console.specs.Queries.{functions_text, variable_text, query_text, shown_text, force_nothing};
ghost use Rattle.klp_console.specs.Examples.{catalog, manager};

/// The answers to accepted events, for each reply, with the names of patches, objects, and functions of tasks.
pub fn replies_are_sent_like_this()
    ensures done { answer_text catalog (Ok Done) ≡ codes "ok\n" }
    ensures started { answer_text catalog (Ok Started) ≡ codes "started\n" }
    ensures reversed { answer_text catalog (Ok Reversed) ≡ codes "reversed\n" }
    ensures pending { answer_text catalog (Ok (Pending 12)) ≡ codes "pending 12\n" }
    ensures completed { answer_text catalog (Ok (Completed true)) ≡ codes "completed 1\n" }
    ensures withdrawn { answer_text catalog (Ok (Completed false)) ≡ codes "completed 0\n" }
    ensures failed { answer_text catalog (Ok (PreFailed 0 1 (negsuc 15))) ≡ codes "prefailed p m -16\n" }
    ensures number { answer_text catalog (Ok (Value (5 ∷ 0 ∷ 0 ∷ 0 ∷ 0 ∷ 0 ∷ 0 ∷ 0 ∷ []))) ≡ codes "value 5\n" }
    ensures bytes { answer_text catalog (Ok (Value (10 ∷ 255 ∷ []))) ≡ codes "value x0aff\n" }
    ensures freed { answer_text catalog (Ok (Freed 0)) ≡ codes "freed 0\n" }
    ensures woken { answer_text catalog (Ok (Woken (Original 0 ∷ New 0 2 ∷ Original 3 ∷ Original 4 ∷ [])))
        ≡ codes "woken .klp.sym.vmlinux.f,1 p:2 .klp.sym.vmlinux.d,2 .klp.sym.m.g,1\n" }
    ensures woken_from_nothing { answer_text catalog (Ok (Woken [])) ≡ codes "woken\n" }
    ensures refused { answer_text catalog (Err Busy) ≡ codes "error 16 Busy\n" }
{}

/// The answers to refusals. The number is 2 for something that doesn't exist, 12 for lack of room, 16 for something in
/// use, and 22 for anything else.
pub fn refusals_have_these_numbers()
    ensures no_patch { refusal_text NoPatch ≡ codes "error 2 NoPatch\n" }
    ensures no_module { refusal_text NoModule ≡ codes "error 2 NoModule\n" }
    ensures no_task { refusal_text NoTask ≡ codes "error 2 NoTask\n" }
    ensures not_found { refusal_text NotFound ≡ codes "error 2 NotFound\n" }
    ensures full { refusal_text Full ≡ codes "error 12 Full\n" }
    ensures journal_full { refusal_text JournalFull ≡ codes "error 12 JournalFull\n" }
    ensures busy { refusal_text Busy ≡ codes "error 16 Busy\n" }
    ensures in_use { refusal_text InUse ≡ codes "error 16 InUse\n" }
    ensures already_there { refusal_text AlreadyThere ≡ codes "error 22 AlreadyThere\n" }
    ensures pinned { refusal_text Pinned ≡ codes "error 22 Pinned\n" }
    ensures incompatible { refusal_text Incompatible ≡ codes "error 22 Incompatible\n" }
    ensures no_symbol { refusal_text NoSymbol ≡ codes "error 22 NoSymbol\n" }
    ensures task_there { refusal_text TaskThere ≡ codes "error 22 TaskThere\n" }
    ensures wrong_mode { refusal_text WrongMode ≡ codes "error 22 WrongMode\n" }
    ensures bad_frame { refusal_text BadFrame ≡ codes "error 22 BadFrame\n" }
    ensures not_moving { refusal_text NotMoving ≡ codes "error 22 NotMoving\n" }
    ensures exists { refusal_text Exists ≡ codes "error 22 Exists\n" }
    ensures same_value { refusal_text SameValue ≡ codes "error 22 SameValue\n" }
    ensures bad_line { fault_text BadLine ≡ codes "error 22 BadLine\n" }
    ensures bad_value { fault_text BadValue ≡ codes "error 22 BadValue\n" }
    ensures unknown_name { fault_text (Refused NoPatch) ≡ codes "error 2 NoPatch\n" }
    ensures bad_mark { bad_mark_text ≡ codes "error 22 BadMark\n" }
{}

/// The answers to queries about the files of patches and tasks.
pub fn files_read_like_this()
    ensures enabled { shown_text (query_text manager (query.Enabled 0)) ≡ codes "1\n" }
    ensures at_rest { shown_text (query_text manager (query.Transition 0)) ≡ codes "0\n" }
    ensures in_transition { shown_text (query_text manager (query.Transition 1)) ≡ codes "1\n" }
    ensures not_installed { shown_text (query_text manager (query.Enabled 2)) ≡ codes "error 2 NotFound\n" }
    ensures not_installed_either { shown_text (query_text manager (query.Transition 2)) ≡ codes "error 2 NotFound\n" }
    ensures patch_state { shown_text (query_text manager (query.PatchState 1)) ≡ codes "0\n" }
    ensures no_task { shown_text (query_text manager (query.PatchState 0)) ≡ codes "error 2 NoTask\n" }
    ensures patches { shown_text (query_text manager query.Patches) ≡ codes "p\nc\n" }
    ensures directory { shown_text (query_text manager (query.Patch 0)) ≡ codes "enabled\nforce\ntransition\nvmlinux\nm\n" }
    ensures no_directory { shown_text (query_text manager (query.Patch 2)) ≡ codes "error 2 NotFound\n" }
    ensures functions { shown_text (query_text manager (query.Object 0 0)) ≡ codes "f,1\nh,1\n" }
    ensures of_the_module { shown_text (query_text manager (query.Object 0 1)) ≡ codes "g,1\n" }
    ensures second { functions_text catalog 2 0 ≡ codes "d,2\n" }
    ensures not_its_object { shown_text (query_text manager (query.Object 1 1)) ≡ codes "error 2 NotFound\n" }
    ensures not_forced { shown_text (force_nothing manager 0) ≡ codes "ok\n" }
    ensures no_file { shown_text (force_nothing manager 2) ≡ codes "error 2 NotFound\n" }
    ensures mark { shown_text (query_text manager query.Mark) ≡ codes "0\n" }
    ensures no_variable { variable_text None ≡ codes "none\n" }
    ensures variable { variable_text (Some (5 ∷ 0 ∷ 0 ∷ 0 ∷ 0 ∷ 0 ∷ 0 ∷ 0 ∷ [])) ≡ codes "value 5\n" }
{}

/// The answers to queries about the text, function stacks, what a task runs, and how often callbacks ran.
pub fn the_kernel_looks_like_this()
    ensures text { shown_text (query_text manager (query.Text 0))
        ≡ codes "f ffffffff81001000 e8fbefffff90c3\nh ffffffff81002000 e8fbdfffffc3\nd ffffffff81003000 0f1f440000c3\nd ffffffff81004000 0f1f440000c3\n" }
    ensures not_loaded { shown_text (query_text manager (query.Text 1)) ≡ codes "error 2 NoModule\n" }
    ensures stack { shown_text (query_text manager (query.Stack 0)) ≡ codes "c f_c ffffffffc0003000\np f_p ffffffffc0001000\n" }
    ensures nop { shown_text (query_text manager (query.Stack 1)) ≡ codes "c nop\np h_p ffffffffc0001100\n" }
    ensures empty { shown_text (query_text manager (query.Stack 2)) ≡ codes "empty\n" }
    ensures empty_while_not_loaded { shown_text (query_text manager (query.Stack 4)) ≡ codes "empty\n" }
    ensures older { shown_text (query_text manager (query.Pick 1 0)) ≡ codes "p f_p ffffffffc0001000\n" }
    ensures original { shown_text (query_text manager (query.Pick 1 2)) ≡ codes "original ffffffff81003005\n" }
    ensures nobody { shown_text (query_text manager (query.Pick 0 4)) ≡ codes "error 2 NoTask\n" }
    ensures no_module { shown_text (query_text manager (query.Pick 1 4)) ≡ codes "error 2 NoModule\n" }
    ensures runs { shown_text (query_text manager (query.Runs 0 0)) ≡ codes "runs 1 2 3 0\n" }
    ensures runs_of_two { shown_text (query_text manager (query.Runs 0 1)) ≡ codes "runs 4 5 - -\n" }
    ensures runs_of_none { shown_text (query_text manager (query.Runs 2 0)) ≡ codes "runs - - - -\n" }
    ensures not_its_object { shown_text (query_text manager (query.Runs 1 1)) ≡ codes "error 2 NotFound\n" }
{}

/// A line is counted as refused if it wasn't done, and only then.
pub fn lines_are_refused_where_they_are_not_done()
    ensures done { replied catalog (Ok Started) ≡ record { text = codes "started\n"; is_refused = false } }
    ensures not_done { replied catalog (Err Busy) ≡ record { text = codes "error 16 Busy\n"; is_refused = true } }
    ensures shown { seen (query_text manager query.Patches) ≡ record { text = codes "p\nc\n"; is_refused = false } }
    ensures not_shown { seen (query_text manager (query.Patch 2)) ≡ record { text = codes "error 2 NotFound\n"; is_refused = true } }
    ensures no_words { nothing ≡ record { text = []; is_refused = false } }
    ensures sealed { done ≡ record { text = codes "ok\n"; is_refused = false } }
    ensures unknown { refused_with bad_mark_text ≡ record { text = codes "error 22 BadMark\n"; is_refused = true } }
{}
