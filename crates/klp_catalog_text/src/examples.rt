//! Worked examples: what a catalog's text means, and an example of each fault. A function of this module does nothing.
//! The function's contract is the example, which is proved by computing the definition.
ghost use Rattle.std.specs.Prelude.{◌≡◌, pos, negsuc, true, false, [], ◌∷◌, ◌++◌, replicate, codes, None, Some, Ok};
ghost use Rattle.std.specs.Prelude.{Err};
ghost use Rattle.klp_types.specs.declared.callback.Which.TheVariants.{Pre, Post, PreUn, PostUn};
ghost use Rattle.klp_types.specs.declared.edit.Edit.TheVariants.{Alloc, Free, FreeAll, SetData, TakePrev};
ghost use Rattle.klp_catalog_text.specs.declared.fault.TextFaultKind.TheVariants.{NotAscii, LineTooLong, UnknownWord};
ghost use Rattle.klp_catalog_text.specs.declared.fault.TextFaultKind.TheVariants.{WrongCount, BadNumber, BadHex};
ghost use Rattle.klp_catalog_text.specs.declared.fault.TextFaultKind.TheVariants.{BadName, BadSymbol, BadEdit};
ghost use Rattle.klp_catalog_text.specs.declared.fault.TextFaultKind.TheVariants.{OutOfPlace, Twice, UnknownObject};
ghost use Rattle.klp_catalog_text.specs.declared.fault.TextFaultKind.TheVariants.{TooMany, Missing};
ghost use Rattle.klp_catalog_text.specs.declared.line.CatalogLine.TheVariants as line;
ghost use Rattle.klp_catalog_text.specs.Draft.{empty_draft, placed};
ghost use Rattle.klp_catalog_text.specs.Edits.{edit_of, script_of};
ghost use Rattle.klp_catalog_text.specs.Lines.{line_of};
ghost use Rattle.klp_catalog_text.specs.Text.{plan_of};
ghost use Rattle.klp_catalog_text.specs.Examples.{small_text, small_plan, longer_text, longer_plan, f, f_p, draft_with};
ghost use Rattle.klp_catalog_text.specs.Examples.{patch_with, target_with, draft_of, script_with, another_patch};

/// The meaning of two whole texts. Comments, empty lines and extra separators mean nothing, and a line may end with a
/// carriage return.
pub fn texts_say_this()
    ensures small { plan_of small_text ≡ Ok small_plan }
    ensures longer { plan_of longer_text ≡ Ok longer_plan }
{}

/// The fault of a text is the fault of its first faulty line. Every line is counted, from 1. A fault of the whole text
/// is reported at line 0.
pub fn the_first_faulty_line_is_reported()
    ensures cut { plan_of
        (codes "handler ffffffff81000000\nobject vmlinux\nsymbol f ffffffff81001000 e80000000090c3\npatch p\ntarget vmlinux\nfunc .klp.sym.vmlinux.f,0")
        ≡ Err (record { line = 6; kind = WrongCount }) }
    ensures empty { plan_of [] ≡ Err (record { line = 0; kind = Missing }) }
    ensures no_handler { plan_of (codes "object vmlinux\n") ≡ Err (record { line = 0; kind = Missing }) }
    ensures no_object { plan_of (codes "handler 10\n") ≡ Err (record { line = 0; kind = Missing }) }
    ensures counted { plan_of (codes "# x\n\nobject a\nobject a\nfoo") ≡ Err (record { line = 4; kind = Twice }) }
    ensures of_no_line { plan_of (codes "foo") ≡ Err (record { line = 1; kind = UnknownWord }) }
    ensures comment_behind_a_space { plan_of (codes " # x") ≡ Err (record { line = 1; kind = UnknownWord }) }
{}

/// The first word of a line determines which of eight kinds of line it is.
pub fn lines_say_this()
    ensures handler { line_of None [] (codes "handler") (codes "1A" ∷ []) ≡ Ok (line.Handler 26) }
    ensures object { line_of None [] (codes "object") (codes "m" ∷ []) ≡ Ok (line.Object (codes "m")) }
    ensures patch { line_of None [] (codes "patch") (codes "p" ∷ []) ≡ Ok (line.Patch (codes "p") false) }
    ensures replacing { line_of None [] (codes "patch") (codes "p" ∷ codes "replace" ∷ []) ≡ Ok (line.Patch (codes "p") true) }
    ensures target { line_of None [] (codes "target") (codes "m" ∷ []) ≡ Ok (line.Target (codes "m")) }
    ensures function { line_of (Some (codes "m")) [] (codes "func") (codes ".klp.sym.m.g,2" ∷ codes "g_p" ∷ codes "20" ∷ [])
        ≡ Ok (line.Function (record { symbol = codes "g"; sympos = 2; new_name = codes "g_p"; address = 32 })) }
    ensures state { line_of None [] (codes "state") (codes "7" ∷ codes "2" ∷ []) ≡ Ok (line.State (record { id = 7; version = 2 })) }
    ensures pre { line_of None [] (codes "pre") (codes "0" ∷ []) ≡ Ok (line.Callback Pre (record { edits = []; status = pos 0 })) }
    ensures post { line_of None [] (codes "post") (codes "0" ∷ []) ≡ Ok (line.Callback Post (record { edits = []; status = pos 0 })) }
    ensures pre_unpatch { line_of None [] (codes "preun") (codes "0" ∷ [])
        ≡ Ok (line.Callback PreUn (record { edits = []; status = pos 0 })) }
    ensures post_unpatch { line_of None [] (codes "postun") (codes "-16" ∷ [])
        ≡ Ok (line.Callback PostUn (record { edits = []; status = negsuc 15 })) }
{}

/// If a line has several faults, the first is reported. The order is: the line's bytes, its length, its first word, its
/// number of words, and then its words from left to right.
pub fn faults_of_a_line_come_in_order()
    ensures not_ascii { line_of None (200 ∷ replicate 4096 97) (codes "foo") [] ≡ Err NotAscii }
    ensures too_long { line_of None (replicate 4097 97) (codes "foo") [] ≡ Err LineTooLong }
    ensures longest { line_of None (replicate 4096 97) (codes "foo") [] ≡ Err UnknownWord }
    ensures few { line_of None [] (codes "symbol") (codes "+" ∷ codes "z" ∷ []) ≡ Err WrongCount }
    ensures many { line_of None [] (codes "handler") (codes "z" ∷ codes "z" ∷ []) ≡ Err WrongCount }
    ensures not_replace { line_of None [] (codes "patch") (codes "+" ∷ codes "other" ∷ codes "x" ∷ []) ≡ Err UnknownWord }
    ensures behind_replace { line_of None [] (codes "patch") (codes "+" ∷ codes "replace" ∷ codes "x" ∷ []) ≡ Err WrongCount }
    ensures name { line_of None [] (codes "symbol") (codes "a-b" ∷ codes "z" ∷ codes "z" ∷ []) ≡ Err BadName }
    ensures dot_in_a_name { line_of None [] (codes "object") (codes "a.b" ∷ []) ≡ Err BadName }
    ensures address { line_of None [] (codes "handler") (codes "z" ∷ []) ≡ Err BadHex }
    ensures symbol { line_of None [] (codes "func") (codes "f" ∷ codes "+" ∷ codes "z" ∷ []) ≡ Err BadSymbol }
    ensures another_object { line_of (Some (codes "n")) [] (codes "func") (codes ".klp.sym.m.g,2" ∷ codes "+" ∷ codes "z" ∷ [])
        ≡ Err BadSymbol }
    ensures new_name { line_of (Some (codes "m")) [] (codes "func") (codes ".klp.sym.m.g,2" ∷ codes "+" ∷ codes "z" ∷ [])
        ≡ Err BadName }
    ensures id { line_of None [] (codes "state") (codes "18446744073709551616" ∷ codes "1" ∷ []) ≡ Err BadNumber }
    ensures version { line_of None [] (codes "state") (codes "1" ∷ codes "4294967296" ∷ []) ≡ Err BadNumber }
{}

/// A callback has a status. Edits may follow a status of 0, with colons between the parts of an edit. Nothing may
/// follow another status.
pub fn callbacks_are_spelled_with_status_and_edits()
    ensures alloc { edit_of (codes "alloc:1:9:5") ≡ Ok (Alloc (record { obj = 1; id = 9 }) (5 ∷ 0 ∷ 0 ∷ 0 ∷ 0 ∷ 0 ∷ 0 ∷ 0 ∷ [])) }
    ensures free { edit_of (codes "free:1:9") ≡ Ok (Free (record { obj = 1; id = 9 })) }
    ensures free_all { edit_of (codes "freeall:9") ≡ Ok (FreeAll 9) }
    ensures set { edit_of (codes "set:7:3") ≡ Ok (SetData 7 3) }
    ensures take_prev { edit_of (codes "takeprev:7") ≡ Ok (TakePrev 7) }
    ensures unknown { edit_of (codes "take:7") ≡ Err BadEdit }
    ensures few { edit_of (codes "alloc:1:9") ≡ Err BadEdit }
    ensures many { edit_of (codes "free:1:9:5") ≡ Err BadEdit }
    ensures no_number { edit_of (codes "set:7:") ≡ Err BadEdit }
    ensures minus { edit_of (codes "set:7:-1") ≡ Err BadEdit }
    ensures in_order { script_of (codes "0" ∷ codes "freeall:1" ∷ codes "freeall:2" ∷ [])
        ≡ Ok (record { edits = FreeAll 1 ∷ FreeAll 2 ∷ []; status = pos 0 }) }
    ensures failing { script_of (codes "-16" ∷ []) ≡ Ok (record { edits = []; status = negsuc 15 }) }
    ensures failing_above_0 { script_of (codes "1" ∷ codes "freeall:1" ∷ []) ≡ Err WrongCount }
    ensures no_status { script_of (codes "z" ∷ codes "z" ∷ []) ≡ Err BadNumber }
    ensures nothing { script_of [] ≡ Err WrongCount }
    ensures bad_edit { script_of (codes "0" ∷ codes "freeall:1" ∷ codes "z" ∷ []) ≡ Err BadEdit }
{}

/// A line is out of place if the object, patch or target to which it belongs isn't there yet. The lines of the image
/// are also out of place after a patch.
pub fn lines_have_their_place()
    ensures handler { placed (draft_with (patch_with [] ∷ [])) (line.Handler 1) ≡ Err OutOfPlace }
    ensures object { placed (draft_with (patch_with [] ∷ [])) (line.Object (codes "m")) ≡ Err OutOfPlace }
    ensures symbol { placed (draft_with (patch_with [] ∷ [])) (line.Symbol f) ≡ Err OutOfPlace }
    ensures no_object { placed empty_draft (line.Symbol f) ≡ Err OutOfPlace }
    ensures target { placed (draft_with []) (line.Target (codes "vmlinux")) ≡ Err OutOfPlace }
    ensures function { placed (draft_with (patch_with [] ∷ [])) (line.Function f_p) ≡ Err OutOfPlace }
    ensures callback { placed (draft_with (patch_with [] ∷ [])) (line.Callback Pre (script_with 17)) ≡ Err OutOfPlace }
    ensures state { placed (draft_with []) (line.State (record { id = 7; version = 2 })) ≡ Err OutOfPlace }
    ensures no_such_object { placed (draft_with (patch_with [] ∷ [])) (line.Target (codes "m")) ≡ Err UnknownObject }
{}

/// If something may occur only once, its second occurrence is refused. A target or a state is compared only with those
/// of the open patch. A callback is compared only with those of the open target.
pub fn once_is_enough()
    ensures handler { placed (draft_with []) (line.Handler 1) ≡ Err Twice }
    ensures object { placed (draft_with []) (line.Object (codes "vmlinux")) ≡ Err Twice }
    ensures patch { placed (draft_with (patch_with [] ∷ [])) (line.Patch (codes "p") true) ≡ Err Twice }
    ensures target { placed (draft_with (patch_with (target_with [] ∷ []) ∷ [])) (line.Target (codes "vmlinux")) ≡ Err Twice }
    ensures callback { placed (draft_with (patch_with (target_with [] ∷ []) ∷ [])) (line.Callback Pre (script_with 17)) ≡ Err Twice }
    ensures another_kind { placed (draft_with (patch_with (target_with [] ∷ []) ∷ [])) (line.Callback Post (script_with 17))
        ≡ Err TooMany }
    ensures state { placed (draft_with (patch_with [] ∷ [])) (line.State (record { id = 7; version = 3 })) ≡ Err Twice }
    ensures state_of_another_patch { placed (draft_with (patch_with [] ∷ another_patch ∷ [])) (line.State (record { id = 7; version = 3 }))
        ≡ Ok (draft_with (patch_with [] ∷ record another_patch { states = record { id = 7; version = 3 } ∷ [] } ∷ [])) }
    ensures target_of_another_patch { placed (draft_with (patch_with (target_with [] ∷ []) ∷ another_patch ∷ [])) (line.Target (codes "vmlinux"))
        ≡ Ok (draft_with (patch_with (target_with [] ∷ []) ∷ record another_patch { targets = record { object = 0; functions = []; callbacks = [] } ∷ [] } ∷ [])) }
    ensures symbol { placed (draft_with []) (line.Symbol f)
        ≡ Ok (record (draft_with []) { objects = record { name = codes "vmlinux"; symbols = f ∷ f ∷ [] } ∷ [] }) }
{}

/// No limit is exceeded. As many items as the limit allows are accepted, and one more is refused.
pub fn limits_are_kept()
    ensures objects { placed (draft_of 16 0) (line.Object (codes "c")) ≡ Err TooMany }
    ensures last_object { placed (draft_of 15 0) (line.Object (codes "c"))
        ≡ Ok (record (draft_of 15 0) { objects = (draft_of 15 0).objects ++ record { name = codes "c"; symbols = [] } ∷ [] }) }
    ensures symbols { placed (draft_of 0 256) (line.Symbol f) ≡ Err TooMany }
    ensures body { placed (draft_with []) (line.Symbol (record f { body = replicate 257 0 })) ≡ Err TooMany }
    ensures patches { placed (draft_with (replicate 16 (patch_with []))) (line.Patch (codes "q") false) ≡ Err TooMany }
    ensures targets { placed (draft_with (patch_with (replicate 8 (record { object = 1; functions = []; callbacks = [] })) ∷ []))
        (line.Target (codes "vmlinux")) ≡ Err TooMany }
    ensures functions { placed
        (draft_with (patch_with (target_with (replicate 63 f_p) ∷ target_with (f_p ∷ []) ∷ []) ∷ [])) (line.Function f_p)
        ≡ Err TooMany }
    ensures last_function { placed (draft_with (patch_with (target_with (f_p ∷ []) ∷ target_with [] ∷ []) ∷ [])) (line.Function f_p)
        ≡ Ok (draft_with (patch_with (target_with (f_p ∷ []) ∷ target_with (f_p ∷ []) ∷ []) ∷ [])) }
{}
