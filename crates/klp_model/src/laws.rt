//! What is proved of the definitions themselves. Each law is the contract of a function that does nothing. The laws
//! show that the definitions mean what they should. Crates above may rely on the laws. A lemma that a crate above needs
//! is a law too, since that crate can cite only public contracts (docs/DECISIONS.md, "Lemmas of other crates").
ghost use Rattle.std.specs.Prelude.{◌≡◌, ℕ, ◌+◌, ◌-◌, ◌≤◌, nat_le, if◌then◌else◌, ℤ, pos, Bool, true, false, not, ◌==◌};
ghost use Rattle.std.specs.Prelude.{◌&&◌, List, [], ◌∷◌, ◌++◌, map, reverse, filter, Some, None, is_some, is_none};
ghost use Rattle.std.specs.Prelude.{option_map, Ok};
ghost use Rattle.std.specs.List.{count_by, list_any};
ghost use Rattle.std.specs.FinMap as finite;
ghost use Rattle.klp_types.specs.declared.shadow.ShadowKey.{ShadowKey};
ghost use Rattle.klp_types.specs.Setting.{Setting, replaces, state_ids};
ghost use Rattle.klp_types.specs.World.{Installed, ShadowValue, variable, state_value, installed_before, without_patch};
ghost use Rattle.klp_types.specs.declared.version.Version.{Version as AnyVersion};
ghost use Rattle.klp_types.specs.declared.version.Entry.{Entry};
ghost use Rattle.klp_types.specs.declared.version.Transition.{Transition};
ghost use Rattle.klp_types.specs.Image.{first_site, given_symbol};
ghost use Rattle.klp_types.specs.Entries.{patches_site, is_empty};
ghost use Rattle.klp_types.specs.Bytes.{symbol_in, patched, resting};
ghost use Rattle.klp_types.specs.Pick.{moves, is_unpatched, target_of};
ghost use Rattle.klp_types.specs.Callbacks.{after_calls};
ghost use Rattle.klp_model.specs.declared.event.Event.{Event as AnyEvent};
ghost use Rattle.klp_types.specs.FirstOf.{first_of};
ghost use Rattle.klp_types.specs.Script.{is_key};
ghost use Rattle.klp_model.specs.declared.event.Event.TheVariants.{ShadowAlloc, ShadowGetOrAlloc, ShadowFree};
ghost use Rattle.klp_model.specs.declared.event.Event.TheVariants.{ShadowFreeAll};
ghost use Rattle.klp_model.specs.declared.event.Reply.TheVariants.{Value, Freed};
ghost use Rattle.klp_model.specs.declared.event.Refusal.TheVariants.{Exists, Full};
ghost use Rattle.klp_model.specs.declared.event.Reply.{Reply as AnyReply};
ghost use Rattle.klp_model.specs.declared.event.Refusal.{Refusal};
ghost use Rattle.klp_model.specs.Refusals.{refusal, accepts, NoneHolds};
ghost use Rattle.klp_model.specs.State.{State, is_loaded, installed_patches, is_installed, with_world};
ghost use Rattle.klp_model.specs.Task.{Tasks};
ghost use Rattle.klp_model.specs.Blocked.{switched, lags};
ghost use Rattle.klp_model.specs.Entries.{is_site_loaded, entries_of, is_hooked};
ghost use Rattle.klp_model.specs.Bytes.{text_of};
ghost use Rattle.klp_model.specs.Pick.{pick_in};
ghost use Rattle.klp_model.specs.Versions.{version_in, others};
ghost use Rattle.klp_model.specs.EventCalls.{calls};
ghost use Rattle.klp_model.specs.ShadowStep.{shadow_changed};
ghost use Rattle.klp_model.specs.Completing.{without_older};
ghost use Rattle.klp_model.specs.Step.{accepted, step};
ghost use Rattle.klp_model.specs.Run.{answer, next, run, answers};
ghost use Rattle.klp_model.specs.Legal.{History, IsLegal, state_after_history, history_of};
ghost use Rattle.klp_model.specs.Allowed.{is_one_of, Allowed};
ghost use Rattle.klp_model.specs.Stated.{IsStated};
ghost use Rattle.klp_model.specs.Opening.{opening_state};

/// If the image has an object, the state with which a manager is booted is allowed. The first object is `vmlinux`,
/// which is loaded from the start.
pub fn the_opening_state_is_allowed()
    ensures { (setting : Setting) → is_empty setting.image.objects ≡ false → Allowed setting (opening_state setting) }
{}

/// A step or a run from an allowed state leads to an allowed state. So a condition of allowed states holds of every
/// state that a manager reaches.
pub fn states_stay_allowed()
    ensures step { (setting : Setting) (state : State) (event : AnyEvent) → Allowed setting state
        → Allowed setting (next setting state event) }
    ensures run { (setting : Setting) (state : State) (events : List AnyEvent) → Allowed setting state
        → Allowed setting (run setting state events) }
{}

/// An accepted event changes a shadow variable exactly as the shadow event does, or as the event's callbacks do. So a
/// variable can be followed through a run without computing the states.
pub fn callbacks_make_the_changes()
    ensures { (setting : Setting) (state : State) (event : AnyEvent) (key : ShadowKey)
        → variable (accepted setting state event).1.world key ≡ variable (after_calls (shadow_changed state.world event)
        (calls setting state event)) key }
{}

/// The version that a task runs, computed from the installed patches alone. A task with patch state 0 runs the version
/// that it would run if the patch in transition weren't installed. Any other task runs the newest version. While there
/// is no transition, every task runs the newest version. So a task runs a patch as a whole or not at all.
pub fn tasks_run_whole_lists_of_patches()
    ensures patched { (setting : Setting) (state : State) (own : ℤ) (site : ℕ)
        → is_site_loaded setting state site ≡ true → is_unpatched own ≡ false
        → pick_in setting state own site ≡ target_of setting (version_in setting site
        (reverse (installed_patches state))) }
    ensures at_rest { (setting : Setting) (state : State) (own : ℤ) (site : ℕ)
        → is_site_loaded setting state site ≡ true → state.moving ≡ None
        → pick_in setting state own site ≡ target_of setting (version_in setting site
        (reverse (installed_patches state))) }
    ensures unpatched { (setting : Setting) (state : State) (move : Transition) (site : ℕ) → Allowed setting state
        → is_site_loaded setting state site ≡ true → state.moving ≡ Some move
        → pick_in setting state (pos 0) site ≡ target_of setting (version_in setting site
        (reverse (others move.patch (installed_patches state)))) }
{}

/// Removing the patch in transition removes its own entries. The entries of the other patches stay as they were,
/// including nops. So the stacks needn't be built again.
pub fn a_patch_leaves_the_entries_of_the_others()
    ensures { (setting : Setting) (state : State) (patch : ℕ) (site : ℕ) → Allowed setting state
        → moves state.moving patch ≡ true
        → entries_of setting (with_world state (without_patch state.world patch)) site ≡ filter (λ
        (e : Entry). not (e.patch == patch)) (entries_of setting state site) }
{}

/// An event is accepted exactly if no case of a refusal holds. An accepted event leads to the state that its step
/// defines. A refused event doesn't change the state. So the list of cases says everything about refusals.
pub fn events_are_accepted_where_no_case_holds()
    ensures none { (cases : List (Bool × Refusal)) → is_none (first_of cases) ≡ true → NoneHolds cases }
    ensures next { (setting : Setting) (state : State) (event : AnyEvent) → accepts setting state event ≡ true
        → next setting state event ≡ (accepted setting state event).1 }
    ensures stays { (setting : Setting) (state : State) (event : AnyEvent) → accepts setting state event ≡ false
        → next setting state event ≡ state }
{}

/// If an event is accepted after a history, the history with this event added is a history too. A history can be cut in
/// two. The first part is a history from the same base. The second part is a history from the state to which the first
/// part leads. The events determine the replies. Undo relies on this law, since undo cuts histories at their end.
pub fn histories_grow_and_are_cut_at_their_end()
    ensures grown { (setting : Setting) (base : State) (history : History) (event : AnyEvent) (reply : AnyReply)
        → IsLegal setting base history → answer setting (state_after_history setting base history) event ≡ Ok reply
        → IsLegal setting base (history ++ (event, reply) ∷ []) }
    ensures front { (setting : Setting) (base : State) (first second : History) → IsLegal setting base (first ++ second)
        → IsLegal setting base first }
    ensures behind { (setting : Setting) (base : State) (first second : History)
        → IsLegal setting base (first ++ second)
        → IsLegal setting (state_after_history setting base first) second }
    ensures replies { (setting : Setting) (base : State) (one other : History) → IsLegal setting base one
        → IsLegal setting base other
        → map (λ (p : AnyEvent × AnyReply). p.0) one ≡ map (λ (p : AnyEvent × AnyReply). p.0) other → one ≡ other }
{}

/// The accepted events of any list, with their replies, are a legal history. This history leads to the same state as
/// the whole list, since refused events change nothing.
pub fn accepted_events_lead_where_all_lead()
    ensures legal { (setting : Setting) (state : State) (events : List AnyEvent)
        → IsLegal setting state (history_of setting state events) }
    ensures state { (setting : Setting) (state : State) (events : List AnyEvent)
        → state_after_history setting state (history_of setting state events) ≡ run setting state events }
{}

/// If all tasks are at the target, trying to switch the sleepers changes nothing. So a poll may complete the transition
/// without checking which tasks sleep.
pub fn where_none_lags_none_is_switched()
    ensures { (blocked : List AnyVersion) (target : Bool) (tasks : Tasks) → count_by (lags target) tasks ≡ 0
        → map (option_map (switched blocked target)) tasks ≡ tasks }
{}

/// When a cumulative patch has replaced the older patches, the entries of the older patches and its own nops are gone.
/// All other entries are as they were. If there were older patches, only the cumulative patch's functions are left,
/// since it is the newest patch. The cumulative patch may itself be the oldest, because it was disabled and enabled
/// again. In this case there may be newer patches, which stay.
pub fn a_replacement_takes_the_older_entries_along()
    ensures older { (setting : Setting) (state : State) (move : Transition) (site : ℕ) → Allowed setting state
        → state.moving ≡ Some move → replaces setting move.patch ≡ true
        → entries_of setting (with_world state (without_older true state.world move.patch)) site
        ≡ filter
        (λ (e : Entry). not (is_one_of e.patch
        (map (λ (i : Installed). i.patch) (installed_before move.patch state.world.installed)))
        && not (e.patch == move.patch && is_none e.func))
        (entries_of setting state site) }
    ensures own { (setting : Setting) (state : State) (move : Transition) (site : ℕ) → Allowed setting state
        → state.moving ≡ Some move → replaces setting move.patch ≡ true
        → is_empty (installed_before move.patch state.world.installed) ≡ false
        → entries_of setting (with_world state (without_older true state.world move.patch)) site
        ≡ filter (λ (e : Entry). e.patch == move.patch && is_some e.func) (entries_of setting state site) }
{}

/// At most two of the installed patches are cumulative: the oldest patch, and the patch in transition. When the
/// transition of a cumulative patch completes, all older patches are removed from the list.
pub fn at_most_two_patches_replace()
    ensures { (setting : Setting) (state : State) → Allowed setting state
        → count_by (replaces setting) (installed_patches state) ≤ 2 }
{}

/// In every state that a manager reaches, an installed patch has a value for exactly the system states that the catalog
/// says it names. So a value is missing only if the patch isn't installed or doesn't name the state.
pub fn installed_patches_have_their_states()
    ensures opening { (setting : Setting) → IsStated setting (opening_state setting) }
    ensures step { (setting : Setting) (state : State) (event : AnyEvent) → IsStated setting state
        → IsStated setting (next setting state event) }
    ensures look { (setting : Setting) (state : State) (patch id : ℕ) → IsStated setting state
        → is_some (state_value state.world patch id) ≡ (is_installed state patch && list_any (λ own. own == id)
        (state_ids setting patch)) }
{}

/// A site has an entry exactly when its object is loaded and an installed patch has a function for the site. A nop is
/// never the only entry of a site, because a cumulative patch puts a nop only on top of an older entry.
pub fn entry_where_patched()
    ensures { (setting : Setting) (state : State) (site : ℕ)
        → is_hooked setting state site
        ≡ (is_site_loaded setting state site && list_any (patches_site setting site) (installed_patches state)) }
{}

/// A function of a loaded object reads as it was built, except for its entry site, whatever events happened before.
pub fn reads_as_built()
    ensures { (setting : Setting) (state : State) (object : ℕ) (number : ℕ)
        → is_loaded state object ≡ true
        → symbol_in (text_of setting state object) number
        ≡ option_map
        (patched setting.image.handler (is_hooked setting state (first_site setting.image.objects object + number)))
        (given_symbol setting.image object number) }
{}

/// A function without an entry reads as it was built, but with the NOP at its entry site. So it runs as if there were
/// no patches.
pub fn reads_nop_without_entry()
    ensures { (setting : Setting) (state : State) (object : ℕ) (number : ℕ)
        → is_loaded state object ≡ true
        → is_hooked setting state (first_site setting.image.objects object + number) ≡ false
        → symbol_in (text_of setting state object) number
        ≡ option_map resting (given_symbol setting.image object number) }
{}

/// The text depends only on which objects are loaded and for which sites installed patches have functions. The text
/// doesn't depend on the order of patches, the transition, pins or tasks. So a patch that isn't installed any more
/// changes no byte of the text.
pub fn same_functions_same_text()
    ensures { (setting : Setting) (a : State) (b : State) (object : ℕ)
        → a.loaded ≡ b.loaded
        → ((site : ℕ) → list_any (patches_site setting site) (installed_patches a) ≡ list_any
        (patches_site setting site) (installed_patches b))
        → text_of setting a object ≡ text_of setting b object }
{}

/// A run over two lists, one after the other, can be cut between the lists. Its first part is the run over the first
/// list. Its second part is the run over the second list from the state in which the first part ends. So runs may be
/// cut anywhere.
pub fn runs_go_on_where_they_end()
    ensures state { (setting : Setting) (state : State) (first second : List AnyEvent)
        → run setting state (first ++ second) ≡ run setting (run setting state first) second }
    ensures answered { (setting : Setting) (state : State) (first second : List AnyEvent)
        → answers setting state (first ++ second) ≡ answers setting state first ++ answers setting
        (run setting state first) second }
{}

/// The effect of a shadow event depends on whether its variable exists. If the variable exists, `ShadowAlloc` is
/// refused, and `ShadowGetOrAlloc` returns its value. If the variable doesn't exist, both events need room to add it,
/// and `ShadowFree` removes nothing.
pub fn shadow_events_go_by_what_is_there()
    ensures exists { (setting : Setting) (state : State) (key : ShadowKey) (value old : ShadowValue)
        → variable state.world key ≡ Some old → refusal setting state (ShadowAlloc key value) ≡ Some Exists }
    ensures room { (setting : Setting) (state : State) (key : ShadowKey) (value : ShadowValue)
        → variable state.world key ≡ None
        → refusal setting state (ShadowAlloc key value)
        ≡ (if nat_le 512 (finite.len state.world.shadow) then Some Full else None) }
    ensures added { (setting : Setting) (state : State) (key : ShadowKey) (value : ShadowValue)
        → variable (accepted setting state (ShadowAlloc key value)).1.world key ≡ Some value }
    ensures found { (setting : Setting) (state : State) (key : ShadowKey) (value old : ShadowValue)
        → variable state.world key ≡ Some old
        → step setting state (ShadowGetOrAlloc key value) ≡ Ok (Value old, state) }
    ensures room_to_add { (setting : Setting) (state : State) (key : ShadowKey) (value : ShadowValue)
        → variable state.world key ≡ None
        → refusal setting state (ShadowGetOrAlloc key value)
        ≡ (if nat_le 512 (finite.len state.world.shadow) then Some Full else None) }
    ensures got { (setting : Setting) (state : State) (key : ShadowKey) (value : ShadowValue)
        → variable state.world key ≡ None
        → accepted setting state (ShadowGetOrAlloc key value)
        ≡ (Value value, (accepted setting state (ShadowAlloc key value)).1) }
    ensures one { (setting : Setting) (state : State) (key : ShadowKey) (old : ShadowValue)
        → variable state.world key ≡ Some old → (accepted setting state (ShadowFree key)).0 ≡ Freed 1 }
    ensures none { (setting : Setting) (state : State) (key : ShadowKey)
        → variable state.world key ≡ None → (accepted setting state (ShadowFree key)).0 ≡ Freed 0 }
    ensures gone { (setting : Setting) (state : State) (key : ShadowKey)
        → variable (accepted setting state (ShadowFree key)).1.world key ≡ None }
    ensures all { (setting : Setting) (state : State) (id : ℕ) (key : ShadowKey)
        → variable (accepted setting state (ShadowFreeAll id)).1.world key
        ≡ (if id == key.id then None else variable state.world key) }
    ensures count { (setting : Setting) (state : State) (id : ℕ)
        → (accepted setting state (ShadowFreeAll id)).0
        ≡ Freed (finite.len state.world.shadow - finite.len
        (accepted setting state (ShadowFreeAll id)).1.world.shadow) }
    ensures others { (setting : Setting) (state : State) (own key : ShadowKey) (value : ShadowValue) → is_key own key
        ≡ false
        → (variable (accepted setting state (ShadowAlloc own value)).1.world key ≡ variable state.world key)
        × (variable (accepted setting state (ShadowGetOrAlloc own value)).1.world key ≡ variable state.world key)
        × (variable (accepted setting state (ShadowFree own)).1.world key ≡ variable state.world key) }
{}
