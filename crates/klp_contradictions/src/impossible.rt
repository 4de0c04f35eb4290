//! What the laws of the consistency model exclude: which patch states and functions of a task no honest run of the rules
//! shows at any moment (docs/CONSISTENCY.md).
ghost use Rattle.std.specs.Prelude.{◌≡◌, ℕ, Bool, List, true, false, Some, None};
ghost use Rattle.std.specs.List.{list_any};
ghost use Rattle.klp_types.specs.Setting.{Setting};
ghost use Rattle.klp_model.specs.declared.seen.Seen.{Seen};
ghost use Rattle.klp_model.specs.Observed.{Watched, seen_run};
ghost use Rattle.klp_capture.specs.declared.line.PatchedState.TheVariants.{Undefined, Unpatched, Patched};
ghost use Rattle.klp_contradictions.specs.Impossible.{NeverInNew, NeverInOriginal, NeverWhile, NeverAboveOlder, is_by};

use klp_capture::PatchedState;
use klp_capture_catalog::Files;

/// Whether no task in this patch state is ever inside of a new function of a patch whose files read so. The function of
/// a patch that isn't installed may be freed. In a transition, a task with patch state 0 doesn't run the patch.
pub fn is_never_in_new(files: Files, state: PatchedState) -> bool
    ensures never { result ≡ true → NeverInNew files state }
    ensures absent { files ≡ None → result ≡ true }
    ensures moving { (enabled : Bool) → files ≡ Some (enabled, true) → state ≡ Unpatched → result ≡ true }
{
    match files {
        None => true,
        Some((_, is_moving)) => match state {
            PatchedState::Unpatched => is_moving,
            PatchedState::Undefined | PatchedState::Patched => false,
        },
    }
}

/// Whether no task in this patch state is ever inside of an original that is replaced by a patch whose files read so. It
/// is assumed that no other patch gives the original back. Each task runs an enabled patch whose transition is complete.
/// In a transition, a task with patch state 1 runs the patch.
pub fn is_never_in_original(files: Files, state: PatchedState) -> bool
    ensures never { result ≡ true → NeverInOriginal files state }
    ensures settled { files ≡ Some (true, false) → result ≡ true }
    ensures moving { (enabled : Bool) → files ≡ Some (enabled, true) → state ≡ Patched → result ≡ true }
{
    match files {
        None => false,
        Some((is_enabled, is_moving)) => match state {
            PatchedState::Patched => is_enabled || is_moving,
            PatchedState::Undefined | PatchedState::Unpatched => is_enabled && !is_moving,
        },
    }
}

/// Whether no task is ever in this patch state while a patch is in transition, or while none is. The kernel gives each
/// task its state when a transition begins, and takes it away when the transition is complete.
pub fn is_never_while(is_under_way: bool, state: PatchedState) -> bool
    ensures never { result ≡ true → NeverWhile is_under_way state }
    ensures undefined { state ≡ Undefined → result ≡ is_under_way }
{
    match state {
        PatchedState::Undefined => is_under_way,
        PatchedState::Unpatched | PatchedState::Patched => !is_under_way,
    }
}

/// Whether no cumulative patch whose files read so ever lies above an older one. When its transition is complete, a
/// cumulative patch replaces all older ones, and later ones lie above it.
pub fn is_never_above_older(files: Files) -> bool
    ensures never { result ≡ true → NeverAboveOlder files }
    ensures settled { (enabled : Bool) → files ≡ Some (enabled, false) → result ≡ true }
{
    match files {
        None => false,
        Some((_, is_moving)) => !is_moving,
    }
}

/// A task that doesn't begin, call or return stays inside of the same functions, whatever else happens. So a task that
/// got no processor between two samples is where it was. This function does nothing: its contract is the law.
pub fn frames_stay_without_a_run()
    ensures { (setting : Setting) (w : Watched) (items : List Seen) (task : ℕ)
        → list_any (is_by task) items ≡ false
        → (seen_run setting w items).stacks task ≡ w.stacks task }
{}
