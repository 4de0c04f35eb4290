//! What is proved of a patch that was enabled and isn't installed any more. A function of this module does nothing: its
//! contract is the law. The premises are in `specs/Company`. `round_trip_examples` shows what is lost if some of the
//! premises don't hold.
ghost use Rattle.std.specs.Prelude.{◌≡◌, ℕ, ◌<◌, false, List, [], ◌∷◌, ◌++◌, Some};
ghost use Rattle.std.specs.List.{find};
ghost use Rattle.klp_types.specs.declared.callback.Which.TheVariants.{Pre};
ghost use Rattle.klp_types.specs.declared.shadow.ShadowKey.{ShadowKey};
ghost use Rattle.klp_model.specs.declared.event.Event.{Event as AnyEvent};
ghost use Rattle.klp_types.specs.Setting.{Setting, PatchObject};
ghost use Rattle.klp_types.specs.World.{variable};
ghost use Rattle.klp_model.specs.State.{State, is_installed};
ghost use Rattle.klp_types.specs.Callbacks.{refuses};
ghost use Rattle.klp_model.specs.Callbacks.{loaded_objects};
ghost use Rattle.klp_model.specs.ShadowStep.{shadow_changes};
ghost use Rattle.klp_model.specs.Run.{run, accepted_events, callbacks_of_run};
ghost use Rattle.klp_model.specs.Footprint.{SameFootprint};
ghost use Rattle.klp_model.specs.Rounds.{enablings, kinds_for, repeated, RanInRounds, RanOneRound};
ghost use Rattle.klp_model.specs.Company.{taking_part, company_keys, IsFairCompany};

/// Whenever the patch isn't installed during a fair company, the footprint is that of the start. The law is about every
/// moment, since the patch may be enabled and disabled many times.
pub fn gone_without_a_trace()
    ensures { (setting : Setting) (patch : ℕ) (start : State) (first second : List AnyEvent)
        → IsFairCompany setting patch start (first ++ second)
        → is_installed (run setting start first) patch ≡ false
        → SameFootprint setting (company_keys setting start patch) (run setting start first) start }
{}

/// At every moment of a fair company, the shadow variables that the patch's callbacks don't touch are as at the start,
/// except for changes by shadow events. No callback of another patch runs, since no other patch is enabled or disabled.
pub fn only_shadow_events_outside()
    ensures { (setting : Setting) (patch : ℕ) (start : State) (first second : List AnyEvent)
        → IsFairCompany setting patch start (first ++ second)
        → (key : ShadowKey) → company_keys setting start patch key ≡ false
        → variable (run setting start first).world key ≡ variable (shadow_changes start.world first) key }
{}

/// Consider two moments of a fair company at which the patch isn't installed. Between them, the callbacks of each
/// object that takes part run in rounds, one round each time the patch is enabled. A round is pre-patch, then
/// post-patch and pre-unpatch any number of times, then post-unpatch. So a callback can rely on its partner having run.
pub fn callbacks_in_rounds()
    ensures { (setting : Setting) (patch : ℕ) (start : State) (first second third : List AnyEvent)
        → IsFairCompany setting patch start (first ++ second ++ third)
        → is_installed (run setting start first) patch ≡ false
        → is_installed (run setting start (first ++ second)) patch ≡ false
        → RanInRounds (taking_part setting start patch) (callbacks_of_run setting (run setting start first) second)
        (enablings second) }
{}

/// The most frequent case of `callbacks_in_rounds`, in which the patch is enabled only once. Consider two moments of a
/// fair company at which the patch isn't installed. Between them, the callbacks of each object that takes part run in
/// one round.
pub fn callbacks_of_one_round()
    ensures { (setting : Setting) (patch : ℕ) (start : State) (first second third : List AnyEvent)
        → IsFairCompany setting patch start (first ++ second ++ third)
        → is_installed (run setting start first) patch ≡ false
        → is_installed (run setting start (first ++ second)) patch ≡ false
        → enablings second ≡ 1
        → RanOneRound (taking_part setting start patch) (callbacks_of_run setting (run setting start first) second) }
{}

/// If an object refuses, each attempt to enable the patch runs only the pre-patch callback of that object, and no
/// callback of the objects after it. So a pre-patch callback that fails has to clean up after itself.
pub fn callbacks_of_the_object_that_refuses()
    ensures refusing { (setting : Setting) (patch : ℕ) (start : State) (first second third : List AnyEvent)
        → IsFairCompany setting patch start (first ++ second ++ third)
        → (object : ℕ × PatchObject) → find refuses (loaded_objects setting start patch) ≡ Some object
        → kinds_for object.0 (callbacks_of_run setting (run setting start first) second) ≡ repeated (enablings second)
        (Pre ∷ []) }
    ensures behind { (setting : Setting) (patch : ℕ) (start : State) (first second third : List AnyEvent)
        → IsFairCompany setting patch start (first ++ second ++ third)
        → (object : ℕ × PatchObject) → find refuses (loaded_objects setting start patch) ≡ Some object
        → (place : ℕ) → object.0 < place
        → kinds_for place (callbacks_of_run setting (run setting start first) second) ≡ [] }
{}

/// If the patch isn't installed at the end of a fair company, the footprint is that of the start. A function that makes
/// a list of events promises this law if all events are accepted.
pub fn gone_at_the_end()
    ensures { (setting : Setting) (patch : ℕ) (start : State) (events : List AnyEvent)
        → IsFairCompany setting patch start events
        → is_installed (run setting start events) patch ≡ false
        → SameFootprint setting (company_keys setting start patch) (run setting start events) start }
{}

/// If the accepted events of a run are a fair company of a patch, the run promises two things at its end. If the patch
/// isn't installed, the footprint is that of the start. The shadow variables that the patch's callbacks don't touch are
/// changed only by shadow events.
pub fn at_the_end_of_a_run()
    ensures footprint { (setting : Setting) (patch : ℕ) (start : State) (events : List AnyEvent)
        → IsFairCompany setting patch start (accepted_events setting start events)
        → is_installed (run setting start events) patch ≡ false
        → SameFootprint setting (company_keys setting start patch) (run setting start events) start }
    ensures outside { (setting : Setting) (patch : ℕ) (start : State) (events : List AnyEvent)
        → IsFairCompany setting patch start (accepted_events setting start events)
        → (key : ShadowKey) → company_keys setting start patch key ≡ false
        → variable (run setting start events).world key ≡ variable (shadow_changes start.world
        (accepted_events setting start events)) key }
{}

/// Whenever the patch isn't installed during a fair company, the world is as if the patch had never been installed: the
/// world of the start, changed by the shadow events. This law says more than a law of the footprint, since shadow
/// events may happen during the company.
pub fn as_if_it_had_never_been()
    ensures { (setting : Setting) (patch : ℕ) (start : State) (first second : List AnyEvent)
        → IsFairCompany setting patch start (first ++ second)
        → is_installed (run setting start first) patch ≡ false
        → (run setting start first).world ≡ shadow_changes start.world first }
{}
