//! Laws that connect a body's outcomes with the history that its task knows in the end. A function of this module does
//! nothing: its contract is the law.
ghost use Rattle.std.specs.Prelude.{◌≡◌, ℕ, ◌<◌, ◌≤◌, List, length, take, slice_get, Some};
ghost use Rattle.klp_types.specs.declared.version.Version.{Version};
ghost use Rattle.klp_types.specs.Setting.{Setting};
ghost use Rattle.klp_model.specs.State.{State};
ghost use Rattle.klp_model.specs.Legal.{History};
ghost use Rattle.klp_live.specs.Seats.{IsLast};
ghost use Rattle.klp_live_bodies.specs.declared.step.Outcome.{Outcome};
ghost use Rattle.klp_live_bodies.specs.declared.step.Step.{Step};
ghost use Rattle.klp_live_bodies.specs.declared.step.What.TheVariants.{Receipt};
ghost use Rattle.klp_live_bodies.specs.Receipts.{AcceptedValue};
ghost use Rattle.klp_live_bodies.specs.Running.{AreDone};

/// From outcome to outcome, the number of known events never falls. It is at least the number known at the start, and
/// at most the number known in the end. The number of a receipt is greater than all numbers known before the receipt.
/// At that number the history has the receipt's event and reply.
pub fn outcomes_are_reported_in_order()
    ensures within { (setting : Setting) (base : State) (task : ℕ) (list : History) (before : ℕ) (frames : List Version)
        (steps : List Step) (outcomes : List Outcome) (place : ℕ) (outcome : Outcome)
        → AreDone setting base task list before frames steps outcomes → slice_get outcomes place ≡ Some outcome
        → (before ≤ outcome.known) × (outcome.known ≤ length list) }
    ensures order { (setting : Setting) (base : State) (task : ℕ) (list : History) (before : ℕ) (frames : List Version)
        (steps : List Step) (outcomes : List Outcome) (place behind : ℕ) (earlier later : Outcome)
        → AreDone setting base task list before frames steps outcomes → slice_get outcomes place ≡ Some earlier
        → slice_get outcomes behind ≡ Some later → place < behind → earlier.known ≤ later.known }
    ensures receipts { (setting : Setting) (base : State) (task : ℕ) (list : History) (before : ℕ)
        (frames : List Version)
        (steps : List Step) (outcomes : List Outcome) (place : ℕ) (outcome : Outcome) (accepted : AcceptedValue)
        → AreDone setting base task list before frames steps outcomes → slice_get outcomes place ≡ Some outcome
        → outcome.what ≡ Receipt accepted
        → (accepted.number ≡ outcome.known) × (before < accepted.number)
        × IsLast (take accepted.number list) accepted.event accepted.reply }
    ensures rising { (setting : Setting) (base : State) (task : ℕ) (list : History) (before : ℕ) (frames : List Version)
        (steps : List Step) (outcomes : List Outcome) (place behind : ℕ) (earlier later : Outcome) (accepted : AcceptedValue)
        → AreDone setting base task list before frames steps outcomes → slice_get outcomes place ≡ Some earlier
        → slice_get outcomes behind ≡ Some later → place < behind → later.what ≡ Receipt accepted
        → earlier.known < accepted.number }
{}
