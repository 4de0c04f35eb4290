//! Loads patches one after another, and takes the loading back. Afterwards the manager's state is as before, except for
//! the counts of its callbacks.
ghost use Rattle.std.specs.Prelude.{◌≡◌, ◌≤◌, true, length, IfOk};
ghost use Rattle.klp_core.specs.Journaled.{IsWellFormed, Journaled};
ghost use Rattle.klp_core.specs.Taking.{answer_in};
ghost use Rattle.klp_manager_state.specs.Managed.{setting_of};
ghost use Rattle.klp_model.specs.declared.event.Event.TheVariants as AnyEvent;
ghost use Rattle.klp_lint_together.specs.declared.loading.LoadOutcome.TheVariants as AnyOutcome;
ghost use Rattle.klp_lint_findings.specs.Standing.{standing, answer_at, LeadsTo};
ghost use Rattle.klp_lint_together.specs.Kept.{IsAsBefore, IsFurther};
ghost use Rattle.klp_lint_together.specs.Starting.{outcome_of, Tells, CanStart};

use crate::twice::{TwiceAdded, twice_added};
use klp_core::Manager;
use klp_lint::reply_behind;
use klp_lint_findings::{Linted, PatchList, patch_id};
use klp_model::{Event, Refusal, Reply};
use klp_types::{MAX_PATCHES, ObjId, PatchId, ShadowKey};
use std::alloc::{AllocError, Global};

/// The most events with which patches are loaded: an `Enable` and a poll for each patch.
const MAX_LOADING: usize = 2 * MAX_PATCHES;

/// Events that load patches.
#[derive(Drop)]
pub(crate) struct Loading {
    events: [Event; MAX_LOADING],
    len: usize,
}

impl Loading {
    /// Adds an event. Does nothing if there are [`MAX_LOADING`] events already.
    pub(crate) fn push(&mut self, event: Event) {
        if let Some(place) = self.events.get_mut(self.len) {
            *place = event;
            self.len = self.len.saturating_add(1);
        }
    }

    /// The events, in their order.
    pub(crate) fn events(&self) -> &[Event] {
        self.events.get(..self.len).unwrap_or(&[])
    }
}

/// The outcome of loading a patch: its transition starts, or why it doesn't start.
#[derive(Clone, Copy, PartialEq, Eq)]
pub(crate) enum LoadOutcome {
    Started,
    Failed { object: ObjId, status: i32 },
    /// Pre-patch for this object adds a variable that is there already, by a call that fails then.
    Exists { object: ObjId, key: ShadowKey },
    Incompatible,
    NoSymbol,
    Full,
    Pinned,
    Refused,
}

/// How the transition of a loaded patch ends, or why it doesn't end.
#[derive(Clone, Copy, PartialEq, Eq)]
pub(crate) enum End {
    Completed,
    Pending(u8),
    Other,
}

/// The outcome of loading a patch, and how its transition ends.
#[derive(Clone, Copy)]
pub(crate) struct Tried {
    pub(crate) outcome: LoadOutcome,
    pub(crate) end: End,
}

/// The types that are parts of a try. The borrow checker covers a function that owns a list of tries only if the function
/// names all these types.
type Parts = (LoadOutcome, End, ObjId, ShadowKey);

impl LoadOutcome {
    /// Whether the transition started.
    pub(crate) fn is_started(self) -> bool
        ensures started { result ≡ true → self ≡ AnyOutcome.Started }
        ensures others { self ≡ AnyOutcome.Started → result ≡ true }
    {
        matches!(self, LoadOutcome::Started)
    }
}

impl Tried {
    /// Whether the patch is loaded, and its transition completes.
    pub(crate) fn stands(&self) -> bool {
        self.outcome == LoadOutcome::Started && self.end == End::Completed
    }
}

/// What a manager would answer to `event` after `events`. All of them are taken back.
fn reply_to(manager: &mut Manager, events: &[Event], event: &Event) -> Result<Reply, Refusal>
    requires { IsWellFormed manager.old }
    ensures { IsAsBefore manager.old manager.new }
{
    reply_behind(manager, events, event)
}

/// The events that load these patches one after another: an `Enable` and a poll for each.
pub(crate) fn events_for(below: &[PatchId]) -> Loading {
    let mut loading = Loading {
        events: [Event::Poll; MAX_LOADING],
        len: 0,
    };
    for patch in below {
        loading.push(Event::Enable(*patch));
        loading.push(Event::Poll);
    }
    loading
}

/// The outcome for this answer to an `Enable`.
fn outcome_of(answer: &Result<Reply, Refusal>) -> LoadOutcome
    ensures { result ≡ outcome_of answer.now }
{
    match answer {
        Ok(Reply::Started) => LoadOutcome::Started,
        Ok(Reply::PreFailed(_, object, status)) => LoadOutcome::Failed {
            object: *object,
            status: *status,
        },
        Ok(_) => LoadOutcome::Refused,
        Err(Refusal::Incompatible) => LoadOutcome::Incompatible,
        Err(Refusal::NoSymbol) => LoadOutcome::NoSymbol,
        Err(Refusal::Full) => LoadOutcome::Full,
        Err(Refusal::Pinned) => LoadOutcome::Pinned,
        Err(_) => LoadOutcome::Refused,
    }
}

/// How a transition ends, for this answer to a `Poll`.
fn end_for(answer: &Result<Reply, Refusal>) -> End {
    match answer {
        Ok(Reply::Completed(_)) => End::Completed,
        Ok(Reply::Pending(count)) => End::Pending(*count),
        _ => End::Other,
    }
}

/// How the transition ends with a poll after these events.
pub(crate) fn end_of(manager: &mut Manager, events: &[Event]) -> End
    ensures { IsAsBefore manager.old manager.new }
{
    let _for_its_clause = manager.mark();
    end_for(&reply_to(manager, events, &Event::Poll))
}

/// Does the events in order. Some may be refused, as the `Enable` of a patch that can't be loaded. Who calls this looks at
/// the manager afterwards, so the answers are left out. What was done can be taken back.
pub(crate) fn run(manager: &mut Manager, events: &[Event])
    requires { IsWellFormed manager.old }
    ensures leads { LeadsTo (standing manager.old) events.now manager.new }
    ensures further { IsFurther manager.old manager.new }
{
    let _ = manager.run(events);
}

/// Undoes all events after the first `mark`. If the manager went on from where it had `mark` events, it is as it was
/// then. If it had fewer events, it still goes on from there.
pub(crate) fn take_back(manager: &mut Manager, mark: u32)
    requires { IsWellFormed manager.old }
    ensures back { (start : Journaled) → IsWellFormed start → mark ≡ length start.groups
        → IsFurther start manager.old → IsAsBefore start manager.new }
    ensures further { (start : Journaled) → length start.groups ≤ mark
        → IsFurther start manager.old → IsFurther start manager.new }
{
    let _ = manager.rewind(mark);
}

/// Starts the transition of a patch, if the rules let it.
pub(crate) fn start(manager: &mut Manager, patch: PatchId) -> LoadOutcome
    requires { IsWellFormed manager.old }
    ensures outcome { result ≡ outcome_of (answer_in (setting_of manager.old.managed) manager.old.managed.state
        manager.old.groups (AnyEvent.Enable patch)) }
    ensures further { IsFurther manager.old manager.new }
{
    outcome_of(&manager.apply(Event::Enable(patch)))
}

/// Polls once, which completes a transition that waits for no task.
pub(crate) fn finish(manager: &mut Manager) -> End
    requires { IsWellFormed manager.old }
    ensures { IsFurther manager.old manager.new }
{
    end_for(&manager.apply(Event::Poll))
}

/// The outcome of loading a patch now by the rules alone, and how its transition ends.
fn try_ruled(manager: &mut Manager, patch: PatchId) -> Tried
    ensures tells { Tells (answer_at (standing manager.old) (AnyEvent.Enable patch)) result.outcome }
    ensures starts { result.outcome ≡ AnyOutcome.Started
        → CanStart (setting_of manager.old.managed) manager.old.managed.state patch }
    ensures kept { IsAsBefore manager.old manager.new }
{
    let mark = manager.mark();
    let outcome = start(manager, patch);
    let _for_its_clause = manager.mark();
    let end = finish(manager);
    let _for_its_clause = manager.mark();
    take_back(manager, mark);
    Tried { outcome, end }
}

/// The outcome of loading a patch now, by the rules and by marks, and how its transition ends.
pub(crate) fn try_now(linted: &Linted<'_>, manager: &mut Manager, patch: PatchId) -> Tried
    ensures tells { Tells (answer_at (standing manager.old) (AnyEvent.Enable patch)) result.outcome }
    ensures starts { result.outcome ≡ AnyOutcome.Started
        → CanStart (setting_of manager.old.managed) manager.old.managed.state patch }
    ensures kept { IsAsBefore manager.old manager.new }
{
    let tried = try_ruled(manager, patch);
    if tried.outcome != LoadOutcome::Started {
        return tried;
    }
    match twice_added(linted, manager, &[], patch) {
        Some(TwiceAdded { object, key }) => Tried {
            outcome: LoadOutcome::Exists { object, key },
            end: End::Other,
        },
        None => tried,
    }
}

/// The outcomes of loading each of these patches over the patches in `below`, in their order.
pub(crate) fn try_each(
    alloc: Global,
    linted: &Linted<'_>,
    manager: &mut Manager,
    below: &[PatchId],
    patches: &PatchList,
) -> Result<Vec<Tried>, AllocError>
    ensures { IfOk result (λ all. IsAsBefore manager.old manager.new) }
{
    // For the borrow checker only: names the types that are parts of a try.
    let _parts: Option<Parts> = None;
    let mut all = Vec::new(alloc);
    let mark = manager.mark();
    run(manager, events_for(below).events());
    for patch in patches.as_slice() {
        let tried = try_now(linted, manager, *patch);
        all.push(tried)?;
    }
    let _for_its_clause = manager.mark();
    take_back(manager, mark);
    Ok(all)
}

/// The outcomes of loading each patch that isn't installed, alone and over each other such patch that stands alone.
#[derive(Drop)]
pub(crate) struct Outcomes {
    /// The patches that aren't installed.
    pub(crate) free: PatchList,
    /// How many patches the catalog has.
    count: usize,
    /// A row of `count` outcomes for each patch below. The first row is for none below.
    rows: Vec<Option<Tried>>,
}

impl Outcomes {
    /// No outcomes yet, of `count` patches of which these aren't installed.
    fn new(alloc: Global, free: PatchList, count: usize) -> Result<Outcomes, AllocError> {
        // For the borrow checker only: names the types that are parts of a try.
        let _parts: Option<Parts> = None;
        let mut rows = Vec::new(alloc);
        for _ in 0..count.saturating_add(1).saturating_mul(count) {
            rows.push(None)?;
        }
        Ok(Outcomes { free, count, rows })
    }

    /// The place of the outcome of loading a patch over `below`, or alone.
    fn place(&self, below: Option<PatchId>, patch: PatchId) -> usize {
        let row = match below {
            Some(below) => usize::from(below.0).saturating_add(1),
            None => 0,
        };
        let start = row.saturating_mul(self.count);
        start.saturating_add(usize::from(patch.0))
    }

    /// The outcome of loading a patch over `below`, or alone. `None` if that wasn't tried.
    pub(crate) fn over(&self, below: Option<PatchId>, patch: PatchId) -> Option<Tried> {
        let place = self.place(below, patch);
        self.rows.get(place).copied().unwrap_or(None)
    }

    /// Keeps the outcome of loading a patch over `below`, or alone.
    fn set(&mut self, below: Option<PatchId>, patch: PatchId, tried: Tried) {
        let place = self.place(below, patch);
        if let Some(kept) = self.rows.get_mut(place) {
            *kept = Some(tried);
        }
    }

    /// Whether the patch is loaded over `below`, or alone, and its transition completes.
    pub(crate) fn stands(&self, below: Option<PatchId>, patch: PatchId) -> bool {
        match self.over(below, patch) {
            Some(tried) => tried.stands(),
            None => false,
        }
    }
}

/// Those of the first `count` patches that aren't installed.
pub fn not_installed(manager: &Manager, count: usize) -> PatchList {
    let mut free = PatchList::new();
    for number in 0..count {
        let patch = patch_id(number);
        if manager.enabled(patch).is_none() {
            free.push(patch);
        }
    }
    free
}

/// Those patches that aren't in `below`.
pub(crate) fn all_but(patches: &PatchList, below: &[PatchId]) -> PatchList {
    let mut others = PatchList::new();
    for patch in patches.as_slice() {
        if !below.contains(patch) {
            others.push(*patch);
        }
    }
    others
}

/// Puts the outcomes of loading each patch over `below`, or alone, into its row.
fn fill_row(
    alloc: Global,
    linted: &Linted<'_>,
    manager: &mut Manager,
    outcomes: &mut Outcomes,
    below: &[PatchId],
) -> Result<(), AllocError>
    ensures { IfOk result (λ done. IsAsBefore manager.old manager.new) }
{
    let others = all_but(&outcomes.free, below);
    let row = try_each(alloc, linted, manager, below, &others)?;
    for (patch, tried) in others.as_slice().iter().zip(row.as_slice().iter()) {
        outcomes.set(below.first().copied(), *patch, *tried);
    }
    Ok(())
}

/// Loads each patch that isn't installed, alone and over each other one that stands alone.
pub(crate) fn try_all(
    alloc: Global,
    linted: &Linted<'_>,
    manager: &mut Manager,
) -> Result<Outcomes, AllocError>
    ensures { IfOk result (λ outcomes. IsAsBefore manager.old manager.new) }
{
    let count = linted.patches.len();
    let mut outcomes = Outcomes::new(alloc, not_installed(manager, count), count)?;
    fill_row(alloc, linted, manager, &mut outcomes, &[])?;
    for number in 0..count {
        let below = patch_id(number);
        if outcomes.stands(None, below) {
            fill_row(alloc, linted, manager, &mut outcomes, &[below])?;
        }
    }
    Ok(outcomes)
}
