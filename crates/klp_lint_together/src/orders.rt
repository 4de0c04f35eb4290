//! Finds the orders in which all patches can be loaded.
ghost use Rattle.std.specs.Prelude.{◌≡◌, length};
ghost use Rattle.klp_core.specs.Journaled.{IsWellFormed, Journaled};
ghost use Rattle.klp_lint_together.specs.Kept.{IsAsBefore, IsFurther};

use crate::loading::{Outcomes, Tried, finish, start, take_back};
use crate::twice::twice_added;
use klp_core::Manager;
use klp_lint_findings::{Linted, Orders, PatchList};
use klp_types::PatchId;

/// At most this many loadings are tried. Trying all orders of six patches needs 1,956.
pub const MAX_LOADINGS: u32 = 2000;

/// At most this many steps are done. A step tries a patch, skips one that is loaded already, or drops the last one.
const MAX_STEPS: u32 = 40_000;

/// How many events load a patch: an `Enable`, and a poll that completes its transition.
const LOADING: u32 = 2;

/// Whether a patch is loaded by the rules alone, and its transition completes. The events are left.
fn stands_now(manager: &mut Manager, patch: PatchId) -> bool
    requires { IsWellFormed manager.old }
    ensures { IsFurther manager.old manager.new }
{
    let outcome = start(manager, patch);
    let _for_its_clause = manager.mark();
    let end = finish(manager);
    Tried { outcome, end }.stands()
}

/// Loads a patch by the rules alone. Returns whether its transition completes. If not, undoes the events.
fn load_ruled(manager: &mut Manager, patch: PatchId) -> bool
    requires { IsWellFormed manager.old }
    ensures { IsFurther manager.old manager.new }
{
    let mark = manager.mark();
    if stands_now(manager, patch) {
        return true;
    }
    let _for_its_clause = manager.mark();
    take_back(manager, mark);
    false
}

/// Loads a patch, unless marks say that it fails. Returns whether its transition completes. If not, no event is left.
fn load(linted: &Linted<'_>, manager: &mut Manager, patch: PatchId) -> bool
    ensures { IsFurther manager.old manager.new }
{
    if twice_added(linted, manager, &[], patch).is_some() {
        return false;
    }
    let _for_its_clause = manager.mark();
    load_ruled(manager, patch)
}

/// A search for orders.
#[derive(Drop)]
struct Search {
    /// How many events the manager had before the search.
    mark: u32,
    /// The beginning of an order. Its patches are loaded.
    order: PatchList,
    /// The place, among the patches to be ordered, of the patch that is tried next behind `order`.
    next: usize,
    loadings: u32,
    found: u64,
    first: PatchList,
}

impl Search {
    /// Undoes the loading of the last patch of `order`, and goes on with the patch behind it. Returns whether there was
    /// one: if not, the search has ended.
    fn drop_last(&mut self, manager: &mut Manager, free: &[PatchId]) -> bool
        ensures mark { self.new.mark ≡ self.old.mark }
        ensures further { (start : Journaled) → length start.groups ≡ self.old.mark
            → IsFurther start manager.old → IsFurther start manager.new }
    {
        let Some(last) = self.order.pop() else {
            return false;
        };
        let loaded = u32::try_from(self.order.as_slice().len()).unwrap_or(0);
        let mark = self.mark.saturating_add(loaded.saturating_mul(LOADING));
        let _for_its_clause = manager.mark();
        take_back(manager, mark);
        let place = free.iter().position(|it| *it == last).unwrap_or(0);
        self.next = place.saturating_add(1);
        true
    }

    /// Tries the next patch behind `order`, unless it is loaded already. If there is no next patch, or the order is
    /// complete with this one, drops the last patch. Returns whether the search goes on.
    fn step(&mut self, linted: &Linted<'_>, manager: &mut Manager, free: &[PatchId]) -> bool
        ensures mark { self.new.mark ≡ self.old.mark }
        ensures further { (start : Journaled) → length start.groups ≡ self.old.mark
            → IsFurther start manager.old → IsFurther start manager.new }
    {
        let Some(patch) = free.get(self.next) else {
            return self.drop_last(manager, free);
        };
        self.next = self.next.saturating_add(1);
        if self.order.contains(*patch) {
            return true;
        }
        self.loadings = self.loadings.saturating_add(1);
        if !load(linted, manager, *patch) {
            return true;
        }
        self.order.push(*patch);
        self.next = 0;
        if self.order.as_slice().len() < free.len() {
            return true;
        }
        self.count_order();
        self.drop_last(manager, free)
    }

    /// Counts an order that is complete. The first one is kept.
    fn count_order(&mut self)
        ensures { self.new.mark ≡ self.old.mark }
    {
        if self.found == 0 {
            self.first = PatchList::of(self.order.as_slice());
        }
        self.found = self.found.saturating_add(1);
    }
}

/// Does steps until the search ends. Returns whether the search was cut off because of too many loadings or steps.
fn search_all(
    search: &mut Search,
    linted: &Linted<'_>,
    manager: &mut Manager,
    free: &[PatchId],
) -> bool
    ensures { (start : Journaled) → length start.groups ≡ search.old.mark
        → IsFurther start manager.old → IsFurther start manager.new }
{
    'steps: for _ in 0..MAX_STEPS {
        if search.loadings == MAX_LOADINGS {
            return true;
        }
        if !search.step(linted, manager, free) {
            return false;
        }
    }
    true
}

/// Those of the patches that aren't installed whose transition completes if they are loaded alone.
fn standing_alone(outcomes: &Outcomes) -> PatchList {
    let mut standing = PatchList::new();
    for patch in outcomes.free.as_slice() {
        if outcomes.stands(None, *patch) {
            standing.push(*patch);
        }
    }
    standing
}

/// Counts the orders in which certain patches can be loaded, so that each transition completes. The patches are those
/// that aren't installed, and whose transition completes if they are loaded alone. `None` if there are fewer than two
/// such patches.
pub(crate) fn count_orders(
    linted: &Linted<'_>,
    manager: &mut Manager,
    outcomes: &Outcomes,
) -> Option<Orders>
    ensures { IsAsBefore manager.old manager.new }
{
    let standing = standing_alone(outcomes);
    let free = standing.as_slice();
    if free.len() < 2 {
        return None;
    }
    let mark = manager.mark();
    let mut search = Search {
        mark,
        order: PatchList::new(),
        next: 0,
        loadings: 0,
        found: 0,
        first: PatchList::new(),
    };
    let is_cut_off = search_all(&mut search, linted, manager, free);
    let _for_its_clause = manager.mark();
    take_back(manager, mark);
    Some(Orders {
        standing: free.len(),
        found: search.found,
        first: search.first,
        is_cut_off,
    })
}
