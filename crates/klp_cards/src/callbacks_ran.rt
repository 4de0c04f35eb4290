//! Which callbacks ran in an event, and in which order.

use klp_core::Manager;
use klp_markup::Value::{Markup, Name};
use klp_markup::{Sheet, object_name, patch_name};
use klp_types::{MAX_PATCHES, ObjId, PatchId, Which};
use std::alloc::{AllocError, Global};

/// The kinds of callbacks, in the order in which a patch runs those of one object.
const KINDS: [Which; 4] = [Which::Pre, Which::Post, Which::PreUn, Which::PostUn];

/// How many values [`turn_of`] can return: for callbacks of applied patches one for each installed patch and one for a
/// new patch, and as many for callbacks of removed patches.
const TURNS: usize = 2 * (MAX_PATCHES + 1);

/// A callback of the catalog, and how often it had run when the counts were read last.
#[derive(Clone, Copy)]
struct Call {
    patch: PatchId,
    object: ObjId,
    which: Which,
    runs: u64,
}

/// A callback that ran in an event, and its turn among the callbacks that ran in the event. Callbacks with the same
/// turn ran in the order in which the catalog lists them.
#[derive(Clone, Copy)]
struct Ran {
    call: Call,
    turn: usize,
}

/// All callbacks of a catalog, ordered by patch, by object and by kind. Also has the callbacks that ran in the last
/// event.
#[derive(Drop)]
pub(crate) struct Calls {
    calls: Vec<Call>,
    ran: Vec<Ran>,
}

/// Whether callbacks of this kind run when an object is patched: before it or after it. The other two kinds run when an
/// object is unpatched.
fn runs_when_patched(which: Which) -> bool {
    matches!(which, Which::Pre | Which::Post)
}

/// Returns the number by which the callbacks of one event are ordered: first pre-patch and post-patch callbacks, then
/// pre-unpatch and post-unpatch callbacks, and in each of the two groups those of an older patch first. `installed` are
/// the patches that were installed before the event, oldest first.
fn turn_of(call: &Call, installed: &[PatchId]) -> usize {
    let place = installed.iter().position(|patch| *patch == call.patch);
    // A patch that wasn't installed is new, so it is newer than all others.
    let place = place.unwrap_or(MAX_PATCHES).min(MAX_PATCHES);
    if runs_when_patched(call.which) {
        place
    } else {
        MAX_PATCHES + 1 + place
    }
}

/// Returns the kernel's name for callbacks of this kind.
fn kind_text(which: Which) -> &'static str {
    match which {
        Which::Pre => "pre-patch",
        Which::Post => "post-patch",
        Which::PreUn => "pre-unpatch",
        Which::PostUn => "post-unpatch",
    }
}

/// Adds a list item for a callback: its kind, its patch and its object.
fn add_call(sheet: &mut Sheet, manager: &Manager, call: &Call) {
    sheet.fill(
        "<li>{} of '{}' for {}",
        &[
            Markup(kind_text(call.which)),
            Name(patch_name(manager.catalog(), call.patch)),
            Name(object_name(manager.modules(), call.object)),
        ],
    );
}

impl Calls {
    /// Returns a list without callbacks. Allocates nothing.
    pub(crate) fn new(alloc: Global) -> Calls {
        Calls {
            calls: Vec::new(alloc),
            ran: Vec::new(alloc),
        }
    }

    /// Adds the callbacks that a patch has for one object, with their present counts of runs. `Err` if memory runs out.
    fn open_object(
        &mut self,
        manager: &Manager,
        patch: PatchId,
        object: ObjId,
    ) -> Result<(), AllocError> {
        for which in KINDS {
            if let Some(runs) = manager.callback_runs(patch, object, which) {
                self.calls.push(Call {
                    patch,
                    object,
                    which,
                    runs,
                })?;
            }
        }
        Ok(())
    }

    /// Adds all callbacks of the manager's catalog, with their present counts of runs. `Err` if memory runs out.
    pub(crate) fn open(&mut self, manager: &Manager) -> Result<(), AllocError> {
        let catalog = manager.catalog();
        for number in 0..catalog.patches() {
            let patch = PatchId(number);
            for place in 0..catalog.target_len(patch) {
                if let Some(object) = catalog.target(patch, place) {
                    self.open_object(manager, patch, object)?;
                }
            }
        }
        Ok(())
    }

    /// Whether the catalog has no callback.
    pub(crate) fn is_empty(&self) -> bool {
        self.calls.is_empty()
    }

    /// Finds the callbacks that ran in an event: their counts of runs have changed since they were read last. Returns
    /// whether any callback ran. `installed` are the patches that were installed before the event, oldest first. `Err`
    /// if memory runs out.
    pub(crate) fn find_ran(
        &mut self,
        manager: &Manager,
        installed: &[PatchId],
    ) -> Result<bool, AllocError> {
        self.ran.clear();
        for call in &mut self.calls {
            let runs = manager.callback_runs(call.patch, call.object, call.which);
            let runs = runs.unwrap_or(call.runs);
            if runs != call.runs {
                call.runs = runs;
                let turn = turn_of(call, installed);
                self.ran.push(Ran { call: *call, turn })?;
            }
        }
        Ok(!self.ran.is_empty())
    }

    /// Adds a list item for each callback that ran in the event, in the order in which they ran.
    pub(crate) fn add_ran(&self, sheet: &mut Sheet, manager: &Manager) {
        for turn in 0..TURNS {
            for ran in &self.ran {
                if ran.turn == turn {
                    add_call(sheet, manager, &ran.call);
                }
            }
        }
    }
}
