//! The card of the callbacks that ran in an event.

use crate::callbacks_ran::Calls;
use crate::watched::Watched;
use klp_catalog_text::Plan;
use klp_console::LineOutcome;
use klp_core::Manager;
use klp_markup::Sheet;
use klp_types::PatchId;
use std::alloc::{AllocError, Global};

/// The callbacks of a catalog, and what they can change.
#[derive(Drop)]
pub(crate) struct Callbacks {
    calls: Calls,
    watched: Watched,
}

impl Callbacks {
    /// Returns the state before a manager is booted: no callback is known, and nothing is watched. Allocates nothing.
    pub(crate) fn new(alloc: Global) -> Callbacks {
        Callbacks {
            calls: Calls::new(alloc),
            watched: Watched::new(alloc),
        }
    }

    /// Begins to watch the shadow variables that the scripts of a plan change. `Err` if memory runs out.
    pub(crate) fn watch(&mut self, plan: &Plan) -> Result<(), AllocError> {
        self.watched.add_scripts(plan)
    }

    /// Adds the callbacks of the manager's catalog, and begins to watch its system states. `Err` if memory runs out.
    pub(crate) fn open(&mut self, manager: &Manager) -> Result<(), AllocError> {
        self.calls.open(manager)?;
        self.watched.open(manager)
    }

    /// Reads the watched shadow variables that an event changed by itself, without a callback. If they weren't read
    /// now, a later event would seem to have changed them. Does nothing if the catalog has no callback, or if the line
    /// did no event. `Err` if memory runs out.
    pub(crate) fn read_own(
        &mut self,
        manager: &Manager,
        outcome: &LineOutcome,
    ) -> Result<(), AllocError> {
        match outcome {
            LineOutcome::Answered(event, Ok(_)) if !self.calls.is_empty() => {
                self.watched.read_own(manager, event)
            }
            _ => Ok(()),
        }
    }

    /// If callbacks ran in an event, adds a card with the callbacks and with what they changed, and returns true.
    /// Otherwise adds nothing and returns false. `installed` are the patches that were installed before the event,
    /// oldest first. `Err` if memory runs out.
    pub(crate) fn describe(
        &mut self,
        sheet: &mut Sheet,
        manager: &Manager,
        installed: &[PatchId],
    ) -> Result<bool, AllocError> {
        if self.calls.is_empty() {
            return Ok(false);
        }
        // The values are read even if no callback ran, since a rewind changes them too.
        self.watched.read_all(manager);
        if !self.calls.find_ran(manager, installed)? {
            return Ok(false);
        }
        sheet.markup("<div class=card><b>callbacks</b>, in their order:<ol>");
        self.calls.add_ran(sheet, manager);
        sheet.markup("</ol>They changed:<ul>");
        if !self.watched.add_changes(sheet, manager) {
            sheet.markup("<li>no shadow variable and no state");
        }
        sheet.markup("</ul></div>");
        Ok(true)
    }
}
