//! The items of a run that say what happened between two samples, and what the later sample shows.
use klp_capture::PatchedState;
use klp_capture_catalog::{Files, Functions, SeenVersion};
use klp_model::{Event, Refusal, Reply, Seen};
use klp_types::{Frames, ObjId, PatchId, PatchState, ShadowValue, Site, TaskId, Version};
use klp_watch::{Observed, PatchFiles, Sight};
use std::alloc::{AllocError, Global};

/// Returns the number of a task in items. A number above those of all tasks stays one.
pub(crate) fn task_id(number: usize) -> TaskId {
    TaskId(u8::try_from(number).unwrap_or(u8::MAX))
}

/// Returns the number of a patch in items. A number above those of all patches stays one.
pub(crate) fn patch_id(patch: usize) -> PatchId {
    PatchId(u8::try_from(patch).unwrap_or(u8::MAX))
}

/// Returns the number of an object in items. A number above those of all objects stays one.
pub(crate) fn object_id(object: usize) -> ObjId {
    ObjId(u8::try_from(object).unwrap_or(u8::MAX))
}

/// The types that are parts of an item. The borrow checker covers a function that moves items only if the function
/// names all these types.
type Happening = (Seen, Event, Reply, Refusal, Frames, ShadowValue);

type Showing = (Sight, PatchFiles, PatchState, Version);

type Named = (ObjId, PatchId, Site, TaskId);

/// Adds an item to a list. The function is generic, since the borrow checker doesn't cover a function that has the type
/// [`Observed`] of the items.
fn add<T: Drop>(items: &mut Vec<T>, item: T) -> Result<(), AllocError> {
    items.push(item)?;
    Ok(())
}

/// Items of a run, in order.
#[derive(Drop)]
pub(crate) struct Items {
    pub(crate) list: Vec<Observed>,
    /// Whether the catalog has each function that a task called or slept in.
    pub(crate) are_known: bool,
}

impl Items {
    /// Makes an empty list.
    pub(crate) fn new(alloc: Global) -> Items {
        Items {
            list: Vec::new(alloc),
            are_known: true,
        }
    }

    /// Adds what happened. The kernel's answer to it isn't known.
    fn seen(&mut self, seen: Seen) -> Result<(), AllocError> {
        // For the borrow checker only: names the types that are parts of an item.
        let _parts: Option<(Happening, Showing, Named)> = None;
        add(&mut self.list, Observed::Seen(seen))
    }

    /// Adds what was seen.
    fn saw(&mut self, sight: Sight) -> Result<(), AllocError> {
        // For the borrow checker only: names the types that are parts of an item.
        let _parts: Option<(Happening, Showing, Named)> = None;
        add(&mut self.list, Observed::Saw(sight))
    }

    /// Adds an event. The kernel's answer to it isn't known.
    pub(crate) fn event(&mut self, event: Event) -> Result<(), AllocError> {
        self.seen(Seen::Event(event))
    }

    /// Adds what a task's `patch_state` read.
    pub(crate) fn saw_state(
        &mut self,
        task: TaskId,
        state: PatchedState,
    ) -> Result<(), AllocError> {
        let state = match state {
            PatchedState::Undefined => PatchState::UNDEFINED,
            PatchedState::Unpatched => PatchState::UNPATCHED,
            PatchedState::Patched => PatchState::PATCHED,
        };
        self.saw(Sight::State(task, Some(state)))
    }

    /// Adds what a patch's files read.
    pub(crate) fn saw_files(&mut self, patch: PatchId, files: Files) -> Result<(), AllocError> {
        let files = match files {
            Some((enabled, transition)) => Some(PatchFiles {
                enabled,
                transition,
            }),
            None => None,
        };
        self.saw(Sight::Files(patch, files))
    }

    /// Adds that a task calls these functions, one inside of the other, and which version of each runs. `functions` are
    /// those of the catalog.
    pub(crate) fn call_all(
        &mut self,
        functions: &Functions<'_>,
        task: TaskId,
        places: &[SeenVersion],
    ) -> Result<(), AllocError> {
        for place in places {
            let site = functions.site_of(*place);
            let version = functions.version_of(*place);
            match (site, version) {
                (Some(site), Some(version)) => {
                    self.seen(Seen::Call(task, site))?;
                    self.saw(Sight::Version(task, site, version))?;
                }
                _ => self.are_known = false,
            }
        }
        Ok(())
    }

    /// Adds that a task returns this many times.
    pub(crate) fn return_from(&mut self, task: TaskId, count: usize) -> Result<(), AllocError> {
        for _return in 0..count {
            self.seen(Seen::Return(task))?;
        }
        Ok(())
    }

    /// Adds that a task falls asleep inside of these functions, outermost first. `functions` are those of the catalog.
    pub(crate) fn sleep(
        &mut self,
        functions: &Functions<'_>,
        task: TaskId,
        places: &[SeenVersion],
    ) -> Result<(), AllocError> {
        let mut frames = Frames::new();
        for place in places {
            let is_known = match functions.version_of(*place) {
                Some(version) => frames.push(version),
                None => false,
            };
            self.are_known = self.are_known && is_known;
        }
        self.event(Event::Sleep(task, frames))
    }
}
