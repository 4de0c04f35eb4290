//! The tasks, the patch and the sites that most tests use.
use klp_types::{PatchId, Site, TaskId};

pub(crate) const FIRST: TaskId = TaskId(1);

pub(crate) const SECOND: TaskId = TaskId(2);

/// A task that doesn't exist when a start begins.
pub(crate) const LATER: TaskId = TaskId(5);

/// The first patch of each catalog.
pub(crate) const PATCH: PatchId = PatchId(0);

/// The kernel's function that this patch replaces.
pub(crate) const PATCHED: Site = Site(0);

/// A site that only the large image has.
pub(crate) const NOWHERE: Site = Site(9);
