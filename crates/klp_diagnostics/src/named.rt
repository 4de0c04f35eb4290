//! Versions and sights of a manager, with the names of what they are of. They outlive the manager.

use klp_core::Manager;
use klp_types::{ObjId, PatchId, PatchState, Site, TaskId, Version};
use klp_watch::{PatchFiles, Sight};
use std::alloc::{AllocError, Global};
use std::fmt;

/// A version, with the names that spell it.
#[derive(Drop)]
pub enum NamedVersion {
    /// The original of a symbol, which has this position among the symbols of its name.
    Original {
        object: String,
        symbol: String,
        position: u32,
    },
    /// A new function of a patch. `name` is the function's own name, if the patch has such a function.
    New {
        patch: String,
        function: u16,
        name: Option<String>,
    },
}

/// A fact that a kernel showed, with the names of what it is about.
#[derive(Drop)]
pub enum NamedSight {
    /// The state of a task. `None` if there is no such task.
    State {
        task: TaskId,
        state: Option<PatchState>,
    },
    /// The values that the files of a patch read. `None` if the patch isn't installed.
    Files {
        patch: String,
        files: Option<PatchFiles>,
    },
    /// The version that a task ran.
    Version {
        task: TaskId,
        version: NamedVersion,
    },
    /// The text of a site.
    Text,
}

/// Returns a copy of the name of a patch, which outlives the manager. Returns `Err` if memory runs out.
pub(crate) fn patch_name(
    alloc: Global,
    manager: &Manager,
    patch: PatchId,
) -> Result<String, AllocError> {
    // The catalog has the names of all its patches, so no other words are written for a patch of the manager.
    let name = manager.catalog().patch_name(patch).unwrap_or("a patch");
    String::from_str(alloc, name)
}

/// Returns the original of a site, with copies of its names. If there is no such site, the names are empty. Returns
/// `Err` if memory runs out.
fn original(alloc: Global, manager: &Manager, site: Site) -> Result<NamedVersion, AllocError> {
    let modules = manager.modules();
    let Some((object, symbol, position)) = modules.symbol(site) else {
        return Ok(NamedVersion::Original {
            object: String::new(alloc),
            symbol: String::new(alloc),
            position: 0,
        });
    };
    Ok(NamedVersion::Original {
        object: String::from_str(alloc, modules.object_name(object).unwrap_or(""))?,
        symbol: String::from_str(alloc, symbol)?,
        position,
    })
}

/// Returns a new function of a patch, with copies of the patch's name and of its own name, if the patch has such a
/// function. Returns `Err` if memory runs out.
fn new_function(
    alloc: Global,
    manager: &Manager,
    patch: PatchId,
    function: u16,
) -> Result<NamedVersion, AllocError> {
    let name = match manager.catalog().function(patch, function) {
        Some((_, name, _)) => Some(String::from_str(alloc, name)?),
        None => None,
    };
    Ok(NamedVersion::New {
        patch: patch_name(alloc, manager, patch)?,
        function,
        name,
    })
}

impl NamedVersion {
    /// Returns a version of a manager, with copies of its names. Returns `Err` if memory runs out.
    pub(crate) fn of(
        alloc: Global,
        manager: &Manager,
        version: Version,
    ) -> Result<NamedVersion, AllocError> {
        match version {
            Version::Original(site) => original(alloc, manager, site),
            Version::New(patch, function) => new_function(alloc, manager, patch, function),
        }
    }

    /// Returns the version in a form that prints it as a line of a trace spells it: a symbol, or `PATCH:INDEX`.
    pub fn spelled(&self) -> SpelledVersion<'_> {
        SpelledVersion(self)
    }
}

/// A version, printed as a line of a trace names it.
#[derive(Clone, Copy)]
pub struct SpelledVersion<'a>(&'a NamedVersion);

impl fmt::Display for SpelledVersion<'_> {
    fn fmt<W: fmt::Write>(&self, f: &mut fmt::Formatter<W>) -> fmt::Result {
        match self.0 {
            NamedVersion::Original {
                object,
                symbol,
                position,
            } => write!(f, ".klp.sym.{object}.{symbol},{position}"),
            NamedVersion::New {
                patch,
                function,
                ..
            } => write!(f, "{patch}:{function}"),
        }
    }
}

/// Prints the version as a line of a trace names it. For a new function, adds the function's own name.
impl fmt::Display for NamedVersion {
    fn fmt<W: fmt::Write>(&self, f: &mut fmt::Formatter<W>) -> fmt::Result {
        let spelled = self.spelled();
        match self {
            NamedVersion::New {
                name: Some(name),
                ..
            } => write!(f, "{spelled} ({name})"),
            _ => write!(f, "{spelled}"),
        }
    }
}

impl NamedSight {
    /// Returns what a kernel showed, with copies of the names of what it is about. Returns `Err` if memory runs out.
    pub(crate) fn of(
        alloc: Global,
        manager: &Manager,
        sight: &Sight,
    ) -> Result<NamedSight, AllocError> {
        Ok(match *sight {
            Sight::State(task, state) => NamedSight::State { task, state },
            Sight::Files(patch, files) => NamedSight::Files {
                patch: patch_name(alloc, manager, patch)?,
                files,
            },
            Sight::Version(task, _, version) => NamedSight::Version {
                task,
                version: NamedVersion::of(alloc, manager, version)?,
            },
            Sight::Text(_, _) => NamedSight::Text,
        })
    }
}
