ghost use Rattle.std.specs.Prelude.{◌≡◌, true, false, [], None, length, slice_set, replicate, IfOk};
ghost use Rattle.std.specs.FinMap as finite;
ghost use Rattle.klp_types.specs.declared.limits.TheConstants.{MAX_TASKS, MAX_RECORDS};
ghost use Rattle.klp_text.specs.TextImage.{IsWithinLimits, opening};
ghost use Rattle.klp_modules.specs.Names.{names_of};
ghost use Rattle.klp_model.specs.Opening.{opening_state};
ghost use Rattle.klp_manager_state.specs.Managed.{managed_of, setting_in};
ghost use Rattle.klp_manager_state.specs.Invariant.{Invariant};

use crate::laws::opening_keeps;
use crate::pins::Pins;
use klp_catalog::Catalog;
use klp_journal::Records;
use klp_modules::Modules;
use klp_sites::Sites;
use klp_tasks::{Tasks, VersionSet};
use klp_text::Image;
use klp_types::{MAX_RECORDS, Transition};
use klp_world::World;
use std::alloc::{AllocError, Global};

/// All parts of a manager except its catalog and its journal. [`ManagerState::new`] allocates all memory.
#[derive(Drop)]
pub struct ManagerState {
    /// The image with its text, and the function stacks of its sites.
    pub sites: Sites,
    /// The names of the image's objects and symbols, with a copy of each object's loaded flag.
    pub modules: Modules,
    /// The installed patches with the values of their system states, and the shadow variables.
    pub world: World,
    pub tasks: Tasks,
    /// The patch in transition, and its target.
    pub moving: Option<Transition>,
    /// For each patch, whether it is pinned.
    pub pinned: Pins,
    /// The versions that block sleepers. The set is filled when a transition is tried.
    pub blocked: VersionSet,
    /// Records of the rows that events changed, each row as it was before the change, oldest first. The records of the
    /// events in the journal come first. The records of the current event follow. When an event begins, it drops all
    /// records that don't belong to the journal.
    pub log: Records,
}

/// The parts of a manager that can be made without the image.
#[derive(Drop)]
struct Room {
    world: World,
    tasks: Tasks,
    pinned: Pins,
    log: Records,
}

/// Allocates the parts that can be made without the image. All parts are empty. An error means that memory ran out.
fn make_room(alloc: Global, catalog: &Catalog) -> Result<Room, AllocError>
    ensures world { IfOk result (λ made. made.world ≡ record { installed = []; shadow = finite.empty }) }
    ensures tasks { IfOk result (λ made. made.tasks ≡ replicate MAX_TASKS None) }
    ensures pinned { IfOk result (λ made. made.pinned ≡ replicate (length catalog.now.patches) false) }
    ensures log { IfOk result (λ made. made.log ≡ record { logged = []; room = MAX_RECORDS; older = [] }) }
{
    let world = World::new(alloc)?;
    let tasks = Tasks::new(alloc)?;
    let pinned = Pins::new(alloc, catalog.patches())?;
    let log = Records::new(alloc, MAX_RECORDS)?;
    Ok(Room {
        world,
        tasks,
        pinned,
        log,
    })
}

impl ManagerState {
    /// Makes the state of a manager that has just opened. Only `vmlinux` is loaded, and there are no patches, tasks or
    /// variables. An error means that memory ran out. On an error, image and modules are dropped.
    pub fn new(
        alloc: Global,
        image: Image,
        modules: Modules,
        catalog: &Catalog,
    ) -> Result<ManagerState, AllocError>
        requires limits { IsWithinLimits image.image.objects }
        requires image { image ≡ opening image.image.handler image.image.objects }
        requires modules { modules
            ≡ record {
              names = names_of image.image.objects;
              loaded = slice_set
                  (replicate (length image.image.objects) false) 0 true;
            } }
        requires catalog { catalog.now.names ≡ names_of image.image.objects }
        ensures kept { IfOk result (λ manager. Invariant manager catalog.now) }
        ensures opening { IfOk result (λ manager. managed_of manager catalog.now ≡ record {
          image = image.image;
          catalog = catalog.now;
          state = opening_state (setting_in manager catalog.now);
        }) }
        ensures log { IfOk result (λ manager. manager.log ≡ record { logged = []; room = MAX_RECORDS; older = [] }) }
    {
        opening_keeps();
        let made = make_room(alloc, catalog)?;
        let sites = Sites::new(alloc, image)?;
        let Room {
            world,
            tasks,
            pinned,
            log,
        } = made;
        Ok(ManagerState {
            sites,
            modules,
            world,
            tasks,
            moving: None,
            pinned,
            blocked: VersionSet::new(),
            log,
        })
    }
}
