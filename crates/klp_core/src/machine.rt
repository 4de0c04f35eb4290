//! A trait with the calls of a manager, for structs that own a manager without naming its type. A manager owns boxes,
//! so a struct that owns a `Manager` by name can't have a trait bound of its own. Such a struct owns a `Machine`
//! instead.
ghost use Rattle.std.specs.Prelude.{
  ◌≡◌,
  ◌<◌,
  ◌≤◌,
  length,
  option_map,
  option_and_then,
  slice_get,
  IfOk,
  IfErr,
  OnErr,
};
ghost use Rattle.klp_types.specs.declared.limits.TheConstants.{MAX_GROUPS, MAX_SITES};
ghost use Rattle.klp_types.specs.declared.task.Task.{Task as AnyTask};
ghost use Rattle.klp_text.specs.TextImage.{site_count};
ghost use Rattle.klp_model.specs.Task.{task_at};
ghost use Rattle.klp_types.specs.Image.{first_site};
ghost use Rattle.klp_types.specs.Setting.{Function, functions_of, replaces};
ghost use Rattle.klp_model.specs.Rows.{row_of, moving_patch};
ghost use Rattle.klp_manager_state.specs.Managed.{setting_of};
ghost use Rattle.klp_core.specs.Taking.{IsTaken};
ghost use Rattle.klp_core.specs.Journaled.{IsWellFormed};
ghost use Rattle.klp_core.specs.Rewinding.{IsRewound};
ghost use Rattle.klp_core.specs.Sites.{sites_in};

use crate::fault::BadMark;
use crate::manager::Manager;
use klp_model::{Event, Refusal, Reply};
use klp_types::{ObjId, PatchId, Site, SiteRow, TaskId};

/// Does events and takes them back, as [`Manager`] does, and shows the facts that a call of a function needs.
pub trait Machine {
    ghost use Rattle.klp_core.specs.Journaled.{Journaled};

    /// The model of the machine in contracts.
    ghost journaled: { Self → Journaled };

    /// Does one event, as [`Manager::apply`] does.
    fn apply(&mut self, event: Event) -> Result<Reply, Refusal>
        requires room { length (journaled self.old).groups ≤ MAX_GROUPS }
        ensures taken { IsTaken (journaled self.old) (journaled self.new) event result }
        ensures setting { setting_of (journaled self.new).managed ≡ setting_of (journaled self.old).managed }
        ensures well_formed { IsWellFormed (journaled self.new) };

    /// Returns how many accepted events the journal has, as [`Manager::mark`] does.
    fn mark(&self) -> u32
        ensures mark { result ≡ length (journaled self.now).groups }
        ensures limit { result ≤ MAX_GROUPS }
        ensures well_formed { IsWellFormed (journaled self.now) };

    /// Takes back all events but the first `mark`, as [`Manager::rewind`] does.
    fn rewind(&mut self, mark: u32) -> Result<(), BadMark>
        requires room { length (journaled self.old).groups ≤ MAX_GROUPS }
        ensures rewound { IfOk result (λ _. IsRewound (journaled self.old) (journaled self.new) mark) }
        ensures bad_mark { IfErr result (λ _. length (journaled self.old).groups < mark) }
        ensures refused { OnErr result (journaled self.new ≡ journaled self.old) }
        ensures setting { setting_of (journaled self.new).managed ≡ setting_of (journaled self.old).managed }
        ensures well_formed { IsWellFormed (journaled self.new) };

    /// Returns how many sites the image has, as [`Manager::sites`] does.
    fn sites(&self) -> usize
        ensures count { result ≡ site_count (journaled self.now).managed.image }
        ensures limit { result ≤ MAX_SITES };

    /// Returns the two newest entries of a site with their addresses, as [`Manager::row`] does.
    fn row(&self, site: Site) -> Option<SiteRow>
        ensures { result ≡ row_of (setting_of (journaled self.now).managed)
            (journaled self.now).managed.state site };

    /// Returns the patch state of a task, as [`Manager::patch_state`] does.
    fn patch_state(&self, task: TaskId) -> Option<i8>
        ensures { result ≡ option_map (λ (t : AnyTask). t.state)
            (task_at (journaled self.now).managed.state.tasks task) };

    /// Returns the patch in transition, as [`Manager::in_transition`] does. Returns `None` if there is no transition.
    fn in_transition(&self) -> Option<PatchId>
        ensures { result ≡ moving_patch (journaled self.now).managed.state.moving };

    /// Whether a patch is cumulative. A cumulative patch replaces all older patches. False for a patch that the catalog
    /// doesn't have.
    fn is_cumulative(&self, patch: PatchId) -> bool
        ensures { result ≡ replaces (setting_of (journaled self.now).managed) patch };

    /// Returns how many functions a patch has, as [`Manager::functions`] does.
    fn functions(&self, patch: PatchId) -> usize
        ensures { result ≡ length (functions_of (setting_of (journaled self.now).managed) patch) };

    /// Returns the site that a patch's function replaces, as [`Manager::site_of`] does.
    fn site_of(&self, patch: PatchId, number: usize) -> Option<Site>
        ensures { result ≡ option_and_then (λ (f : Function). f.site) (slice_get
            (functions_of (setting_of (journaled self.now).managed) patch) number) };

    /// Returns the site of an object's first symbol, as [`Manager::first_site`] does.
    fn first_site(&self, object: ObjId) -> usize
        ensures site { result ≡ first_site (journaled self.now).managed.image.objects object }
        ensures limit { result ≤ MAX_SITES };

    /// Returns how many sites an object has, as [`Manager::sites_in`] does.
    fn sites_in(&self, object: ObjId) -> usize
        ensures count { result ≡ sites_in (journaled self.now).managed.image.objects object }
        ensures limit { result ≤ MAX_SITES };
}

impl Machine for Manager {
    ghost journaled = { λ m. m };

    fn apply(&mut self, event: Event) -> Result<Reply, Refusal> {
        self.apply(event)
    }

    fn mark(&self) -> u32 {
        self.mark()
    }

    fn rewind(&mut self, mark: u32) -> Result<(), BadMark> {
        self.rewind(mark)
    }

    fn sites(&self) -> usize {
        self.sites()
    }

    #[inline(always)]
    fn row(&self, site: Site) -> Option<SiteRow> {
        self.row(site)
    }

    #[inline(always)]
    fn patch_state(&self, task: TaskId) -> Option<i8> {
        self.patch_state(task)
    }

    fn in_transition(&self) -> Option<PatchId> {
        self.in_transition()
    }

    fn is_cumulative(&self, patch: PatchId) -> bool {
        self.catalog.is_cumulative(patch)
    }

    fn functions(&self, patch: PatchId) -> usize {
        self.functions(patch)
    }

    #[inline(always)]
    fn site_of(&self, patch: PatchId, number: usize) -> Option<Site> {
        self.site_of(patch, number)
    }

    fn first_site(&self, object: ObjId) -> usize {
        self.first_site(object)
    }

    fn sites_in(&self, object: ObjId) -> usize {
        self.sites_in(object)
    }
}
