ghost use Rattle.std.specs.Prelude.{◌≡◌, ◌<◌, ◌≤◌, true, false, [], IfOk, IfErr, OnErr, slice_set, replicate, length};
ghost use Rattle.klp_types.specs.declared.limits.TheConstants.{MAX_GROUPS, MAX_JOURNAL_RECORDS};
ghost use Rattle.klp_model.specs.Step.{callbacks_of};
ghost use Rattle.klp_text.specs.TextImage.{opening};
ghost use Rattle.klp_journal.specs.Journal.{has_room, records_free, records_in};
ghost use Rattle.klp_manager_state.specs.Managed.{setting_of};
ghost use Rattle.klp_core.specs.Boot.{IsMatch, AreNamed, IsFaultOf, booted};
ghost use Rattle.klp_core.specs.Events.{AreCounted};
ghost use Rattle.klp_core.specs.Journaled.{IsWellFormed, with_room};
ghost use Rattle.klp_core.specs.Taking.{IsTaken, AreTaken};
ghost use Rattle.klp_core.specs.Rewinding.{IsRewound};
ghost use Rattle.klp_core.specs.Withdrawal.{LeavesNoTrace};

use crate::boot::parts_over;
use crate::fault::{BadMark, BootFault};
use crate::journal::{DroppedReply, rewind_to, take_and_append, take_without_reply};
use crate::laws::what_is_withdrawn_leaves_no_trace;
use klp_catalog::Catalog;
use klp_journal::Journal;
use klp_manager_state::ManagerState;
use klp_model::{Event, Refusal, Reply};
use klp_modules::Modules;
use klp_text::Image;
use std::alloc::Global;
use std::marker::Model;

/// The live patching manager. It has the image with its text, the catalog with its patches, the installed patches and
/// the transition, the tasks, the shadow variables, and a journal. From the journal, accepted events can be taken back.
/// The model in contracts has the image, the catalog and the state. Contracts compute the definitions' setting from
/// these three, so that the setting can't disagree with them (docs/DECISIONS.md, "The model of a manager").
#[derive(Drop)]
pub struct Manager {
    pub(crate) state: ManagerState,
    pub(crate) catalog: Catalog,
    pub(crate) journal: Journal,
}

impl Model for Manager {
    ghost use Rattle.std.specs.Coded.{codes};
    ghost use Rattle.klp_world.specs.Coded.{world_code};
    ghost use Rattle.klp_core.specs.Journaled.{Journaled};

    ghost Value = { Journaled };

    ghost coded = { Prim.hlevel (codes, world_code) };

    ghost use Rattle.klp_core.specs.Journaled.{journaled_of, groups_in, AreInStep};

    ghost view = { λ m. journaled_of m.state m.catalog (groups_in m.state m.journal) };

    ghost invariant = { λ m. AreInStep m.state m.catalog m.journal };
}

impl Manager {
    /// Boots a manager from an image, its modules and a catalog, all unchanged since they were made. At first only
    /// `vmlinux` is loaded, no patch is installed, and there are no tasks, no shadow variables and no event to take
    /// back. The call allocates all memory that events need, so no later call can fail for lack of memory
    /// (docs/DECISIONS.md, "Memory after boot").
    ///
    /// Returns `Mismatch` if image, modules and catalog don't have the same number of objects, or of symbols in each
    /// object. The caller must know that their names are the same. If there is a fault, all three are dropped.
    pub fn boot(
        alloc: Global,
        image: Image,
        modules: Modules,
        catalog: Catalog,
    ) -> Result<Manager, BootFault>
        requires image { image ≡ opening image.image.handler image.image.objects }
        requires modules { modules.loaded ≡ slice_set (replicate (length modules.names) false) 0 true }
        requires names { IsMatch image.image modules catalog → AreNamed image.image modules catalog }
        ensures ok { IfOk result (λ manager. IsMatch image.image modules catalog
            × (manager ≡ booted image.image catalog)) }
        ensures well_formed { IfOk result (λ manager. IsWellFormed manager) }
        ensures fault { IfErr result (λ fault. IsFaultOf image.image modules catalog fault) }
    {
        let (state, journal) = parts_over(alloc, image, modules, &catalog)?;
        Ok(Manager {
            state,
            catalog,
            journal,
        })
    }

    /// Does one event, as one atomic step. The cost depends on the event:
    /// - an event reads the functions and callbacks of its patch, if it has one, and the tasks that it concerns;
    /// - loading or unloading a module changes the entries and runs the callbacks that the installed patches have for
    ///   the module; in addition, loading reads all functions of these patches, and unloading reads the frames of all
    ///   sleepers;
    /// - for a cumulative patch, every site with entries is read when the transition starts and when it completes, and
    ///   completing takes out all older patches;
    /// - an event of shadow variables costs as much as the change of the variables.
    ///
    /// An accepted event is appended to the journal, at a cost that grows with the number of rows that it changed. If
    /// the journal has no room for another event, each event is refused. The reason is `JournalFull` unless something
    /// else refuses the event.
    pub fn apply(&mut self, event: Event) -> Result<Reply, Refusal>
        ensures taken { IsTaken self.old self.new event result }
        ensures counts { IfOk result
            (λ reply. AreCounted self.old.managed.catalog self.new.managed.catalog
            (callbacks_of (setting_of self.old.managed) self.old.managed.state event)) }
        // of the catalog, callbacks change only their counts, so all facts about the setting still hold
        ensures setting { setting_of self.new.managed ≡ setting_of self.old.managed }
        ensures well_formed { IsWellFormed self.new }
    {
        self.apply_lent(&event)
    }

    /// Like [`Manager::apply`], but borrows the event. An event is large, since it has room for the frames of a
    /// sleeper. So borrowing it saves a large copy.
    #[inline(always)]
    pub fn apply_lent(&mut self, event: &Event) -> Result<Reply, Refusal>
        ensures taken { IsTaken self.old self.new event.now result }
        ensures counts { IfOk result
            (λ reply. AreCounted self.old.managed.catalog self.new.managed.catalog
            (callbacks_of (setting_of self.old.managed) self.old.managed.state event.now)) }
        ensures setting { setting_of self.new.managed ≡ setting_of self.old.managed }
        ensures well_formed { IsWellFormed self.new }
    {
        klp_catalog::laws::counts_grow_by_runs();
        take_and_append(&mut self.state, &mut self.catalog, &mut self.journal, event)
    }

    /// Like [`Manager::apply`], for a caller that doesn't need the reply. Only contracts know the reply.
    #[inline(always)]
    pub fn apply_without_reply(&mut self, event: &Event) -> Result<DroppedReply, Refusal>
        ensures taken { IsTaken self.old self.new event.now result }
        ensures counts { IfOk result
            (λ reply. AreCounted self.old.managed.catalog self.new.managed.catalog
            (callbacks_of (setting_of self.old.managed) self.old.managed.state event.now)) }
        ensures setting { setting_of self.new.managed ≡ setting_of self.old.managed }
        ensures well_formed { IsWellFormed self.new }
    {
        klp_catalog::laws::counts_grow_by_runs();
        take_without_reply(&mut self.state, &mut self.catalog, &mut self.journal, event)
    }

    /// Does events in order. Returns how many events were accepted and how many were refused. After a refused event,
    /// which changes nothing, the next event is done. The contract has clauses about the whole list. A loop that calls
    /// `apply` wouldn't have these clauses.
    pub fn run(&mut self, events: &[Event]) -> (u64, u64)
        ensures taken { AreTaken self.old self.new events.now result }
        ensures withdrawn { LeavesNoTrace self.old self.new }
        // by this clause, runs can be joined
        ensures setting { setting_of self.new.managed ≡ setting_of self.old.managed }
        ensures well_formed { IsWellFormed self.new }
    {
        klp_catalog::laws::runs_add_up();
        what_is_withdrawn_leaves_no_trace();
        let _for_its_clause = self.mark();
        let mut accepted = 0;
        let mut refused = 0;
        for event in events {
            match self.apply_without_reply(event) {
                Ok(_) => accepted += 1,
                Err(_) => refused += 1,
            }
        }
        (accepted, refused)
    }

    /// Returns how many accepted events the journal has. These are the events since the manager was booted or sealed,
    /// without those that were taken back. Passing this number to `rewind` later leads back to the present state. The
    /// cost is constant.
    pub fn mark(&self) -> u32
        ensures mark { result ≡ length self.now.groups }
        ensures limit { result ≤ MAX_GROUPS }
        ensures well_formed { IsWellFormed self.now }
    {
        self.journal.mark()
    }

    /// Undoes all events but the first `mark`, newest first. Afterwards text, hooks, function stacks, system states,
    /// shadow variables and tasks are as they were after the first `mark` events. No callback runs, since the rows that
    /// callbacks changed are put back like all others. The counts of callback runs don't change. The cost grows with
    /// the number of rows that are put back. Returns `BadMark` if the journal has fewer than `mark` events.
    pub fn rewind(&mut self, mark: u32) -> Result<(), BadMark>
        ensures rewound { IfOk result (λ _. (mark ≤ length self.old.groups) × IsRewound self.old self.new mark) }
        ensures bad_mark { IfErr result (λ _. length self.old.groups < mark) }
        ensures refused { OnErr result (self.new ≡ self.old) }
        ensures setting { setting_of self.new.managed ≡ setting_of self.old.managed }
        ensures well_formed { IsWellFormed self.new }
    {
        if mark > self.journal.mark() {
            return Err(BadMark);
        }
        rewind_to(&mut self.state, &self.catalog, &mut self.journal, mark);
        Ok(())
    }

    /// Empties the journal. Afterwards no earlier event can be taken back, and the present state is the base. A caller
    /// seals a full journal to do more events. The cost grows at most with the number of dropped records.
    pub fn seal(&mut self)
        ensures sealed { self.new ≡ record { managed = self.old.managed; base = self.old.managed.state; groups = [] } }
        ensures well_formed { IsWellFormed self.new }
    {
        self.journal.clear(&mut self.state.log);
    }

    /// Seals the journal if it has no room for one more event. Afterwards no event is refused because the journal is
    /// full, so the rules alone decide. A caller that takes no event back calls this before each event. If there is
    /// room, nothing changes and the cost is constant.
    pub fn make_room(&mut self)
        ensures made { self.new ≡ with_room self.old }
        ensures same { self.new.managed ≡ self.old.managed }
        ensures room { has_room self.new.groups ≡ true }
        ensures well_formed { IsWellFormed self.new }
    {
        let _for_its_clause = self.mark();
        if !self.journal.has_room(&self.state.log) {
            self.seal();
        }
    }

    /// Returns how many more records the journal has room for. The cost is constant. An event is accepted only if there
    /// is room for the greatest number of records that an event may log, even if it logs fewer.
    pub fn records_free(&self) -> u32
        ensures value { result ≡ records_free self.now.groups }
        ensures limit { records_in self.now.groups ≤ MAX_JOURNAL_RECORDS }
    {
        self.journal.records_free(&self.state.log)
    }
}
