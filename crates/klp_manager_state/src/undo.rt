//! Putting back what an event logged. Undo doesn't run steps backwards, since the records have all old rows.
ghost use Rattle.std.specs.Prelude.{◌≡◌, ◌<◌, true, false, [], length};
ghost use Rattle.klp_journal.specs.Small.{row_of};
ghost use Rattle.klp_manager_state.specs.Rows.{rows_in, put_back, undone, is_due, are_due};
ghost use Rattle.klp_manager_state.specs.Undoing.{IsOneBack};

use crate::state::ManagerState;
use crate::transition::moving_before;
use klp_journal::SmallRecord;
use klp_types::Record;

impl ManagerState {
    /// Puts all records of an event back, newest first, and removes them from the log. The newest record is the last in
    /// the log. The cost grows with the number of records. No callback runs. Stacks are rows like all others, so
    /// nothing is computed anew (docs/DECISIONS.md, "Undo by rows"). The clause `due` ensures room for each entry that
    /// is put back. Each group of the journal satisfies this clause.
    pub fn undo(&mut self)
        requires modules { self.old.modules.loaded ≡ self.old.sites.loaded }
        requires objects { length self.old.sites.loaded ≡ length self.old.sites.image.objects }
        requires due { are_due (rows_in self.old) self.old.log.logged ≡ true }
        ensures rows { rows_in self.new ≡ undone (rows_in self.old) self.old.log.logged }
        ensures modules { self.new.modules ≡ record self.old.modules { loaded = self.new.sites.loaded } }
        ensures log { self.new.log ≡ record self.old.log { logged = [] } }
        ensures blocked { self.new.blocked ≡ self.old.blocked }
    {
        while self.put_newest_back() {}
    }

    /// Puts back the newest record that is left. Returns whether there was a record.
    #[inline(always)]
    fn put_newest_back(&mut self) -> bool
        requires modules { self.old.modules.loaded ≡ self.old.sites.loaded }
        requires objects { length self.old.sites.loaded ≡ length self.old.sites.image.objects }
        requires due { are_due (rows_in self.old) self.old.log.logged ≡ true }
        ensures one { result ≡ true → IsOneBack self.old self.new }
        ensures none { result ≡ false → (self.old.log.logged ≡ []) × (self.new ≡ self.old) }
        ensures blocked { self.new.blocked ≡ self.old.blocked }
    {
        if self.log.logged() == 0 {
            return false;
        }
        if let Some(newest) = self.log.take_small() {
            self.put_small_back(newest);
            return true;
        }
        if let Some(was) = self.tasks.take_switched(&mut self.log) {
            self.tasks.put_switched(was.task, was.state, was.mode);
            return true;
        }
        self.put_other_back();
        true
    }

    /// Puts back the newest record, which is of a kind that few events log. This function isn't inlined, since
    /// otherwise its caller would clear the memory for a whole record at each turn of its loop.
    #[cold]
    fn put_other_back(&mut self)
        requires some { 0 < length self.old.log.logged }
        requires modules { self.old.modules.loaded ≡ self.old.sites.loaded }
        requires objects { length self.old.sites.loaded ≡ length self.old.sites.image.objects }
        requires due { are_due (rows_in self.old) self.old.log.logged ≡ true }
        ensures one { IsOneBack self.old self.new }
        ensures blocked { self.new.blocked ≡ self.old.blocked }
    {
        let Some(newest) = self.log.take_newest() else {
            unreachable!();
        };
        self.put_back(&newest);
    }

    /// Puts one small record back. A hook's record changes nothing, since the hook is restored with the site's entry.
    #[inline(always)]
    fn put_small_back(&mut self, row: SmallRecord)
        requires modules { self.old.modules.loaded ≡ self.old.sites.loaded }
        requires objects { length self.old.sites.loaded ≡ length self.old.sites.image.objects }
        requires due { is_due (rows_in self.old) (row_of row) ≡ true }
        ensures rows { rows_in self.new ≡ put_back (rows_in self.old) (row_of row) }
        ensures modules { self.new.modules ≡ record self.old.modules { loaded = self.new.sites.loaded } }
        ensures log { self.new.log ≡ self.old.log }
        ensures blocked { self.new.blocked ≡ self.old.blocked }
    {
        match row {
            SmallRecord::Entry { site, patch, was } => self.sites.put_entry(site, patch, was),
            SmallRecord::Hook { site: _, was: _ } => {}
            SmallRecord::Resting { task, state, mode } => self
                .tasks
                .put_without_frames(task, state, mode),
        }
    }

    /// Puts any record back. The record is passed only to the parts that have such rows. Passing every record to every
    /// part would cost more than putting most records back.
    fn put_back(&mut self, row: &Record)
        requires modules { self.old.modules.loaded ≡ self.old.sites.loaded }
        requires objects { length self.old.sites.loaded ≡ length self.old.sites.image.objects }
        requires due { is_due (rows_in self.old) row.now ≡ true }
        ensures rows { rows_in self.new ≡ put_back (rows_in self.old) row.now }
        ensures modules { self.new.modules ≡ record self.old.modules { loaded = self.new.sites.loaded } }
        ensures log { self.new.log ≡ self.old.log }
        ensures blocked { self.new.blocked ≡ self.old.blocked }
    {
        match row {
            Record::StackEntry { .. } | Record::HookFlag { .. } => self.sites.put_back(*row),
            Record::LoadedFlag { .. } => {
                self.sites.put_back(*row);
                self.modules.put_back(*row);
            }
            Record::TaskRow { .. } | Record::NoTaskRow { .. } => self.tasks.put_back(*row),
            Record::PinnedFlag { .. } => self.pinned.put_back(*row),
            Record::Moving { .. } | Record::NothingMoving => {
                self.moving = moving_before(self.moving, *row);
            }
            Record::ShadowVariable { .. }
            | Record::NoShadowVariable { .. }
            | Record::StateValue { .. }
            | Record::StateRow { .. }
            | Record::InstalledPatch { .. } => self.world.put_back(*row),
        }
    }
}
