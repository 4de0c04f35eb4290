//! The changes that each line of a run made.

use crate::callbacks::Callbacks;
use crate::cards::{add_act, add_patches, are_patches_changed};
use crate::reach::{Reach, reach_of};
use crate::shot::{
    TaskShot, did_something, has_other_state, is_holding, is_task_as_before, task_shot,
};
use crate::sites::add_site_card;
use crate::tasks::{Actor, add_ended_card, add_task_card, add_uncarded};
use arrayvec::ArrayVec;
use klp_catalog_text::Plan;
use klp_console::LineOutcome;
use klp_core::Manager;
use klp_markup::Sheet;
use klp_names::Names;
use klp_timeline::{Moment, View};
use klp_types::{Entry, MAX_PATCHES, MAX_TASKS, Site, TaskId};
use std::alloc::{AllocError, Global};

/// How many tasks have a card at one line, at most. The others are counted.
const MAX_CARDS: u64 = 12;

/// What a line changed, and the cards that show it.
#[derive(Drop)]
pub struct RowParts {
    /// Whether a patch was installed or removed, or the transition changed.
    pub patches: bool,
    /// Whether a task changed.
    pub tasks: bool,
    /// Whether the function stack of a site changed.
    pub sites: bool,
    /// Whether a task began to hold the transition up, or stopped holding it up.
    pub holders: bool,
    /// Whether a callback ran.
    pub callbacks: bool,
    /// The cards, which are shown side by side. There are no cards if nothing changed.
    pub cards: Sheet,
}

/// What a line changed. The fields are as in [`RowParts`].
#[derive(Clone, Copy)]
struct Changes {
    patches: bool,
    tasks: bool,
    sites: bool,
    holders: bool,
    callbacks: bool,
}

/// The tasks, function stacks and callbacks as they were after the previous line. They are compared with those after
/// the next line.
#[derive(Drop)]
pub struct Chronicle<'a> {
    /// The names of tasks.
    names: &'a Names,
    tasks: Vec<Option<TaskShot>>,
    stacks: Vec<ArrayVec<Entry, MAX_PATCHES>>,
    callbacks: Callbacks,
}

/// The changes of tasks at one line: whether a task changed, whether a task began to hold the transition up or stopped
/// holding it up, how many tasks have a card, and for how many there was no room.
#[derive(Clone, Copy)]
struct Crowd {
    is_changed: bool,
    holders: bool,
    cards: u64,
    uncarded: u64,
}

impl<'a> Chronicle<'a> {
    /// Returns the chronicle of a run before its first line. Cards have the names of tasks from `names`. Allocates
    /// nothing.
    pub fn new(alloc: Global, names: &'a Names) -> Chronicle<'a> {
        Chronicle {
            names,
            tasks: Vec::new(alloc),
            stacks: Vec::new(alloc),
            callbacks: Callbacks::new(alloc),
        }
    }

    /// Begins to watch the shadow variables that the scripts of a plan change. Call this before a manager is booted
    /// over the plan, since a manager doesn't show its scripts. `Err` if memory runs out.
    pub fn watch(&mut self, plan: &Plan) -> Result<(), AllocError> {
        self.callbacks.watch(plan)
    }

    /// Makes room for each task, site and callback of a manager that was just booted. `Err` if memory runs out.
    pub fn open(&mut self, manager: &Manager) -> Result<(), AllocError> {
        self.tasks.resize(MAX_TASKS, None)?;
        for _site in 0..manager.sites() {
            self.stacks.push(ArrayVec::new())?;
        }
        self.callbacks.open(manager)
    }

    /// Returns what a line changed, with the line's cards. `before` is the view before the line, and `moment` has the
    /// view after it. Call this for each line that did or undid an event. No other line changes anything. `Err` if
    /// memory runs out.
    pub fn describe(
        &mut self,
        alloc: Global,
        manager: &Manager,
        outcome: &LineOutcome,
        before: &View,
        moment: &Moment,
    ) -> Result<RowParts, AllocError> {
        let mut cards = Sheet::new(alloc);
        let changes = self.describe_to(&mut cards, manager, outcome, before, moment)?;
        Ok(RowParts {
            patches: changes.patches,
            tasks: changes.tasks,
            sites: changes.sites,
            holders: changes.holders,
            callbacks: changes.callbacks,
            cards,
        })
    }

    /// Adds the cards of a line to `sheet`, and returns what the line changed. `before` is the view before the line.
    /// `Err` if memory runs out.
    fn describe_to(
        &mut self,
        sheet: &mut Sheet,
        manager: &Manager,
        outcome: &LineOutcome,
        before: &View,
        moment: &Moment,
    ) -> Result<Changes, AllocError> {
        let view = &moment.view;
        add_act(sheet, manager, &moment.act);
        let patches = are_patches_changed(before, view);
        if patches {
            add_patches(sheet, self.names, manager, before, view);
        }
        let callbacks = self.describe_callbacks(sheet, manager, outcome, before)?;
        let crowd = self.describe_tasks(sheet, manager, outcome, view);
        let sites = self.describe_sites(sheet, manager, outcome);
        Ok(Changes {
            patches,
            tasks: crowd.is_changed,
            sites,
            holders: crowd.holders,
            callbacks,
        })
    }

    /// Adds a card of the callbacks that a line ran, and returns whether it ran any. `before` is the view before the
    /// line. `Err` if memory runs out.
    fn describe_callbacks(
        &mut self,
        sheet: &mut Sheet,
        manager: &Manager,
        outcome: &LineOutcome,
        before: &View,
    ) -> Result<bool, AllocError> {
        if matches!(reach_of(outcome), Reach::All) {
            let installed = before.installed.as_slice();
            return self.callbacks.describe(sheet, manager, installed);
        }
        // No callback ran, but the line may have changed a shadow variable itself.
        self.callbacks.read_own(manager, outcome)?;
        Ok(false)
    }

    /// Adds a card for each task that did something in a line, up to [`MAX_CARDS`], and the number of the others.
    /// Returns the changes of all tasks together. `view` is the state after the line.
    fn describe_tasks(
        &mut self,
        sheet: &mut Sheet,
        manager: &Manager,
        outcome: &LineOutcome,
        view: &View,
    ) -> Crowd {
        let mut crowd = Crowd {
            is_changed: false,
            holders: false,
            cards: 0,
            uncarded: 0,
        };
        match reach_of(outcome) {
            Reach::Nothing => {}
            Reach::Task(task) => self.describe_task(sheet, manager, view, task, &mut crowd),
            Reach::Tasks => {
                for number in 0..MAX_TASKS {
                    let task = TaskId(number as u8);
                    if !self.is_unchanged(manager, view, task) {
                        self.describe_task(sheet, manager, view, task, &mut crowd);
                    }
                }
            }
            Reach::All => {
                for number in 0..MAX_TASKS {
                    let task = TaskId(number as u8);
                    self.describe_task(sheet, manager, view, task, &mut crowd);
                }
            }
        }
        add_uncarded(sheet, crowd.uncarded);
        crowd
    }

    /// Whether a task is as it was after the previous line. The functions that it sleeps in aren't compared: this is
    /// only asked after a poll that leaves the transition under way, and such a poll changes no frames. A task number
    /// out of range counts as unchanged, since it has no task.
    fn is_unchanged(&self, manager: &Manager, view: &View, task: TaskId) -> bool {
        let number = usize::from(task.0);
        if number >= self.tasks.len() || number >= MAX_TASKS {
            return true;
        }
        is_task_as_before(manager, task, &view.stays[number], &self.tasks[number])
    }

    /// Adds a card of a task if it did something in a line, or counts it if there are [`MAX_CARDS`] already. Stores the
    /// task as it is now for the comparison after the next line. `view` is the state after the line.
    fn describe_task(
        &mut self,
        sheet: &mut Sheet,
        manager: &Manager,
        view: &View,
        task: TaskId,
        crowd: &mut Crowd,
    ) {
        let number = usize::from(task.0);
        if number >= self.tasks.len() || number >= MAX_TASKS {
            // No task has such a number.
            return;
        }
        let stay = &view.stays[number];
        let after = task_shot(manager, task, stay);
        let before = self.tasks[number];
        self.tasks[number] = after;
        crowd.is_changed |= has_other_state(&before, &after);
        if !did_something(&before, &after) {
            return;
        }
        crowd.is_changed = true;
        crowd.holders |= is_holding(&before) != is_holding(&after);
        if crowd.cards >= MAX_CARDS {
            crowd.uncarded = crowd.uncarded.saturating_add(1);
            return;
        }
        crowd.cards = crowd.cards.saturating_add(1);
        // A task that did something and isn't there now has ended.
        let Some(shot) = &after else {
            add_ended_card(sheet, self.names, task);
            return;
        };
        let actor = Actor {
            task,
            shot,
            stay,
            moving: &view.moving,
        };
        add_task_card(sheet, self.names, manager, &actor);
    }

    /// Adds a card for each site whose function stack a line changed. Returns whether there is such a site.
    fn describe_sites(
        &mut self,
        sheet: &mut Sheet,
        manager: &Manager,
        outcome: &LineOutcome,
    ) -> bool {
        if !matches!(reach_of(outcome), Reach::All) {
            return false;
        }
        let mut is_changed = false;
        for (number, stack) in self.stacks.iter_mut().enumerate() {
            // A site's number has 16 bits, so `min` changes nothing.
            let site = Site(number.min(65_535) as u16);
            let entries = manager.stack(site);
            if entries.as_slice() != stack.as_slice() {
                add_site_card(sheet, manager, site, entries.as_slice());
                *stack = entries;
                is_changed = true;
            }
        }
        is_changed
    }
}
