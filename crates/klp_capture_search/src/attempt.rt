//! An attempt to lead a run to a sample: items of a run that are passed to a manager as they are added.
//!
//! The log fixes what a task did that hasn't run since the last sample: it slept where it was, so only a poll can have
//! switched it. A task that ran may have done anything. It stays awake, so no poll switches it. It leaves the kernel
//! where it has to be switched, and goes to where it was seen just before it was seen there. The tasks that aren't
//! followed are one task of the run, which lags until a transition completes.
ghost use Rattle.klp_core.specs.Journaled.{IsWellFormed};

use crate::fits::fits;
use crate::followed::Sighting;
use crate::items::{Items, object_id, patch_id, task_id};
use crate::moves::{Move, moving_of};
use crate::run::Run;
use crate::step::{NamedTask, Step};
use crate::threads::OTHERS;
use klp_capture::PatchedState;
use klp_capture_catalog::{Files, SeenVersion};
use klp_core::Manager;
use klp_model::Event;
use klp_types::{MAX_TASKS, Mode};
use std::alloc::{AllocError, Global};

/// What the items so far have done with a task.
#[derive(Clone, Copy)]
pub(crate) struct Pose {
    /// `None` if the task hasn't begun, or has ended.
    pub(crate) mode: Option<Mode>,
    /// How many of the functions that the task was inside of before the sample it hasn't returned from.
    pub(crate) kept: usize,
}

/// Items that lead to a sample, as far as they are added.
#[derive(Drop)]
pub(crate) struct Attempt<'r, 'a> {
    run: &'r Run<'a>,
    step: &'r Step<'a>,
    /// What the patches' files read in the sample.
    after: &'r [Files],
    /// For each task number, what the items have done with the task.
    pub(crate) poses: Vec<Pose>,
    pub(crate) items: Items,
    /// How many of the items were passed to the manager.
    passed: usize,
    /// Whether the manager accepted all items that were passed to it.
    pub(crate) fits: bool,
}

/// Returns the patch state of tasks that are at this target.
fn state_at(target: bool) -> PatchedState {
    if target {
        PatchedState::Patched
    } else {
        PatchedState::Unpatched
    }
}

fn number_of(state: PatchedState) -> i8 {
    match state {
        PatchedState::Undefined => -1,
        PatchedState::Unpatched => 0,
        PatchedState::Patched => 1,
    }
}

/// Whether the manager has a task of this number in this patch state.
fn is_in(manager: &Manager, number: usize, state: PatchedState) -> bool {
    manager.patch_state(task_id(number)) == Some(number_of(state))
}

/// Returns how many places the two lists have in common at their beginning.
fn common(a: &[SeenVersion], b: &[SeenVersion]) -> usize {
    a.iter().zip(b).take_while(|pair| pair.0 == pair.1).count()
}

impl<'r, 'a> Attempt<'r, 'a> {
    pub(crate) fn new(
        alloc: Global,
        run: &'r Run<'a>,
        step: &'r Step<'a>,
        after: &'r [Files],
    ) -> Result<Attempt<'r, 'a>, AllocError> {
        let mut poses = Vec::new(alloc);
        for number in 0..MAX_TASKS {
            let (mode, kept) = match run.tasks.get(number) {
                Some(task) => (task.mode, task.inside.len()),
                None if number == OTHERS => (run.mode_of_others, 0),
                None => (None, 0),
            };
            poses.push(Pose { mode, kept })?;
        }
        Ok(Attempt {
            run,
            step,
            after,
            poses,
            items: Items::new(alloc),
            passed: 0,
            fits: true,
        })
    }

    /// Passes the new items to the manager. Notes it if the manager doesn't accept one.
    fn pass(&mut self, manager: &mut Manager)
        requires { IsWellFormed manager.old }
    {
        self.fits = self.fits
            && self.items.are_known
            && match self.items.list.get(self.passed..) {
                Some(unpassed) => fits(manager, unpassed),
                None => false,
            };
        self.passed = self.items.list.len();
    }

    fn event(&mut self, event: Event) -> Result<(), AllocError> {
        self.items.event(event)
    }

    fn pose(&self, number: usize) -> Pose {
        self.poses.get(number).copied().unwrap_or(Pose {
            mode: None,
            kept: 0,
        })
    }

    fn set_pose(&mut self, number: usize, mode: Option<Mode>, kept: usize) {
        if let Some(pose) = self.poses.get_mut(number) {
            *pose = Pose { mode, kept };
        }
    }

    /// Whether a task exists in the run.
    fn is_alive(&self, number: usize) -> bool {
        self.pose(number).mode.is_some()
    }

    /// Whether a task was asleep all the time since the last sample, so that only a poll can have switched it.
    fn is_fixed(&self, number: usize) -> bool {
        if self.pose(number).mode != Some(Mode::Asleep) {
            return false;
        }
        match (self.step.seen(number), self.run.tasks.get(number)) {
            (Some(named), Some(task)) => named.seen.runs == task.runs,
            _ => true,
        }
    }

    /// Returns the patch state that a task has in the sample: the one that was seen, or an unchanged one.
    fn wanted(&self, number: usize) -> PatchedState {
        match (self.step.seen(number), self.run.tasks.get(number)) {
            (Some(named), _) => named.seen.state,
            (None, Some(task)) => task.state,
            (None, None) => PatchedState::Undefined,
        }
    }

    /// Adds that a task wakes up, if it sleeps.
    fn wake(&mut self, number: usize) -> Result<(), AllocError> {
        let pose = self.pose(number);
        if pose.mode == Some(Mode::Asleep) {
            self.event(Event::Wake(task_id(number)))?;
            self.set_pose(number, Some(Mode::Kernel), pose.kept);
        }
        Ok(())
    }

    /// Adds that a task returns to a function that it was inside of, or from all functions.
    fn return_to(&mut self, number: usize, kept: usize) -> Result<(), AllocError> {
        let pose = self.pose(number);
        let count = pose.kept.saturating_sub(kept);
        self.items.return_from(task_id(number), count)?;
        self.set_pose(number, pose.mode, pose.kept.min(kept));
        Ok(())
    }

    /// Adds that a task is in the kernel and awake.
    fn enter(&mut self, number: usize) -> Result<(), AllocError> {
        self.wake(number)?;
        let pose = self.pose(number);
        if pose.mode == Some(Mode::User) {
            self.event(Event::EnterKernel(task_id(number)))?;
            self.set_pose(number, Some(Mode::Kernel), pose.kept);
        }
        Ok(())
    }

    /// Adds that a task leaves the kernel, so that it is switched, and comes back.
    fn switch(&mut self, number: usize) -> Result<(), AllocError> {
        self.enter(number)?;
        self.return_to(number, 0)?;
        self.event(Event::ExitToUser(task_id(number)))?;
        self.event(Event::EnterKernel(task_id(number)))
    }

    /// Adds that a task begins outside of all functions. During a transition it begins at the target, or as a copy of
    /// the task of the others, which lags.
    fn begin(&mut self, manager: &Manager, number: usize) -> Result<(), AllocError> {
        let wanted = self.wanted(number);
        let lags = manager
            .moving()
            .is_some_and(|moving| state_at(moving.target) != wanted);
        if lags && self.is_alive(OTHERS) {
            self.event(Event::Fork(task_id(OTHERS), task_id(number)))?;
            self.set_pose(number, Some(Mode::Kernel), 0);
        } else {
            self.event(Event::NewTask(task_id(number)))?;
            self.set_pose(number, Some(Mode::User), 0);
        }
        Ok(())
    }

    /// Adds that a task returns from all functions, and ends.
    fn end(&mut self, number: usize) -> Result<(), AllocError> {
        if self.is_alive(number) {
            self.enter(number)?;
            self.return_to(number, 0)?;
            self.event(Event::EndTask(task_id(number)))?;
            self.set_pose(number, None, 0);
        }
        Ok(())
    }

    /// Adds which modules came or went, and which tasks have ended. Before the first sample, writes which patches
    /// were enabled already, and that the tasks begin that aren't followed. Tasks that are first seen in this sample
    /// begin here if no patch is in transition, and else when they are seen.
    pub(crate) fn prepare(
        &mut self,
        manager: &mut Manager,
        comings: &[usize],
        goings: &[usize],
    ) -> Result<(), AllocError>
        requires { IsWellFormed manager.old }
    {
        for object in comings {
            self.event(Event::Coming(object_id(*object)))?;
        }
        if self.run.last.is_none() {
            for patch in 0..self.run.files.len() {
                if self.run.files.get(patch).copied().unwrap_or(None).is_some() {
                    self.event(Event::Enable(patch_id(patch)))?;
                    self.event(Event::Poll)?;
                }
            }
            self.begin(manager, OTHERS)?;
            self.enter(OTHERS)?;
        }
        self.release()?;
        let step = self.step;
        // A task that ran is awake from here on, so no poll switches it.
        for named in &step.named {
            if !self.is_fixed(named.number) {
                self.wake(named.number)?;
            }
        }
        if moving_of(&self.run.files).is_none() {
            for number in step.first_begun..self.run.tasks.len() {
                if step.seen(number).is_some() {
                    self.begin(manager, number)?;
                }
            }
        }
        for object in goings {
            self.event(Event::Going(object_id(*object)))?;
        }
        self.pass(manager);
        Ok(())
    }

    /// Adds that tasks end which are gone, and that tasks wake up which aren't followed any longer, so that they may do
    /// anything. A task that the sample names was gone or left after it was read, so it is released with the next sample.
    fn release(&mut self) -> Result<(), AllocError> {
        let (run, step) = (self.run, self.step);
        for (number, task) in run.tasks.iter().enumerate() {
            if step.seen(number).is_some() {
                continue;
            }
            if task.has_ended || step.ended.contains(&number) {
                self.end(number)?;
            } else if task.is_left || step.left.contains(&number) {
                self.wake(number)?;
            }
        }
        Ok(())
    }

    /// Adds one event that changes patches, and what tasks do for it. `rest` are the events after it.
    pub(crate) fn go(
        &mut self,
        manager: &mut Manager,
        event: Move,
        rest: &[Move],
    ) -> Result<(), AllocError>
        requires { IsWellFormed manager.old }
    {
        match event {
            Move::Load(patch) => self.event(Event::Enable(patch_id(patch)))?,
            Move::Disable(patch) => self.event(Event::SetEnabled(patch_id(patch), false))?,
            Move::Reverse => self.reverse(manager, rest)?,
            Move::Complete => self.complete(manager)?,
        }
        self.pass(manager);
        if event == Move::Complete {
            self.fits = self.fits && manager.moving().is_none();
        }
        Ok(())
    }

    /// Adds that the transition is reversed. A task that is at the target after that, and wasn't before, was switched
    /// before. The others are switched before, so that they lag again.
    fn reverse(&mut self, manager: &Manager, rest: &[Move]) -> Result<(), AllocError> {
        let Some(moving) = manager.moving() else {
            return Ok(());
        };
        let target = state_at(moving.target);
        if rest.iter().all(|event| *event == Move::Reverse) {
            let mut needs_poll = false;
            for number in 0..self.run.tasks.len() {
                if self.is_alive(number)
                    && self.wanted(number) == target
                    && !is_in(manager, number, target)
                {
                    if self.is_fixed(number) {
                        needs_poll = true;
                    } else {
                        self.switch(number)?;
                    }
                }
            }
            if needs_poll {
                self.event(Event::Poll)?;
            }
            if self.is_alive(OTHERS) && !is_in(manager, OTHERS, target) {
                self.switch(OTHERS)?;
            }
        }
        self.event(Event::SetEnabled(moving.patch, !moving.target))
    }

    /// Adds that all tasks that ran are switched, and a poll for those that slept.
    fn complete(&mut self, manager: &Manager) -> Result<(), AllocError> {
        let Some(moving) = manager.moving() else {
            return Ok(());
        };
        for number in 0..MAX_TASKS {
            if self.is_alive(number)
                && !is_in(manager, number, state_at(moving.target))
                && (number == OTHERS || !self.is_fixed(number))
            {
                self.switch(number)?;
            }
        }
        self.event(Event::Poll)
    }
}

impl<'r, 'a> Attempt<'r, 'a> {
    /// Adds how a task that may have run came to be as it was seen.
    fn go_on(
        &mut self,
        manager: &Manager,
        number: usize,
        seen: &Sighting<'a>,
    ) -> Result<(), AllocError> {
        let is_new = !self.is_alive(number);
        if is_new {
            self.begin(manager, number)?;
        }
        let target = match manager.moving() {
            Some(moving) => Some(state_at(moving.target)),
            None => None,
        };
        if !is_new && target == Some(seen.state) && !is_in(manager, number, seen.state) {
            self.switch(number)?;
        }
        if !seen.places.is_empty() || seen.is_asleep() {
            self.enter(number)?;
        }
        if !seen.has_places {
            return self.wake(number);
        }
        let kept = self.pose(number).kept;
        let run = self.run;
        let before = match run.tasks.get(number) {
            Some(task) => task.inside.get(..kept).unwrap_or(&[]),
            None => &[],
        };
        let same = common(before, &seen.places);
        self.wake(number)?;
        self.return_to(number, same)?;
        let called = seen.places.get(same..).unwrap_or(&[]);
        self.items
            .call_all(&run.functions, task_id(number), called)?;
        if seen.is_asleep() {
            self.items
                .sleep(&run.functions, task_id(number), &seen.places)?;
            self.set_pose(number, Some(Mode::Asleep), same);
        }
        Ok(())
    }

    /// Adds how a named task came to be as it was seen, and what its `patch_state` read.
    fn see(&mut self, manager: &Manager, named: &NamedTask<'a>) -> Result<(), AllocError> {
        if !self.is_fixed(named.number) {
            self.go_on(manager, named.number, &named.seen)?;
        }
        self.items
            .saw_state(task_id(named.number), named.seen.state)
    }

    /// Adds what the `patch_state` of a task reads that wasn't named. If the task is awake, it may have been
    /// switched.
    fn see_unnamed(&mut self, manager: &Manager, number: usize) -> Result<(), AllocError> {
        let wanted = self.wanted(number);
        let is_target = manager
            .moving()
            .is_some_and(|moving| state_at(moving.target) == wanted);
        if !self.is_fixed(number) && is_target && !is_in(manager, number, wanted) {
            self.switch(number)?;
        }
        self.items.saw_state(task_id(number), wanted)
    }

    /// Adds what the sample doesn't list: tasks that are unchanged, or were named by a sample that was left out.
    /// `are_asleep` says of which: of those that slept all the time and have the state now that they are to have, or of
    /// the others.
    fn see_unlisted(&mut self, manager: &Manager, are_ready: bool) -> Result<(), AllocError> {
        let (run, step) = (self.run, self.step);
        for number in 0..run.tasks.len() {
            let named = step.seen(number);
            let is_unseen = match run.tasks.get(number) {
                Some(task) => task.is_left && named.is_none(),
                None => true,
            };
            let is_listed = named.is_some_and(|named| named.is_listed);
            if is_listed
                || is_unseen
                || step.ended.contains(&number)
                || step.left.contains(&number)
            {
                continue;
            }
            let is_ready = self.is_fixed(number) && is_in(manager, number, self.wanted(number));
            if is_ready != are_ready {
                continue;
            }
            match named {
                Some(named) => self.see(manager, named)?,
                None if self.is_alive(number) => self.see_unnamed(manager, number)?,
                None => {}
            }
        }
        Ok(())
    }

    /// Whether a poll must have switched a task that slept all the time: it has the target's state in the sample, and
    /// doesn't have it yet.
    fn needs_poll(&self, manager: &Manager, number: usize) -> bool {
        let Some(moving) = manager.moving() else {
            return false;
        };
        let target = state_at(moving.target);
        self.is_fixed(number) && self.wanted(number) == target && !is_in(manager, number, target)
    }

    /// Returns how many of the listed tasks were seen before a poll: up to the last one that slept all the time and was
    /// seen unswitched.
    fn before_poll(&self, manager: &Manager) -> usize {
        let Some(moving) = manager.moving() else {
            return 0;
        };
        let target = state_at(moving.target);
        let mut count = 0;
        for (place, named) in self.step.named.iter().enumerate() {
            if named.is_listed && self.is_fixed(named.number) && named.seen.state != target {
                count = place.saturating_add(1);
            }
        }
        count
    }

    /// Adds what the sample shows of these tasks, but of those that it doesn't list.
    fn see_listed(&mut self, manager: &Manager, named: &[NamedTask<'a>]) -> Result<(), AllocError> {
        for task in named {
            if task.is_listed {
                self.see(manager, task)?;
            }
        }
        Ok(())
    }

    /// Adds what the sample shows: the tasks, with a poll among them if one that slept must have been switched, and
    /// the patches' files. The poll comes as early as it can, since a task that is seen asleep after it isn't switched.
    pub(crate) fn see_all(&mut self, manager: &mut Manager) -> Result<(), AllocError>
        requires { IsWellFormed manager.old }
    {
        let has_poll = (0..self.run.tasks.len()).any(|number| self.needs_poll(manager, number));
        let (step, after) = (self.step, self.after);
        let before = self.before_poll(manager).min(step.named.len());
        let (before_poll, behind_poll) = step.named.split_at(before);
        self.see_unlisted(manager, true)?;
        self.see_listed(manager, before_poll)?;
        if has_poll {
            self.event(Event::Poll)?;
        }
        self.see_unlisted(manager, false)?;
        self.see_listed(manager, behind_poll)?;
        for (patch, files) in after.iter().enumerate() {
            self.items.saw_files(patch_id(patch), *files)?;
        }
        self.pass(manager);
        Ok(())
    }
}
