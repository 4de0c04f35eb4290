//! Notes the state that a run has reached with a sample.
use crate::attempt::Pose;
use crate::followed::{Followed, UnplacedSleep};
use crate::run::{Reach, Run};
use crate::step::{NamedTask, Step};
use crate::threads::OTHERS;
use klp_capture::BootTime;
use klp_capture_catalog::Files;
use klp_core::Lag;
use std::alloc::AllocError;

impl<'a> Followed<'a> {
    /// Notes why the task lags in a sample of a transition, if it does.
    pub(crate) fn note_lag(
        &mut self,
        lag: Option<Lag>,
        transition: usize,
        at: BootTime,
    ) -> Result<(), AllocError> {
        self.lag = lag;
        if lag.is_some() {
            self.note_unplaced(transition, at)?;
        }
        Ok(())
    }

    /// If a lagging task sleeps in a function of a patch's module that isn't known, notes that.
    fn note_unplaced(&mut self, transition: usize, at: BootTime) -> Result<(), AllocError> {
        let Some(function) = self.unplaced else {
            return Ok(());
        };
        let since = self.since;
        if let Some(sleep) = self.unplaced_sleeps.last_mut()
            && sleep.function == function
            && sleep.transition == transition
            && since <= sleep.to
        {
            sleep.to = at;
            return Ok(());
        }
        self.unplaced_sleeps.push(UnplacedSleep {
            transition,
            from: at,
            to: at,
            function,
        })?;
        Ok(())
    }

    /// Notes what the run has done with the task, and how it was seen, if it was named.
    fn settle(&mut self, at: BootTime, pose: Pose, named: Option<NamedTask<'a>>) {
        self.mode = pose.mode;
        self.inside.truncate(pose.kept);
        let Some(NamedTask { seen, .. }) = named else {
            return;
        };
        if self.runs != seen.runs {
            self.since = at;
        }
        self.is_left = false;
        self.letter = seen.letter;
        self.state = seen.state;
        self.runs = seen.runs;
        self.unplaced = seen.unplaced;
        if seen.has_places {
            self.inside = seen.places;
        }
    }
}

impl<'a> Run<'a> {
    /// Notes that the run has reached this sample, after items that left the tasks in these poses.
    pub(crate) fn settle(&mut self, reach: Reach<'a>, poses: &[Pose]) {
        let Reach {
            step,
            after,
            comings,
            goings,
        } = reach;
        let Step {
            at,
            mut named,
            ended,
            left,
            ..
        } = step;
        for (number, task) in self.tasks.iter_mut().enumerate() {
            let seen = match named.iter().position(|named| named.number == number) {
                Some(place) => Some(named.remove(place)),
                None => None,
            };
            if let Some(pose) = poses.get(number) {
                task.settle(at, *pose, seen);
            }
            if ended.contains(&number) {
                task.has_ended = true;
            }
            if left.contains(&number) {
                task.is_left = true;
                task.unplaced = None;
            }
        }
        if let Some(pose) = poses.get(OTHERS) {
            self.mode_of_others = pose.mode;
        }
        self.files = after;
        self.note_loaded(&comings, true);
        self.note_loaded(&goings, false);
    }

    /// Notes of these objects whether they are loaded.
    fn note_loaded(&mut self, objects: &[usize], loaded: bool) {
        for object in objects {
            if let Some(is_loaded) = self.loaded.get_mut(*object) {
                *is_loaded = loaded;
            }
        }
    }

    /// Whether a patch is cumulative, and there is an older patch. So its transition to enabled hasn't completed, since the
    /// older patch would be gone.
    fn was_never_complete(&self, patch: usize, after: &[Files]) -> bool {
        let is_cumulative = self
            .functions
            .patches
            .get(patch)
            .is_some_and(|patch| patch.is_cumulative);
        is_cumulative && after.iter().take(patch).any(|older| older.is_some())
    }

    /// Notes what the patches' files read before the first sample. A patch that is being enabled in the first sample
    /// wasn't installed before it. Nor was one that is being disabled and was never complete: its transition was
    /// reversed. The files of all other patches read the same as in the first sample.
    pub(crate) fn stand(&mut self, after: &[Files]) {
        for patch in 0..self.files.len() {
            let now = after.get(patch).copied().unwrap_or(None);
            let is_reversed = now == Some((false, true)) && self.was_never_complete(patch, after);
            if let Some(files) = self.files.get_mut(patch) {
                *files = match now {
                    Some((true, false) | (false, true)) if !is_reversed => Some((true, false)),
                    _ => None,
                };
            }
        }
    }
}
