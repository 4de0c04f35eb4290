//! Looks for a run of the rules that shows what a log shows, sample by sample.
//!
//! A log says in which states the kernel was, but not what happened. For each two successive samples, this module looks
//! for events that the rules allow and that lead from one sample to the other. It tries items on a manager, and
//! compares what the manager then shows with the log. If the log shows something else, it undoes them.
//! `explain` checks the trace that the search finds.
ghost use Rattle.klp_core.specs.Journaled.{IsWellFormed};

use crate::attempt::{Attempt, Pose};
use crate::followed::Followed;
use crate::item_line::ItemLines;
use crate::items::Items;
use crate::moves::{Move, PatchFiles, detours, straight_way};
use crate::step::Step;
use crate::threads::{FollowedThreads, OTHERS, ThreadKey, followed_in};
use klp_capture::{BootTime, Capture, PatchRow, Sample, Thread};
use klp_capture_catalog::{Files, Functions, SeenTransition, TransitionEnd, since_when};
use klp_core::Manager;
use klp_types::{MAX_GROUPS, Mode};
use klp_watch::Observed;
use std::alloc::{AllocError, Global};

/// How many events the journal may have before a sample. If it has more, the journal is sealed first, so that there is
/// room for the events of the sample.
const MAX_BEFORE_A_SAMPLE: u32 = MAX_GROUPS as u32 / 2;

/// A sample that the run is to reach.
#[derive(Drop)]
pub(crate) struct Reach<'a> {
    pub(crate) step: Step<'a>,
    /// What the patches' files read in the sample.
    pub(crate) after: Vec<Files>,
    /// The objects that were loaded since the last sample.
    pub(crate) comings: Vec<usize>,
    /// The objects that went since the last sample.
    pub(crate) goings: Vec<usize>,
}

/// Items that were tried.
#[derive(Drop)]
struct Found {
    items: Vec<Observed>,
    poses: Vec<Pose>,
    /// Whether the items lead to the sample.
    fits: bool,
}

impl Found {
    fn of(attempt: Attempt<'_, '_>) -> Found {
        let Attempt {
            items: Items { list, .. },
            poses,
            fits,
            ..
        } = attempt;
        Found {
            items: list,
            poses,
            fits,
        }
    }
}

/// A sample that the run shows.
#[derive(Clone, Copy)]
pub struct ShownSample {
    /// The last line of the trace that is about the sample. Lines are counted from 1.
    pub last_line: u64,
    /// When the sample was begun.
    pub at: BootTime,
}

/// The run as far as it was found.
#[derive(Drop)]
pub struct Run<'a> {
    /// What the log names.
    pub functions: Functions<'a>,
    /// The tasks that the log follows, by their numbers in the trace.
    pub tasks: Vec<Followed<'a>>,
    /// The threads that get a number in the trace.
    pub(crate) threads: Vec<ThreadKey>,
    /// The mode of the task `OTHERS`. `None` before the first sample.
    pub(crate) mode_of_others: Option<Mode>,
    /// For each patch, what its files read in the last sample. `None` if the patch wasn't installed.
    pub files: Vec<Files>,
    /// For each object, whether it is loaded.
    pub(crate) loaded: Vec<bool>,
    /// The trace so far.
    pub trace: String,
    /// For each line of the trace, the index of its sample among those that the run shows. Lines that were tried for a
    /// sample to which nothing leads have the number of these samples.
    pub samples_of_lines: Vec<usize>,
    /// The samples that the run shows, in order of time.
    pub shown_samples: Vec<ShownSample>,
    /// How many of the threads that the log follows have no number in the trace.
    pub left_out: u64,
    /// How many samples were left out because a patch changed while they were taken.
    pub torn: u64,
    /// How many samples the run shows.
    pub shown: u64,
    /// The transitions that the log shows, in order of time.
    pub transitions: Vec<SeenTransition>,
    /// The last sample that the run reached. `None` before the first sample is reached.
    pub last: Option<usize>,
}

impl<'a> Run<'a> {
    /// Returns a run before its first sample.
    pub fn new(
        alloc: Global,
        capture: &Capture<'a>,
        functions: Functions<'a>,
    ) -> Result<Run<'a>, AllocError> {
        let FollowedThreads { followed, left_out } = followed_in(alloc, capture, &functions)?;
        let mut files = Vec::new(alloc);
        for _patch in &functions.patches {
            files.push(None)?;
        }
        let mut loaded = Vec::new(alloc);
        for object in 0..functions.objects.len() {
            loaded.push(object == 0)?;
        }
        Ok(Run {
            functions,
            tasks: Vec::new(alloc),
            threads: followed,
            mode_of_others: None,
            files,
            loaded,
            trace: String::new(alloc),
            samples_of_lines: Vec::new(alloc),
            shown_samples: Vec::new(alloc),
            left_out,
            torn: 0,
            shown: 0,
            transitions: Vec::new(alloc),
            last: None,
        })
    }

    /// Returns how many lines of the trace stand before the second sample. They were made up, to lead to what the first
    /// sample shows.
    pub fn set_up(&self) -> u64 {
        match self.shown_samples.first() {
            Some(first) => first.last_line,
            None => 0,
        }
    }

    /// Returns the threads that have a number in the trace.
    pub fn threads(&self, alloc: Global) -> Result<Vec<Thread>, AllocError> {
        let mut threads = Vec::new(alloc);
        for (number, task) in self.tasks.iter().enumerate() {
            threads.push(Thread {
                number,
                thread: task.thread,
                start: task.start,
            })?;
        }
        Ok(threads)
    }

    /// Returns what changed of the objects since the last sample: those that were loaded, and those that went.
    fn objects_changed(
        &self,
        alloc: Global,
        rows: &[PatchRow<'a>],
    ) -> Result<(Vec<usize>, Vec<usize>), AllocError> {
        let (mut comings, mut goings) = (Vec::new(alloc), Vec::new(alloc));
        // The first object is the kernel itself.
        for number in 1..self.functions.objects.len() {
            let was_loaded = self.loaded.get(number) == Some(&true);
            match self.functions.is_loaded_in(rows, number) {
                Some(true) if !was_loaded => comings.push(number)?,
                Some(false) if was_loaded => goings.push(number)?,
                _ => {}
            }
        }
        Ok((comings, goings))
    }

    /// Returns what the patches' files read before the sample, and which patches are cumulative.
    fn files_before(&self, alloc: Global) -> Result<PatchFiles, AllocError> {
        let mut before = PatchFiles {
            files: Vec::new(alloc),
            are_cumulative: Vec::new(alloc),
        };
        before.files.extend_from_slice(&self.files)?;
        for patch in &self.functions.patches {
            before.are_cumulative.push(patch.is_cumulative)?;
        }
        Ok(before)
    }

    /// Tries to lead the run to a sample by these events. Returns the items that were tried, and what they did.
    fn attempt<'r>(
        &'r self,
        alloc: Global,
        manager: &mut Manager,
        reach: &'r Reach<'a>,
        way: &[Move],
    ) -> Result<Attempt<'r, 'a>, AllocError>
        requires { IsWellFormed manager.old }
    {
        let mut attempt = Attempt::new(alloc, self, &reach.step, &reach.after)?;
        attempt.prepare(manager, &reach.comings, &reach.goings)?;
        for (number, event) in way.iter().enumerate() {
            // For the proof only: the contract of mark says that the manager is well-formed.
            let _for_its_clause = manager.mark();
            if attempt.fits {
                let rest = way.get(number.saturating_add(1)..).unwrap_or(&[]);
                attempt.go(manager, *event, rest)?;
            }
        }
        // For the proof only: the contract of mark says that the manager is well-formed.
        let _for_its_clause = manager.mark();
        attempt.see_all(manager)?;
        Ok(attempt)
    }

    /// Tries the straight way to a sample, and then detours. Returns the items that lead there, or those that were
    /// tried first.
    fn found(
        &self,
        alloc: Global,
        manager: &mut Manager,
        reach: &Reach<'a>,
    ) -> Result<Found, AllocError>
        requires { IsWellFormed manager.old }
    {
        let mark = manager.mark();
        let before = self.files_before(alloc)?;
        let straight = straight_way(alloc, &before, &reach.after)?;
        let none = Vec::new(alloc);
        let first = match &straight {
            Some(way) => Found::of(self.attempt(alloc, manager, reach, way)?),
            None => Found::of(self.attempt(alloc, manager, reach, &none)?),
        };
        if first.fits {
            return Ok(first);
        }
        for way in &detours(alloc, &before, &reach.after)? {
            let _ = manager.rewind(mark);
            // For the proof only: the contract of mark says that the manager is well-formed.
            let _for_its_clause = manager.mark();
            let found = Found::of(self.attempt(alloc, manager, reach, way)?);
            if found.fits {
                return Ok(found);
            }
        }
        let _ = manager.rewind(mark);
        Ok(first)
    }

    /// Looks for items that lead to a sample, passes their events to the manager, and adds them to the trace. Returns
    /// false if there are no such items. In this case, if the log is whole, the items that were tried first are added
    /// to the trace. A log that was cut off may lack the line of a force, so items tried for it aren't judged and
    /// aren't added.
    fn advance(
        &mut self,
        alloc: Global,
        manager: &mut Manager,
        capture: &Capture<'a>,
        number: usize,
        sample: &Sample,
    ) -> Result<bool, AllocError>
        requires { IsWellFormed manager.old }
    {
        let rows = sample.patches.of(&capture.rows);
        let after = self.files_at(alloc, rows)?;
        let (comings, goings) = self.objects_changed(alloc, rows)?;
        if self.last.is_none() {
            self.stand(&after);
        }
        let step = self.step(alloc, capture, number, sample)?;
        let reach = Reach {
            step,
            after,
            comings,
            goings,
        };
        if manager.mark() > MAX_BEFORE_A_SAMPLE {
            manager.seal();
        }
        // For the proof only: the contract of mark says that the manager is well-formed.
        let _for_its_clause = manager.mark();
        let found = self.found(alloc, manager, &reach)?;
        if found.fits || capture.is_whole {
            self.add_lines(&found.items, reach.step.at)?;
        }
        if found.fits {
            self.shown_samples.push(ShownSample {
                last_line: self.samples_of_lines.len() as u64,
                at: reach.step.at,
            })?;
            self.settle(reach, &found.poses);
        }
        Ok(found.fits)
    }

    /// Adds items to the trace, a line for each, with the sample's time.
    fn add_lines(&mut self, items: &[Observed], at: BootTime) -> Result<(), AllocError> {
        for item in items {
            write!(self.trace, "@{at} ")?;
            let mut lines = ItemLines {
                functions: &self.functions,
                text: &mut self.trace,
            };
            lines.write(item)?;
            self.samples_of_lines.push(self.shown_samples.len())?;
        }
        Ok(())
    }

    /// Whether the last transition so far is that of this patch to this target, and isn't known to have ended.
    fn is_under_way(&self, patch: usize, target: bool) -> bool {
        match self.transitions.last() {
            Some(moved) => moved.end.is_none() && moved.is_of(patch, target),
            None => false,
        }
    }

    /// Notes that the last transition has ended, if it was under way.
    fn note_end(&mut self, at: BootTime) {
        let Some(moved) = self.transitions.last_mut() else {
            return;
        };
        if moved.end.is_none() {
            let files = self.files.get(moved.patch).copied().unwrap_or(None);
            let ending = moved.ending_by(files);
            moved.end = Some(TransitionEnd { at, ending });
        }
    }

    /// Notes the transition that is under way in a sample. If no transition is under way, notes that the last one has
    /// ended.
    fn note_transition(
        &mut self,
        capture: &Capture<'a>,
        sample: &Sample,
        moving: Option<(usize, bool)>,
    ) -> Result<(), AllocError> {
        let at = sample.line.from;
        let Some((patch, target)) = moving else {
            self.note_end(at);
            return Ok(());
        };
        if self.is_under_way(patch, target) {
            if let Some(moved) = self.transitions.last_mut() {
                moved.to = at;
            }
            return Ok(());
        }
        self.note_end(at);
        let name = match self.functions.patches.get(patch) {
            Some(patch) => patch.name,
            None => b"",
        };
        let before = match self.last.and_then(|last| capture.samples.get(last)) {
            Some(last) => Some(last.line.from),
            None => None,
        };
        self.transitions.push(SeenTransition {
            patch,
            target,
            since: since_when(capture, name, target, sample, before),
            from: at,
            to: at,
            end: None,
        })?;
        Ok(())
    }

    /// Notes the state that the run has reached with a sample: which transition is under way, and which tasks lag.
    fn note(
        &mut self,
        manager: &Manager,
        capture: &Capture<'a>,
        sample: &Sample,
    ) -> Result<(), AllocError> {
        let moving = match manager.moving() {
            Some(moving) => Some((usize::from(moving.patch.0), moving.target)),
            None => None,
        };
        self.note_transition(capture, sample, moving)?;
        if moving.is_none() {
            return Ok(());
        }
        let transition = self.transitions.len().saturating_sub(1);
        let lags = manager.holders();
        for number in 0..self.tasks.len() {
            let lag = lags.get(number).copied().unwrap_or(None);
            if let Some(task) = self.tasks.get_mut(number) {
                // A task that isn't followed any longer is only awake in the run so that it may do anything.
                let lag = if task.is_left { None } else { lag };
                task.note_lag(lag, transition, sample.line.from)?;
            }
        }
        Ok(())
    }

    /// Leads the run from sample to sample, up to this time. Returns the number of the first sample to which nothing
    /// leads.
    pub fn explore(
        &mut self,
        alloc: Global,
        manager: &mut Manager,
        capture: &Capture<'a>,
        until: Option<BootTime>,
    ) -> Result<Option<usize>, AllocError>
        requires { IsWellFormed manager.old }
    {
        for (number, sample) in capture.samples.iter().enumerate() {
            let _for_its_clause = manager.mark();
            if until.is_some_and(|until| sample.line.to >= until) {
                break;
            }
            if !sample.is_settled() {
                self.torn = self.torn.saturating_add(1);
            } else if !self.advance(alloc, manager, capture, number, sample)? {
                return Ok(Some(number));
            } else {
                self.note(manager, capture, sample)?;
                self.last = Some(number);
                self.shown = self.shown.saturating_add(1);
            }
        }
        Ok(None)
    }
}
