//! Bars, of which a drawing is made: what each patch and each task did over time.

use crate::forces::Forces;
use crate::look::{Look, look_of_patch, look_of_task};
use crate::scale::Scale;
use crate::turn::{Sign, sign_of};
use klp_core::Manager;
use klp_names::Names;
use klp_timeline::{Moment, View};
use klp_types::{MAX_PATCHES, MAX_TASKS, Mode, PatchId, TaskId};
use std::alloc::{AllocError, Global};

/// The number of lanes. The first lanes are those of the patches, and the lanes of the tasks follow.
pub(crate) const LANES: usize = MAX_PATCHES + MAX_TASKS;

/// A line at which something happens to a transition, and what happens.
#[derive(Clone, Copy)]
pub(crate) struct Mark {
    pub line: u64,
    pub sign: Sign,
}

/// A bar from the line `from` up to the line `to`. The line `to` is the first line after the bar.
#[derive(Clone, Copy)]
pub(crate) struct Bar {
    pub from: u64,
    pub to: u64,
    pub look: Look,
}

/// What a patch or a task did so far.
#[derive(Clone, Copy, PartialEq, Eq)]
enum Role {
    /// It never existed.
    Absent,
    /// It existed, and did nothing. A task is idle as long as it stays in user space.
    Idle,
    Acts,
}

/// The lane of one patch or task, with its finished bars. If there is an unfinished bar, `look` is the look of that
/// bar, and `from` is the line at which it begins.
#[derive(Drop)]
struct Lane {
    from: u64,
    look: Option<Look>,
    role: Role,
    bars: Vec<Bar>,
}

/// The bars of all patches and tasks, while a run is observed line by line. If an allocation fails, `is_short` becomes
/// true, and [`Bars::close`] reports the failure.
#[derive(Drop)]
pub struct Bars {
    /// The lines in which a bar begins or ends, or in which something happens to a transition.
    changed: Vec<u64>,
    pub(crate) marks: Vec<Mark>,
    /// The lines at which a kernel differs from the rules.
    pub(crate) differing: Vec<u64>,
    pub(crate) scale: Scale,
    lanes: Vec<Lane>,
    forces: Forces,
    is_short: bool,
}

impl Lane {
    /// Returns a lane without bars, for a patch or task that hasn't existed yet.
    fn new(alloc: Global) -> Lane {
        Lane {
            from: 0,
            look: None,
            role: Role::Absent,
            bars: Vec::new(alloc),
        }
    }

    /// Ends the lane's unfinished bar at `line`, if there is one, and begins a bar with this look. If `look` is `None`,
    /// begins no bar: the lane is empty from this line on. `Err` if memory runs out.
    fn begin_bar(&mut self, line: u64, look: Option<Look>) -> Result<(), AllocError> {
        self.role = match look {
            // The look of an installed patch has the mode of a task in the kernel, so such a patch acts.
            Some(look) if look.mode != Mode::User => Role::Acts,
            Some(_) if self.role == Role::Absent => Role::Idle,
            _ => self.role,
        };
        let (from, before) = (self.from, self.look);
        self.from = line;
        self.look = look;
        if let Some(look) = before {
            self.bars.push(Bar {
                from,
                to: line,
                look,
            })?;
        }
        Ok(())
    }
}

impl Bars {
    /// Returns the bars of a run before its first line. Allocates nothing.
    pub fn new(alloc: Global) -> Bars {
        Bars {
            changed: Vec::new(alloc),
            marks: Vec::new(alloc),
            differing: Vec::new(alloc),
            scale: Scale::new(alloc),
            lanes: Vec::new(alloc),
            forces: Forces::new(alloc),
            is_short: false,
        }
    }

    /// Makes an empty lane for each patch and each task. `Err` if memory runs out.
    pub fn open(&mut self) -> Result<(), AllocError> {
        let alloc = *self.changed.allocator();
        for _lane in 0..LANES {
            self.lanes.push(Lane::new(alloc))?;
        }
        Ok(())
    }

    /// Returns what the patch or task of this lane has done so far. [`Bars::open`] makes the lanes, so before that it
    /// is absent.
    fn role(&self, number: usize) -> Role {
        match self.lanes.get(number) {
            Some(lane) => lane.role,
            None => Role::Absent,
        }
    }

    /// Whether this lane is drawn: its patch was installed after some line, or its task was in the kernel or asleep
    /// after some line.
    pub(crate) fn acts(&self, number: usize) -> bool {
        self.role(number) == Role::Acts
    }

    /// Whether this lane's task existed, but was in user space after each line. Such tasks are listed below the lanes.
    pub(crate) fn is_idle(&self, number: usize) -> bool {
        self.role(number) == Role::Idle
    }

    /// Returns the finished bars of a lane, in the order of their lines. After [`Bars::close`] all bars are finished.
    pub(crate) fn bars_of(&self, number: usize) -> &[Bar] {
        match self.lanes.get(number) {
            Some(lane) => lane.bars.as_slice(),
            None => &[],
        }
    }

    /// Gives a lane this look from this line on. Returns whether it had another look before. If memory runs out, notes
    /// that for [`Bars::close`].
    fn set_look(&mut self, number: usize, line: u64, look: Option<Look>) -> bool {
        let Some(lane) = self.lanes.get_mut(number) else {
            return false;
        };
        if lane.look == look {
            return false;
        }
        let is_short = lane.begin_bar(line, look).is_err();
        self.is_short |= is_short;
        true
    }

    /// If a line changed the transition, adds a mark and returns true. `sign` says what the line did to the transition.
    /// If it is `None`, adds nothing and returns false. If memory runs out, notes that for [`Bars::close`].
    fn mark(&mut self, line: u64, sign: Option<Sign>) -> bool {
        let Some(sign) = sign else {
            return false;
        };
        self.is_short |= self.marks.push(Mark { line, sign }).is_err();
        true
    }

    /// Follows what a line did to the transition, after which the journal has this many events. Returns whether it did
    /// anything. A rewind that only takes a force back, or brings one back, changes the transition, too.
    fn turn(&mut self, line: u64, before: &View, moment: &Moment, events: u32) -> bool {
        let was_forced = self.forces.is_forced();
        let sign = sign_of(before, moment);
        self.is_short |= self.forces.note(moment.act, sign, events).is_err();
        let back = if was_forced != self.forces.is_forced() {
            Some(Sign::Back)
        } else {
            None
        };
        self.mark(line, sign.or(back))
    }

    /// Gives each patch the look that it has after this line. `view` is the state after the line. Returns whether a
    /// look changed.
    fn update_patches(&mut self, line: u64, view: &View) -> bool {
        let mut is_changed = false;
        let is_forced = self.forces.is_forced();
        for number in 0..MAX_PATCHES {
            let was_there = self.role(number) != Role::Absent;
            let look = look_of_patch(view, PatchId(number as u8), is_forced, was_there);
            is_changed |= self.set_look(number, line, look);
        }
        is_changed
    }

    /// Gives each task the look that it has after this line. `view` is the state after the line. Returns whether a look
    /// changed.
    fn update_tasks(&mut self, line: u64, view: &View, manager: &Manager) -> bool {
        let mut is_changed = false;
        for number in 0..MAX_TASKS {
            let look = look_of_task(manager, TaskId(number as u8), &view.stays[number]);
            is_changed |= self.set_look(MAX_PATCHES + number, line, look);
        }
        is_changed
    }

    /// Updates the bars with the state after a line, which is `moment`. `before` is the state before the line. Call
    /// this for each line that did or undid an event, in order. No other line changes a bar.
    pub fn see(&mut self, line: u64, before: &View, moment: &Moment, manager: &Manager) {
        let view = &moment.view;
        let mut is_changed = self.turn(line, before, moment, manager.mark());
        // The look of a patch depends on nothing else.
        if is_changed || before.installed.as_slice() != view.installed.as_slice() {
            is_changed |= self.update_patches(line, view);
        }
        is_changed |= self.update_tasks(line, view, manager);
        if is_changed {
            self.is_short |= self.changed.push(line).is_err();
        }
    }

    /// Marks a line at which a kernel differs from the rules. It needs no place of its own, so where lines are cut out, it
    /// may share that of others.
    pub fn differ(&mut self, line: u64) {
        self.is_short |= self.differing.push(line).is_err();
    }

    /// Ends all bars after the run's last line, whose number is `lines`, and computes where each line is drawn. If each
    /// line that changes something has a time, the drawing is to scale by time. Otherwise lines are placed by their
    /// numbers. `Err` if memory runs out, or ran out before.
    pub fn close(&mut self, lines: u64, names: &Names) -> Result<(), AllocError> {
        for number in 0..LANES {
            self.set_look(number, lines.saturating_add(1), None);
        }
        if self.is_short {
            return Err(AllocError);
        }
        self.scale.measure(&self.changed, lines, names)
    }

    /// Returns the lines in which a bar begins or ends, or in which something happens to a transition.
    pub(crate) fn changed(&self) -> &[u64] {
        self.changed.as_slice()
    }
}
