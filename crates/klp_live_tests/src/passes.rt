//! Tests the passes of two tasks at one start: which events each pass is told of, and which versions its calls run.
ghost use Rattle.std.specs.Prelude.{◌<◌};
ghost use Rattle.klp_types.specs.declared.limits.TheConstants.{MAX_TASKS};

use crate::names::{FIRST, LATER, NOWHERE, PATCH, PATCHED, SECOND};
use crate::open_starts::{OpenStart, TwoSeats};
use crate::outcomes::{Answered, answer_of, show_answer, show_found};
use crossbeam_utils::rule::Protocol;
use klp_core::Machine;
use klp_live::{Published, Start, TaskPass, View};
use klp_model::Event;
use klp_types::{Site, TaskId};
use std::io;
use std::sync::Wait;

/// What the passes of a start do.
#[derive(Clone, Copy)]
pub(crate) enum Story {
    /// The first task enables a patch, and the second one is told.
    Heard,
    /// The first task's events switch the second one, which isn't told.
    Unheard,
    /// A task takes a seat before it exists.
    Absent,
    /// The first task leaves the kernel so often that the history gets long. Then both tasks enter a function.
    Long,
    /// All seats are returned at once, without being used.
    Idle,
}

/// What a pass does.
#[derive(Clone, Copy)]
enum Act {
    /// Enters a function.
    Enter(Site),
    /// Submits an event.
    Submit(Event),
    /// Submits an event, and tells the other pass of the event.
    SubmitHeard(Event),
    /// Submits [`CYCLES`] times that the first task enters the kernel and leaves it.
    Cycle,
}

/// How often the first task leaves the kernel, to make a long history. All events fit into the journal.
const CYCLES: u64 = 1_500;

/// The pass that acts, and its act. The pass is the first or the second.
#[derive(Clone, Copy)]
enum Turn {
    First(Act),
    Second(Act),
}

/// The first task enables a patch. It leaves the kernel once, and after that runs the patch. The second task is told
/// that the patch was enabled. It still runs the original, since it hasn't left the kernel.
fn heard() -> [Turn; 7] {
    const ALL: [Turn; 7] = [
        Turn::First(Act::SubmitHeard(Event::Enable(PATCH))),
        Turn::First(Act::Enter(PATCHED)),
        Turn::First(Act::Submit(Event::EnterKernel(FIRST))),
        Turn::First(Act::Submit(Event::ExitToUser(FIRST))),
        Turn::First(Act::Enter(PATCHED)),
        Turn::Second(Act::Enter(PATCHED)),
        Turn::Second(Act::Submit(Event::Enable(PATCH))),
    ];
    ALL
}

/// The first task's events switch the second task. The second task runs the right version without being told.
fn unheard() -> [Turn; 8] {
    const ALL: [Turn; 8] = [
        Turn::First(Act::Submit(Event::Enable(PATCH))),
        Turn::First(Act::Submit(Event::EnterKernel(SECOND))),
        Turn::First(Act::Submit(Event::ExitToUser(SECOND))),
        Turn::Second(Act::Enter(PATCHED)),
        Turn::First(Act::Submit(Event::SetEnabled(PATCH, false))),
        Turn::First(Act::Submit(Event::EnterKernel(SECOND))),
        Turn::First(Act::Submit(Event::ExitToUser(SECOND))),
        Turn::Second(Act::Enter(PATCHED)),
    ];
    ALL
}

/// A task enters no function before it begins, and none after it has ended.
fn absent() -> [Turn; 6] {
    const ALL: [Turn; 6] = [
        Turn::First(Act::Enter(PATCHED)),
        Turn::First(Act::Enter(NOWHERE)),
        Turn::First(Act::Submit(Event::NewTask(LATER))),
        Turn::First(Act::Enter(PATCHED)),
        Turn::First(Act::Submit(Event::EndTask(LATER))),
        Turn::First(Act::Enter(PATCHED)),
    ];
    ALL
}

/// Entries find the newest table, however many events the history has.
fn long() -> [Turn; 4] {
    const ALL: [Turn; 4] = [
        Turn::First(Act::SubmitHeard(Event::Enable(PATCH))),
        Turn::First(Act::Cycle),
        Turn::First(Act::Enter(PATCHED)),
        Turn::Second(Act::Enter(PATCHED)),
    ];
    ALL
}

/// Returns the task that gets the first seat.
fn first_of(story: Story) -> TaskId
    ensures { result < MAX_TASKS }
{
    match story {
        Story::Absent => LATER,
        _ => FIRST,
    }
}

impl<S, M, R> OpenStart<'_, '_, S, M, R>
where
    S: Start + Protocol<Published, View>,
    M: Machine + Drop,
    R: Wait + Print,
{
    /// Submits an event from `pass`. If `is_heard`, tells the other pass of the event.
    fn submitted(
        &self,
        pass: &mut TaskPass<S>,
        other: &mut TaskPass<S>,
        event: Event,
        is_heard: bool,
    ) -> Answered {
        let live = self.live;
        let came = pass.submit(self.rt, self.alloc, live, event);
        if is_heard && let Ok(receipt) = &came {
            other.hear(receipt);
        }
        answer_of(came)
    }

    /// Submits that the first task enters the kernel and leaves it. Returns the answer to the latter.
    fn cycled(&self, pass: &mut TaskPass<S>, other: &mut TaskPass<S>) -> Answered {
        let _ = self.submitted(pass, other, Event::EnterKernel(FIRST), false);
        self.submitted(pass, other, Event::ExitToUser(FIRST), false)
    }

    /// Submits all cycles, and prints the last answer.
    fn show_cycles(&self, pass: &mut TaskPass<S>, other: &mut TaskPass<S>) -> io::Result<()> {
        for _cycle in 1..CYCLES {
            let _ = self.cycled(pass, other);
        }
        show_answer(self.rt, &self.cycled(pass, other))
    }

    /// Lets `pass` do this act, and prints the result.
    fn show_act(
        &self,
        pass: &mut TaskPass<S>,
        other: &mut TaskPass<S>,
        act: Act,
    ) -> io::Result<()> {
        let rt = self.rt;
        match act {
            Act::Enter(site) => show_found(rt, &pass.enter(site)),
            Act::Submit(event) => show_answer(rt, &self.submitted(pass, other, event, false)),
            Act::SubmitHeard(event) => show_answer(rt, &self.submitted(pass, other, event, true)),
            Act::Cycle => self.show_cycles(pass, other),
        }
    }

    /// Lets the two passes take these turns.
    fn show_turns(
        &self,
        first: &mut TaskPass<S>,
        second: &mut TaskPass<S>,
        turns: &[Turn],
    ) -> io::Result<()> {
        for turn in turns {
            match *turn {
                Turn::First(act) => self.show_act(first, second, act)?,
                Turn::Second(act) => self.show_act(second, first, act)?,
            }
        }
        Ok(())
    }

    /// Prints what the passes do in this story.
    fn show_story(
        &self,
        first: &mut TaskPass<S>,
        second: &mut TaskPass<S>,
        story: Story,
    ) -> io::Result<()> {
        match story {
            Story::Heard => self.show_turns(first, second, &heard()),
            Story::Unheard => self.show_turns(first, second, &unheard()),
            Story::Absent => self.show_turns(first, second, &absent()),
            Story::Long => self.show_turns(first, second, &long()),
            Story::Idle => Ok(()),
        }
    }

    /// Gives the two seats to two tasks, lets them do what the story says, and returns the seats.
    pub(crate) fn passed(&self, seats: TwoSeats<S>, story: Story) -> (TwoSeats<S>, io::Result<()>) {
        let mut first = self.attached(seats.0, first_of(story));
        let mut second = self.attached(seats.1, SECOND);
        let came = self.show_story(&mut first, &mut second, story);
        ((first.detach(), second.detach()), came)
    }
}
