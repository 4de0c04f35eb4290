//! Lists of tasks in words. Tasks that belong together share a line, and a list has at most `SHOWN` lines.
use crate::moment::Times;
use crate::report::{KernelHolderReport, LeftReport};
use crate::words::shown;
use std::io::Write;
use std::{fmt, io};

/// At most this many lines are written of each list.
pub(crate) const SHOWN: usize = 16;

/// Writes how many tasks a list leaves out.
fn print_left_out<W: Write>(more: usize, what: &str, out: &mut W) -> io::Result<()> {
    match more {
        0 => Ok(()),
        more => writeln!(out, "  and {more} more {what} (--json names them)"),
    }
}

/// Writes how many tasks a list leaves out that names only the first `SHOWN` ones.
pub(crate) fn print_more<W: Write>(count: usize, what: &str, out: &mut W) -> io::Result<()> {
    print_left_out(count.saturating_sub(SHOWN), what, out)
}

/// Whether two tasks are threads of one process, asleep in one function.
fn are_together(one: &LeftReport, other: &LeftReport) -> bool {
    one.task.process == other.task.process && one.function == other.function
}

/// Writes which tasks a force left asleep, or would leave asleep. `front` is the beginning of each line.
pub(crate) fn print_left<W: Write>(
    left: &[LeftReport],
    front: &str,
    out: &mut W,
) -> io::Result<()> {
    let (mut lines, mut more): (usize, usize) = (0, 0);
    for (place, one) in left.iter().enumerate() {
        if left
            .iter()
            .take(place)
            .any(|other| are_together(other, one))
        {
            continue;
        }
        let threads = left.iter().filter(|other| are_together(other, one)).count();
        let function = shown(&one.function);
        if lines >= SHOWN {
            more = more.saturating_add(threads);
        } else if threads > 1 {
            let (name, process) = (shown(&one.process_name), one.task.process);
            writeln!(
                out,
                "  {front}{threads} threads of {name}[{process}] asleep in the old {function}"
            )?;
        } else {
            let task = &one.task;
            writeln!(out, "  {front}{task} asleep in the old {function}")?;
        }
        lines = lines.saturating_add(1);
    }
    print_left_out(more, "sleep in such functions", out)
}

/// Whether two tasks slept in one function, by the kernel's log.
fn sleep_together(one: &KernelHolderReport, other: &KernelHolderReport) -> bool {
    one.function == other.function
}

/// The tasks that slept in one function, by the kernel's log.
#[derive(Clone, Copy)]
struct Together {
    tasks: usize,
    /// How many of them slept elsewhere, by the samples.
    elsewhere: usize,
    /// When the kernel last found one of them there.
    to_us: u64,
}

/// From when to when the kernel's log names tasks: `from 3.90 s to 5.90 s`, or `at 3.90 s`.
#[derive(Clone, Copy)]
struct Named {
    times: Times,
    from_us: u64,
    to_us: u64,
}

impl fmt::Display for Named {
    fn fmt<W: fmt::Write>(&self, f: &mut fmt::Formatter<W>) -> fmt::Result {
        let (from, to) = (self.times.at(self.from_us), self.times.at(self.to_us));
        if self.from_us == self.to_us {
            write!(f, "at {from}")
        } else {
            write!(f, "from {from} to {to}")
        }
    }
}

/// Counts the tasks that slept in the function in which this one did, by the kernel's log.
fn count_together(holders: &[KernelHolderReport], one: &KernelHolderReport) -> Together {
    let mut together = Together {
        tasks: 0,
        elsewhere: 0,
        to_us: one.to_us,
    };
    for other in holders {
        if sleep_together(other, one) {
            together.tasks = together.tasks.saturating_add(1);
            together.elsewhere = together
                .elsewhere
                .saturating_add(usize::from(other.slept_elsewhere));
            together.to_us = together.to_us.max(other.to_us);
        }
    }
    together
}

/// Writes that samples contradict the kernel's log, which has these tasks asleep in a function. Writes nothing if they
/// don't.
fn print_elsewhere<W: Write>(together: Together, out: &mut W) -> io::Result<()> {
    let elsewhere = together.elsewhere;
    if elsewhere == 0 {
        return Ok(());
    }
    if together.tasks == 1 {
        return writeln!(
            out,
            "    the samples have it asleep in no function of a patch then: one of the two is wrong"
        );
    }
    writeln!(
        out,
        "    the samples have {elsewhere} of them asleep in no function of a patch then: one of the two is wrong"
    )
}

/// Writes which tasks the kernel couldn't switch by its own log, though no sample shows that. The kernel's log has no
/// processes, so all that sleep in one function share a line.
pub(crate) fn print_kernel_holders<W: Write>(
    holders: &[KernelHolderReport],
    times: Times,
    out: &mut W,
) -> io::Result<()> {
    for (place, one) in holders.iter().enumerate() {
        if holders
            .iter()
            .take(place)
            .any(|other| sleep_together(other, one))
        {
            continue;
        }
        let together = count_together(holders, one);
        let tasks = together.tasks;
        let (name, thread, function) = (shown(&one.name), one.thread, shown(&one.function));
        let named = Named {
            times,
            from_us: one.from_us,
            to_us: together.to_us,
        };
        if tasks > 1 {
            writeln!(
                out,
                "  the kernel's log names {tasks} more as holders, asleep in {function}, {named}: \
                {name}[{thread}] is the first (--json names them)"
            )?;
        } else {
            writeln!(
                out,
                "  the kernel's log names {name}[{thread}] as a holder, asleep in {function}, {named}"
            )?;
        }
        print_elsewhere(together, out)?;
    }
    Ok(())
}
