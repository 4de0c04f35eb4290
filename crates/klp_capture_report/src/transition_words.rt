//! A transition in words: since when, how it ended, and who holds it up.
use crate::lists::{SHOWN, print_more};
use crate::moment::{SECOND, Seen, SeenSince, Times};
use crate::report::{
    Becomes, EndReport, GroupReport, HolderReport, HowEnded, LaggingReport, TaskReport, TornReport,
    TransitionReport, UnplacedReport, WhyLags,
};
use crate::words::shown;
use klp_capture::{BootTime, Elapsed};
use std::io::Write;
use std::{fmt, io};

/// Returns the time between two times, the earlier one first.
fn elapsed(from_us: u64, to_us: u64) -> Elapsed {
    Elapsed(BootTime(from_us), BootTime(to_us))
}

/// Returns what can free a sleeper: a signal wakes one in state S, and none a kernel thread. A killable sleep is shown as
/// state D, too, and `SIGKILL` ends it.
fn way_out(task: &TaskReport) -> &'static str {
    if task.is_kernel_thread {
        return "kill does nothing to it";
    }
    match task.state.as_str() {
        "S" => "a signal may free it",
        "T" => "it was stopped: SIGCONT lets it run",
        "t" => "a debugger has stopped it",
        _ => "at most kill -9 frees it, and not always",
    }
}

/// Whether a task has ended. It neither sleeps nor holds anything up, whatever the run says of it that was found.
fn has_ended(task: &TaskReport) -> bool {
    matches!(task.state.as_str(), "Z" | "X")
}

/// How a sleeper holds a transition up: asleep, with what can free it.
#[derive(Clone, Copy)]
struct Hold<'t> {
    task: &'t TaskReport,
    threads: u64,
}

impl fmt::Display for Hold<'_> {
    fn fmt<W: fmt::Write>(&self, f: &mut fmt::Formatter<W>) -> fmt::Result {
        let (state, way_out) = (shown(&self.task.state), way_out(self.task));
        let verb = if self.threads == 1 { "holds" } else { "hold" };
        write!(f, "{verb} it up: asleep ({state}: {way_out})")
    }
}

/// Returns when the kernel's own log first named a holder, or the first of some threads, if that was a second or more
/// before a sample showed it.
fn named_earlier(named_us: Option<u64>, from_us: u64) -> Option<u64> {
    named_us.filter(|named| named.saturating_add(SECOND) <= from_us)
}

/// Since when a task holds a transition up: by the kernel's own log if that named it earlier, and by the samples.
#[derive(Clone, Copy)]
struct Since {
    times: Times,
    named_us: Option<u64>,
    from_us: u64,
    last_us: u64,
}

impl fmt::Display for Since {
    fn fmt<W: fmt::Write>(&self, f: &mut fmt::Formatter<W>) -> fmt::Result {
        let from = self.times.at(self.from_us);
        match named_earlier(self.named_us, self.from_us) {
            Some(named_us) => {
                let (named, time) = (self.times.at(named_us), elapsed(named_us, self.last_us));
                let samples = if self.from_us == self.last_us {
                    "in the sample at"
                } else {
                    "in each sample since"
                };
                write!(
                    f,
                    ": named by the kernel's log since {named}, for {time} s, and asleep {samples} {from}"
                )
            }
            None => {
                let since = SeenSince {
                    times: self.times,
                    from_us: self.from_us,
                    last_us: self.last_us,
                };
                write!(f, " {since}")
            }
        }
    }
}

/// That the kernel's own log named a task earlier than the samples whose times follow. Printed as nothing if it didn't.
#[derive(Clone, Copy)]
struct NamedFrom(Times, Option<u64>);

impl fmt::Display for NamedFrom {
    fn fmt<W: fmt::Write>(&self, f: &mut fmt::Formatter<W>) -> fmt::Result {
        match self.1 {
            Some(named_us) => {
                let named = self.0.at(named_us);
                write!(
                    f,
                    "named by the kernel's log from {named} on, and by samples "
                )
            }
            None => Ok(()),
        }
    }
}

/// Writes which task holds the transition up, or held it up, and for how long.
fn print_holder<W: Write>(
    holder: &HolderReport,
    times: Times,
    last_us: u64,
    out: &mut W,
) -> io::Result<()> {
    let (task, function) = (&holder.task, shown(&holder.function));
    let kind = if task.is_kernel_thread {
        ", a kernel thread,"
    } else {
        ""
    };
    let (named_us, from_us) = (holder.named_us, holder.from_us);
    if holder.holds_still && has_ended(task) {
        let (state, from) = (shown(&task.state), times.at(from_us));
        writeln!(
            out,
            "  {task}{kind} has ended ({state}), and was asleep in {function} at {from}"
        )
    } else if holder.holds_still {
        let hold = Hold { task, threads: 1 };
        let since = Since {
            times,
            named_us,
            from_us,
            last_us,
        };
        writeln!(out, "  {task}{kind} {hold} in {function}{since}")
    } else {
        let seen = Seen {
            times,
            from_us,
            to_us: holder.to_us,
        };
        let named = NamedFrom(times, named_earlier(named_us, from_us));
        writeln!(
            out,
            "  {task}{kind} held it up, asleep in {function}, {named}{seen}"
        )
    }
}

/// Writes how many threads of a process hold the transition up, or held it up, in one function.
fn print_group<W: Write>(
    group: &GroupReport,
    holder: &HolderReport,
    times: Times,
    last_us: u64,
    out: &mut W,
) -> io::Result<()> {
    let (name, process, threads) = (shown(&group.process_name), group.process, group.threads);
    let function = shown(&holder.function);
    let (named_us, from_us) = (group.named_us, group.from_us);
    if holder.holds_still && has_ended(&holder.task) {
        let (state, from) = (shown(&holder.task.state), times.at(from_us));
        writeln!(
            out,
            "  {name}[{process}]: {threads} threads have ended ({state}), and were asleep in {function}, the first at {from}"
        )
    } else if holder.holds_still {
        let hold = Hold {
            task: &holder.task,
            threads,
        };
        let since = Since {
            times,
            named_us,
            from_us,
            last_us,
        };
        writeln!(
            out,
            "  {name}[{process}]: {threads} threads {hold} in {function}, the first{since}"
        )
    } else {
        let seen = Seen {
            times,
            from_us,
            to_us: group.to_us,
        };
        let named = NamedFrom(times, named_earlier(named_us, from_us));
        writeln!(
            out,
            "  {name}[{process}]: {threads} threads held it up, asleep in {function}, {named}one or more of them {seen}"
        )
    }
}

/// Writes who holds the transition up, or held it up. Threads of one process that sleep in one function share a line.
fn print_holders<W: Write>(
    transition: &TransitionReport,
    hold_still: bool,
    times: Times,
    out: &mut W,
) -> io::Result<()> {
    let (mut lines, mut more): (usize, u64) = (0, 0);
    for group in &transition.groups {
        let Some(holder) = transition.holders.get(group.first_holder) else {
            continue;
        };
        if holder.holds_still != hold_still {
            continue;
        }
        if lines >= SHOWN {
            more = more.saturating_add(group.threads);
        } else if group.threads > 1 {
            print_group(group, holder, times, transition.last_sample_us, out)?;
        } else {
            print_sleeps(transition, group, holder, times, out)?;
        }
        lines = lines.saturating_add(1);
    }
    let what = if hold_still {
        "hold it up"
    } else {
        "held it up"
    };
    match more {
        0 => Ok(()),
        more => writeln!(out, "  and {more} more {what} (--json names them)"),
    }
}

/// Writes each sleep of the only thread of a group.
fn print_sleeps<W: Write>(
    transition: &TransitionReport,
    group: &GroupReport,
    first: &HolderReport,
    times: Times,
    out: &mut W,
) -> io::Result<()> {
    for holder in transition.holders.iter().skip(group.first_holder) {
        if holder.task.thread == first.task.thread
            && holder.function == first.function
            && holder.holds_still == first.holds_still
        {
            print_holder(holder, times, transition.last_sample_us, out)?;
        }
    }
    Ok(())
}

/// Writes which task slept in a function that the log can't place.
fn print_unplaced<W: Write>(
    unplaced: &UnplacedReport,
    times: Times,
    out: &mut W,
) -> io::Result<()> {
    let (task, function) = (&unplaced.task, shown(&unplaced.function));
    let seen = Seen {
        times,
        from_us: unplaced.from_us,
        to_us: unplaced.to_us,
    };
    writeln!(
        out,
        "  {task} may have held it up: asleep {seen} in {function} of a patch's module, \
        which the log can't place"
    )
}

/// Writes which task only a torn sample at the log's end shows as not switched.
fn print_torn<W: Write>(
    lagging: &LaggingReport,
    torn: &TornReport,
    times: Times,
    out: &mut W,
) -> io::Result<()> {
    let (task, at) = (&lagging.task, times.at(torn.at_us));
    write!(out, "  {task} lags by the torn sample at {at} alone, ")?;
    if let Some(function) = &torn.function {
        return writeln!(out, "asleep in {}: it may hold it up", shown(function));
    }
    let how = match lagging.why {
        WhyLags::AsleepElsewhere | WhyLags::AsleepInside => {
            "asleep in no function that the log has of the patch"
        }
        WhyLags::AsleepUnplaced => {
            "asleep in a function of a patch's module that the log can't place: it may hold it up"
        }
        WhyLags::Runs => "and runs",
        WhyLags::RanMeanwhile => "and ran while it was read",
        WhyLags::Ended => "and has ended",
    };
    writeln!(out, "{how}")
}

/// Writes which task lags without holding the transition up.
fn print_lagging<W: Write>(lagging: &LaggingReport, times: Times, out: &mut W) -> io::Result<()> {
    if let Some(torn) = &lagging.torn {
        return print_torn(lagging, torn, times, out);
    }
    let task = &lagging.task;
    match lagging.why {
        WhyLags::AsleepElsewhere => writeln!(
            out,
            "  {task} lags, asleep in no function that the log has of the patch: a try switches it, \
            unless its stack can't be read"
        ),
        WhyLags::Runs if task.is_kernel_thread => writeln!(
            out,
            "  {task}, a kernel thread, lags, and runs: a try switches it once it sleeps elsewhere"
        ),
        WhyLags::Runs => writeln!(
            out,
            "  {task} lags, and runs: it is switched when it next leaves the kernel"
        ),
        WhyLags::AsleepUnplaced | WhyLags::AsleepInside => writeln!(
            out,
            "  {task} lags, asleep in a function of a patch's module that the log can't place: it may hold it up"
        ),
        WhyLags::RanMeanwhile => writeln!(
            out,
            "  {task} lags, and ran while it was read: it isn't known what it is inside of"
        ),
        WhyLags::Ended => writeln!(
            out,
            "  {task} lags, and has ended ({}): it is inside of no function",
            shown(&task.state)
        ),
    }
}

/// Returns in words how a transition ended.
fn ending(transition: &TransitionReport, end: EndReport) -> &'static str {
    match (end.how, transition.becomes) {
        (HowEnded::Complete, _) => "and that is complete",
        (HowEnded::Reversed, Becomes::Enabled) => "and that was reversed",
        (HowEnded::Reversed, Becomes::Disabled) => "and that was reversed: it stays enabled",
        (HowEnded::Forced, _) => "and then it was forced",
    }
}

/// Writes how many tasks a log only counts that held up a transition which has ended. As long as it goes on, they are
/// among the others.
fn print_counted<W: Write>(transition: &TransitionReport, out: &mut W) -> io::Result<()> {
    let counted = transition.counted_inside;
    if transition.end.is_none() || counted == 0 {
        return Ok(());
    }
    writeln!(
        out,
        "  up to {counted} more were unswitched inside of patched functions: the log counts them without a line of their own"
    )
}

/// Writes since when a transition goes on, or from when to when it went on, and who holds or held it up.
pub(crate) fn print_transition<W: Write>(
    transition: &TransitionReport,
    times: Times,
    out: &mut W,
) -> io::Result<()> {
    let (name, way) = (shown(&transition.patch), transition.becomes);
    let since = times.at(transition.since_us);
    let or_before = if transition.is_start_known {
        ""
    } else {
        " or before"
    };
    match transition.end {
        Some(end) => {
            let (time, ending) = (
                elapsed(transition.since_us, end.at_us),
                ending(transition, end),
            );
            writeln!(
                out,
                "{name} was being {way} from {since}{or_before}, for {time} s, {ending}"
            )?;
        }
        None if transition.since_us == transition.last_sample_us => {
            writeln!(
                out,
                "{name} is being {way} since {since}{or_before} (seen once)"
            )?;
        }
        None => {
            let time = elapsed(transition.since_us, transition.last_sample_us);
            writeln!(
                out,
                "{name} is being {way} since {since}{or_before}, for {time} s so far"
            )?;
        }
    }
    print_holders(transition, false, times, out)?;
    print_holders(transition, true, times, out)?;
    print_counted(transition, out)?;
    for unplaced in transition.unplaced.iter().take(SHOWN) {
        print_unplaced(unplaced, times, out)?;
    }
    print_more(transition.unplaced.len(), "may hold it up", out)?;
    for lagging in transition.lagging.iter().take(SHOWN) {
        print_lagging(lagging, times, out)?;
    }
    print_more(transition.lagging.len(), "lag", out)
}

/// Writes what turns a transition back, if a task holds it up.
pub(crate) fn print_way_back<W: Write>(
    transition: &TransitionReport,
    out: &mut W,
) -> io::Result<()> {
    if !transition.holders.iter().any(|holder| holder.holds_still) {
        return Ok(());
    }
    let name = shown(&transition.patch);
    let (before, then) = match transition.becomes {
        Becomes::Enabled => (0, ", so that its fix isn't applied"),
        Becomes::Disabled => (1, ""),
    };
    writeln!(
        out,
        "  to turn {name} back, write {before} to /sys/kernel/livepatch/{name}/enabled{then}; what else can help is in klpsee(1), HOLDERS"
    )
}
