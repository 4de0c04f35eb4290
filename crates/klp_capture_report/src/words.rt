//! A report in words.
use crate::lists::{SHOWN, print_kernel_holders, print_left, print_more};
use crate::moment::Times;
use crate::report::{
    Becomes, BrokenReport, EndReport, HowEnded, InsideReport, KernelLogReport, NotExplainedReport,
    NotSeen, Report, TaskReport, VerdictReport,
};
use crate::transition_words::{print_transition, print_way_back};
use httpdate::HttpDate;
use klp_messages::Escaped;
use std::io::Write;
use std::{fmt, io};

/// Returns a name without bytes that would control a terminal.
pub(crate) fn shown(name: &String) -> Escaped<'_> {
    Escaped(name.as_bytes())
}

/// Prints a task as its name and its thread's number, such as `billing[90]`.
impl fmt::Display for TaskReport {
    fn fmt<W: fmt::Write>(&self, f: &mut fmt::Formatter<W>) -> fmt::Result {
        let (name, thread) = (shown(&self.name), self.thread);
        write!(f, "{name}[{thread}]")
    }
}

impl fmt::Display for Becomes {
    fn fmt<W: fmt::Write>(&self, f: &mut fmt::Formatter<W>) -> fmt::Result {
        f.write_str(match self {
            Becomes::Enabled => "enabled",
            Becomes::Disabled => "disabled",
        })
    }
}

/// Some tasks: `1 task` or `3 tasks`.
#[derive(Clone, Copy)]
struct Tasks(u64);

impl fmt::Display for Tasks {
    fn fmt<W: fmt::Write>(&self, f: &mut fmt::Formatter<W>) -> fmt::Result {
        match self.0 {
            1 => write!(f, "1 task"),
            count => write!(f, "{count} tasks"),
        }
    }
}

impl Report {
    /// Writes how many tasks lag without being followed.
    fn print_others<W: Write>(&self, out: &mut W) -> io::Result<()> {
        let others = self.others;
        let inside = others.inside.unwrap_or(0);
        if inside > 0 {
            writeln!(
                out,
                "  {inside} more are unswitched inside of patched functions: the log counts them without a line of their own, \
                and its lines of the kernel may name them"
            )?;
        }
        if others.running > 0 || others.sleeping > 0 {
            let (tasks, running, sleeping) = (others.tasks, others.running, others.sleeping);
            let place = match others.inside {
                Some(_) => " elsewhere",
                None => ": the log doesn't say where, so they may hold it up",
            };
            writeln!(
                out,
                "  of {tasks} tasks {running} more lag and run, and {sleeping} more lag asleep{place}"
            )?;
        } else if inside == 0 && self.nobody_lags {
            writeln!(
                out,
                "  no task that the log names or counts lags: an idle task may hold it up, which /proc doesn't show"
            )?;
        }
        self.print_torn_counts(out)?;
        if others.left_out > 0 {
            let left_out = others.left_out;
            let tasks = if left_out == 1 {
                "task is"
            } else {
                "tasks are"
            };
            writeln!(
                out,
                "  {left_out} more {tasks} named by the log and not judged: only 63 can be"
            )?;
        }
        Ok(())
    }

    /// Writes how many tasks a torn sample at the log's end counts as lagging, if only such a sample does.
    fn print_torn_counts<W: Write>(&self, out: &mut W) -> io::Result<()> {
        match self.others.torn {
            0 => Ok(()),
            1 => writeln!(
                out,
                "  a torn sample at the end counts 1 task that lags: it may hold it up"
            ),
            torn => writeln!(
                out,
                "  a torn sample at the end counts {torn} tasks that lag: they may hold it up"
            ),
        }
    }

    /// Writes how many functions were left out because a catalog has no room for them, and how many names of functions
    /// were shortened because a catalog has no room for names so long.
    fn print_limits<W: Write>(&self, out: &mut W) -> io::Result<()> {
        let (left_out, shortened) = (self.others.functions_left_out, self.others.names_cut);
        if left_out > 0 {
            writeln!(
                out,
                "{left_out} functions of the patches were left out: a catalog has no room for them"
            )?;
        }
        if shortened > 0 {
            writeln!(
                out,
                "{shortened} names of functions were shortened: a catalog has no room for names so long"
            )?;
        }
        Ok(())
    }

    fn print_transitions<W: Write>(&self, out: &mut W) -> io::Result<()> {
        for transition in &self.transitions {
            print_transition(transition, self.times(), out)?;
        }
        if self.transitions.is_empty() {
            let what = match (self.samples.left_out, self.samples.later) {
                (0, 0) => "no patch was in transition",
                (_, 0) => "no whole sample shows a transition, though a patch changed",
                _ => "no whole sample before the first unexplained one shows a transition",
            };
            writeln!(out, "{what}")?;
        }
        print_kernel_holders(&self.kernel_holders, self.times(), out)?;
        match self.transitions.last() {
            Some(last) if last.end.is_none() => {
                self.print_others(out)?;
                match self.verdict {
                    VerdictReport::Explained => {
                        print_left(&self.left_by_force, "forced now, it would leave ", out)?;
                        self.print_unlisted_left(out)?;
                        print_way_back(last, out)
                    }
                    _ => Ok(()),
                }
            }
            Some(last)
                if matches!(
                    last.end,
                    Some(EndReport {
                        how: HowEnded::Forced,
                        ..
                    })
                ) => { print_left(&self.left_by_force, "the force left ", out) }
            _ => Ok(()),
        }
    }

    /// Writes that a force may leave tasks asleep that the report doesn't list.
    fn print_unlisted_left<W: Write>(&self, out: &mut W) -> io::Result<()> {
        if self.others.inside.unwrap_or(0) > 0 || self.others.left_out > 0 {
            writeln!(
                out,
                "  forced now, it may leave tasks asleep, too, that have no line here"
            )?;
        }
        Ok(())
    }

    /// Writes the tasks that are inside of functions for which `klpcap` was told to look.
    fn print_inside<W: Write>(&self, out: &mut W) -> io::Result<()> {
        for inside in self.inside.iter().take(SHOWN) {
            print_inside(inside, out)?;
        }
        print_more(self.inside.len(), "are inside of them", out)?;
        let counted = self.others.inside.unwrap_or(0).max(self.others.torn);
        if counted > 0 {
            writeln!(
                out,
                "{counted} more are inside of them: the log counts them without a line of their own"
            )?;
        }
        let holders = self.inside.iter().filter(|inside| inside.is_asleep).count();
        let others = self.inside.len().saturating_sub(holders) as u64;
        self.print_would_hold(holders as u64, others.saturating_add(counted), out)
    }

    /// Writes how many tasks would hold a transition up, and how many more may.
    fn print_would_hold<W: Write>(&self, holders: u64, others: u64, out: &mut W) -> io::Result<()> {
        write!(out, "if these functions were patched now, ")?;
        let (would, may) = (Tasks(holders), Tasks(others));
        match (holders, others) {
            (0, 0) if self.nobody_inside => writeln!(out, "0 tasks would hold it up"),
            (0, 0) => writeln!(
                out,
                "it isn't known whether a task would hold it up: not all was read that would say so. Record again"
            ),
            (0, _) => writeln!(out, "{may} may hold it up"),
            (_, 0) => writeln!(out, "{would} would hold it up"),
            _ => writeln!(out, "{would} would hold it up, and {others} more may"),
        }
    }

    /// Writes that the log lacks its last lines, if it does.
    fn print_cut_off<W: Write>(&self, out: &mut W) -> io::Result<()> {
        if self.is_cut_off {
            writeln!(
                out,
                "the log was cut off: what is told is as of its last whole sample"
            )?;
        }
        Ok(())
    }

    /// Writes what was taken from a catalog, if one was given.
    fn print_catalog<W: Write>(&self, out: &mut W) -> io::Result<()> {
        if let Some(catalog) = &self.catalog {
            let catalog = shown(catalog);
            writeln!(
                out,
                "by {catalog}: the names of new functions, system states and callbacks, and which patches are cumulative if the log doesn't say so"
            )?;
        }
        Ok(())
    }

    fn print_verdict<W: Write>(&self, out: &mut W) -> io::Result<()> {
        self.print_limits(out)?;
        self.print_catalog(out)?;
        if let Some(at) = self.forced_at_us {
            let at = self.times().at(at);
            writeln!(
                out,
                "the transition was forced at {at}, which breaks a premise of the consistency model: \
                what came then isn't judged"
            )?;
        }
        self.print_cut_off(out)?;
        if let Some(broken) = &self.broken {
            return print_broken(broken, self.times(), out);
        }
        if self.verdict == VerdictReport::Explained {
            return self.print_explained(out);
        }
        if let Some(differs) = &self.kernel_log_differs {
            print_kernel_log(differs, self.times(), out)?;
        }
        match &self.not_explained {
            Some(lacking) => self.print_not_explained(lacking, out),
            None => Ok(()),
        }
    }

    /// Writes that a run of the rules shows the samples, and what that means.
    fn print_explained<W: Write>(&self, out: &mut W) -> io::Result<()> {
        let (shown, left_out) = (self.samples.shown, self.samples.left_out);
        match shown {
            1 => write!(
                out,
                "explained: the livepatch rules allow what the one sample shows"
            )?,
            _ => write!(
                out,
                "explained: the livepatch rules allow what each of {shown} samples shows"
            )?,
        }
        match left_out {
            0 => writeln!(out)?,
            1 => writeln!(
                out,
                "; 1 more is torn: a patch changed while it was taken, or klpcap was stopped"
            )?,
            _ => writeln!(
                out,
                "; {left_out} more are torn: a patch changed while they were taken, or klpcap was stopped"
            )?,
        }
        match self.forced_at_us {
            Some(_) => Ok(()),
            None if self.under_way().is_some() => writeln!(
                out,
                "so far no task runs code that is gone, as the consistency model promises; a force would end this promise"
            ),
            None => writeln!(
                out,
                "as far as was seen, no task ran code that was gone, as the consistency model promises"
            ),
        }
    }

    /// Writes the sample to which no tried run leads, with the states of the log and of one of these runs.
    fn print_not_explained<W: Write>(
        &self,
        lacking: &NotExplainedReport,
        out: &mut W,
    ) -> io::Result<()> {
        let times = self.times();
        let (from, to) = (times.at(lacking.from_us), times.at(lacking.to_us));
        writeln!(
            out,
            "not explained: no run was found that shows the sample from {from} to {to}"
        )?;
        if let Some(log) = &lacking.log {
            writeln!(out, "  the log has {}", shown(log))?;
        }
        if let Some(rules) = &lacking.rules {
            writeln!(out, "  in a run that was tried, {}", shown(rules))?;
        }
        if let Some(at) = self.first_forced_us {
            let at = times.at(at);
            writeln!(
                out,
                "  a transition was forced at {at}, which would explain it"
            )?;
        }
        if self.is_cut_off {
            writeln!(
                out,
                "  the log may lack the kernel's line of a force, which would explain it"
            )?;
        }
        writeln!(
            out,
            "this accuses nobody: the kernel may have done between two samples what the search doesn't try. \
            Samples in shorter time (klpcap -i 0.05) leave less to guess"
        )
    }

    /// Writes by which time of day the times are to be read, if the log says that.
    fn print_boot<W: Write>(&self, out: &mut W) -> io::Result<()> {
        if let Some(booted) = self.booted
            && let Ok(date) = HttpDate::from_unix_secs(booted)
        {
            writeln!(out, "second 0, its boot, was {date}, within a second")?;
        }
        Ok(())
    }

    /// Writes what couldn't be read, and what to do.
    fn print_not_seen<W: Write>(&self, out: &mut W) -> io::Result<()> {
        for lacking in &self.not_seen {
            match lacking {
                NotSeen::File(file) => writeln!(
                    out,
                    "the kernel doesn't show {}: is this root, and is it configured?",
                    shown(file)
                )?,
                NotSeen::Function(function) => writeln!(
                    out,
                    "the kernel has no function {}: it may be misspelled, inlined, or there under a longer name \
                    (grep it in /proc/kallsyms)",
                    shown(function)
                )?,
                NotSeen::Sample => writeln!(
                    out,
                    "the log has no sample to explain: each was taken while a patch changed, or after a force"
                )?,
            }
        }
        writeln!(
            out,
            "so it isn't known who holds a transition up, or would: record again"
        )
    }
}

/// Writes the line of the kernel's own log that a later sample contradicts.
fn print_kernel_log<W: Write>(
    differs: &KernelLogReport,
    times: Times,
    out: &mut W,
) -> io::Result<()> {
    let (patch, at, sample) = (
        shown(&differs.patch),
        times.at(differs.at_us),
        times.at(differs.sample_us),
    );
    let (said, shows) = if differs.says_complete {
        ("was complete", "is under way")
    } else {
        ("had started", "isn't under way")
    };
    writeln!(
        out,
        "not explained: by the kernel's log the transition of {patch} {said} at {at}, and in the sample at \
        {sample} it {shows}"
    )
}

/// What a sample has, and what the rules say of it. If that names an earlier sample's time, the time of day follows, if the log
/// has that.
#[derive(Clone, Copy)]
pub struct BrokenWords<'r> {
    broken: &'r BrokenReport,
    times: Times,
}

impl fmt::Display for BrokenWords<'_> {
    fn fmt<W: fmt::Write>(&self, f: &mut fmt::Formatter<W>) -> fmt::Result {
        let (why, times) = (shown(&self.broken.why), self.times);
        match self.broken.earlier_us {
            Some(at) if times.are_of_day() => {
                let at = times.at(at);
                write!(f, "{why}; that was at {at}")
            }
            _ => write!(f, "{why}"),
        }
    }
}

impl BrokenReport {
    /// Returns in words what the sample has, and what the rules say of it.
    pub fn in_words(&self, times: Times) -> BrokenWords<'_> {
        BrokenWords {
            broken: self,
            times,
        }
    }
}

/// Writes a sample that contradicts the rules.
fn print_broken<W: Write>(broken: &BrokenReport, times: Times, out: &mut W) -> io::Result<()> {
    let (from, to) = (times.at(broken.from_us), times.at(broken.to_us));
    let unless = if broken.unless_forced {
        "unless a transition was forced before it"
    } else {
        "whatever came before it"
    };
    writeln!(
        out,
        "broken: the livepatch rules don't allow what the sample from {from} to {to} shows, {unless}"
    )?;
    writeln!(out, "  {}", broken.in_words(times))?;
    let or_forced = if broken.unless_forced {
        ", or the kernel's own log has lost the line of a force"
    } else {
        ""
    };
    writeln!(
        out,
        "either the kernel or the patch broke the rules, or the log isn't what the kernel did{or_forced}"
    )
}

/// Writes a task that is inside of a function for which `klpcap` was told to look.
fn print_inside<W: Write>(inside: &InsideReport, out: &mut W) -> io::Result<()> {
    let (task, function) = (&inside.task, shown(&inside.function));
    if inside.is_asleep {
        write!(out, "{task} would hold it up: it is asleep in {function}")?;
    } else if task.state.as_str() == "R" {
        write!(
            out,
            "{task} runs, and was seen in {function}: it may hold it up"
        )?;
    } else {
        write!(
            out,
            "{task} was seen in {function}, and ran while it was read: it may hold it up"
        )?;
    }
    match inside.samples {
        0 | 1 => writeln!(out),
        samples => writeln!(out, " (in {samples} samples)"),
    }
}

/// Writes which patch is in transition and since when, which tasks hold the transition up, and whether the rules
/// explain the log.
pub fn print_report<W: Write>(report: &Report, out: &mut W) -> io::Result<()> {
    if report.verdict == VerdictReport::NotSeen {
        return report.print_not_seen(out);
    }
    if report.is_preflight {
        report.print_inside(out)?;
        if report.transitions.is_empty() && report.verdict == VerdictReport::Explained {
            return report.print_cut_off(out);
        }
    }
    report.print_transitions(out)?;
    report.print_verdict(out)?;
    report.print_boot(out)
}
