//! The numbers of machines, in the text format of Prometheus.
use crate::label::Label;
use crate::machine::{Machine, SECOND};
use klp_capture_report::{Becomes, HolderReport, TransitionReport, VerdictReport};
use std::alloc::{AllocError, Global};
use std::io;
use std::io::Write;

/// For each machine at most this many processes have a number of holders of their own. The others share one.
const PROCESSES: usize = 16;

/// The name under which the other processes are counted.
const OTHERS: &str = "(other processes)";

/// The verdicts, each with its name.
const VERDICTS: [(VerdictReport, &str); 4] = [
    (VerdictReport::Explained, "explained"),
    (VerdictReport::Broken, "broken"),
    (VerdictReport::NotExplained, "not_explained"),
    (VerdictReport::NotSeen, "not_seen"),
];

/// Writes what a number means, and that it may rise and fall.
fn begin<W: Write>(name: &str, help: &str, out: &mut W) -> io::Result<()> {
    writeln!(out, "# HELP {name} {help}")?;
    writeln!(out, "# TYPE {name} gauge")
}

fn becomes(moved: &TransitionReport) -> &'static str {
    match moved.becomes {
        Becomes::Enabled => "enabled",
        Becomes::Disabled => "disabled",
    }
}

/// Returns what can free a holder: nothing from outside frees a kernel thread, a signal a sleep in state S.
fn kind_of(holder: &HolderReport) -> &'static str {
    if holder.task.is_kernel_thread {
        "kernel_thread"
    } else if holder.task.state.as_str() == "S" {
        "signal"
    } else {
        "uninterruptible"
    }
}

/// How many threads of a process hold the transition up, of those that the same can free.
#[derive(Clone, Copy)]
struct Holding<'a> {
    process: &'a str,
    kind: &'static str,
    threads: u64,
}

/// Returns how many threads of each process hold the transition up. Processes of one name are counted together.
fn holding_of<'a>(
    alloc: Global,
    moved: &'a TransitionReport,
) -> Result<Vec<Holding<'a>>, AllocError> {
    let mut holding: Vec<Holding<'a>> = Vec::new(alloc);
    for group in &moved.groups {
        let Some(first) = moved.holders.get(group.first_holder) else {
            continue;
        };
        if !first.holds_still {
            continue;
        }
        let kind = kind_of(first);
        let has_room = holding.len() < PROCESSES;
        let named = group.process_name.as_str();
        let is_known = holding
            .iter()
            .any(|own| own.process == named && own.kind == kind);
        let process = if is_known || has_room { named } else { OTHERS };
        match holding
            .iter_mut()
            .find(|own| own.process == process && own.kind == kind)
        {
            Some(own) => own.threads = own.threads.saturating_add(group.threads),
            None => holding.push(Holding {
                process,
                kind,
                threads: group.threads,
            })?,
        }
    }
    Ok(holding)
}

fn print_transitions<W: Write>(machines: &[Machine], out: &mut W) -> io::Result<()> {
    begin(
        "klp_transition",
        "Whether a livepatch transition is under way in the last sample.",
        out,
    )?;
    for machine in machines {
        let host = Label(machine.name());
        match machine.under_way() {
            Some(moved) => {
                let (patch, becomes) = (Label(moved.patch.as_str()), becomes(moved));
                writeln!(
                    out,
                    "klp_transition{{host=\"{host}\",patch=\"{patch}\",becomes=\"{becomes}\"}} 1"
                )?;
            }
            None => writeln!(
                out,
                "klp_transition{{host=\"{host}\",patch=\"\",becomes=\"\"}} 0"
            )?,
        }
    }
    Ok(())
}

/// Writes since when transitions are under way, and how long.
fn print_times<W: Write>(machines: &[Machine], out: &mut W) -> io::Result<()> {
    begin(
        "klp_transition_seconds",
        "How long the transition has been under way in the last sample. If its start isn't known, at least so long.",
        out,
    )?;
    for machine in machines {
        let (host, seconds) = (Label(machine.name()), machine.duration() / SECOND);
        writeln!(out, "klp_transition_seconds{{host=\"{host}\"}} {seconds}")?;
    }
    begin(
        "klp_transition_since_timestamp_seconds",
        "Since when the transition is under way, or since before.",
        out,
    )?;
    for machine in machines {
        let host = Label(machine.name());
        if let Some(moved) = machine.under_way()
            && let Some(since) = machine.epoch(moved.since_us)
        {
            writeln!(
                out,
                "klp_transition_since_timestamp_seconds{{host=\"{host}\"}} {since}"
            )?;
        }
    }
    Ok(())
}

fn print_holders<W: Write>(alloc: Global, machines: &[Machine], out: &mut W) -> io::Result<()> {
    begin(
        "klp_holders",
        "Threads that hold the transition up, by process and by what can free them. Only for explained logs.",
        out,
    )?;
    for machine in machines {
        let host = Label(machine.name());
        if machine.holders().is_none() {
            continue;
        }
        if let Some(moved) = machine.under_way() {
            for holding in &holding_of(alloc, moved)? {
                let (process, kind) = (Label(holding.process), holding.kind);
                let threads = holding.threads;
                writeln!(
                    out,
                    "klp_holders{{host=\"{host}\",process=\"{process}\",kind=\"{kind}\"}} {threads}"
                )?;
            }
        }
    }
    begin(
        "klp_lagging",
        "Tasks that aren't switched yet and aren't known to hold the transition up. Only for explained logs.",
        out,
    )?;
    for machine in machines {
        let host = Label(machine.name());
        if let Some(lagging) = machine.lagging() {
            writeln!(out, "klp_lagging{{host=\"{host}\"}} {lagging}")?;
        }
    }
    Ok(())
}

fn print_verdicts<W: Write>(machines: &[Machine], out: &mut W) -> io::Result<()> {
    begin(
        "klp_verdict",
        "Whether this is the verdict on the log: explained, broken, not_explained or not_seen.",
        out,
    )?;
    for machine in machines {
        let host = Label(machine.name());
        for (verdict, name) in VERDICTS {
            let is_it = u8::from(machine.report.verdict == verdict);
            writeln!(
                out,
                "klp_verdict{{host=\"{host}\",verdict=\"{name}\"}} {is_it}"
            )?;
        }
    }
    begin(
        "klp_forced",
        "Whether a transition was forced, by the kernel's own log.",
        out,
    )?;
    for machine in machines {
        let (host, forced) = (Label(machine.name()), u8::from(machine.was_forced()));
        writeln!(out, "klp_forced{{host=\"{host}\"}} {forced}")?;
    }
    Ok(())
}

fn print_recorders<W: Write>(machines: &[Machine], out: &mut W) -> io::Result<()> {
    begin(
        "klp_last_sample_timestamp_seconds",
        "When the last sample was taken. A recorder that has stopped leaves this behind.",
        out,
    )?;
    for machine in machines {
        let host = Label(machine.name());
        if let Some(at) = machine.report.last_sample_us
            && let Some(at) = machine.epoch(at)
        {
            writeln!(
                out,
                "klp_last_sample_timestamp_seconds{{host=\"{host}\"}} {at}"
            )?;
        }
    }
    Ok(())
}

/// Writes the numbers of these machines in the text format of Prometheus. The labels of a machine are its name and at most
/// 17 names of processes for each of three kinds of holders.
pub fn print_metrics<W: Write>(alloc: Global, machines: &[Machine], out: &mut W) -> io::Result<()> {
    print_transitions(machines, out)?;
    print_times(machines, out)?;
    print_holders(alloc, machines, out)?;
    print_verdicts(machines, out)?;
    print_recorders(machines, out)
}
