//! The findings about a log, as data. Times are microseconds since the machine booted.
use crate::moment::Times;
use serde::Serialize;
use std::alloc::Global;
use std::io;
use std::io::Write;

/// A task: its name, and the number of its thread.
#[derive(Drop, Serialize)]
pub struct TaskReport {
    pub name: String,
    pub thread: u64,
    pub process: u64,
    pub is_kernel_thread: bool,
    /// The letter of its state when it was last seen, such as `S` or `D`.
    pub state: String,
}

/// A period in which a task held a transition up. The task slept in one function all this time, and didn't run.
#[derive(Drop, Serialize)]
pub struct HolderReport {
    pub task: TaskReport,
    pub function: String,
    /// The time of the first sample that shows the sleep. `to_us` is the time of the last one.
    pub from_us: u64,
    pub to_us: u64,
    /// When the kernel's own log first named the task as a holder of this transition, if that was before `from_us`. The
    /// task may have run in between.
    pub named_us: Option<u64>,
    /// Whether the task held the transition up in the last sample, and the transition hasn't ended.
    pub holds_still: bool,
}

/// A task that the kernel couldn't switch by its own log, and that no sample shows as a holder.
#[derive(Drop, Serialize)]
pub struct KernelHolderReport {
    pub name: String,
    pub thread: u64,
    pub function: String,
    /// When the kernel first wrote so. `to_us` is when it last did.
    pub from_us: u64,
    pub to_us: u64,
    /// Whether samples show that the task slept in no function of a patch at a time at which the kernel wrote so.
    pub slept_elsewhere: bool,
}

/// Threads of one process that hold, or held, a transition up in one function.
#[derive(Drop, Serialize)]
pub struct GroupReport {
    pub process: u64,
    /// The name of the process's command, or of its thread if the log doesn't have it.
    pub process_name: String,
    pub threads: u64,
    /// The number of the first of these threads in the list of holders.
    pub first_holder: usize,
    /// The time of the first sample that shows one of the sleeps. `to_us` is the time of the last one.
    pub from_us: u64,
    pub to_us: u64,
    /// When the kernel's own log first named one of the threads as a holder, if that was before `from_us`.
    pub named_us: Option<u64>,
}

/// A period in which a task lagged and slept in a function of a patch's module, and the log doesn't show which of the
/// patch's functions it is. So the task may have held the transition up.
#[derive(Drop, Serialize)]
pub struct UnplacedReport {
    pub task: TaskReport,
    pub function: String,
    pub from_us: u64,
    pub to_us: u64,
}

/// Why a task lags without holding the transition up.
#[derive(Clone, Copy, PartialEq, Eq, Serialize)]
#[serde(rename_all = "snake_case")]
pub enum WhyLags {
    /// The task runs.
    Runs,
    /// The task sleeps, but in none of those functions of the patch that the log names.
    AsleepElsewhere,
    /// The task sleeps in a function of a patch's module, and the log doesn't show which of the patch's functions it is.
    AsleepUnplaced,
    /// By a torn sample the task sleeps in a function of a patch, or in one that a patch changes.
    AsleepInside,
    /// The task ran while it was read, so it isn't known what it is inside of.
    RanMeanwhile,
    /// The task has ended. It is inside of no function.
    Ended,
}

/// A task that lags without holding the transition up.
#[derive(Drop, Serialize)]
pub struct LaggingReport {
    pub task: TaskReport,
    pub why: WhyLags,
    /// The torn sample at the log's end that alone shows that. `None` if the last sample that the run shows does.
    pub torn: Option<TornReport>,
}

/// What a torn sample shows of a task that lags. A patch changed while the sample was taken, or `klpcap` was told to stop. So
/// no run shows the sample.
#[derive(Drop, Serialize)]
pub struct TornReport {
    /// When the sample was taken.
    pub at_us: u64,
    /// The function of a patch, or that a patch changes, in which the task slept.
    pub function: Option<String>,
}

/// What the patch in transition becomes.
#[derive(Clone, Copy, PartialEq, Eq, Serialize)]
#[serde(rename_all = "snake_case")]
pub enum Becomes {
    Enabled,
    Disabled,
}

/// How a transition ended.
#[derive(Clone, Copy, PartialEq, Eq, Serialize)]
#[serde(rename_all = "snake_case")]
pub enum HowEnded {
    Complete,
    Reversed,
    Forced,
}

/// The end of a transition.
#[derive(Clone, Copy, Serialize)]
pub struct EndReport {
    pub at_us: u64,
    pub how: HowEnded,
}

/// A transition that the log shows.
#[derive(Drop, Serialize)]
pub struct TransitionReport {
    pub patch: String,
    pub becomes: Becomes,
    pub since_us: u64,
    /// Whether the kernel's log has the start of the transition. If false, the transition started at this time or
    /// before.
    pub is_start_known: bool,
    pub first_sample_us: u64,
    pub last_sample_us: u64,
    pub end: Option<EndReport>,
    pub holders: Vec<HolderReport>,
    /// The holders, by process and function.
    pub groups: Vec<GroupReport>,
    /// The sleeps in functions that the log can't place.
    pub unplaced: Vec<UnplacedReport>,
    /// The tasks that lag in the last sample without holding the transition up: by the run of the rules, or by what the log
    /// says of them last. Those that only a torn sample at the log's end shows so come last.
    pub lagging: Vec<LaggingReport>,
    /// The most tasks that a sample of the transition counts inside of patched functions, unswitched and without lines of
    /// their own.
    pub counted_inside: u64,
}

/// A task that a force leaves asleep in a function that is no longer called.
#[derive(Drop, Serialize)]
pub struct LeftReport {
    pub task: TaskReport,
    /// The name of the process's command, or of its thread if the log doesn't have it.
    pub process_name: String,
    pub function: String,
}

/// A sample that contradicts the rules.
#[derive(Drop, Serialize)]
pub struct BrokenReport {
    pub from_us: u64,
    pub to_us: u64,
    /// What the sample has, and what the rules say of it. A time in it is in seconds since boot.
    pub why: String,
    /// The time that `why` names, if it names one: an earlier sample's.
    pub earlier_us: Option<u64>,
    /// Whether a force would excuse it whose line the kernel's own log has lost.
    pub unless_forced: bool,
}

/// The sample to which none of the tried runs leads, with the states of the log and of the rules at this sample.
#[derive(Drop, Serialize)]
pub struct NotExplainedReport {
    pub from_us: u64,
    pub to_us: u64,
    /// The state in the log.
    pub log: Option<String>,
    /// The state of a run that was tried, and why it is so.
    pub rules: Option<String>,
}

/// A line of the kernel's own log that a later sample contradicts.
#[derive(Drop, Serialize)]
pub struct KernelLogReport {
    pub patch: String,
    /// When the kernel wrote the line.
    pub at_us: u64,
    /// Whether the line says that the transition was complete. If not, it says that the transition started.
    pub says_complete: bool,
    /// When the sample was taken.
    pub sample_us: u64,
}

/// Something that a verdict needs and that couldn't be read.
#[derive(Drop, Serialize)]
#[serde(rename_all = "snake_case")]
pub enum NotSeen {
    /// The kernel doesn't show this file, or `klpcap` wasn't allowed to read it.
    File(String),
    /// The kernel has no function of this name, and `klpcap` was asked to look for it.
    Function(String),
    /// No sample was recorded that counts.
    Sample,
}

/// The verdict on the log.
#[derive(Clone, Copy, PartialEq, Eq, Serialize)]
#[serde(rename_all = "snake_case")]
pub enum VerdictReport {
    Explained,
    Broken,
    NotExplained,
    NotSeen,
}

/// A task that was seen inside of a function for which `klpcap` was told to look.
#[derive(Drop, Serialize)]
pub struct InsideReport {
    pub task: TaskReport,
    pub function: String,
    /// Whether the task sleeps in the function. If so, it would hold a transition up. A running task may leave the
    /// function before a transition starts.
    pub is_asleep: bool,
    /// The number of samples in which the task was inside of the function.
    pub samples: u64,
}

/// How many tasks the last sample shows, and how many of these tasks lag without being followed.
#[derive(Clone, Copy, Serialize)]
pub struct TaskCounts {
    pub tasks: u64,
    pub running: u64,
    pub sleeping: u64,
    /// How many of the tasks that aren't followed lag inside of a patched function. `None` if the log doesn't say that:
    /// then `running` and `sleeping` count them, too.
    pub inside: Option<u64>,
    /// The most tasks that a torn sample at the log's end counts so, if the last sample that the run shows counts none.
    pub torn: u64,
    /// How many followed tasks are left out, since the run has no number for them.
    pub left_out: u64,
    /// How many functions of the log's patches are left out, since the catalog has no room for them.
    pub functions_left_out: u64,
    /// How many names of functions were cut because they are too long.
    pub names_cut: u64,
}

/// How many samples a run of the rules shows. Also has the number of samples that were left out, since a patch changed
/// while they were taken.
#[derive(Clone, Copy, Serialize)]
pub struct SampleCounts {
    pub shown: u64,
    pub left_out: u64,
    /// How many samples weren't reached. They are the samples after a force, and the samples from the first one that no
    /// run shows.
    pub later: u64,
}

/// The findings about a log.
#[derive(Drop, Serialize)]
pub struct Report {
    /// The version of this list of fields.
    pub schema: u32,
    pub kernel: String,
    /// The machine's name. Empty if the log doesn't have it.
    pub host: String,
    /// When the machine booted, in seconds since 1970. `None` if the log doesn't say that.
    pub booted: Option<u64>,
    pub verdict: VerdictReport,
    /// What couldn't be read. If there is anything, no other field counts.
    pub not_seen: Vec<NotSeen>,
    pub broken: Option<BrokenReport>,
    pub not_explained: Option<NotExplainedReport>,
    /// What the kernel's own log says, and a sample contradicts.
    pub kernel_log_differs: Option<KernelLogReport>,
    /// Whether `klpcap` was told to look for functions that a patch would change.
    pub is_preflight: bool,
    pub inside: Vec<InsideReport>,
    /// Whether the log has nobody inside of these functions: each of them is there, all could be read, and each thread slept, or
    /// had ended, outside of them when it was last read.
    pub nobody_inside: bool,
    pub transitions: Vec<TransitionReport>,
    /// Whether a transition goes on, and no task is known to lag: neither one of the run of the rules, nor one by what the
    /// log says of it last, nor one that the log only counts.
    pub nobody_lags: bool,
    /// The tasks that the kernel named as holders and no sample shows as such.
    pub kernel_holders: Vec<KernelHolderReport>,
    /// The tasks that a force left, or would leave, asleep in a function that is no longer called.
    pub left_by_force: Vec<LeftReport>,
    /// When a transition was forced during the recording.
    pub forced_at_us: Option<u64>,
    /// When a transition was first forced, by the kernel's log. This may have been before the recording.
    pub first_forced_us: Option<u64>,
    pub others: TaskCounts,
    pub samples: SampleCounts,
    pub is_cut_off: bool,
    /// When the last sample was taken. `None` if there is none.
    pub last_sample_us: Option<u64>,
    /// The name of the catalog's file that has what the log doesn't show of its patches, if one was given.
    pub catalog: Option<String>,
}

/// The version of the fields of [`Report`].
pub const SCHEMA: u32 = 5;

impl Report {
    /// Returns the exit status of `klpsee`: 0 if the log is explained, 3 if a sample contradicts the rules, 4 if no run
    /// was found, and 5 if what a verdict needs couldn't be read.
    pub fn status(&self) -> u8 {
        match self.verdict {
            VerdictReport::Explained => 0,
            VerdictReport::Broken => 3,
            VerdictReport::NotExplained => 4,
            VerdictReport::NotSeen => 5,
        }
    }

    /// Returns the transition that is under way in the last sample.
    pub fn under_way(&self) -> Option<&TransitionReport> {
        let last = self.transitions.last()?;
        if last.end.is_none() { Some(last) } else { None }
    }

    /// Returns how many tasks lag in the last sample that aren't known to hold the transition up: those that are named, those
    /// that the log only counts, and those that it names and that aren't judged. Torn samples at the log's end count, too.
    pub fn lagging(&self) -> u64 {
        let Some(under_way) = self.under_way() else {
            return 0;
        };
        let others = self.others;
        (under_way.lagging.len() as u64)
            .saturating_add(others.running)
            .saturating_add(others.sleeping)
            .saturating_add(others.inside.unwrap_or(0))
            .saturating_add(others.torn)
            .saturating_add(others.left_out)
    }

    /// Returns which times of day the report's times are.
    pub fn times(&self) -> Times {
        Times::new(self.booted, self.last_sample_us.unwrap_or(0))
    }
}

/// Writes a report as JSON: one object, whose fields are those of [`Report`].
pub fn print_json<W: Write>(alloc: Global, report: &Report, out: &mut W) -> io::Result<()> {
    match serde_json::to_string_pretty(alloc, report) {
        Ok(text) => writeln!(out, "{text}"),
        Err(_) => Err(io::Error::from(io::ErrorKind::OutOfMemory)),
    }
}
