//! Reads from the kernel's own log which tasks it couldn't switch. It has such lines if dynamic debug is on for livepatching.
use klp_capture::{BootTime, Capture};
use klp_words::number64;
use std::alloc::{AllocError, Global};

/// How such a line begins, by the function of the kernel that writes it. The task's name and number follow.
const BEGINNINGS: [&[u8]; 2] = [
    b"livepatch: klp_try_switch_task: ",
    b"livepatch: klp_check_stack: ",
];

/// What stands between the task and the function.
const SLEEPS_IN: &[u8] = b" is sleeping on function ";

/// A task that the kernel couldn't switch, since it slept in this function.
#[derive(Clone, Copy)]
pub struct KernelHolder<'a> {
    /// The task's name.
    pub name: &'a [u8],
    /// The thread's number.
    pub thread: u64,
    /// The name of the function, before it was patched.
    pub function: &'a [u8],
    /// When the kernel first wrote so while `klpcap` recorded.
    pub from: BootTime,
    /// When it last did.
    pub to: BootTime,
}

/// Returns where some bytes stand in others, as the number of bytes before them.
fn place_of(bytes: &[u8], wanted: &[u8]) -> Option<usize> {
    bytes
        .windows(wanted.len().max(1))
        .position(|window| window == wanted)
}

/// Reads a line such as `livepatch: klp_try_switch_task: NAME:TID is sleeping on function FUNCTION`. Returns `None` for
/// other lines.
fn holder_in(text: &[u8], at: BootTime) -> Option<KernelHolder<'_>> {
    let mut rest = None;
    for beginning in BEGINNINGS {
        if let Some(behind) = text.strip_prefix(beginning) {
            rest = Some(behind);
        }
    }
    let rest = rest?;
    let end = place_of(rest, SLEEPS_IN)?;
    let task = rest.get(..end)?;
    let colon = task.iter().rposition(|byte| *byte == b':')?;
    Some(KernelHolder {
        name: task.get(..colon)?,
        thread: number64(task.get(colon.checked_add(1)?..)?)?,
        function: rest.get(end.checked_add(SLEEPS_IN.len())?..)?,
        from: at,
        to: at,
    })
}

/// Returns the tasks that the kernel couldn't switch while `klpcap` recorded, by its own log. A task is listed once for
/// each function.
pub fn kernel_holders_in<'a>(
    alloc: Global,
    capture: &Capture<'a>,
) -> Result<Vec<KernelHolder<'a>>, AllocError> {
    let mut holders: Vec<KernelHolder<'a>> = Vec::new(alloc);
    let Some(first) = capture.samples.first() else {
        return Ok(holders);
    };
    for line in &capture.log {
        let Some(found) = holder_in(line.text, line.at) else {
            continue;
        };
        if line.at < first.line.from {
            continue;
        }
        let known = holders.iter_mut().find(|own| own.thread == found.thread
            && own.function == found.function);
        match known {
            Some(known) => known.to = found.to,
            None => holders.push(found)?,
        }
    }
    Ok(holders)
}

/// Returns when the kernel's own log first says, between two times, that it couldn't switch this thread since it slept in
/// a function that is blocked. The thread may have run since then. Returns `None` if the log doesn't say so in between.
pub fn first_named(
    capture: &Capture<'_>,
    thread: u64,
    from: BootTime,
    to: BootTime,
) -> Option<BootTime> {
    for line in &capture.log {
        if line.at < from || line.at >= to {
            continue;
        }
        if holder_in(line.text, line.at).is_some_and(|holder| holder.thread == thread) {
            return Some(line.at);
        }
    }
    None
}
