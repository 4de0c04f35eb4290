//! What a verdict needs and couldn't be read.
use klp_capture::{BootTime, Capture};
use klp_capture_holders::text_of;
use klp_capture_report::NotSeen;
use std::alloc::{AllocError, Global};

/// Whether the log lacks a function for which `klpcap` was told to look. A log that was cut off may lack its symbols.
fn lacks(capture: &Capture<'_>, function: &[u8]) -> bool {
    capture.is_whole && !capture.symbols.iter().any(|symbol| symbol.name == function)
}

/// Returns what a verdict needs and couldn't be read: files that the kernel doesn't show, functions that it doesn't have,
/// or any sample
/// that counts. A sample doesn't count if a patch changed while it was taken, or after a force.
pub(crate) fn not_seen_of(
    alloc: Global,
    capture: &Capture<'_>,
    forced: Option<BootTime>,
) -> Result<Vec<NotSeen>, AllocError> {
    let mut not_seen = Vec::new(alloc);
    for file in &capture.missing {
        not_seen.push(NotSeen::File(text_of(alloc, file)?))?;
    }
    for function in &capture.asked {
        if lacks(capture, function) {
            not_seen.push(NotSeen::Function(text_of(alloc, function)?))?;
        }
    }
    if !capture
        .samples
        .iter()
        .any(|sample| sample.is_judged(forced))
    {
        not_seen.push(NotSeen::Sample)?;
    }
    Ok(not_seen)
}
