//! Reads the times of a trace as the times of its lines.

use klp_catalog_text::Lines;
use klp_names::Names;
use klp_trace::LineParts;
use std::alloc::{AllocError, Global};

/// Returns a text of names, followed by one line, `line NUMBER TIME`, for each line of the trace that has a time.
/// [`Names::read`] checks the result, so the function has no contract. `Err` if memory runs out.
fn with_lines(alloc: Global, names: &[u8], trace: &[u8]) -> Result<Vec<u8>, AllocError> {
    let mut text = Vec::from_slice(alloc, names)?;
    if !names.is_empty() && !names.ends_with(b"\n".as_slice()) {
        text.push(b'\n')?;
    }
    let mut lines = Lines::new(trace);
    let mut number = 0u64;
    while let Some(line) = lines.next() {
        number = number.saturating_add(1);
        if let Some(time) = LineParts::of(line).time {
            let word = format!(in alloc; "line {number} ")?;
            text.extend_from_slice(word.as_bytes())?;
            text.extend_from_slice(time)?;
            text.push(b'\n')?;
        }
    }
    Ok(text)
}

/// Reads a text of names, together with the times of the trace's lines. If the text and the times can't be read
/// together, since the text has times of its own or a time of the trace is faulty, reads the text alone. Returns `None`
/// if memory runs out, or if the text is faulty. The function has no contract.
pub fn timed_names(alloc: Global, names: &[u8], trace: &[u8]) -> Option<Names> {
    let text = with_lines(alloc, names, trace).ok()?;
    match Names::read(alloc, &text) {
        Ok(names) => Some(names),
        Err(_) => Names::read(alloc, names).ok(),
    }
}
