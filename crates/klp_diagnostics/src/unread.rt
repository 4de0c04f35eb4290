//! Hints about files with which a program could not begin.

use klp_faulty_words::stray::{FileKind, Stray, begins_as_log};
use klp_messages::Escaped;
use std::fs;
use std::io::Write;
use std::rt::Files;

/// Returns the hint at a text that begins as a log of klpcap does.
fn log_hint(text: &[u8]) -> Option<&'static str> {
    if begins_as_log(text) {
        Stray::Log.hint(FileKind::Script)
    } else {
        None
    }
}

/// Writes to `err` why the file of this name can't be read, or that it is a log of klpcap, where a program wants another
/// file. Writes nothing about other files. The file is read again, so this is for a program that is about to end, and whose
/// fault names no file. What can't be written is left out.
pub fn hint_file<R: Files + AllocGlobal, E: Write>(rt: &R, program: &str, name: &str, err: &mut E) {
    let name_shown = Escaped(name.as_bytes());
    let _ = match fs::read(rt, name) {
        Ok(text) => match log_hint(&text) {
            Some(hint) => writeln!(err, "{program}: hint: {name_shown}: {hint}"),
            None => Ok(()),
        },
        Err(error) => writeln!(err, "{program}: hint: {name_shown}: {error}"),
    };
}
