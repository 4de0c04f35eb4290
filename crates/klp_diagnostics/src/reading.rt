//! Reads the files that a program was given. One of them may be standard input.
ghost use Rattle.std.specs.Prelude.{◌≡◌, IfErr};

use crate::inputs::FAULT;
use klp_boot::Fault;
use klp_messages::Escaped;
use std::io::{ErrorKind, Input, Read, Write};
use std::rt::Files;
use std::{fs, io};

/// The name that stands for standard input in place of a file's.
pub const STANDARD_INPUT: &str = "-";

/// Returns the bytes of the file of this name, or of standard input.
fn bytes_of<R: Files + Input + AllocGlobal>(rt: &R, name: &str) -> io::Result<Vec<u8>> {
    if name != STANDARD_INPUT {
        return fs::read(rt, name);
    }
    let mut bytes = Vec::new(rt.alloc());
    rt.reader().read_to_end(&mut bytes)?;
    Ok(bytes)
}

/// Returns the bytes of a file that a program was given, or of standard input for the name `-`. If it can't be read, or if
/// memory runs out, writes so to `err` as a line of the program, with the reason, and returns the exit status, 1, as
/// `Err`.
pub fn file_in<R: Files + Input + AllocGlobal, E: Write>(
    rt: &R,
    program: &str,
    name: &str,
    err: &mut E,
) -> Result<Vec<u8>, u8>
    ensures { IfErr result (λ status. status ≡ 1) }
{
    match bytes_of(rt, name) {
        Ok(bytes) => Ok(bytes),
        Err(error) => {
            let name = Escaped(name.as_bytes());
            let _ = match error.kind() {
                ErrorKind::OutOfMemory => writeln!(err, "{program}: {name}: {}", Fault::NoMemory),
                _ => writeln!(err, "{program}: {name}: {}: {error}", Fault::CannotRead),
            };
            Err(FAULT)
        }
    }
}

/// Refuses to take both files from standard input: writes so to `err`, and returns the exit status, 1, as `Err`.
pub fn only_one_input<E: Write>(
    program: &str,
    first: &str,
    second: &str,
    err: &mut E,
) -> Result<(), u8>
    ensures { IfErr result (λ status. status ≡ 1) }
{
    if first == STANDARD_INPUT && second == STANDARD_INPUT {
        let _ = writeln!(err, "{program}: -: only one file can be standard input");
        return Err(FAULT);
    }
    Ok(())
}
