//! Standard input, from which lines are typed at a terminal.

use klp_diagnostics::hint_typed;
use std::alloc::Global;
use std::io;
use std::io::{Read, Write};

/// The name of the program in its hints.
pub(crate) const NAME: &str = "klpsim";

/// Lines that are typed for the console over a catalog. Each is passed on as it is. If `err` is there, hints at a line that
/// may be misspelled go there, before the console answers the line.
#[derive(Drop)]
pub(crate) struct TypedLines<'a, R, E> {
    input: R,
    err: Option<E>,
    /// The text of the catalog, which is looked into only where there are hints.
    catalog: &'a Vec<u8>,
    /// What was read of the line that isn't whole yet. It stays empty if there are no hints.
    line: Vec<u8>,
    alloc: Global,
}

impl<'a, R: Read, E: Write> TypedLines<'a, R, E> {
    /// Returns the lines of an input. Writes to `err`, if it is there, how the console is used.
    pub(crate) fn new(
        alloc: Global,
        input: R,
        mut err: Option<E>,
        catalog: &'a Vec<u8>,
    ) -> TypedLines<'a, R, E> {
        if let Some(err) = &mut err {
            let _ = writeln!(
                err,
                "{NAME}: each line that you type is answered, until Ctrl-D; help lists them; rlwrap {NAME} keeps a history"
            );
        }
        TypedLines {
            input,
            err,
            catalog,
            line: Vec::new(alloc),
            alloc,
        }
    }

    /// Takes one byte that was read. At the end of a line, writes hints about it. If memory runs out, hints stay away.
    fn take(&mut self, byte: u8) {
        let (alloc, catalog) = (self.alloc, self.catalog);
        let Some(err) = &mut self.err else {
            return;
        };
        if byte != b'\n' {
            let _ = self.line.push(byte);
            return;
        }
        hint_typed(alloc, NAME, catalog, &self.line, err);
        self.line.clear();
    }

    /// Takes the bytes of one read.
    fn take_all(&mut self, bytes: &[u8]) {
        for byte in bytes {
            self.take(*byte);
        }
    }
}

impl<R: Read, E: Write> Read for TypedLines<'_, R, E> {
    fn read(&mut self, buf: &mut [u8]) -> io::Result<usize> {
        let count = self.input.read(buf)?;
        self.take_all(buf.get(..count).unwrap_or(&[]));
        Ok(count)
    }
}
