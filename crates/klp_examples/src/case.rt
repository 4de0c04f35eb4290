//! An example: a script, the catalog over which it is served, and the answers that it must get.

use klp_program::catalog_in;
use std::rt::Files;
use std::{fs, io};

/// The name that stands for the built-in catalog.
const BUILT_IN: &str = "-";

/// A catalog, a script that is served over it, and the text that must be written.
#[derive(Drop)]
pub(crate) struct Case {
    pub(crate) catalog: Vec<u8>,
    pub(crate) input: Vec<u8>,
    output: Vec<u8>,
}

/// Reads the catalog with this name.
fn catalog_of<R: Files + AllocGlobal>(rt: &R, name: &str) -> io::Result<Vec<u8>> {
    let path = match name {
        BUILT_IN => None,
        _ => Some(format!(in rt.alloc(); "{name}.catalog")?),
    };
    match catalog_in(rt, path) {
        Ok(catalog) => Ok(catalog),
        Err(_) => Err(io::Error::other("a catalog can't be read")),
    }
}

/// Reads the file with this name and ending.
fn file_of<R: Files + AllocGlobal>(rt: &R, name: &str, ending: &str) -> io::Result<Vec<u8>> {
    let path = format!(in rt.alloc(); "{name}.{ending}")?;
    fs::read(rt, path.as_str())
}

impl Case {
    /// Reads the example of this line of the index. The line has the example's name. If the catalog has another name,
    /// the line has the catalog's name too.
    pub(crate) fn read<R: Files + AllocGlobal>(rt: &R, line: &str) -> io::Result<Case> {
        let (name, catalog) = line.split_once(' ').unwrap_or((line, line));
        let catalog = catalog_of(rt, catalog)?;
        let input = file_of(rt, name, "script")?;
        let output = file_of(rt, name, "output")?;
        Ok(Case {
            catalog,
            input,
            output,
        })
    }

    /// Whether a run wrote exactly the text that must be written, and had no fault.
    pub(crate) fn is_met(&self, status: u8, out: &[u8], err: &[u8]) -> bool {
        status == 0 && out == self.output.as_slice() && err.is_empty()
    }

    /// How many bytes have to be written.
    pub(crate) fn output_len(&self) -> usize {
        self.output.len()
    }
}
