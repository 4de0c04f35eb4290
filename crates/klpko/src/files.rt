//! The files that the program is given.
use klp_arguments::ModuleWords;
use klp_diagnostics::{STANDARD_INPUT, file_in, only_one_input};
use klp_messages::Escaped;
use klp_tables::MAX_PATCHES;
use std::fmt;
use std::io::Write;

pub(crate) const NAME: &str = "klpko";

/// The exit status of a fault.
pub(crate) const FAULT: u8 = 1;

/// A file, with what it has.
#[derive(Drop)]
pub(crate) struct File<'w> {
    pub(crate) path: &'w str,
    pub(crate) bytes: Vec<u8>,
}

/// All files that the program is given.
#[derive(Drop)]
pub(crate) struct Files<'w> {
    pub(crate) livepatches: Vec<File<'w>>,
    /// The layout of the kernel's structs.
    pub(crate) layout: Option<File<'w>>,
    /// The symbols of the kernel.
    pub(crate) symbols: Option<File<'w>>,
    /// Modules whose functions the patches change.
    pub(crate) targets: Vec<File<'w>>,
    /// The functions that the kernel can trace.
    pub(crate) traceable: Option<File<'w>>,
    /// The kernel's image, in place of its symbols and of these functions.
    pub(crate) image: Option<File<'w>>,
}

/// Writes that memory ran out, and returns the exit status.
pub(crate) fn out_of_memory<E: Write>(err: &mut E) -> u8 {
    let _ = writeln!(err, "{NAME}: memory ran out");
    FAULT
}

/// Writes what is wrong with a file, and returns the exit status.
pub(crate) fn tell_fault<E: Write>(path: &str, fault: impl fmt::Display + Drop, err: &mut E) -> u8 {
    let path = Escaped(path.as_bytes());
    let _ = writeln!(err, "{NAME}: {path}: {fault}");
    FAULT
}

/// Reads a file. Returns the exit status as `Err` if it can't be read.
fn file_at<'w, E: Write>(rt: &HostRuntime, path: &'w str, err: &mut E) -> Result<File<'w>, u8> {
    let bytes = file_in(rt, NAME, path, err)?;
    Ok(File { path, bytes })
}

/// Reads a file, if it is given. Returns the exit status as `Err` if it can't be read.
fn given_file<'w, E: Write>(
    rt: &HostRuntime,
    path: Option<&'w str>,
    err: &mut E,
) -> Result<Option<File<'w>>, u8> {
    match path {
        Some(path) => Ok(Some(file_at(rt, path, err)?)),
        None => Ok(None),
    }
}

/// Reads some files. Returns the exit status as `Err` if one can't be read.
fn files_at<'w, E: Write>(
    rt: &HostRuntime,
    paths: &[&'w str],
    err: &mut E,
) -> Result<Vec<File<'w>>, u8> {
    let mut files = Vec::new(rt.alloc());
    for path in paths {
        let file = file_at(rt, path, err)?;
        if files.push(file).is_err() {
            return Err(out_of_memory(err));
        }
    }
    Ok(files)
}

/// Returns how many of some paths are standard input.
fn count_inputs(paths: &[&str]) -> usize {
    paths.iter().filter(|path| **path == STANDARD_INPUT).count()
}

/// Returns how many files are standard input.
fn count_all_inputs(words: &ModuleWords<'_>) -> usize {
    let mut count = count_inputs(&words.modules).saturating_add(count_inputs(&words.objects));
    for path in [words.layout, words.symbols, words.traceable, words.kernel] {
        if path == Some(STANDARD_INPUT) {
            count = count.saturating_add(1);
        }
    }
    count
}

/// Reads all files that the program is given. Returns the exit status as `Err` if one can't be read, if there are too many
/// livepatches, or if more than one file is standard input.
pub(crate) fn files_in<'w, E: Write>(
    rt: &HostRuntime,
    words: &ModuleWords<'w>,
    err: &mut E,
) -> Result<Files<'w>, u8> {
    let count = words.modules.len();
    if MAX_PATCHES < count {
        let _ = writeln!(
            err,
            "{NAME}: {count} files are given, and {MAX_PATCHES} are the most"
        );
        return Err(FAULT);
    }
    if 1 < count_all_inputs(words) {
        only_one_input(NAME, STANDARD_INPUT, STANDARD_INPUT, err)?;
    }
    Ok(Files {
        livepatches: files_at(rt, &words.modules, err)?,
        layout: given_file(rt, words.layout, err)?,
        symbols: given_file(rt, words.symbols, err)?,
        targets: files_at(rt, &words.objects, err)?,
        traceable: given_file(rt, words.traceable, err)?,
        image: given_file(rt, words.kernel, err)?,
    })
}
