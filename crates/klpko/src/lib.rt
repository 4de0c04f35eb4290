//! The program `klpko`. It reads livepatches from the files of their modules, before they are loaded. It says what the
//! tables of each one say, or what becomes of each one when each other one is loaded over it: in words, or for programs.
//! Or it writes a catalog that says what the tables say.
#![tactic(auto)]

mod cutting;
mod files;
mod image;
mod kernel;
mod layout;

use crate::cutting::cut_draft;
use crate::files::{FAULT, File, Files, NAME, files_in, out_of_memory};
use crate::image::image_in;
use crate::kernel::{can_patch, kernel_in, targets_in};
use crate::layout::layout_in;
use klp_arguments::{ModuleQuestion, ModuleWords, Program, given_words, module_words};
use klp_messages::Escaped;
use klp_module_answer::{Form, LayoutSource, Livepatch, compare, list, read_livepatch};
use klp_module_catalog::{
    CatalogFault, Draft, FaultWords, LeftOut, NamedPatch, Unknown, draft_of, is_catalog_of,
};
use klp_module_symbols::KernelRow;
use std::alloc::{AllocError, Global};
use std::io;
use std::io::Write;

/// The exit status without findings, and with findings.
const CLEAN: u8 = 0;

const FINDINGS: u8 = 3;

/// Returns the livepatch of the same name, if one was read before.
fn same_named<'l, 'a>(livepatches: &'l [Livepatch<'a>], name: &[u8]) -> Option<&'l Livepatch<'a>> {
    livepatches.iter().find(|livepatch| livepatch.name == name)
}

/// The livepatches that were read, and whether all files have one.
#[derive(Drop)]
struct Livepatches<'a> {
    livepatches: Vec<Livepatch<'a>>,
    are_all: bool,
}

/// Reads the livepatches of their files. Writes to `err` what is wrong with each other file.
fn livepatches_in<'f, E: Write>(
    alloc: Global,
    source: LayoutSource<'_>,
    files: &'f [File<'_>],
    err: &mut E,
) -> Result<Livepatches<'f>, AllocError> {
    let mut read = Livepatches {
        livepatches: Vec::new(alloc),
        are_all: true,
    };
    for file in files {
        let Some(livepatch) = read_livepatch(alloc, NAME, source, file.path, &file.bytes, err)
        else {
            read.are_all = false;
            continue;
        };
        if let Some(other) = same_named(&read.livepatches, livepatch.name) {
            let (path, name) = (Escaped(file.path.as_bytes()), Escaped(livepatch.name));
            let other = Escaped(other.file.as_bytes());
            let _ = writeln!(err, "{NAME}: {path}: it is the patch {name}, as {other} is");
            read.are_all = false;
            continue;
        }
        read.livepatches.push(livepatch)?;
    }
    Ok(read)
}

/// Writes how much of a catalog isn't known, if anything isn't. Returns whether all is known.
fn tell_unknown<E: Write>(unknown: Unknown, err: &mut E) -> bool {
    let counted = [
        (unknown.callbacks, "callbacks whose code isn't read"),
        (unknown.objects, "objects with made-up symbols"),
        (
            unknown.replacing,
            "patches whose code sets whether they replace others",
        ),
        (unknown.cut, "patches of which something is left out"),
    ];
    let mut is_all_known = true;
    for (count, what) in counted {
        if count > 0 {
            is_all_known = false;
            let _ = writeln!(err, "{NAME}: marked in the catalog: {what}: {count}");
        }
    }
    is_all_known
}

/// Writes why no catalog is made, with the file that is at fault if it is one. Returns the exit status.
fn tell_refusal<E: Write>(
    fault: CatalogFault,
    patches: &[NamedPatch<'_, '_>],
    livepatches: &[Livepatch<'_>],
    may_cut: bool,
    err: &mut E,
) -> u8 {
    let words = FaultWords {
        fault,
        patches,
        may_cut,
    };
    let file = match fault.patch() {
        Some(number) => livepatches.get(number).map(|livepatch| livepatch.file),
        None => None,
    };
    let _ = match file {
        Some(path) => writeln!(err, "{NAME}: {}: {words}", Escaped(path.as_bytes())),
        None => writeln!(err, "{NAME}: {words}"),
    };
    FAULT
}

/// Why there is no catalog.
#[derive(Clone, Copy)]
pub(crate) enum NoCatalog {
    Refused(CatalogFault),
    /// What was made says something else than the tables.
    Otherwise,
}

impl From<AllocError> for NoCatalog {
    fn from(_: AllocError) -> NoCatalog {
        NoCatalog::Refused(CatalogFault::NoMemory)
    }
}

/// Returns a catalog of some patches, once it was read back.
pub(crate) fn whole_draft(
    alloc: Global,
    rows: &[KernelRow<'_>],
    patches: &[NamedPatch<'_, '_>],
) -> Result<Draft, NoCatalog> {
    let draft = match draft_of(alloc, rows, patches) {
        Ok(draft) => draft,
        Err(fault) => return Err(NoCatalog::Refused(fault)),
    };
    if is_catalog_of(alloc, draft.text.as_bytes(), rows, patches)? {
        Ok(draft)
    } else {
        Err(NoCatalog::Otherwise)
    }
}

/// Returns the livepatches whole, with their names.
fn named_patches<'p, 'a>(
    alloc: Global,
    livepatches: &'p [Livepatch<'a>],
) -> Result<Vec<NamedPatch<'p, 'a>>, AllocError> {
    let mut patches = Vec::new(alloc);
    for livepatch in livepatches {
        patches.push(NamedPatch {
            name: livepatch.name,
            patch: &livepatch.patch,
            left_out: LeftOut {
                functions: 0,
                objects: 0,
            },
        })?;
    }
    Ok(patches)
}

/// Returns a catalog of the livepatches, once it was read back, with what it has no room for left out if `is_cut`.
/// Returns the exit status as `Err` if there is none.
fn catalog_of<E: Write>(
    alloc: Global,
    livepatches: &[Livepatch<'_>],
    rows: &[KernelRow<'_>],
    is_cut: bool,
    err: &mut E,
) -> Result<Draft, u8> {
    let Ok(patches) = named_patches(alloc, livepatches) else {
        return Err(out_of_memory(err));
    };
    let draft = if is_cut {
        cut_draft(alloc, rows, &patches)
    } else {
        whole_draft(alloc, rows, &patches)
    };
    match draft {
        Ok(draft) => Ok(draft),
        Err(NoCatalog::Refused(CatalogFault::NoMemory)) => Err(out_of_memory(err)),
        Err(NoCatalog::Refused(fault)) => Err(tell_refusal(
            fault,
            &patches,
            livepatches,
            !is_cut,
            err,
        )),
        Err(NoCatalog::Otherwise) => {
            let _ = writeln!(
                err,
                "{NAME}: the catalog says something else than the tables, so none is written: it is a fault of {NAME}"
            );
            Err(FAULT)
        }
    }
}

/// Writes a catalog of the livepatches, with what it has no room for left out if `is_cut`. Returns whether all of it is known and the kernel can patch all functions, or the
/// exit status as `Err`.
fn write_catalog<W: Write, E: Write>(
    alloc: Global,
    livepatches: &[Livepatch<'_>],
    files: &Files<'_>,
    is_cut: bool,
    out: &mut W,
    err: &mut E,
) -> io::Result<Result<bool, u8>> {
    let targets = match targets_in(alloc, files, err) {
        Ok(targets) => targets,
        Err(status) => return Ok(Err(status)),
    };
    let image = match image_in(alloc, files, err) {
        Ok(image) => image,
        Err(status) => return Ok(Err(status)),
    };
    let kernel = match kernel_in(alloc, files, image.as_ref(), &targets, err) {
        Ok(kernel) => kernel,
        Err(status) => return Ok(Err(status)),
    };
    match catalog_of(alloc, livepatches, &kernel.rows, is_cut, err) {
        Ok(draft) => {
            out.write_all(draft.text.as_bytes())?;
            out.flush()?;
            let is_known = tell_unknown(draft.unknown, err);
            let can_all = can_patch(alloc, &kernel, livepatches, err)?;
            Ok(Ok(is_known && can_all))
        }
        Err(status) => Ok(Err(status)),
    }
}

/// Answers, and returns the exit status. Patches are compared, and a catalog is made of them, only if all files have one.
fn answer<W: Write, E: Write>(
    alloc: Global,
    words: &ModuleWords<'_>,
    read: &Livepatches<'_>,
    files: &Files<'_>,
    out: &mut W,
    err: &mut E,
) -> u8 {
    let form = if words.is_json {
        Form::Json
    } else {
        Form::Words
    };
    let livepatches = &read.livepatches;
    let written = match words.question {
        ModuleQuestion::List => list(alloc, livepatches, form, out).map(Ok),
        _ if !read.are_all => return FAULT,
        ModuleQuestion::Matrix => compare(alloc, livepatches, form, out).map(Ok),
        ModuleQuestion::Catalog => {
            write_catalog(alloc, livepatches, files, words.is_cut, out, err)
        }
    };
    match written {
        Ok(Err(status)) => status,
        Ok(_) if !read.are_all => FAULT,
        Ok(Ok(true)) => CLEAN,
        Ok(Ok(false)) => FINDINGS,
        Err(error) if error.kind() == io::ErrorKind::OutOfMemory => out_of_memory(err),
        Err(error) => {
            let _ = writeln!(err, "{NAME}: {error}");
            FAULT
        }
    }
}

// Returns the program's exit status. Returns it as `Err` if the arguments are refused, or if a file can't be read.
fn status_in(rt: &HostRuntime) -> Result<u8, u8> {
    let (mut out, mut err) = (io::writer(rt), rt.stderr());
    let given = given_words(rt, Program::Klpko, &mut out, &mut err)?;
    let words = module_words(rt.alloc(), &given, &mut out, &mut err)?;
    let files = files_in(rt, &words, &mut err)?;
    let source = layout_in(files.layout.as_ref(), &mut err)?;
    match livepatches_in(rt.alloc(), source, &files.livepatches, &mut err) {
        Ok(read) => Ok(answer(rt.alloc(), &words, &read, &files, &mut out, &mut err)),
        Err(_) => Err(out_of_memory(&mut err)),
    }
}

/// Runs the program, and returns the exit status.
pub fn run(rt: &HostRuntime) -> u8 {
    let (Ok(status) | Err(status)) = status_in(rt);
    status
}
