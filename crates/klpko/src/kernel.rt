//! What is known of the kernel for which a catalog is.
use crate::files::{FAULT, File, Files, NAME, out_of_memory, tell_fault};
use crate::image::{Release, release_of, tell_release};
use klp_kernel_image::KernelImage;
use klp_messages::Escaped;
use klp_module_answer::{Livepatch, TargetModule, read_target};
use klp_module_matrix::{name_of_row, object_name};
use klp_module_symbols::{
    KernelRow, RowsFault, TraceableFault, TraceableRow, add_file, is_judged, read_rows,
    read_traceable, untraceable, variables,
};
use std::alloc::{AllocError, Global};
use std::io::Write;

/// What is known of a kernel.
#[derive(Drop)]
pub(crate) struct Kernel<'k> {
    /// Its symbols, and those of modules that aren't loaded.
    pub(crate) rows: Vec<KernelRow<'k>>,
    /// The functions that it can trace, if they are known.
    traceable: Option<Traceable<'k>>,
    /// Its release, if its image is given.
    release: Option<Release<'k>>,
}

/// What says which functions a kernel can trace.
#[derive(Clone, Copy)]
enum Source {
    /// The list of the kernel.
    List,
    /// The entry sites of its image.
    Image,
}

/// The functions that a kernel can trace, with the path of the file that says so.
#[derive(Drop)]
struct Traceable<'k> {
    path: &'k str,
    source: Source,
    rows: Vec<TraceableRow<'k>>,
}

/// Reads the modules that livepatches may change. Returns the exit status as `Err` if one is faulty.
pub(crate) fn targets_in<'f, E: Write>(
    alloc: Global,
    files: &'f Files<'_>,
    err: &mut E,
) -> Result<Vec<TargetModule<'f>>, u8> {
    let mut targets = Vec::new(alloc);
    for file in &files.targets {
        let Some(target) = read_target(alloc, NAME, file.path, &file.bytes, err) else {
            return Err(FAULT);
        };
        if targets.push(target).is_err() {
            return Err(out_of_memory(err));
        }
    }
    Ok(targets)
}

/// Returns the symbols of a kernel: of its image, of the list of them, or none if neither is given. Returns the exit status as
/// `Err` if the list is faulty.
fn rows_in<'f, E: Write>(
    alloc: Global,
    image: Option<&'f KernelImage<'_>>,
    symbols: Option<&'f File<'_>>,
    err: &mut E,
) -> Result<Vec<KernelRow<'f>>, u8> {
    if let Some(image) = image {
        return match image.rows(alloc) {
            Ok(rows) => Ok(rows),
            Err(_) => Err(out_of_memory(err)),
        };
    }
    let Some(file) = symbols else {
        return Ok(Vec::new(alloc));
    };
    match read_rows(alloc, &file.bytes) {
        Ok(rows) => Ok(rows),
        Err(RowsFault::NoMemory) => Err(out_of_memory(err)),
        Err(fault) => Err(tell_fault(file.path, fault, err)),
    }
}

/// Adds the symbols of modules to those of a kernel. Writes of which modules there are symbols already. Returns the exit
/// status as `Err` if memory runs out.
fn add_targets<'k, E: Write>(
    rows: &mut Vec<KernelRow<'k>>,
    targets: &[TargetModule<'k>],
    err: &mut E,
) -> Result<(), u8> {
    for target in targets {
        match add_file(rows, &target.elf, target.name) {
            Ok(true) => {}
            Ok(false) => {
                let name = Escaped(target.name);
                let _ = writeln!(
                    err,
                    "{NAME}: the symbols of {name} are there already, so its file isn't used"
                );
            }
            Err(_) => return Err(out_of_memory(err)),
        }
    }
    Ok(())
}

/// Returns the functions that a kernel can trace by its image, which is in this file.
fn traced_by_image<'f, E: Write>(
    alloc: Global,
    file: &'f File<'_>,
    image: &'f KernelImage<'_>,
    err: &mut E,
) -> Result<Option<Traceable<'f>>, u8> {
    match image.traceable(alloc) {
        Ok(rows) => Ok(Some(Traceable {
            path: file.path,
            source: Source::Image,
            rows,
        })),
        Err(_) => Err(out_of_memory(err)),
    }
}

/// Returns the functions that a kernel can trace by its list, if it is given. Returns the exit status as `Err` if it is faulty.
fn traceable_in<'f, E: Write>(
    alloc: Global,
    traceable: Option<&'f File<'_>>,
    err: &mut E,
) -> Result<Option<Traceable<'f>>, u8> {
    let Some(file) = traceable else {
        return Ok(None);
    };
    match read_traceable(alloc, &file.bytes) {
        Ok(rows) => Ok(Some(Traceable {
            path: file.path,
            source: Source::List,
            rows,
        })),
        Err(TraceableFault::NoMemory) => Err(out_of_memory(err)),
        Err(fault) => Err(tell_fault(file.path, fault, err)),
    }
}

/// Reads what is known of a kernel. Returns the exit status as `Err` if a file is faulty, or if memory runs out.
pub(crate) fn kernel_in<'k, E: Write>(
    alloc: Global,
    files: &'k Files<'_>,
    image: Option<&'k KernelImage<'_>>,
    targets: &[TargetModule<'k>],
    err: &mut E,
) -> Result<Kernel<'k>, u8> {
    let mut rows = rows_in(alloc, image, files.symbols.as_ref(), err)?;
    add_targets(&mut rows, targets, err)?;
    let traceable = match (&files.image, image) {
        (Some(file), Some(image)) => traced_by_image(alloc, file, image, err)?,
        _ => traceable_in(alloc, files.traceable.as_ref(), err)?,
    };
    Ok(Kernel {
        rows,
        traceable,
        release: release_of(files.image.as_ref(), image),
    })
}

/// Writes of which objects of a livepatch the list has no function. Returns whether there are any.
fn tell_unlisted<E: Write>(list: &Traceable<'_>, livepatch: &Livepatch<'_>, err: &mut E) -> bool {
    let (path, file) = (
        Escaped(list.path.as_bytes()),
        Escaped(livepatch.file.as_bytes()),
    );
    let mut is_any = false;
    for object in &livepatch.patch.objects {
        let name = name_of_row(&object.row);
        if !object.functions.is_empty() && !is_judged(&list.rows, name) {
            is_any = true;
            let name = Escaped(name);
            let _ = match list.source {
                Source::List => writeln!(
                    err,
                    "{NAME}: {file}: {path} lists no function of {name}, so it isn't known which of them the kernel can patch"
                ),
                Source::Image => writeln!(
                    err,
                    "{NAME}: {file}: {path} has nothing of {name}, so it isn't known which of its functions the kernel can patch"
                ),
            };
        }
    }
    is_any
}

/// Writes which functions of a livepatch a kernel can't patch. Returns whether there are any.
fn tell_untraceable<E: Write>(
    alloc: Global,
    list: &Traceable<'_>,
    livepatch: &Livepatch<'_>,
    err: &mut E,
) -> Result<bool, AllocError> {
    let (path, file) = (
        Escaped(list.path.as_bytes()),
        Escaped(livepatch.file.as_bytes()),
    );
    let refused = untraceable(alloc, &list.rows, &livepatch.changed)?;
    for change in &refused {
        let (name, object) = (Escaped(change.name), Escaped(object_name(change.object)));
        let _ = match list.source {
            Source::List => writeln!(
                err,
                "{NAME}: {file}: the kernel refuses the patch: {path} doesn't list {name} of {object}, so it can't be patched"
            ),
            Source::Image => writeln!(
                err,
                "{NAME}: {file}: the kernel refuses the patch: {path} has no entry site of {name} of {object}, so it can't be patched"
            ),
        };
    }
    Ok(!refused.is_empty())
}

/// Writes which changes of a livepatch are of variables. Returns whether there are any.
fn tell_variables<E: Write>(
    alloc: Global,
    rows: &[KernelRow<'_>],
    livepatch: &Livepatch<'_>,
    err: &mut E,
) -> Result<bool, AllocError> {
    let file = Escaped(livepatch.file.as_bytes());
    let refused = variables(alloc, rows, &livepatch.changed)?;
    for change in &refused {
        let (name, object) = (Escaped(change.name), Escaped(object_name(change.object)));
        let _ = match change.position {
            0 => writeln!(
                err,
                "{NAME}: {file}: the kernel refuses the patch: {name} of {object} is a variable"
            ),
            position => writeln!(
                err,
                "{NAME}: {file}: the kernel refuses the patch: {name},{position} of {object} is a variable"
            ),
        };
    }
    Ok(!refused.is_empty())
}

/// Writes what stands against the livepatches by the kernel's release and symbols, and by the functions that it can trace, if
/// these are known. Returns whether nothing does.
pub(crate) fn can_patch<E: Write>(
    alloc: Global,
    kernel: &Kernel<'_>,
    livepatches: &[Livepatch<'_>],
    err: &mut E,
) -> Result<bool, AllocError> {
    let mut can_all = true;
    for livepatch in livepatches {
        if let Some(release) = kernel.release
            && tell_release(release, livepatch, err)
        {
            can_all = false;
        }
        if tell_variables(alloc, &kernel.rows, livepatch, err)? {
            can_all = false;
        }
        if let Some(list) = &kernel.traceable {
            let is_refused = tell_untraceable(alloc, list, livepatch, err)?;
            let is_unlisted = tell_unlisted(list, livepatch, err);
            can_all = can_all && !is_refused && !is_unlisted;
        }
    }
    Ok(can_all)
}
