//! The image of the kernel for which a catalog is.
use crate::files::{File, Files, NAME, out_of_memory, tell_fault};
use klp_kernel_image::{ImageFault, KernelImage};
use klp_messages::Escaped;
use klp_module_answer::Livepatch;
use std::alloc::Global;
use std::io::Write;

/// Reads the image of the kernel, if it is given. Returns the exit status as `Err` if it is faulty.
pub(crate) fn image_in<'f, E: Write>(
    alloc: Global,
    files: &'f Files<'_>,
    err: &mut E,
) -> Result<Option<KernelImage<'f>>, u8> {
    let Some(file) = &files.image else {
        return Ok(None);
    };
    match KernelImage::read(alloc, &file.bytes) {
        Ok(image) => Ok(Some(image)),
        Err(ImageFault::NoMemory) => Err(out_of_memory(err)),
        Err(fault) => Err(tell_fault(file.path, fault, err)),
    }
}

/// The release of the kernel in a file.
#[derive(Clone, Copy)]
pub(crate) struct Release<'k> {
    path: &'k str,
    name: &'k [u8],
}

/// Returns the release of an image and its file, if they are given.
pub(crate) fn release_of<'k>(
    file: Option<&'k File<'_>>,
    image: Option<&'k KernelImage<'_>>,
) -> Option<Release<'k>> {
    let (Some(file), Some(image)) = (file, image) else {
        return None;
    };
    Some(Release {
        path: file.path,
        name: image.release,
    })
}

/// Writes whether a livepatch is built for another kernel than that of this release. Returns whether it is.
pub(crate) fn tell_release<E: Write>(
    release: Release<'_>,
    livepatch: &Livepatch<'_>,
    err: &mut E,
) -> bool {
    if livepatch.release == release.name {
        return false;
    }
    let (file, path) = (
        Escaped(livepatch.file.as_bytes()),
        Escaped(release.path.as_bytes()),
    );
    let (own, other) = (Escaped(livepatch.release), Escaped(release.name));
    let _ = writeln!(
        err,
        "{NAME}: {file}: it is built for {own}, and {path} is {other}"
    );
    true
}
