//! Reads the catalog that has what a log doesn't show of its patches.
use crate::NAME;
use klp_boot::Fault;
use klp_capture_catalog::KnownPatches;
use klp_capture_run::Explained;
use klp_diagnostics::{FileKind, FileText, Inputs, file_in};
use klp_messages::Escaped;
use std::io::Write;

/// Returns the patches of the catalog, or no patches if none was given. If it can't be read, writes why to `err`, and
/// returns the exit status as `Err`.
pub(crate) fn known_in<E: Write>(
    rt: &HostRuntime,
    catalog: Option<&str>,
    err: &mut E,
) -> Result<KnownPatches, u8> {
    let alloc = rt.alloc();
    let Some(name) = catalog else {
        return Ok(KnownPatches::none(alloc));
    };
    let bytes = file_in(rt, NAME, name, err)?;
    match klp_catalog_text::read(alloc, &bytes) {
        Ok(plan) => Ok(KnownPatches::of(bytes, plan)),
        Err(fault) => {
            let nothing = Vec::new(alloc);
            let inputs = Inputs {
                program: NAME,
                catalog: FileText {
                    name,
                    bytes: &bytes,
                },
                second: FileText {
                    name: "",
                    bytes: &nothing,
                },
                kind: FileKind::Script,
            };
            Err(inputs.print_fault(alloc, Fault::Text(fault), err))
        }
    }
}

/// Writes to `err` which patches of a log the catalog doesn't have.
pub(crate) fn tell_unknown<E: Write>(
    catalog: Option<&str>,
    known: &KnownPatches,
    found: &Explained<'_>,
    err: &mut E,
) {
    let Some(catalog) = catalog else {
        return;
    };
    for patch in &found.names {
        if !known.has(patch.name) {
            let (catalog, name) = (Escaped(catalog.as_bytes()), Escaped(patch.name));
            let _ = writeln!(
                err,
                "{NAME}: {catalog}: it has no patch {name}, which is in the log"
            );
        }
    }
}
