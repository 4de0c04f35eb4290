//! Leaves out of livepatches what a catalog has no room for.
use crate::{NoCatalog, whole_draft};
use klp_module_catalog::{CatalogFault, Draft, NamedPatch};
use klp_module_cut::{Cut, CutRoom, changed_by_others, cut_patch, is_cut_of};
use klp_module_symbols::KernelRow;
use klp_types::{MAX_FUNCTIONS, MAX_TARGETS};
use std::alloc::Global;

/// Cuts each patch down to this room. Returns `Err` if something else than a cut was made, or if memory runs out.
fn cut_all<'p, 'a>(
    alloc: Global,
    patches: &[NamedPatch<'p, 'a>],
    room: CutRoom,
) -> Result<Vec<Cut<'p, 'a>>, NoCatalog> {
    let mut cuts = Vec::new(alloc);
    for (number, whole) in patches.iter().enumerate() {
        let others = changed_by_others(alloc, patches, number)?;
        let cut = cut_patch(alloc, &others, whole, room)?;
        if !is_cut_of(&others, &cut.named(), whole) {
            return Err(NoCatalog::Otherwise);
        }
        if cuts.push(cut).is_err() {
            return Err(NoCatalog::Refused(CatalogFault::NoMemory));
        }
    }
    Ok(cuts)
}

/// Returns a catalog of the patches, each cut down to this room.
fn draft_in(
    alloc: Global,
    rows: &[KernelRow<'_>],
    patches: &[NamedPatch<'_, '_>],
    room: CutRoom,
) -> Result<Draft, NoCatalog> {
    let cuts = cut_all(alloc, patches, room)?;
    let mut named = Vec::new(alloc);
    for cut in &cuts {
        if named.push(cut.named()).is_err() {
            return Err(NoCatalog::Refused(CatalogFault::NoMemory));
        }
    }
    whole_draft(alloc, rows, &named)
}

/// Returns less room, where a catalog has none for the patches together: half as many functions of each, or one object
/// less. Returns `None` if less room doesn't help.
fn less_room(room: CutRoom, fault: CatalogFault) -> Option<CutRoom> {
    let CutRoom { functions, objects } = room;
    match fault {
        CatalogFault::TooManySymbols if functions > 0 => Some(CutRoom {
            functions: functions / 2,
            objects,
        }),
        CatalogFault::TooManyObjects if objects > 0 => Some(CutRoom {
            functions,
            objects: objects - 1,
        }),
        _ => None,
    }
}

/// Returns a catalog of the patches without what it has no room for. Each patch has the same room: as many functions and
/// objects as a catalog has room for of one patch, or fewer if it has no room for all patches together. What must stay stays
/// even if there is no room: then no catalog is made.
pub(crate) fn cut_draft(
    alloc: Global,
    rows: &[KernelRow<'_>],
    patches: &[NamedPatch<'_, '_>],
) -> Result<Draft, NoCatalog> {
    let mut room = CutRoom {
        functions: MAX_FUNCTIONS,
        objects: MAX_TARGETS,
    };
    // Each step leaves less room, so there aren't more of them.
    for _ in 0..MAX_FUNCTIONS + MAX_TARGETS {
        let fault = match draft_in(alloc, rows, patches, room) {
            Err(NoCatalog::Refused(fault)) => fault,
            other => return other,
        };
        match less_room(room, fault) {
            Some(less) => room = less,
            None => return Err(NoCatalog::Refused(fault)),
        }
    }
    draft_in(alloc, rows, patches, room)
}
