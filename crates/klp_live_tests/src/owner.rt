//! The only owner of a manager. It boots a manager, and passes it to functions that are generic over the machine. Such
//! functions don't see the manager's boxes.
use crate::booted::Fault;
use crate::handles::Runtime;
use crate::runs::{Work, do_work};
use klp_boot::boot;
use klp_catalog::{AssembleFault, Catalog};
use klp_core::Manager;
use std::alloc::Global;
use std::io;

/// Boots a manager over a catalog. The tests make no callbacks, so the catalog must have none.
fn booted(alloc: Global, text: &[u8]) -> Result<Manager, klp_boot::Fault> {
    let plan = Catalog::read(alloc, text)?;
    if let Some(_script) = plan.script(0) {
        return Err(klp_boot::Fault::Assemble(AssembleFault::WrongCallbacks));
    }
    boot(alloc, plan, Vec::new(alloc))
}

/// Passes a manager to `do_work`, which accepts any machine that can be sent to another thread.
fn hand_on<R: Runtime>(rt: &R, alloc: Global, manager: Manager, work: Work) -> io::Result<()> {
    do_work::<Manager, R>(rt, alloc, manager, work)
}

/// Boots a manager over a catalog, and does this work with it.
pub(crate) fn managed<R: Runtime>(
    rt: &R,
    alloc: Global,
    text: &[u8],
    work: Work,
) -> Result<(), Fault> {
    let manager = booted(alloc, text)?;
    Ok(hand_on(rt, alloc, manager, work)?)
}
