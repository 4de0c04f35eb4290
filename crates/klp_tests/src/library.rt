//! The code of docs/LIBRARY.md. So it is known to compile, and to do what the page says.
use klp_boot::{Fault, ManagerUse, over_text};
use klp_core::Manager;
use klp_model::Event;
use klp_program::CATALOG;
use klp_types::{ObjId, PatchId};
use std::alloc::Global;
use std::test::Fail;

/// Returns the first byte of the kernel's first function. The function asks by a query, which changes nothing.
fn first_byte(manager: &Manager) -> Option<u8> {
    let text = manager.text(ObjId(0))?;
    let (_name, _address, body) = text.get(0)?;
    body.first().copied()
}

/// The patch that is tried out with the manager.
#[derive(Drop)]
struct Trial {
    patch: PatchId,
}

impl ManagerUse for Trial {
    type Done = [Option<u8>; 3];

    ghost comes_to = { λ _ _ _ _. Unit {0} };

    // Enables the patch, polls once, and undoes both events. Returns the first byte of the kernel's text before,
    // meanwhile if the transition is complete, and afterwards.
    fn run(&mut self, _alloc: Global, manager: &mut Manager) -> [Option<u8>; 3] {
        let patch = self.patch;
        let (mark, before) = (manager.mark(), first_byte(manager));
        let is_complete = manager.run(&[Event::Enable(patch), Event::Poll]) == (2, 0)
            && manager.transition(patch) == Some(false);
        let meanwhile = first_byte(manager).filter(|_byte| is_complete);
        let _ = manager.rewind(mark);
        [before, meanwhile, first_byte(manager)]
    }
}

fn shown(alloc: Global) -> Result<[Option<u8>; 3], Fault> {
    over_text(alloc, CATALOG, &mut Trial { patch: PatchId(0) })
}

#[test]
fn a_patch_is_enabled_and_undone(rt: HostRuntime) -> Result<(), Fail> {
    let nop = Some(0x0f);
    let call = Some(0xe8);
    assert!(rt; shown(rt.alloc())? == [nop, call, nop]);
    Ok(())
}
