//! Tests which symbol a name and a position pick, and the three reasons why they may pick none. The console reports all
//! three in the same way.
use klp_boot::{Fault, opened};
use klp_catalog::Catalog;
use klp_modules::{Modules, SymbolFault};
use klp_types::{ObjId, Site};
use std::alloc::Global;

/// Two functions of the kernel with the same name, and a function of that name in a module.
const TEXT: &str = "\
handler ffffffff81000000
object vmlinux
symbol f ffffffff81001000 e80000000090c3
symbol h ffffffff81002000 e800000000c3
symbol d ffffffff81003000 e800000000c3
symbol d ffffffff81004000 e800000000c3
object m
symbol d ffffffffa0000000 e800000000c3
";

const PICKED: [(u8, &str, u32, Result<u16, SymbolFault>); 10] = [
    (0, "d", 0, Err(SymbolFault::Ambiguous)),
    (0, "d", 1, Ok(2)),
    (0, "d", 2, Ok(3)),
    (0, "d", 3, Err(SymbolFault::NoPosition)),
    (0, "z", 0, Err(SymbolFault::Missing)),
    (0, "f", 0, Ok(0)),
    (0, "f", 1, Ok(0)),
    (1, "d", 0, Ok(4)),
    (1, "f", 0, Err(SymbolFault::Missing)),
    (2, "d", 0, Err(SymbolFault::Missing)),
];

fn modules_of(alloc: Global) -> Result<Modules, Fault> {
    let mut plan = Catalog::read(alloc, TEXT.as_bytes())?;
    let (_image, modules) = opened(alloc, &mut plan)?;
    Ok(modules)
}

fn all_picked(modules: &Modules) -> bool {
    PICKED.iter().all(|(object, name, position, wanted)| {
        let picked = modules.resolve(ObjId(*object), name, *position);
        picked == wanted.map(|number| Site(number))
    })
}

#[test]
fn names_and_positions_pick_symbols(rt: HostRuntime) {
    let picked = modules_of(rt.alloc()).is_ok_and(|modules| all_picked(&modules));
    assert!(rt; picked);
}
