//! Catalogs that get more or fewer callbacks than their texts have scripts. If memory may be short too, the contract
//! leaves open which fault is returned. No program gives a wrong number of callbacks.
use crate::managed::{Given, outcome};
use klp_boot::Fault;
use klp_catalog::AssembleFault;
use std::alloc::Global;

/// Two objects, a patch that changes both, and three callbacks.
const THREE: &str = "handler ffffffff81000000
object vmlinux
symbol f ffffffff81001000 e800000000c3
object m
symbol f ffffffffa0000000 e800000000c3
patch p
target vmlinux
post 0
pre 0
target m
pre 0
";

/// A patch that has two functions for the same site, and one callback.
const TWICE: &str = "handler ffffffff81000000
object vmlinux
symbol f ffffffff81001000 e800000000c3
patch p
target vmlinux
func .klp.sym.vmlinux.f,0 a 1
func .klp.sym.vmlinux.f,1 b 2
pre 0
";

fn fault_of(alloc: Global, text: &str, callbacks: usize) -> Option<Fault> {
    outcome(alloc, Given { text, callbacks }, &[]).err()
}

#[test]
fn another_number_of_callbacks_is_refused(rt: HostRuntime) {
    let wrong = Some(Fault::Assemble(AssembleFault::WrongCallbacks));
    for (number, (text, callbacks, wanted)) in [
        (THREE, 3, None),
        (THREE, 2, wrong),
        (THREE, 4, wrong),
        // a wrong number of callbacks is reported before the other fault
        (TWICE, 1, Some(Fault::Assemble(AssembleFault::SameSite))),
        (TWICE, 0, wrong),
        (TWICE, 2, wrong),
    ]
    .into_iter()
    .enumerate()
    {
        let fault = fault_of(rt.alloc(), text, callbacks);
        assert!(rt; fault == wanted, "case {number}");
    }
}
