//! State that no line of the console shows: how many records still fit into the journal, and the values of system
//! states.
use crate::input::whole;
use crate::large::LARGE;
use crate::managed::{Given, Shown, outcome};
use klp_boot::Fault;
use std::alloc::Global;
use std::test::Fail;

/// A patch that sets two system states, and a patch that takes over both in the other order.
const HANDED_OVER: &str = "\
handler ffffffff81000000
object vmlinux
symbol f ffffffff81001000 e80000000090c3
patch a
state 3 1
state 4 1
target vmlinux
func .klp.sym.vmlinux.f,0 f_a ffffffffc0001000
pre 0 set:3:9 set:4:8
patch b
state 4 1
state 3 1
target vmlinux
func .klp.sym.vmlinux.f,0 f_b ffffffffc0002000
pre 0 takeprev:4 takeprev:3
";

fn handed_over(alloc: Global) -> Result<Shown, Fault> {
    let given = Given {
        text: HANDED_OVER,
        callbacks: 2,
    };
    outcome(alloc, given, &[whole(b"load a\npoll\nload b\n")])
}

#[test]
fn each_state_is_handed_over(rt: HostRuntime) -> Result<(), Fail> {
    let shown = handed_over(rt.alloc())?;
    assert!(rt; shown.states == [Some(9), Some(8), Some(9), Some(8)]);
    Ok(())
}

/// Lines that enable a patch and disable it again.
const CYCLE: &[u8] = b"load p\npoll\necho 0 > /sys/kernel/livepatch/p/enabled\npoll\n";

/// How often the cycle is done. Each cycle adds 262 of 16,384 records. For each of the patch's 64 functions, its entry
/// adds two and its site adds two. The patch's place in the list adds two, and the transition adds four.
const CYCLES: usize = 44;

/// Lines in which a task enters the kernel and leaves it. Each line adds one record.
const TURN: &[u8] = b"task enter 1\ntask exit 1\n";

/// How often the turn is done.
const TURNS: usize = 379;

fn filled(alloc: Global) -> Result<Shown, Fail> {
    let cycles = CYCLE.repeat(alloc, CYCLES)?;
    let turns = TURN.repeat(alloc, TURNS)?;
    let given = Given {
        text: LARGE,
        callbacks: 0,
    };
    let inputs = [
        whole(&cycles),
        whole(b"task new 1\n"),
        whole(&turns),
        whole(b"task enter 1\n"),
        whole(b"task exit 1\n"),
        whole(b"task enter 1\n"),
    ];
    Ok(outcome(alloc, given, &inputs)?)
}

/// How many records still fit after each input. The last event is refused, so it adds no record.
const FREE: [u32; 6] = [4856, 4855, 4097, 4096, 4095, 4095];

fn is_counted(shown: &Shown) -> bool {
    let free = shown.looks.iter().map(|look| look.free);
    let same = free.zip(FREE).all(|(free, wanted)| free == wanted);
    same && shown.looks.len() == FREE.len()
}

#[test]
fn an_event_needs_4096_free_records(rt: HostRuntime) -> Result<(), Fail> {
    let shown = filled(rt.alloc())?;
    let is_refused = shown.said.ends_with(b"ok\nerror 12 JournalFull\n");
    assert!(rt; is_counted(&shown) && is_refused);
    Ok(())
}
