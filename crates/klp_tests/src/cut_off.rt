//! Serves scripts, while each read and each write fails in its turn. The lines that were answered must stay done, and
//! at most one further line. The answers alone determine which lines must be done. A second manager serves only these
//! lines, and must then show the same as the first manager.
use crate::input::{Input, whole};
use crate::managed::{Given, Shown, outcome};
use klp_boot::Fault;
use klp_console::{ServeFault, Served};
use std::alloc::{AllocError, Global};

/// How many bytes a read gives or a write accepts, if it is cut.
const PIECE: usize = 7;

/// A catalog with callbacks of each kind. Some of them undo what others do, and one refuses.
const CATALOG: &str = "\
handler ffffffff81000000
object vmlinux
symbol f ffffffff81001000 e80000000090c3
symbol g ffffffff81002000 e800000000c3
symbol h ffffffff81003000 e800000000c3
patch p
target vmlinux
func .klp.sym.vmlinux.f,0 f_p ffffffffc0001000
pre 0 alloc:1:9:5
post 0 alloc:1:10:6
preun 0 free:1:10
postun 0 free:1:9
patch q
target vmlinux
func .klp.sym.vmlinux.g,0 g_q ffffffffc0002000
pre -16
";

/// How many callbacks this catalog has.
const CALLBACKS: usize = 5;

/// Lines that show all that can be seen of a manager. After that, they undo all events, and show the manager again.
const LOOKS: &[u8] = b"\
mark
ls /sys/kernel/livepatch
cat /sys/kernel/livepatch/p/enabled
cat /sys/kernel/livepatch/p/transition
cat /proc/1/patch_state
cat /proc/2/patch_state
text vmlinux
stack .klp.sym.vmlinux.f,0
pick 1 .klp.sym.vmlinux.f,0
runs p vmlinux
runs q vmlinux
shadow get 1 9
shadow get 1 10
shadow get 4 4
shadow get 5 5
rewind 0
cat /proc/1/patch_state
text vmlinux
shadow get 1 9
shadow get 4 4
shadow get 5 5
";

/// Events of tasks. All events except the patch's are done before earlier answers are written.
const TASKS: &str = "\
task new 1
task enter 1
task sleep 1 .klp.sym.vmlinux.f,0 .klp.sym.vmlinux.g,0
task new 2
shadow alloc 4 4 x0a0b0c
task new 2
load p
task enter 2
task exit 2
task wake 1
task fork 1 3
task exit 1
shadow free 4 4
task exit 3
task end 3
poll
task enter 1
task end 2
";

/// Events, with queries in between whose answers have many lines.
const LISTS: &str = "\
shadow alloc 4 4 4
text vmlinux
task new 1
ls /sys/kernel/livepatch/p
shadow alloc 5 5 x
text vmlinux
load p
text vmlinux
shadow free 4 4
ls /sys/kernel/livepatch/p
task enter 1
text vmlinux
task exit 1
";

/// Lines that remove events from the journal.
const TAKEN_BACK: &str = "\
task new 1
shadow alloc 4 4 4
task enter 1
seal
task exit 1
shadow alloc 5 5 5
mark
rewind 1
task new 2
load p
task enter 1
rewind 9
echo 0 > /sys/kernel/livepatch/p/enabled
shadow free 4 4
rewind 2
task enter 2
seal
task exit 2
rewind 0
";

/// Events that run callbacks. One of the callbacks refuses.
const CALLING: &str = "\
task new 1
load q
shadow alloc 4 4 4
load p
shadow get 1 9
poll
runs p vmlinux
task enter 1
load q
echo 0 > /sys/kernel/livepatch/p/enabled
task exit 1
shadow free 4 4
poll
runs p vmlinux
load p
task new 2
";

/// A script, and its results if nothing fails.
#[derive(Drop)]
struct Known {
    lines: &'static [u8],
    answers: Vec<u8>,
    /// For each line, the place where its answer ends.
    ends: Vec<usize>,
    /// The text that a manager shows before the first line, and after each line.
    states: Vec<Vec<u8>>,
}

/// The text that is seen of a manager after it served a script.
#[derive(Drop)]
struct Seen {
    ended: Option<Result<Served, ServeFault>>,
    /// Whether the written text is a front of all answers. `answered` is the number of lines whose whole answers are in
    /// it.
    is_front: bool,
    answered: usize,
    state: Vec<u8>,
}

/// What one manager answers to these inputs.
fn served(alloc: Global, inputs: &[Input<'_>]) -> Result<Shown, Fault> {
    let given = Given {
        text: CATALOG,
        callbacks: CALLBACKS,
    };
    outcome(alloc, given, inputs)
}

/// The answers to the first input, and the answers to the other inputs.
fn answers(shown: &Shown) -> (&[u8], &[u8]) {
    let end = shown.looks.first().map_or(0, |look| look.said);
    let first = shown.said.get(..end).unwrap_or(&[]);
    (first, shown.said.get(end..).unwrap_or(&[]))
}

/// The text that a manager shows after these lines.
fn state_after(alloc: Global, lines: &[u8]) -> Result<Vec<u8>, Fault> {
    let shown = served(alloc, &[whole(lines), whole(LOOKS)])?;
    Ok(Vec::from_slice(alloc, answers(&shown).1)?)
}

/// Adds the lines of a text as inputs, so that each line is served by itself.
fn put_lines<'a>(inputs: &mut Vec<Input<'a>>, text: &'a str) -> Result<(), AllocError> {
    for line in text.lines() {
        inputs.push(whole(line.as_bytes()))?;
    }
    Ok(())
}

/// Adds the text that a manager shows before the first line, and after each line.
fn put_states(alloc: Global, states: &mut Vec<Vec<u8>>, lines: &[u8]) -> Result<(), Fault> {
    states.push(state_after(alloc, b"")?)?;
    for (place, byte) in lines.iter().enumerate() {
        if *byte == b'\n' {
            states.push(state_after(alloc, lines.get(..place).unwrap_or(&[]))?)?;
        }
    }
    Ok(())
}

fn known_of(alloc: Global, script: &'static str) -> Result<Known, Fault> {
    let mut inputs = Vec::new(alloc);
    put_lines(&mut inputs, script)?;
    let shown = served(alloc, &inputs)?;
    let mut ends = Vec::new(alloc);
    for look in &shown.looks {
        ends.push(look.said)?;
    }
    let mut states = Vec::new(alloc);
    put_states(alloc, &mut states, script.as_bytes())?;
    Ok(Known {
        lines: script.as_bytes(),
        answers: Vec::from_slice(alloc, &shown.said)?,
        ends,
        states,
    })
}

/// Serves the script, and returns the text that is then seen of the manager.
fn seen_of(alloc: Global, known: &Known, input: Input<'_>) -> Result<Seen, Fault> {
    let shown = served(alloc, &[input, whole(LOOKS)])?;
    let (front, state) = answers(&shown);
    Ok(Seen {
        ended: shown.looks.first().map(|look| look.ended),
        is_front: known.answers.starts_with(front),
        answered: known.ends.iter().filter(|end| **end <= front.len()).count(),
        state: Vec::from_slice(alloc, state)?,
    })
}

/// Whether the same text is seen of a manager that served only the first `lines` lines.
fn is_after(known: &Known, seen: &Seen, lines: usize) -> bool {
    match known.states.get(lines) {
        Some(state) => seen.is_front && *state == seen.state,
        None => false,
    }
}

fn line_feeds(text: &[u8]) -> usize {
    text.iter().filter(|byte| **byte == b'\n').count()
}

/// Whether a failure of read number `k` is reported. All lines before the failed read must also be answered, and stay
/// done.
fn is_read_cut_off(alloc: Global, known: &Known, gives: usize, k: usize) -> Result<bool, Fault> {
    let input = Input {
        gives,
        read: u32::try_from(k).ok(),
        ..whole(known.lines)
    };
    let seen = seen_of(alloc, known, input)?;
    let heard = k.saturating_mul(gives).min(known.lines.len());
    Ok(
        seen.ended == Some(Err(ServeFault::Read))
            && seen.answered == line_feeds(&known.lines[..heard])
            && is_after(known, &seen, seen.answered),
    )
}

/// Whether a failure of write number `k` is reported. The lines whose answers were written must also stay done, and the
/// line whose answer was cut off. `None` if there is no such write.
fn is_write_cut_off(
    alloc: Global,
    known: &Known,
    cut: [usize; 2],
    k: usize,
) -> Result<Option<bool>, Fault> {
    let [gives, takes] = cut;
    let input = Input {
        gives,
        takes,
        write: u32::try_from(k).ok(),
        ..whole(known.lines)
    };
    let seen = seen_of(alloc, known, input)?;
    Ok(match seen.ended {
        Some(Ok(_)) => None,
        Some(Err(ServeFault::Write)) => Some(is_after(
            known,
            &seen,
            seen.answered.saturating_add(1),
        )),
        _ => Some(false),
    })
}

/// Whether the right lines stay done after each failed write. These are the lines whose answers were written, and the
/// line whose answer was cut off. There must be at least as many writes as the answers need, with at most `cut[1]`
/// bytes in each write.
fn are_writes_cut_off(alloc: Global, known: &Known, cut: [usize; 2]) -> Result<bool, Fault> {
    let mut right = true;
    for k in 0..known.answers.len() {
        match is_write_cut_off(alloc, known, cut, k)? {
            Some(is_right) => right = is_right && right,
            None => return Ok(right && known.answers.len().div_ceil(cut[1].max(1)) <= k),
        }
    }
    Ok(right)
}

/// Whether the answered lines stay done after each failed read and each failed write. The read behind the last byte
/// fails in its turn too.
fn are_all_cut_off(alloc: Global, script: &'static str) -> Result<bool, Fault> {
    let known = known_of(alloc, script)?;
    let mut right = known.states.len() == known.ends.len().saturating_add(1);
    for k in 0..=known.lines.len().div_ceil(PIECE) {
        right = is_read_cut_off(alloc, &known, PIECE, k)? && right;
    }
    for cut in [[PIECE, PIECE], [4096, PIECE], [4096, 4096]] {
        right = are_writes_cut_off(alloc, &known, cut)? && right;
    }
    Ok(right)
}

#[test]
fn what_was_answered_stands_and_at_most_one_line_more(rt: HostRuntime) {
    for script in [TASKS, LISTS, TAKEN_BACK, CALLING] {
        let right = are_all_cut_off(rt.alloc(), script);
        assert!(rt; right == Ok(true));
    }
}
