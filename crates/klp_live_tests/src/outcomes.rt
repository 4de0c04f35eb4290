//! Prints the answers to events, and the outcomes of steps.
use klp_live::{EnterFault, LiveRefusal, Receipt, Start};
use klp_live_bodies::{Accepted, Outcome, What};
use klp_model::Reply;
use klp_types::Target;
use std::io;

/// The number and the reply of an event, or the reason why the event isn't admitted. The answer is plain data, since a
/// receipt costs the prover more.
pub(crate) type Answered = Result<(u64, Reply), LiveRefusal>;

/// Returns the answer in a receipt, as plain data.
pub(crate) fn answer_of<S: Start>(came: Result<Receipt<S>, LiveRefusal>) -> Answered {
    match came {
        Ok(receipt) => Ok((receipt.number(), receipt.reply())),
        Err(refusal) => Err(refusal),
    }
}

pub(crate) fn show_answer<R: Print>(rt: &R, came: &Answered) -> io::Result<()> {
    match came {
        Ok((number, reply)) => println!(rt; "{number} {reply:?}"),
        Err(refusal) => println!(rt; "{refusal:?}"),
    }
}

/// Prints which version a call of a pass runs, or the reason why the call runs no version.
pub(crate) fn show_found<R: Print>(rt: &R, found: &Result<Target, EnterFault>) -> io::Result<()> {
    match found {
        Ok(Target { version, address }) => println!(rt; "{version:?} {address:x}"),
        Err(fault) => println!(rt; "{fault:?}"),
    }
}

/// How much is printed of outcomes.
#[derive(Clone, Copy)]
pub(crate) enum Detail {
    All,
    Kinds,
}

/// Prints the outcomes of a body's steps. Prints nothing for a body without steps.
pub(crate) fn show_outcomes<R: Print>(
    rt: &R,
    steps: usize,
    outcomes: &[Outcome],
    detail: Detail,
) -> io::Result<()> {
    if steps == 0 {
        return Ok(());
    }
    match detail {
        Detail::Kinds => show_kinds(rt, outcomes),
        Detail::All => {
            for outcome in outcomes {
                show_outcome(rt, outcome)?;
            }
            Ok(())
        }
    }
}

/// Prints the answer to an accepted event. If a task was woken, prints only the versions in its frames.
fn show_receipt<R: Print>(rt: &R, known: u64, accepted: &Accepted) -> io::Result<()> {
    let number = accepted.number();
    match accepted.reply() {
        Reply::Woken(frames) => println!(rt; "{known}: {number} Woken {:?}", frames.as_slice()),
        other => println!(rt; "{known}: {number} {other:?}"),
    }
}

/// Prints the outcome of a step, and the number of events that were known after the step.
fn show_outcome<R: Print>(rt: &R, outcome: &Outcome) -> io::Result<()> {
    let known = outcome.known;
    match &outcome.what {
        What::Receipt(accepted) => show_receipt(rt, known, accepted),
        What::Refused(refusal) => println!(rt; "{known}: {refusal:?}"),
        What::Entered(Target { version, address }) => {
            println!(rt; "{known}: {version:?} {address:x}")
        }
        What::NoEntry(fault) => println!(rt; "{known}: {fault:?}"),
        What::Returned | What::Deep => println!(rt; "{known}: {}", kind(&outcome.what)),
    }
}

/// Returns the word for this kind of outcome.
fn kind(what: &What) -> &'static str {
    match what {
        What::Receipt(_) => "receipt",
        What::Refused(_) => "refused",
        What::Entered(_) => "entered",
        What::NoEntry(_) => "no entry",
        What::Returned => "returned",
        What::Deep => "deep",
    }
}

/// Prints each sequence of outcomes of the same kind, as its length and the kind.
fn show_kinds<R: Print>(rt: &R, outcomes: &[Outcome]) -> io::Result<()> {
    let mut count: u64 = 0;
    let mut last = "outcomes";
    for outcome in outcomes {
        let name = kind(&outcome.what);
        if name != last && count > 0 {
            println!(rt; "{count} {last}")?;
            count = 0;
        }
        last = name;
        count = count.saturating_add(1);
    }
    println!(rt; "{count} {last}")
}
