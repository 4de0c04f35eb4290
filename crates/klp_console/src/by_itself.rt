//! The answer to an event by itself, as text, for callers that serve no lines.
ghost use Rattle.std.specs.Prelude.{◌≡◌, ◌≤◌, IfOk, OnOk};
ghost use Rattle.std.specs.Io.KnownBytes.{Appends};
ghost use Rattle.klp_console.specs.Replies.{answer_text};

use crate::replies::say_answer;
use klp_console_io::{Answers, Failed, OverWrite, Sink};
use klp_core::Manager;
use klp_model::{Refusal, Reply};
use std::alloc::{AllocError, Global};
use std::marker::Brand;
use std::sync::ledger::{Blank, Ledger};

/// Writes an answer to a sink. `Err` means that the sink failed or accepted no byte, so the end of the answer is
/// missing.
fn write_answer<W: Sink>(
    manager: &Manager,
    answer: &Result<Reply, Refusal>,
    writer: &mut W,
) -> Result<(), Failed>
    ensures { OnOk result (Appends (W.written writer.old).taken (W.written writer.new).taken
        (answer_text manager.now.managed.catalog answer.now)) }
{
    klp_console_io::laws::what_is_said_adds_up();
    let mut answers = Answers::new();
    say_answer(
        &mut answers,
        writer,
        manager.catalog(),
        manager.modules(),
        answer,
    );
    answers.flush(writer);
    if answers.has_failed() {
        return Err(Failed);
    }
    Ok(())
}

/// Writes an answer to a list of bytes. `writes` are the tokens by which the list counts failed writes.
fn answer_in<L: Ledger>(
    alloc: Global,
    manager: &Manager,
    answer: &Result<Reply, Refusal>,
    writes: Blank,
) -> Result<Vec<u8>, AllocError>
    requires writes { (writes.name ≡ L.name) × (writes.parts ≡ L.parts) × (2 ≤ writes.parts) }
    ensures { IfOk result (λ text. text.items ≡ answer_text manager.now.managed.catalog answer.now) }
{
    let mut sink = OverWrite::<Vec<u8>, L>::new(Vec::new(alloc), writes);
    match write_answer(manager, answer, &mut sink) {
        Ok(()) => Ok(sink.into_inner()),
        Err(_) => Err(AllocError),
    }
}

/// Returns the line that the console writes for the answer to an event, with its line feed. The names are those of the
/// manager's catalog. Returns `Err` if memory runs out.
pub fn answer_text(
    alloc: Global,
    manager: &Manager,
    answer: &Result<Reply, Refusal>,
) -> Result<Vec<u8>, AllocError>
    ensures { IfOk result (λ text. text.items ≡ answer_text manager.now.managed.catalog answer.now) }
{
    let writes = Blank::new(2);
    answer_in::<Brand>(alloc, manager, answer, writes)
}
