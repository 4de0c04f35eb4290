//! The answers to lines that weren't done. Each is one line that begins with `error`, so that scripts find it.
ghost use Rattle.std.specs.Prelude.{◌≡◌};
ghost use Rattle.klp_console_io.specs.Says.{Says};
ghost use Rattle.klp_console.specs.Refusals.{refusals, refusal_text, fault_text, bad_mark_text};

use klp_console_commands::LineFault;
use klp_console_io::{Answers, Sink};
use klp_model::Refusal;

static REFUSALS: [Refusal; 18] = [
    Refusal::NoPatch,
    Refusal::Busy,
    Refusal::AlreadyThere,
    Refusal::Pinned,
    Refusal::Incompatible,
    Refusal::NoSymbol,
    Refusal::NoModule,
    Refusal::InUse,
    Refusal::NoTask,
    Refusal::TaskThere,
    Refusal::WrongMode,
    Refusal::BadFrame,
    Refusal::Full,
    Refusal::JournalFull,
    Refusal::NotMoving,
    Refusal::Exists,
    Refusal::NotFound,
    Refusal::SameValue,
];

/// Returns all refusals, each once.
pub fn all_refusals() -> &'static [Refusal]
    ensures { result.now ≡ refusals }
{
    &REFUSALS
}

/// Returns the whole line of a refusal, with its line feed: `error NUMBER NAME`. Its number is that of a Linux error
/// with a similar meaning, for programs that read it (docs/DECISIONS.md, "Error numbers").
pub fn refusal_line(refusal: Refusal) -> &'static [u8]
    ensures { result.now ≡ refusal_text refusal }
{
    match refusal {
        Refusal::NoPatch => b"error 2 NoPatch\n",
        Refusal::NoModule => b"error 2 NoModule\n",
        Refusal::NoTask => b"error 2 NoTask\n",
        Refusal::NotFound => b"error 2 NotFound\n",
        Refusal::Full => b"error 12 Full\n",
        Refusal::JournalFull => b"error 12 JournalFull\n",
        Refusal::Busy => b"error 16 Busy\n",
        Refusal::InUse => b"error 16 InUse\n",
        Refusal::AlreadyThere => b"error 22 AlreadyThere\n",
        Refusal::Pinned => b"error 22 Pinned\n",
        Refusal::Incompatible => b"error 22 Incompatible\n",
        Refusal::NoSymbol => b"error 22 NoSymbol\n",
        Refusal::TaskThere => b"error 22 TaskThere\n",
        Refusal::WrongMode => b"error 22 WrongMode\n",
        Refusal::BadFrame => b"error 22 BadFrame\n",
        Refusal::NotMoving => b"error 22 NotMoving\n",
        Refusal::Exists => b"error 22 Exists\n",
        Refusal::SameValue => b"error 22 SameValue\n",
    }
}

/// Says why an event was refused, as `error NUMBER NAME`. The number is that of a Linux error with a similar meaning: 2
/// is `ENOENT`, 12 `ENOMEM`, 16 `EBUSY` and 22 `EINVAL`. Which refusal has which number is this project's own choice.
/// The text has at most 22 bytes, so it is gathered in one piece.
pub(crate) fn say_refusal<W: Sink>(answers: &mut Answers, writer: &mut W, refusal: Refusal)
    ensures { Says (answers.old, W.written writer.old) (answers.new, W.written writer.new) (refusal_text refusal) }
{
    answers.say(writer, refusal_line(refusal));
}

/// Says why a line asks for nothing: `error 22 BadLine`, `error 22 BadValue`, or the refusal that an unknown name gets.
pub(crate) fn say_fault<W: Sink>(answers: &mut Answers, writer: &mut W, fault: &LineFault)
    ensures { Says (answers.old, W.written writer.old) (answers.new, W.written writer.new) (fault_text fault.now) }
{
    match *fault {
        LineFault::BadLine => answers.say(writer, b"error 22 BadLine\n"),
        LineFault::BadValue => answers.say(writer, b"error 22 BadValue\n"),
        LineFault::Refused(refusal) => say_refusal(answers, writer, refusal),
    }
}

/// Says `error 22 BadMark`: the journal has fewer events than the mark.
pub(crate) fn say_bad_mark<W: Sink>(answers: &mut Answers, writer: &mut W)
    ensures { Says (answers.old, W.written writer.old) (answers.new, W.written writer.new) bad_mark_text }
{
    answers.say(writer, b"error 22 BadMark\n");
}
