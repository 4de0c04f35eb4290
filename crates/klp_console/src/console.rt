//! Serves an input until its end. The input is read into a buffer of a fixed size.
ghost use Rattle.std.specs.Prelude.{◌≡◌, ◌+◌, ◌<◌, ◌≤◌, ◌^◌, false, [], ◌∷◌, ◌++◌, length, IfOk, IfErr};
ghost use Rattle.klp_types.specs.declared.limits.TheConstants.{MAX_CONSOLE_LINE};
ghost use Rattle.klp_console_io.specs.Lines.{lines_and_rest};
ghost use Rattle.klp_console.specs.declared.served.ServeFault.TheVariants.{Write};
ghost use Rattle.klp_console.specs.Lines.{whole};
ghost use Rattle.klp_console.specs.Said.{serving_of, Hears, IsCut, IsWritten, Serves};
ghost use Rattle.klp_console.specs.Served.{ComesTo, console_of};

use crate::answer::serve_line;
use crate::back::write_out;
use crate::hear::hear_lines;
use crate::served::{ServeFault, Served};
use klp_console_io::{Answers, Failed, LineBuffer, Marks, Sink, Source};
use klp_core::Manager;
use klp_types::{MAX_READS, READ_ROOM};

/// Does the lines of a piece of the input, and writes all their answers. The answers to one read are written together,
/// so a file of many lines doesn't cost a write for each line (docs/DECISIONS.md, "Gathered answers").
fn hear<W: Sink>(
    manager: &mut Manager,
    line: &mut LineBuffer,
    piece: &[u8],
    served: &mut Served,
    answers: &mut Answers,
    marks: &mut Marks,
    writer: &mut W,
) -> Result<(), ServeFault>
    requires still { answers.old.has_failed ≡ false }
    requires room { served.old.lines + length piece.now < 2 ^ 64 }
    requires few { served.old.refused ≤ served.old.lines }
    requires none { answers.old.bytes ≡ [] }
    requires unmarked { marks.old ≡ [] }
    ensures hears { Hears
        (serving_of manager.old served.old answers.old (W.written writer.old) marks.old)
        (serving_of manager.new served.new answers.new (W.written writer.new) marks.new)
        (lines_and_rest (line.old ++ piece.now)) line.new result }
    ensures short { IfOk result (λ _. length line.new ≤ MAX_CONSOLE_LINE) }
    ensures few { IfOk result (λ _. served.new.refused ≤ served.new.lines) }
    ensures room { IfOk result (λ _. served.new.lines ≤ served.old.lines + length piece.now) }
    ensures written { IsWritten answers.new marks.new result }
{
    let heard = hear_lines(manager, line, piece, served, answers, marks, writer);
    if answers.has_failed() {
        return Err(ServeFault::Write);
    }
    write_out(manager, answers, marks, writer);
    if answers.has_failed() {
        return Err(ServeFault::Write);
    }
    heard
}

/// If bytes follow the last line feed, they are the last line: does this line and writes its answer. If no bytes
/// follow, does nothing.
fn end<W: Sink>(
    manager: &mut Manager,
    line: &LineBuffer,
    served: &mut Served,
    answers: &mut Answers,
    marks: &mut Marks,
    writer: &mut W,
) -> Result<(), ServeFault>
    requires still { answers.old.has_failed ≡ false }
    requires room { served.old.lines + 1 < 2 ^ 64 }
    requires few { served.old.refused ≤ served.old.lines }
    requires none { answers.old.bytes ≡ [] }
    requires unmarked { marks.old ≡ [] }
    ensures serves { IfOk result (λ _. Serves
        (serving_of manager.old served.old answers.old (W.written writer.old) marks.old)
        (serving_of manager.new served.new answers.new (W.written writer.new) marks.new)
        (whole (line.now ∷ []))) }
    ensures written { IfOk result (λ _. answers.new.bytes ≡ []) }
    ensures write { IfErr result (λ fault. fault ≡ Write) }
    ensures cut { IfErr result (λ _. IsCut
        (serving_of manager.old served.old answers.old (W.written writer.old) marks.old)
        (serving_of manager.new served.new answers.new (W.written writer.new) marks.new)
        (line.now ∷ []) × (whole (line.now ∷ []) ≡ line.now ∷ [])) }
{
    let last = line.bytes();
    if last.is_empty() {
        return Ok(());
    }
    serve_line(manager, last, served, answers, marks, writer);
    if answers.has_failed() {
        return Err(ServeFault::Write);
    }
    write_out(manager, answers, marks, writer);
    if answers.has_failed() {
        return Err(ServeFault::Write);
    }
    Ok(())
}

/// Serves lines from `reader` until it ends, and writes their answers to `writer`.
///
/// A line ends with a line feed or with the input. It has at most [`MAX_CONSOLE_LINE`](klp_types::MAX_CONSOLE_LINE)
/// bytes. Each answer is written before the next read, so that someone who types sees the answer at once. Any read may
/// be the one that fails, so the contract implies that all earlier answers are written (docs/DECISIONS.md, "Answers
/// before the next read"). A patch that was withdrawn leaves no trace, as after `Manager::run`. The state is compared
/// with the state before a line. After that line there must be no `seal`, and no `rewind` to a mark before the line.
/// The cost of a line grows with its words and with what it asks for. No memory is allocated.
pub fn serve<R: Source, W: Sink>(
    reader: &mut R,
    writer: &mut W,
    manager: &mut Manager,
) -> Result<Served, ServeFault>
    ensures { ComesTo (console_of (R.supply reader.old) (W.written writer.old) manager.old)
        (console_of (R.supply reader.new) (W.written writer.new) manager.new) result }
{
    klp_console_io::laws::lines_add_up();
    klp_core::laws::what_is_withdrawn_leaves_no_trace();
    let _for_its_clause = manager.mark();
    let mut line = LineBuffer::new();
    let mut served = Served {
        lines: 0,
        refused: 0,
    };
    let mut answers = Answers::new();
    let mut marks = Marks::new();
    let mut room = [0; READ_ROOM];
    for _read in 0..MAX_READS {
        let count = match reader.read(&mut room) {
            Ok(count) => count,
            Err(Failed) => return Err(ServeFault::Read),
        };
        if count == 0 {
            return match end(
                manager,
                &line,
                &mut served,
                &mut answers,
                &mut marks,
                writer,
            ) {
                Ok(()) => Ok(served),
                Err(fault) => Err(fault),
            };
        }
        let piece = &room[..count];
        if let Err(fault) = hear(
            manager,
            &mut line,
            piece,
            &mut served,
            &mut answers,
            &mut marks,
            writer,
        ) {
            return Err(fault);
        }
    }
    // All `MAX_READS` reads were made, and none of them found the end of the input. Serving must stop at some point
    // even if an input never ends.
    Err(ServeFault::Read)
}
