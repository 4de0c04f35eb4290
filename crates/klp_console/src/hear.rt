//! Cuts pieces of the input into lines, and answers the lines. All that the function changes is borrowed, so its early
//! returns are cheap to prove (docs/DECISIONS.md, "One way out for an owner").
ghost use Rattle.std.specs.Prelude.{◌≡◌, ◌+◌, ◌<◌, ◌≤◌, ◌^◌, false, [], ◌∷◌, ◌++◌, length, IfOk};
ghost use Rattle.klp_types.specs.declared.limits.TheConstants.{MAX_CONSOLE_LINE};
ghost use Rattle.klp_console_io.specs.Lines.{lines_and_rest};
ghost use Rattle.klp_console.specs.Said.{serving_of, Hears};

use crate::answer::serve_line;
use crate::served::{ServeFault, Served};
use klp_console_io::{Answers, LineBuffer, Marks, Sink, TooLong};
use klp_core::Manager;

/// Reads a piece of the input, and answers each line that ends in it. Once the sink has failed, no further line is
/// done.
pub(crate) fn hear_lines<W: Sink>(
    manager: &mut Manager,
    line: &mut LineBuffer,
    piece: &[u8],
    served: &mut Served,
    answers: &mut Answers,
    marks: &mut Marks,
    writer: &mut W,
) -> Result<(), ServeFault>
    requires still { answers.old.has_failed ≡ false }
    requires room { served.old.lines + length piece.now < 2 ^ 64 }
    requires few { served.old.refused ≤ served.old.lines }
    requires none { answers.old.bytes ≡ [] }
    requires unmarked { marks.old ≡ [] }
    ensures hears { Hears
        (serving_of manager.old served.old answers.old (W.written writer.old) marks.old)
        (serving_of manager.new served.new answers.new (W.written writer.new) marks.new)
        (lines_and_rest (line.old ++ piece.now)) line.new result }
    ensures short { IfOk result (λ _. length line.new ≤ MAX_CONSOLE_LINE) }
    ensures few { IfOk result (λ _. served.new.refused ≤ served.new.lines) }
    ensures room { IfOk result (λ _. served.new.lines ≤ served.old.lines + length piece.now) }
{
    let mut rest = piece;
    while !rest.is_empty() {
        if let Some((whole, after)) = line.whole_line(rest) {
            serve_line(manager, whole, served, answers, marks, writer);
            rest = after;
        } else {
            match line.hear(rest) {
                // The clause identifies a long line by the bytes of the source. The bytes of standard input aren't
                // known, but this function serves all sources (docs/DECISIONS.md, "Long lines of standard input").
                Err(TooLong) => return Err(ServeFault::LineTooLong),
                Ok(None) => return Ok(()),
                Ok(Some(after)) => {
                    serve_line(manager, line.bytes(), served, answers, marks, writer);
                    line.clear();
                    rest = after;
                }
            }
        }
        // checked after each line, since no line may be done behind the one whose answer was cut off
        if answers.has_failed() {
            return Err(ServeFault::Write);
        }
    }
    // nothing is left of the piece, and the line has no line feed; `bytes` is called for its contract
    let _rest = line.bytes();
    Ok(())
}
