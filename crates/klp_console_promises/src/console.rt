//! Serving the console.
ghost use Rattle.klp_core.specs.Journaled.{IsWellFormed};
ghost use Rattle.klp_console.specs.Said.{AnswersLine};
ghost use Rattle.klp_console.specs.Served.{ComesTo, console_of};

use klp_console::{LineOutcome, ServeFault, Served};
use klp_console_io::{Failed, Sink, Source};
use klp_core::Manager;

/// Serves lines until the input ends, as [`klp_console::serve`] does.
pub fn serve<R: Source, W: Sink>(
    reader: &mut R,
    writer: &mut W,
    manager: &mut Manager,
) -> Result<Served, ServeFault>
    requires { IsWellFormed manager.old }
    ensures { ComesTo (console_of (R.supply reader.old) (W.written writer.old) manager.old)
        (console_of (R.supply reader.new) (W.written writer.new) manager.new) result }
{
    klp_console::serve(reader, writer, manager)
}

/// Does one line, and writes its answer, as [`klp_console::answer_line`] does.
pub fn answer_line<W: Sink>(
    manager: &mut Manager,
    line: &[u8],
    writer: &mut W,
) -> Result<LineOutcome, Failed>
    requires { IsWellFormed manager.old }
    ensures { AnswersLine manager.old manager.new line.now (W.written writer.old) (W.written writer.new) result }
{
    klp_console::answer_line(manager, line, writer)
}
