//! Does the lines of a script, and finds those that are refused.
ghost use Rattle.std.specs.Prelude.{◌≡◌, ◌<◌, ◌≤◌, [], ◌∷◌, length, is_some, position, IfSome, IfOk, MatchOption};
ghost use Rattle.klp_console_io.specs.Lines.{is_line_feed};
ghost use Rattle.klp_console.specs.Lines.{lines_of};
ghost use Rattle.klp_manager_state.specs.Managed.{setting_of};
ghost use Rattle.klp_lint_findings.specs.Saying.{Adds};
ghost use Rattle.klp_lint_worlds.specs.Worlds.{IsLine, IsLineDone, IsLineReported, IsScripted};

use klp_boot::Fault;
use klp_console::{ServeFault, answer_line};
use klp_console_io::OverWrite;
use klp_core::Manager;
use klp_lint_findings::{ErrorText, Finding, Findings, RefusedLine};
use klp_types::MAX_CONSOLE_LINE;
use std::alloc::Global;
use std::marker::Brand;
use std::sync::ledger::{Blank, Ledger};

/// The start of the first line of an answer, without the line feed.
fn error_text(answer: &[u8]) -> ErrorText {
    let mut error = ErrorText {
        bytes: [0; 22],
        len: 0,
    };
    for byte in answer {
        if *byte == b'\n' {
            return error;
        }
        let len = error.len;
        if let Some(place) = error.bytes.get_mut(len) {
            *place = *byte;
            error.len = len.saturating_add(1);
        }
    }
    error
}

/// Does a line of the script. Returns the answer if the line is refused, and `None` if it is done.
fn do_line<M: Ledger>(
    alloc: Global,
    manager: &mut Manager,
    line: &[u8],
    writes: Blank,
) -> Result<Option<ErrorText>, Fault>
    requires { (writes.name ≡ M.name) × (writes.parts ≡ M.parts) × (2 ≤ writes.parts) }
    ensures { IfOk result (λ refused. IsLineDone manager.old manager.new line.now (is_some refused)) }
{
    if line.len() > MAX_CONSOLE_LINE {
        return Err(Fault::Serve(ServeFault::LineTooLong));
    }
    let mut sink = OverWrite::<Vec<u8>, M>::new(Vec::new(alloc), writes);
    match answer_line(manager, line, &mut sink) {
        Ok(outcome) if outcome.is_refusal() => Ok(Some(error_text(&sink.into_inner()))),
        Ok(_) => Ok(None),
        Err(_) => Err(Fault::NoMemory),
    }
}

/// The place of the first line feed in a text. `None` if there is none.
fn line_feed_in(text: &[u8]) -> Option<usize>
    ensures { result ≡ position is_line_feed text.now }
{
    text.iter().position(|b| *b == b'\n')
}

/// The first line of a text, and the text behind that line. `None` if the text is empty.
fn cut_line(text: &[u8]) -> Option<(&[u8], &[u8])>
    ensures cut { MatchOption result (lines_of text.now ≡ [])
        (λ cut. lines_of text.now ≡ cut.0.now ∷ lines_of cut.1.now) }
    ensures shorter { IfSome result (λ cut. length cut.1.now < length text.now) }
{
    if text.is_empty() {
        return None;
    }
    match line_feed_in(text) {
        Some(place) => Some((&text[..place], &text[place + 1..])),
        None => Some((text, &[])),
    }
}

/// Does a line of the script, and adds that it is refused, if it is.
fn find_line<M: Ledger>(
    alloc: Global,
    found: &mut Findings<'_>,
    manager: &mut Manager,
    line: &[u8],
    number: u64,
    writes: Blank,
) -> Result<(), Fault>
    requires { (writes.name ≡ M.name) × (writes.parts ≡ M.parts) × (2 ≤ writes.parts) }
    ensures reported { IfOk result (λ done. IsLineReported manager.old manager.new line.now found.new) }
    ensures adds { IfOk result (λ done. Adds IsLine found.old found.new) }
{
    let Some(error) = do_line::<M>(alloc, manager, line, writes)? else {
        return Ok(());
    };
    found.add(Finding::Line(RefusedLine { number, error }))?;
    Ok(())
}

/// Does the lines of the script, and adds those that are refused.
pub(crate) fn do_lines(
    alloc: Global,
    found: &mut Findings<'_>,
    manager: &mut Manager,
    script: &[u8],
) -> Result<(), Fault>
    ensures scripted { IfOk result (λ done. IsScripted manager.old manager.new script.now found.new) }
    ensures setting { IfOk result (λ done. setting_of manager.new.managed ≡ setting_of manager.old.managed) }
    ensures adds { IfOk result (λ done. Adds IsLine found.old found.new) }
{
    let mut rest = script;
    let mut number = 0u64;
    while let Some((line, behind)) = cut_line(rest) {
        let writes = Blank::new(2);
        number = number.saturating_add(1);
        find_line::<Brand>(alloc, found, manager, line, number, writes)?;
        rest = behind;
    }
    Ok(())
}
