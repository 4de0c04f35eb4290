//! Finds the part of a trace's line that can be compared with the rules.
ghost use Rattle.std.specs.Prelude.{◌≡◌};
ghost use Rattle.klp_trace_page.specs.Traced.{untimed, item_text};

use klp_words::cut;

/// Returns a line of a trace without the time at its front, `@SECONDS `. A line without a time is returned whole.
fn untimed(line: &[u8]) -> &[u8]
    ensures { result.now ≡ untimed line.now }
{
    match line.strip_prefix(b"@".as_slice()) {
        Some(rest) => cut(rest, b' ').1,
        None => line,
    }
}

/// Returns what happened or was seen in a line of a trace: the line without its time and without the kernel's answer,
/// which follows `=> `.
pub(crate) fn item_text(line: &[u8]) -> &[u8]
    ensures { result.now ≡ item_text line.now }
{
    let text = untimed(line);
    let (item, behind) = cut(text, b'=');
    // Only `=> ` begins an answer.
    if behind.starts_with(b"> ".as_slice()) {
        item
    } else {
        text
    }
}
