//! The parts of a line.
ghost use Rattle.std.specs.Prelude.{◌≡◌, true, false, nat_eq, drop, codes, IfSome, MatchOption};
ghost use Rattle.std.specs.List.{starts_with, before_first, after_first};
ghost use Rattle.klp_trace.specs.Items.{is_equals_sign};
ghost use Rattle.klp_trace.specs.Traces.{is_space};

use klp_words::cut;

/// The parts of a line of a trace, each as the line spells it.
#[derive(Clone, Copy)]
pub struct LineParts<'a> {
    /// The seconds after an `@` at the front of the line.
    pub time: Option<&'a [u8]>,
    /// All that follows the time.
    pub text: &'a [u8],
    /// What happened or was seen.
    pub item: &'a [u8],
    /// What follows `=> `.
    pub answer: Option<&'a [u8]>,
}

/// Splits a text at its first `=` into an item and its answer, if `> ` follows this `=`. Otherwise returns the whole
/// text as the item, and no answer. The spaces before `=` stay part of the item.
pub(crate) fn item_and_answer(text: &[u8]) -> (&[u8], Option<&[u8]>)
    ensures { MatchOption result.1
        ((starts_with nat_eq (after_first is_equals_sign text.now) (codes "> ") ≡ false) × (result.0.now ≡ text.now))
        (λ answer. (starts_with nat_eq (after_first is_equals_sign text.now) (codes "> ") ≡ true)
        × (result.0.now ≡ before_first is_equals_sign text.now)
        × (answer.now ≡ drop 2 (after_first is_equals_sign text.now))) }
{
    let (item, behind) = cut(text, b'=');
    match behind.strip_prefix(b"> ".as_slice()) {
        Some(answer) => (item, Some(answer)),
        None => (text, None),
    }
}

/// Splits a line that begins with `@` at its first space, into its time and the text after the time. Returns `None` if
/// the line doesn't begin with `@`, so it has no time. Doesn't check the spelling of the time.
pub(crate) fn time_and_rest(line: &[u8]) -> Option<(&[u8], &[u8])>
    ensures { MatchOption result (starts_with nat_eq line.now (codes "@") ≡ false)
        (λ parts. (starts_with nat_eq line.now (codes "@") ≡ true)
        × (parts.0.now ≡ before_first is_space (drop 1 line.now))
        × (parts.1.now ≡ after_first is_space (drop 1 line.now))) }
{
    let rest = line.strip_prefix(b"@".as_slice())?;
    Some(cut(rest, b' '))
}

impl<'a> LineParts<'a> {
    /// Splits a line into its parts, even if a part is misspelled. The function is used for messages to people, and has
    /// no contract.
    pub fn of(line: &'a [u8]) -> LineParts<'a> {
        let (time, text) = match time_and_rest(line) {
            Some((time, text)) => (Some(time), text),
            None => (None, line),
        };
        let (item, answer) = item_and_answer(text);
        LineParts {
            time,
            text,
            item,
            answer,
        }
    }
}
