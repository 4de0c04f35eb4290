//! The value of a shadow variable, in the answers to queries and events.
ghost use Rattle.std.specs.Prelude.{◌++◌, codes};
ghost use Rattle.klp_words.specs.Words.{value_text};
ghost use Rattle.klp_console_io.specs.Says.{Says};

use klp_console_io::{Answers, Sink};
use klp_types::ShadowValue;

/// Says a value in a form in which a console line can give it. A value of eight bytes, the usual case, is said as a
/// number. Any other value is said as an `x` followed by its bytes.
fn say_value<W: Sink>(answers: &mut Answers, writer: &mut W, value: &ShadowValue)
    ensures { Says (answers.old, W.written writer.old) (answers.new, W.written writer.new) (value_text value.now) }
{
    klp_console_io::laws::what_is_said_adds_up();
    match value.number() {
        Some(number) => answers.number(writer, number),
        None => {
            answers.say(writer, b"x");
            answers.hex(writer, value.bytes());
        }
    }
}

/// Says a value on a line of its own.
pub(crate) fn say_value_line<W: Sink>(answers: &mut Answers, writer: &mut W, value: &ShadowValue)
    ensures { Says (answers.old, W.written writer.old) (answers.new, W.written writer.new)
        (codes "value " ++ value_text value.now ++ codes "\n") }
{
    klp_console_io::laws::what_is_said_adds_up();
    answers.say(writer, b"value ");
    say_value(answers, writer, value);
    answers.say(writer, b"\n");
}
