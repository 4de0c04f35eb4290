//! Values of labels in the text format of Prometheus.
use std::fmt;
use std::fmt::Write as _;

/// A label's value, printed with the escapes that the format asks for. No other byte of a name can end the value.
#[derive(Clone, Copy)]
pub(crate) struct Label<'a>(pub(crate) &'a str);

impl fmt::Display for Label<'_> {
    fn fmt<W: fmt::Write>(&self, f: &mut fmt::Formatter<W>) -> fmt::Result {
        for letter in self.0.chars() {
            match letter {
                '\\' => f.write_str("\\\\")?,
                '"' => f.write_str("\\\"")?,
                '\n' => f.write_str("\\n")?,
                letter => f.write_char(letter)?,
            }
        }
        Ok(())
    }
}
