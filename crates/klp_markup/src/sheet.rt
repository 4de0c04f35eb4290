//! A page that is being written.
ghost use Rattle.std.specs.Prelude.{◌≡◌, ◌==◌, ◌+◌, ◌++◌, true, false, [], codes, length, MatchResult};
ghost use Rattle.std.specs.Fmt.{decimal, signed_decimal};
ghost use Rattle.klp_markup.specs.Adds.{Written, Adds};
ghost use Rattle.klp_markup.specs.Escaped.{escaped_byte, first_text, kept_behind, escaped, ends_word, break_behind, words_text, name_text};

use crate::characters::shown_bytes;
use itoa::Buffer;
use std::alloc::{AllocError, Global};
use std::marker::Model;

/// A value that is put into a gap of a template. `Markup` is text of the program itself. Text from a run is escaped.
#[derive(Clone, Copy)]
pub enum Value<'a> {
    Markup(&'static str),
    Number(u64),
    Integer(i64),
    Text(&'a [u8]),
    /// A name, escaped. The browser may break the line after each word of the name.
    Words(&'a [u8]),
    /// A name like `Words`, in the font of code.
    Name(&'a [u8]),
}

/// The picture of the control byte 0 in Unicode. Those of the other ones follow.
const PICTURES: u64 = 9216;

/// A page, or a part of one.
#[derive(Drop)]
pub struct Sheet {
    bytes: Vec<u8>,
    is_short: bool,
}

impl Model for Sheet {
    ghost use Rattle.klp_markup.specs.Adds.{Written};

    ghost Value = { Written };

    ghost view = { λ s. record { text = s.bytes.items; is_short = s.is_short } };
}

/// Whether this byte of a name ends a word, so that the browser may break the line after it.
fn ends_word(byte: u8) -> bool
    ensures { result ≡ ends_word byte }
{
    byte == b'.' || byte == b'_' || byte == b','
}

impl Sheet {
    /// Returns an empty sheet. The sheet takes memory only when text is added.
    pub fn new(alloc: Global) -> Sheet
        ensures { result ≡ record { text = []; is_short = false } }
    {
        Sheet {
            bytes: Vec::new(alloc),
            is_short: false,
        }
    }

    /// Adds these bytes unchanged. If memory runs out, drops the bytes, and from then on the sheet counts as short:
    /// [`Sheet::into_bytes`] returns `Err`.
    fn add(&mut self, bytes: &[u8])
        ensures { Adds self.old self.new bytes.now }
    {
        if self.bytes.extend_from_slice(bytes).is_err() {
            self.is_short = true;
        }
    }

    /// Adds the picture of a control byte.
    fn add_picture(&mut self, byte: u8)
        ensures { Adds self.old self.new (codes "&#" ++ decimal (9216 + byte) ++ codes ";") }
    {
        // For the proof only: texts that are added one after the other add up.
        crate::laws::what_is_added_adds_up();
        self.markup("&#");
        self.number(PICTURES + u64::from(byte));
        self.markup(";");
    }

    /// Adds a byte of text from a run. Escapes it if it has a meaning in markup, and if it is a control byte but for a
    /// line feed.
    fn add_byte(&mut self, byte: u8)
        ensures { Adds self.old self.new (escaped_byte byte) }
    {
        match byte {
            b'&' => self.add(b"&amp;"),
            b'<' => self.add(b"&lt;"),
            b'>' => self.add(b"&gt;"),
            b'"' => self.add(b"&quot;"),
            b'\'' => self.add(b"&#39;"),
            b'\n' => self.add(&[byte]),
            0..=31 => self.add_picture(byte),
            127 => self.add(b"&#9249;"),
            _ => self.add(&[byte]),
        }
    }

    /// Adds `byte`, the first one of a text from a run, as a page may show it: `kept` bytes of the character before it are
    /// still to come. Returns how many are to come behind the byte.
    fn add_first(&mut self, byte: u8, text: &[u8], kept: usize) -> usize
        ensures adds { Adds self.old self.new (first_text kept byte text.now) }
        ensures kept { result ≡ kept_behind kept text.now }
    {
        if kept > 0 {
            self.add(&[byte]);
            return kept - 1;
        }
        let shown = shown_bytes(text);
        if shown == 0 {
            self.add(b"&#65533;");
            return 0;
        }
        self.add_byte(byte);
        shown - 1
    }

    /// Adds markup unchanged. It must be part of the program, so its type is `&'static str`.
    pub fn markup(&mut self, markup: &'static str)
        ensures { Adds self.old self.new markup.now }
    {
        self.add(markup.as_bytes());
    }

    /// Adds text that comes from a run, escaped.
    pub fn text(&mut self, text: &[u8])
        ensures { Adds self.old self.new (escaped text.now) }
    {
        // For the proof only: texts that are added one after the other add up.
        crate::laws::what_is_added_adds_up();
        let (mut rest, mut kept) = (text, 0);
        while let Some((byte, behind)) = rest.split_first() {
            kept = self.add_first(*byte, rest, kept);
            rest = behind;
        }
    }

    /// Adds a number in decimal.
    pub fn number(&mut self, number: u64)
        ensures { Adds self.old self.new (decimal number) }
    {
        self.add(Buffer::new().format(number).as_bytes());
    }

    /// Adds a number that may be negative, in decimal.
    pub fn integer(&mut self, value: i64)
        ensures { Adds self.old self.new (signed_decimal value) }
    {
        self.add(Buffer::new().format(value).as_bytes());
    }

    /// If this byte of a name ends a word, adds `<wbr>`, which lets the browser break the line here. Adds nothing for
    /// another byte.
    fn add_break(&mut self, byte: u8)
        ensures { Adds self.old self.new (break_behind byte) }
    {
        // For the proof only: texts that are added one after the other add up.
        crate::laws::what_is_added_adds_up();
        if ends_word(byte) {
            self.add(b"<wbr>");
        }
    }

    /// Adds a name, escaped. The browser may break the line after each word of the name.
    pub fn words(&mut self, name: &[u8])
        ensures { Adds self.old self.new (words_text name.now) }
    {
        // For the proof only: texts that are added one after the other add up.
        crate::laws::what_is_added_adds_up();
        let (mut rest, mut kept) = (name, 0);
        while let Some((byte, behind)) = rest.split_first() {
            kept = self.add_first(*byte, rest, kept);
            self.add_break(*byte);
            rest = behind;
        }
    }

    /// Adds a name like [`Sheet::words`], in the font of code.
    pub fn name(&mut self, name: &[u8])
        ensures { Adds self.old self.new (name_text name.now) }
    {
        // For the proof only: texts that are added one after the other add up.
        crate::laws::what_is_added_adds_up();
        self.markup("<span class=m>");
        self.words(name);
        self.markup("</span>");
    }

    /// Adds a value of a template: markup unchanged, a number in decimal, text and names escaped.
    fn value(&mut self, value: &Value<'_>) {
        match *value {
            Value::Markup(markup) => self.markup(markup),
            Value::Number(number) => self.number(number),
            Value::Integer(integer) => self.integer(integer),
            Value::Text(text) => self.text(text),
            Value::Words(name) => self.words(name),
            Value::Name(name) => self.name(name),
        }
    }

    /// Adds a template, in which the values replace the gaps `{}` in order. A gap without a value stays `{}`. The
    /// function has no contract, and is for layout.
    pub fn fill(&mut self, template: &'static str, values: &[Value<'_>]) {
        let mut rest = template;
        for value in values {
            // If no gap is left, the value follows the whole template.
            let (markup, behind) = rest.split_once("{}").unwrap_or((rest, ""));
            self.markup(markup);
            self.value(value);
            rest = behind;
        }
        self.markup(rest);
    }

    /// Adds the text of another sheet. If memory ran out for the other sheet, this sheet counts as short from then on,
    /// too.
    pub fn append(&mut self, other: &Sheet)
        ensures adds { Adds self.old self.new other.now.text }
        ensures short { other.now.is_short ≡ true → self.new.is_short ≡ true }
    {
        self.add(&other.bytes);
        self.is_short |= other.is_short;
    }

    /// Whether the sheet has no text.
    pub fn is_empty(&self) -> bool
        ensures { result ≡ (length self.now.text == 0) }
    {
        self.bytes.is_empty()
    }

    /// Returns the sheet's text. Returns `Err` if memory ran out while the sheet was written.
    pub fn into_bytes(self) -> Result<Vec<u8>, AllocError>
        ensures { MatchResult result (λ bytes. (self.is_short ≡ false) × (bytes.items ≡ self.text))
            (λ _. self.is_short ≡ true) }
    {
        let Sheet { bytes, is_short } = self;
        if is_short {
            return Err(AllocError);
        }
        Ok(bytes)
    }
}
