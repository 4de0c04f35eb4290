//! The forms of a catalog's lines.

use klp_types::{
    MAX_EDITS, MAX_FUNCTIONS, MAX_OBJECTS, MAX_PATCHES, MAX_SITES, MAX_STATES, MAX_TARGETS,
};

/// The meaning of a word after the first word of a line.
#[derive(Clone, Copy)]
pub(crate) enum Part {
    Name,
    SymbolName,
    Address,
    Body,
    Symbol,
    Status,
    Id,
    Version,
    /// The last part of a form. A line may have any number of edits.
    Edit,
}

/// A kind of line.
pub(crate) struct Form {
    /// The words with which a line of this form may begin.
    words: &'static [&'static str],
    /// The parts after the first word.
    pub(crate) parts: &'static [Part],
    pub(crate) written: &'static str,
    pub(crate) place: &'static str,
    pub(crate) once: &'static str,
    /// How many such lines a catalog, object or patch may have. `of_these` is the name of what is counted.
    pub(crate) most: usize,
    pub(crate) of_these: &'static str,
}

static FORMS: [Form; 8] = [
    Form {
        words: &["handler"],
        parts: &[Part::Address],
        written: "is handler ADDRESS",
        place: "is a handler before the first patch",
        once: "is one handler",
        most: 1,
        of_these: "handlers",
    },
    Form {
        words: &["object"],
        parts: &[Part::Name],
        written: "is object NAME",
        place: "is an object before the first patch",
        once: "is a name that no object has",
        most: MAX_OBJECTS,
        of_these: "objects",
    },
    Form {
        words: &["symbol"],
        parts: &[Part::SymbolName, Part::Address, Part::Body],
        written: "is symbol NAME ADDRESS BODY",
        place: "is a symbol behind an object and before the first patch",
        once: "is another symbol",
        most: MAX_SITES,
        of_these: "symbols",
    },
    Form {
        words: &["patch"],
        parts: &[Part::Name],
        written: "is patch NAME, or patch NAME replace",
        place: "is a patch behind the objects",
        once: "is a name that no patch has",
        most: MAX_PATCHES,
        of_these: "patches",
    },
    Form {
        words: &["target"],
        parts: &[Part::Name],
        written: "is target OBJECT",
        place: "is a target in a patch",
        once: "is an object that is no target of the patch yet",
        most: MAX_TARGETS,
        of_these: "targets of a patch",
    },
    Form {
        words: &["func"],
        parts: &[Part::Symbol, Part::Name, Part::Address],
        written: "is func .klp.sym.OBJECT.SYMBOL,POSITION NEWNAME ADDRESS",
        place: "is a function in a target",
        once: "is another function",
        most: MAX_FUNCTIONS,
        of_these: "functions of a patch",
    },
    Form {
        words: &["pre", "post", "preun", "postun"],
        parts: &[Part::Status, Part::Edit],
        written: "is a status, and edits behind it where it is 0",
        place: "is a callback in a target",
        once: "is one callback of each kind in a target",
        most: MAX_EDITS,
        of_these: "edits of a callback",
    },
    Form {
        words: &["state"],
        parts: &[Part::Id, Part::Version],
        written: "is state ID VERSION",
        place: "is a state in a patch",
        once: "is an id that the patch doesn't name yet",
        most: MAX_STATES,
        of_these: "states of a patch",
    },
];

impl Form {
    /// Whether lines of this form may begin with the word.
    fn begins_with(&self, word: &[u8]) -> bool {
        self.words.iter().any(|own| own.as_bytes() == word)
    }

    /// Returns the form of the lines that begin with this word. Returns `None` if no line may begin with the word.
    pub(crate) fn of(word: &[u8]) -> Option<&'static Form> {
        FORMS.iter().find(|form| form.begins_with(word))
    }
}

impl Part {
    /// Returns the phrase that says what a word must be at this part of a line. The phrase begins with its verb.
    pub(crate) fn wanted(self) -> &'static str {
        match self {
            Part::Name => "is a name, of 1 to 55 letters, digits, _ and -",
            Part::SymbolName => "is a symbol's name, of 1 to 127 letters, digits, _, . and $",
            Part::Address => "is an address, of 1 to 16 hexadecimal digits",
            Part::Body => "is a body, of pairs of hexadecimal digits",
            Part::Symbol =>
                "is a symbol of the target's object, as .klp.sym.OBJECT.SYMBOL,POSITION",
            Part::Status => "is a status, a decimal number of 32 bits with a sign",
            Part::Id => "is an id, a decimal number of 64 bits",
            Part::Version => "is a version, a decimal number of 32 bits",
            Part::Edit => {
                "is alloc:OBJ:ID:VALUE, free:OBJ:ID, freeall:ID, set:STATE:VALUE or takeprev:STATE"
            }
        }
    }
}
