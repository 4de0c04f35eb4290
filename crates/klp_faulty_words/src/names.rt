//! The names of a catalog, and the words of a trace or a script that must be such names.

use crate::unpicked::unpicked_by;
use crate::wrong::Wrong;
use klp_catalog_text::PlanPatch;
use klp_modules::place_in;
use klp_types::{MAX_INDEX, MAX_TASKS, ObjectText};
use klp_words::{cut, number64, spelling_of};

/// The beginning of the path of each patch's files.
const BELOW_PATCHES: &[u8] = b"/sys/kernel/livepatch/";

/// The kind that a word of a trace must be of.
#[derive(Clone, Copy)]
pub(crate) enum WordKind {
    Patch,
    Object,
    Symbol,
    Frame,
    File,
    Task,
    Switch,
    State,
}

impl WordKind {
    /// Returns the phrase that says what a word of this kind must be. The phrase begins with its verb.
    pub(crate) fn wanted(self) -> &'static str {
        match self {
            WordKind::Patch => "is a patch of the catalog",
            WordKind::Object => "is an object of the catalog",
            WordKind::Symbol => "is one symbol of the catalog, as .klp.sym.OBJECT.SYMBOL,POSITION",
            WordKind::Frame => "is .klp.sym.OBJECT.SYMBOL,POSITION or PATCH:INDEX, of the catalog",
            WordKind::File => "is /sys/kernel/livepatch/PATCH/enabled or force, of a known patch",
            WordKind::Task => "is a task, from 0 to 63",
            WordKind::Switch => "is 0 or 1",
            WordKind::State => "is -1, 0 or 1",
        }
    }
}

/// The objects and patches of a catalog, to be found by name.
#[derive(Clone, Copy)]
pub struct CatalogNames<'a> {
    pub objects: &'a [ObjectText],
    pub patches: &'a [PlanPatch],
}

/// Returns what is wrong with a word that should be of this kind and isn't. If the word spells a symbol, searches
/// `catalog`, the catalog's text, for the reason why no symbol is picked, and for a similar name.
pub(crate) fn wrong_word<'a>(kind: WordKind, word: &'a [u8], catalog: &'a [u8]) -> Wrong<'a> {
    let unpicked = match kind {
        WordKind::Symbol | WordKind::Frame => unpicked_by(catalog, word),
        _ => None,
    };
    match unpicked {
        Some(unpicked) => Wrong::Unpicked(word, unpicked),
        None => Wrong::Word(word, kind.wanted()),
    }
}

/// Whether a word is a number from 0 to `most`.
fn is_number_to(most: u64, word: &[u8]) -> bool {
    number64(word).is_some_and(|number| number <= most)
}

impl<'a> CatalogNames<'a> {
    /// Whether the catalog has a patch of this name.
    fn has_patch(&self, name: &[u8]) -> bool {
        self.patches.iter().any(|own| own.name.as_bytes() == name)
    }

    /// Returns the object with this name. Returns `None` if the catalog has no such object.
    fn object(&self, name: &[u8]) -> Option<&'a ObjectText> {
        self.objects.iter().find(|own| own.name.as_bytes() == name)
    }

    /// Whether a word is `.klp.sym.OBJECT.SYMBOL,POSITION` and picks a symbol of the catalog.
    fn has_symbol(&self, word: &[u8]) -> bool {
        spelling_of(word).is_some_and(|spelling| {
            let Some(object) = self.object(spelling.object.as_bytes()) else {
                return false;
            };
            place_in(object, spelling.symbol, spelling.sympos).is_ok()
        })
    }

    /// Whether a word names a function that a task can be inside of: an original of the catalog, or `PATCH:INDEX` for a
    /// new function of a patch of the catalog. Doesn't check that the patch has this function.
    fn has_frame(&self, word: &[u8]) -> bool {
        let (patch, index) = cut(word, b':');
        self.has_symbol(word) || self.has_patch(patch) && is_number_to(MAX_INDEX, index)
    }

    /// Whether a word is the path of a file of a patch of the catalog to which a script can write: `enabled` or
    /// `force`.
    fn has_file(&self, word: &[u8]) -> bool {
        let (patch, file) = cut(word.strip_prefix(BELOW_PATCHES).unwrap_or(&[]), b'/');
        self.has_patch(patch) && matches!(file, b"enabled" | b"force")
    }

    /// Whether a word of a trace or script is of this kind: a name that the catalog has, or a number in the kind's
    /// range.
    pub(crate) fn has(&self, kind: WordKind, word: &[u8]) -> bool {
        match kind {
            WordKind::Patch => self.has_patch(word),
            WordKind::Object => self.object(word).is_some(),
            WordKind::Symbol => self.has_symbol(word),
            WordKind::Frame => self.has_frame(word),
            WordKind::File => self.has_file(word),
            WordKind::Task => is_number_to(MAX_TASKS as u64 - 1, word),
            // No zeros may precede the digit.
            WordKind::Switch => is_number_to(1, word) && word.len() == 1,
            WordKind::State => matches!(word, b"-1" | b"0" | b"1"),
        }
    }
}
