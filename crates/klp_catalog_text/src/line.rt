//! What one line says.

ghost use Rattle.std.specs.Prelude.{◌≡◌, option_copied};
ghost use Rattle.klp_catalog_text.specs.Gives.{Gives};
ghost use Rattle.klp_catalog_text.specs.Lines.{keyword_of, only_name, handler_line, object_line, symbol_line};
ghost use Rattle.klp_catalog_text.specs.Lines.{replace_line, patch_line, target_line, func_line, callback_line};
ghost use Rattle.klp_catalog_text.specs.Lines.{state_line, line_of_words, line_of};

use crate::edit::ScriptText;
use crate::fault::TextFaultKind;
use crate::items::{Name, NameWord, PlanFunction, SystemState};
use crate::lines::{is_word, three_words};
use crate::{edit, words};
use klp_types::{MAX_LINE, SymbolText, Which};
use klp_words::{LineWords, hexadecimal, is_ascii, number32, number64};
use std::alloc::Global;

/// The first word of a line, which determines its kind.
#[derive(Clone, Copy)]
pub(crate) enum Keyword {
    Handler,
    Object,
    Symbol,
    Patch,
    Target,
    Func,
    Callback(Which),
    State,
}

/// What a line says, at any place of the text. The parts that a plan stores are copied. All other parts are borrowed
/// from the line.
#[derive(Drop)]
pub enum CatalogLine<'a> {
    /// The address of the handler.
    Handler(u64),
    /// The name of an object.
    Object(Name),
    /// A symbol of the last object.
    Symbol(SymbolText),
    /// The name of a patch, and whether the patch replaces all older patches.
    Patch(Name, bool),
    /// The name of an object that the last patch changes.
    Target(NameWord<'a>),
    /// A new function of the last target.
    Function(PlanFunction),
    /// A callback of the last target. The callback's script may have too many edits.
    Callback(Which, ScriptText),
    /// A system state that the last patch names.
    State(SystemState),
}

/// Returns the kind of line that begins with this word. Returns `None` if no line begins with this word.
fn keyword_of(word: &[u8]) -> Option<Keyword>
    ensures { result ≡ keyword_of word.now }
{
    if is_word(word, b"handler") {
        Some(Keyword::Handler)
    } else if is_word(word, b"object") {
        Some(Keyword::Object)
    } else if is_word(word, b"symbol") {
        Some(Keyword::Symbol)
    } else if is_word(word, b"patch") {
        Some(Keyword::Patch)
    } else if is_word(word, b"target") {
        Some(Keyword::Target)
    } else if is_word(word, b"func") {
        Some(Keyword::Func)
    } else if is_word(word, b"pre") {
        Some(Keyword::Callback(Which::Pre))
    } else if is_word(word, b"post") {
        Some(Keyword::Callback(Which::Post))
    } else if is_word(word, b"preun") {
        Some(Keyword::Callback(Which::PreUn))
    } else if is_word(word, b"postun") {
        Some(Keyword::Callback(Which::PostUn))
    } else if is_word(word, b"state") {
        Some(Keyword::State)
    } else {
        None
    }
}

/// Reads the words of a `handler` line after its first word: an address.
fn handler_line<'a>(words: &mut LineWords<'a>) -> Result<CatalogLine<'a>, TextFaultKind>
    ensures { Gives (λ l. l) result (handler_line words.old) }
{
    let (Some(address), None) = (words.next(), words.next()) else {
        return Err(TextFaultKind::WrongCount);
    };
    let Some(address) = hexadecimal(address) else {
        return Err(TextFaultKind::BadHex);
    };
    Ok(CatalogLine::Handler(address))
}

/// Reads the rest of a line that has only a name after its first word.
fn only_name<'a>(words: &mut LineWords<'a>) -> Result<NameWord<'a>, TextFaultKind>
    ensures { result ≡ only_name words.old }
{
    let (Some(name), None) = (words.next(), words.next()) else {
        return Err(TextFaultKind::WrongCount);
    };
    words::name_word(name)
}

/// Reads the words of an `object` line after its first word: a name.
#[tactic(auto, using(crate::proofs::CountLemmas::object_by))]
fn object_line<'a>(
    alloc: Global,
    words: &mut LineWords<'a>,
) -> Result<CatalogLine<'a>, TextFaultKind>
    ensures { Gives (λ l. l) result (object_line words.old) }
{
    let NameWord(name) = only_name(words)?;
    Ok(CatalogLine::Object(Name(String::from_str(alloc, name)?)))
}

/// Reads the words of a `symbol` line after its first word: a name, an address and a body.
#[tactic(auto, using(crate::proofs::CountLemmas::symbol_count))]
fn symbol_line<'a>(
    alloc: Global,
    words: &mut LineWords<'a>,
) -> Result<CatalogLine<'a>, TextFaultKind>
    ensures { Gives (λ l. l) result (symbol_line words.old) }
{
    let Some((name, address, body)) = three_words(words) else {
        return Err(TextFaultKind::WrongCount);
    };
    let Name(name) = words::symbol_name(alloc, name)?;
    let Some(address) = hexadecimal(address) else {
        return Err(TextFaultKind::BadHex);
    };
    let body = words::body(alloc, body)?;
    Ok(CatalogLine::Symbol(SymbolText {
        name,
        address,
        body,
    }))
}

/// Reads the rest of a `patch` line whose third word is `replace`. No word may follow `replace`.
fn replace_line<'a>(
    alloc: Global,
    name: &[u8],
    words: &mut LineWords<'a>,
) -> Result<CatalogLine<'a>, TextFaultKind>
    ensures { Gives (λ l. l) result (replace_line name.now words.old) }
{
    if words.next().is_some() {
        return Err(TextFaultKind::WrongCount);
    }
    Ok(CatalogLine::Patch(words::name(alloc, name)?, true))
}

/// Reads the words of a `patch` line after its first word: a name. `replace` may follow the name.
fn patch_line<'a>(
    alloc: Global,
    words: &mut LineWords<'a>,
) -> Result<CatalogLine<'a>, TextFaultKind>
    ensures { Gives (λ l. l) result (patch_line words.old) }
{
    let Some(name) = words.next() else {
        return Err(TextFaultKind::WrongCount);
    };
    match words.next() {
        None => Ok(CatalogLine::Patch(words::name(alloc, name)?, false)),
        Some(word) if is_word(word, b"replace") => replace_line(alloc, name, words),
        Some(_) => Err(TextFaultKind::UnknownWord),
    }
}

/// Reads the words of a `target` line after its first word: the name of an object.
#[tactic(auto, using(crate::proofs::CountLemmas::target_by))]
fn target_line<'a>(words: &mut LineWords<'a>) -> Result<CatalogLine<'a>, TextFaultKind>
    ensures { result ≡ target_line words.old }
{
    Ok(CatalogLine::Target(only_name(words)?))
}

/// Reads the words of a `func` line after its first word: a symbol, a name and an address. `target` is the name of the
/// open target's object, if a target is open. `number` is the number of the line.
#[tactic(auto, using(crate::proofs::CountLemmas::func_count))]
fn func_line<'a>(
    alloc: Global,
    target: Option<&str>,
    number: u64,
    words: &mut LineWords<'a>,
) -> Result<CatalogLine<'a>, TextFaultKind>
    ensures { Gives (λ l. l) result (func_line (option_copied target.entry) words.old) }
{
    let Some((symbol, name, address)) = three_words(words) else {
        return Err(TextFaultKind::WrongCount);
    };
    let spelling = words::symbol(target, symbol)?;
    let Name(new_name) = words::name(alloc, name)?;
    let Some(address) = hexadecimal(address) else {
        return Err(TextFaultKind::BadHex);
    };
    Ok(CatalogLine::Function(PlanFunction {
        symbol: String::from_str(alloc, spelling.symbol)?,
        sympos: spelling.sympos,
        new_name,
        address,
        line: number,
    }))
}

/// Reads the words of a `pre`, `post`, `preun` or `postun` line after its first word: a script.
fn callback_line<'a>(
    alloc: Global,
    which: Which,
    words: &mut LineWords<'a>,
) -> Result<CatalogLine<'a>, TextFaultKind>
    ensures { Gives (λ l. l) result (callback_line which words.old) }
{
    Ok(CatalogLine::Callback(which, edit::script(alloc, words)?))
}

/// Reads the words of a `state` line after its first word: an id and a version. `number` is the number of the line.
fn state_line<'a>(number: u64, words: &mut LineWords<'a>) -> Result<CatalogLine<'a>, TextFaultKind>
    ensures { Gives (λ l. l) result (state_line words.old) }
{
    let (Some(id), Some(version), None) = (words.next(), words.next(), words.next()) else {
        return Err(TextFaultKind::WrongCount);
    };
    // A version has 32 bits, like the `version` of the kernel's `klp_state`. A version out of range is a `BadNumber`,
    // and so is a word that isn't a number.
    let (Some(id), Some(version)) = (number64(id), number32(version)) else {
        return Err(TextFaultKind::BadNumber);
    };
    Ok(CatalogLine::State(SystemState {
        id,
        version,
        line: number,
    }))
}

impl<'a> CatalogLine<'a> {
    /// Reads one line. `number` is the line's number, from 1. `text` is the whole line, `first` its first word, and
    /// `words` the words after it.
    ///
    /// `target` is the name of the open target's object, if a target is open. The time is linear in the length of the
    /// line. `Err` has the first of the line's faults, in the order of [`TextFaultKind`]. The fault is never
    /// `OutOfPlace`, `UnknownObject`, `Twice`, `TooMany` or `Missing`. `NoMemory` may be reported in place of any
    /// fault. No contract says how many of `words` are left unread.
    pub fn read(
        alloc: Global,
        target: Option<&str>,
        number: u64,
        text: &[u8],
        first: &[u8],
        words: &mut LineWords<'a>,
    ) -> Result<CatalogLine<'a>, TextFaultKind>
        ensures { Gives (λ l. l) result (line_of (option_copied target.entry) text.now first.now words.old) }
    {
        if !is_ascii(text) {
            return Err(TextFaultKind::NotAscii);
        }
        if text.len() > MAX_LINE {
            return Err(TextFaultKind::LineTooLong);
        }
        let Some(keyword) = keyword_of(first) else {
            return Err(TextFaultKind::UnknownWord);
        };
        match keyword {
            Keyword::Handler => handler_line(words),
            Keyword::Object => object_line(alloc, words),
            Keyword::Symbol => symbol_line(alloc, words),
            Keyword::Patch => patch_line(alloc, words),
            Keyword::Target => target_line(words),
            Keyword::Func => func_line(alloc, target, number, words),
            Keyword::Callback(which) => callback_line(alloc, which, words),
            Keyword::State => state_line(number, words),
        }
    }
}
