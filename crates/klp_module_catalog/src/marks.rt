//! Whether a catalog marks what isn't known.
ghost use Rattle.std.specs.Prelude.{◌≡◌, ◌++◌, ◌∷◌, [], codes, drop, if◌then◌else◌, map, nat_eq, true, false, Decides, IfOk, MatchOption};
ghost use Rattle.std.specs.List.{flat_map, starts_with};
ghost use Rattle.std.specs.Str.Lines.{lines};
ghost use Rattle.klp_catalog_text.specs.Lines.{words_of};
ghost use Rattle.klp_module_symbols.specs.Symbols.{object_meaning};
ghost use Rattle.klp_module_catalog.specs.Marks.{begins, callback_marks, cut_mark, without, is_line_of, is_mark, mark_of, marks_of, object_marks, patch_marks, needs_replace_mark, symbols_mark, AreMarked};

use klp_catalog_text::{Lines, words_of};
use klp_module_fit::NamedPatch;
use klp_module_symbols::ObjectSymbols;
use klp_tables::{Callbacks, Object, Replaces};
use std::alloc::{AllocError, Global};

/// The bytes with which a mark begins.
const MARK_PREFIX: &[u8] = b"#? ";

/// The lines behind which a mark may stand that something isn't known, or is left out.
#[derive(Clone, Copy)]
pub(crate) enum Marked {
    Callback,
    Patch,
    /// A patch of which something is left out.
    CutPatch,
    ObjectLine,
}

/// Whether a word is the first one of a line.
fn begins(line: &[u8], wanted: &[u8]) -> bool
    ensures { result ≡ begins wanted.now (words_of line.now) }
{
    match words_of(line).next() {
        Some(first) => first == wanted,
        None => false,
    }
}

fn is_line_of(kind: Marked, line: &[u8]) -> bool
    ensures { result ≡ is_line_of kind line.now }
{
    match kind {
        Marked::Callback => {
            begins(line, b"pre")
                || begins(line, b"post")
                || begins(line, b"preun")
                || begins(line, b"postun")
        }
        Marked::Patch | Marked::CutPatch => begins(line, b"patch"),
        Marked::ObjectLine => begins(line, b"object"),
    }
}

/// Returns the first word of the mark of a line.
fn mark_of(kind: Marked) -> &'static [u8]
    ensures { result.now ≡ mark_of kind }
{
    match kind {
        Marked::Callback | Marked::Patch => b"unknown",
        Marked::CutPatch => b"left",
        Marked::ObjectLine => b"assumed",
    }
}

/// Returns what is behind the beginning of a mark.
fn words_in(line: &[u8]) -> Option<&[u8]>
    ensures { MatchOption result (starts_with nat_eq line.now (codes "#? ") ≡ false)
        (λ words. (starts_with nat_eq line.now (codes "#? ") ≡ true) × (words.now ≡ drop 3 line.now)) }
{
    line.strip_prefix(MARK_PREFIX)
}

fn is_mark(kind: Marked, line: &[u8]) -> bool
    ensures { result ≡ is_mark kind line.now }
{
    match words_in(line) {
        Some(words) => begins(words, mark_of(kind)),
        None => false,
    }
}

/// Adds a value if there is one.
fn push_if(values: &mut Vec<bool>, is_there: bool, value: bool) -> Result<(), AllocError>
    ensures { IfOk result (λ _. values.new.items ≡ values.old.items ++ (if is_there then value ∷ [] else [])) }
{
    if is_there {
        values.push(value)?;
    }
    Ok(())
}

/// Returns of each line of a kind whether its mark stands right behind it, or behind a mark of another kind there.
fn marks_of(
    alloc: Global,
    kind: Marked,
    other: Marked,
    text: &[u8],
) -> Result<Vec<bool>, AllocError>
    ensures { IfOk result (λ marks. marks.items ≡ marks_of kind (without other (lines text.now))) }
{
    let mut marks = Vec::new(alloc);
    let mut is_wanted = false;
    let mut rest = Lines::new(text);
    while let Some(line) = rest.next() {
        if !is_mark(other, line) {
            push_if(&mut marks, is_wanted, is_mark(kind, line))?;
            is_wanted = is_line_of(kind, line);
        }
    }
    push_if(&mut marks, is_wanted, false)?;
    Ok(marks)
}

/// Adds a `true` for each callback.
fn add_callbacks(marks: &mut Vec<bool>, callbacks: Callbacks) -> Result<(), AllocError>
    ensures { IfOk result (λ _. marks.new.items ≡ marks.old.items ++ callback_marks callbacks) }
{
    push_if(marks, callbacks.pre_patch, true)?;
    push_if(marks, callbacks.post_patch, true)?;
    push_if(marks, callbacks.pre_unpatch, true)?;
    push_if(marks, callbacks.post_unpatch, true)
}

fn add_object(marks: &mut Vec<bool>, objects: &[Object<'_>]) -> Result<(), AllocError>
    ensures { IfOk result (λ _. marks.new.items ≡ marks.old.items ++ flat_map object_marks objects.now) }
{
    for object in objects {
        add_callbacks(marks, object.row.callbacks)?;
    }
    Ok(())
}

/// Returns the marks that the callbacks of some patches should have.
fn callback_marks(alloc: Global, patches: &[NamedPatch<'_, '_>]) -> Result<Vec<bool>, AllocError>
    ensures { IfOk result (λ marks. marks.items ≡ flat_map patch_marks patches.now) }
{
    let mut marks = Vec::new(alloc);
    for named in patches {
        add_object(&mut marks, &named.patch.objects)?;
    }
    Ok(marks)
}

/// Whether a patch's line should have a mark, because its tables don't say whether it replaces others.
fn needs_replace_mark(named: &NamedPatch<'_, '_>) -> bool
    ensures { result ≡ needs_replace_mark named.now }
{
    matches!(named.patch.replaces, Replaces::Unknown)
}

/// Returns the marks that the lines of some patches should have.
fn patch_marks(alloc: Global, patches: &[NamedPatch<'_, '_>]) -> Result<Vec<bool>, AllocError>
    ensures { IfOk result (λ marks. marks.items ≡ map needs_replace_mark patches.now) }
{
    let mut marks = Vec::new(alloc);
    for named in patches {
        marks.push(needs_replace_mark(named))?;
    }
    Ok(marks)
}

/// Whether something of a patch is left out.
pub(crate) fn is_cut(named: &NamedPatch<'_, '_>) -> bool
    ensures { result ≡ cut_mark named.now }
{
    named.left_out.functions > 0 || named.left_out.objects > 0
}

/// Returns the marks that the lines of some patches should have, if something of them is left out.
fn cut_marks(alloc: Global, patches: &[NamedPatch<'_, '_>]) -> Result<Vec<bool>, AllocError>
    ensures { IfOk result (λ marks. marks.items ≡ map cut_mark patches.now) }
{
    let mut marks = Vec::new(alloc);
    for named in patches {
        marks.push(is_cut(named))?;
    }
    Ok(marks)
}

/// Whether an object has symbols that are made up.
fn symbols_mark(object: &ObjectSymbols<'_>) -> bool
    ensures { result ≡ symbols_mark (object_meaning object.now) }
{
    object.is_made_up && !object.symbols.is_empty()
}

/// Returns the marks that the lines of some objects should have.
fn object_marks(alloc: Global, objects: &[ObjectSymbols<'_>]) -> Result<Vec<bool>, AllocError>
    ensures { IfOk result (λ marks. marks.items ≡ map symbols_mark (map object_meaning objects.now)) }
{
    let mut marks = Vec::new(alloc);
    for object in objects {
        marks.push(symbols_mark(object))?;
    }
    Ok(marks)
}

fn are_same(one: &[bool], other: &[bool]) -> bool
    ensures { Decides result (one.now ≡ other.now) }
{
    one.len() == other.len() && one.iter().zip(other).all(|(mark, wanted)| *mark == *wanted)
}

/// Whether the lines of a text have the marks that these patches and objects should have, and no others.
pub(crate) fn are_marked(
    alloc: Global,
    text: &[u8],
    objects: &[ObjectSymbols<'_>],
    patches: &[NamedPatch<'_, '_>],
) -> Result<bool, AllocError>
    ensures { IfOk result (λ r. Decides r (AreMarked text.now (map object_meaning objects.now) patches.now)) }
{
    let callbacks = marks_of(alloc, Marked::Callback, Marked::CutPatch, text)?;
    let wanted_callbacks = callback_marks(alloc, patches)?;
    let heads = marks_of(alloc, Marked::Patch, Marked::CutPatch, text)?;
    let wanted_heads = patch_marks(alloc, patches)?;
    let cuts = marks_of(alloc, Marked::CutPatch, Marked::Patch, text)?;
    let wanted_cuts = cut_marks(alloc, patches)?;
    let assumed = marks_of(alloc, Marked::ObjectLine, Marked::CutPatch, text)?;
    let wanted_assumed = object_marks(alloc, objects)?;
    Ok(
        are_same(&callbacks, &wanted_callbacks)
            && are_same(&heads, &wanted_heads)
            && are_same(&cuts, &wanted_cuts)
            && are_same(&assumed, &wanted_assumed),
    )
}
