//! The functions that a kernel can trace, as `available_filter_functions` lists them. It can patch no others.
ghost use Rattle.std.specs.Prelude.{◌≡◌, ◌⊎◌, ◌++◌, ◌∷◌, [], bytes_eq, false, filter, map, option_map, true, IfOk, MatchResult, None, Some};
ghost use Rattle.std.specs.List.{filter_map, list_any};
ghost use Rattle.std.specs.Str.Lines.{lines};
ghost use Rattle.klp_module_matrix.specs.Changes.{meaning};
ghost use Rattle.klp_module_matrix.specs.Names.{object_name};
ghost use Rattle.klp_module_symbols.specs.Kernel.{first_bad};
ghost use Rattle.klp_module_symbols.specs.Traceable.{TraceableFacts, is_bad_line, is_judged, is_of_change, is_untraceable, traceable_meaning, traceable_of, traceable_of_line};
ghost use Rattle.klp_module_symbols.specs.declared.traceable.TraceableFault.TheVariants.{BadLine, NoMemory};
ghost use Rattle.klp_module_symbols.specs.declared.traceable.TraceableRow.{TraceableRow};

use crate::rows::bracketed;
use klp_catalog_text::{Lines, words_of};
use klp_module_matrix::{Changed, IMAGE, object_name};
use std::alloc::{AllocError, AllocFailed, Global};
use std::fmt;

/// Why a text isn't the list of functions that a kernel can trace.
#[derive(Clone, Copy)]
pub enum TraceableFault {
    /// This line, from 1, isn't one of the list.
    BadLine(u64),
    NoMemory,
}

impl fmt::Display for TraceableFault {
    fn fmt<W: fmt::Write>(&self, f: &mut fmt::Formatter<W>) -> fmt::Result {
        match self {
            TraceableFault::BadLine(line) => write!(
                f,
                "line {line}: it isn't one of available_filter_functions: wanted is NAME [MODULE]"
            ),
            TraceableFault::NoMemory => f.write_str("memory ran out"),
        }
    }
}

impl<T: Drop> From<AllocFailed<T>> for TraceableFault {
    ghost from_gives = { λ _ fault. fault ≡ NoMemory };

    fn from(_: AllocFailed<T>) -> TraceableFault {
        TraceableFault::NoMemory
    }
}

/// A function that a kernel can trace.
#[derive(Clone, Copy)]
pub struct TraceableRow<'s> {
    pub name: &'s [u8],
    /// The name of its object.
    pub object: &'s [u8],
}

/// Reads a line: a name, and the name of a module in brackets if it isn't the kernel's image.
fn traceable_of_line(line: &[u8]) -> Option<TraceableRow<'_>>
    ensures { option_map traceable_meaning result ≡ traceable_of_line line.now }
{
    let mut words = words_of(line);
    let name = words.next()?;
    let object = match words.next() {
        Some(word) => bracketed(word)?,
        None => IMAGE,
    };
    Some(TraceableRow { name, object })
}

/// Adds the function of the line with this number. An empty line has none.
fn add_traceable<'s>(
    rows: &mut Vec<TraceableRow<'s>>,
    line: &'s [u8],
    number: u64,
) -> Result<(), TraceableFault>
    ensures { MatchResult result
        (λ _. (map traceable_meaning rows.new.items ≡ map traceable_meaning rows.old.items ++ filter_map traceable_of_line (line.now ∷ [])) × (is_bad_line line.now ≡ false))
        (λ fault. (fault ≡ NoMemory) ⊎ ((fault ≡ BadLine number) × (is_bad_line line.now ≡ true))) }
{
    match traceable_of_line(line) {
        Some(row) => {
            rows.push(row)?;
            Ok(())
        }
        None if line.is_empty() => Ok(()),
        None => Err(TraceableFault::BadLine(number)),
    }
}

/// Returns all functions that a kernel can trace, in the order of the list. The cost is linear in the text.
pub fn read_traceable(alloc: Global, text: &[u8]) -> Result<Vec<TraceableRow<'_>>, TraceableFault>
    ensures { MatchResult result
        (λ rows. (map traceable_meaning rows.items ≡ traceable_of text.now) × (first_bad is_bad_line 1 (lines text.now) ≡ None))
        (λ fault. (fault ≡ NoMemory) ⊎ (option_map BadLine (first_bad is_bad_line 1 (lines text.now)) ≡ Some fault)) }
{
    let mut rows = Vec::new(alloc);
    let mut number: u64 = 1;
    let mut rest = Lines::new(text);
    while let Some(line) = rest.next() {
        match add_traceable(&mut rows, line, number) {
            Ok(()) => {}
            Err(fault) => return Err(fault),
        }
        number += 1;
    }
    Ok(rows)
}

fn has_object(rows: &[TraceableRow<'_>], object: &[u8]) -> bool
    ensures { result ≡ list_any (λ (r : TraceableRow). bytes_eq r.object.now object.now) rows.now }
{
    rows.iter().any(|row| row.object == object)
}

/// Whether the list has functions of an object, so that it has all of them that can be traced.
pub fn is_judged(rows: &[TraceableRow<'_>], object: &[u8]) -> bool
    ensures { result ≡ is_judged (map traceable_meaning rows.now) object.now }
{
    has_object(rows, object)
}

fn is_of_change(change: &Changed<'_>, row: &TraceableRow<'_>) -> bool
    ensures { result ≡ is_of_change (meaning change.now) (traceable_meaning row.now) }
{
    row.object == object_name(change.object) && row.name == change.name
}

fn has_row(rows: &[TraceableRow<'_>], change: &Changed<'_>) -> bool
    ensures { result ≡ list_any (λ (r : TraceableRow). is_of_change (meaning change.now) (traceable_meaning r)) rows.now }
{
    rows.iter().any(|row| is_of_change(change, row))
}

fn is_listed_function(rows: &[TraceableRow<'_>], change: &Changed<'_>) -> bool
    ensures { result ≡ list_any (is_of_change (meaning change.now)) (map traceable_meaning rows.now) }
{
    has_row(rows, change)
}

/// Whether a kernel refuses a change, since it can't trace the function.
fn is_untraceable(rows: &[TraceableRow<'_>], change: &Changed<'_>) -> bool
    ensures { result ≡ is_untraceable (map traceable_meaning rows.now) (meaning change.now) }
{
    is_judged(rows, object_name(change.object)) && !is_listed_function(rows, change)
}

/// Returns those of some changes that a kernel refuses, since it can't trace their functions, in their order. Each costs a
/// step for each function that the kernel can trace.
pub fn untraceable<'a>(
    alloc: Global,
    rows: &[TraceableRow<'_>],
    changes: &[Changed<'a>],
) -> Result<Vec<Changed<'a>>, AllocError>
    ensures { IfOk result (λ refused. map meaning refused.items ≡ filter (is_untraceable (map traceable_meaning rows.now)) (map meaning changes.now)) }
{
    let mut refused = Vec::new(alloc);
    for change in changes {
        if is_untraceable(rows, change) {
            refused.push(*change)?;
        }
    }
    Ok(refused)
}
