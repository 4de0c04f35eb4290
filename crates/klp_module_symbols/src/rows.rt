//! The symbols of a kernel, as `/proc/kallsyms` lists them.
ghost use Rattle.std.specs.Prelude.{◌≡◌, ◌==◌, ◌⊎◌, ◌++◌, ◌∷◌, [], false, map, option_map, true, MatchResult, None, Some};
ghost use Rattle.std.specs.List.{filter_map, list_all};
ghost use Rattle.klp_module_symbols.specs.declared.rows.KernelRow.{KernelRow};
ghost use Rattle.std.specs.Str.Lines.{lines};
ghost use Rattle.klp_module_symbols.specs.Kernel.{RowFacts, are_unknown, bracketed, first_bad, is_bad, is_function_letter, is_zero, row_meaning, row_of_line, rows_fault, rows_of};
ghost use Rattle.klp_module_symbols.specs.declared.rows.RowsFault.TheVariants.{BadLine, NoMemory};

use klp_catalog_text::{Lines, words_of};
use klp_module_matrix::IMAGE;
use klp_words::hexadecimal;
use std::alloc::{AllocError, AllocFailed, Global};
use std::fmt;

/// Why a text isn't the list of a kernel's symbols.
#[derive(Clone, Copy)]
pub enum RowsFault {
    /// This line, from 1, isn't one of `/proc/kallsyms`.
    BadLine(u64),
    /// All addresses are 0, as for those who aren't root.
    NoAddresses,
    NoMemory,
}

impl fmt::Display for RowsFault {
    fn fmt<W: fmt::Write>(&self, f: &mut fmt::Formatter<W>) -> fmt::Result {
        match self {
            RowsFault::BadLine(line) => write!(
                f,
                "line {line}: it isn't one of /proc/kallsyms: wanted is ADDRESS LETTER NAME [MODULE]"
            ),
            RowsFault::NoAddresses => {
                f.write_str("all addresses are 0: only root reads them in /proc/kallsyms")
            }
            RowsFault::NoMemory => f.write_str("memory ran out"),
        }
    }
}

impl From<AllocError> for RowsFault {
    ghost from_gives = { λ _ fault. fault ≡ NoMemory };

    fn from(_: AllocError) -> RowsFault {
        RowsFault::NoMemory
    }
}

impl<T: Drop> From<AllocFailed<T>> for RowsFault {
    ghost from_gives = { λ _ fault. fault ≡ NoMemory };

    fn from(_: AllocFailed<T>) -> RowsFault {
        RowsFault::NoMemory
    }
}

/// A symbol of a kernel.
#[derive(Clone, Copy)]
pub struct KernelRow<'s> {
    /// Its address. A symbol of a module's file has none.
    pub address: Option<u64>,
    /// Whether it is a function. Data counts for positions too.
    pub is_function: bool,
    pub name: &'s [u8],
    /// The name of its object.
    pub object: &'s [u8],
}

/// Returns the name between the brackets of a module's word.
pub(crate) fn bracketed(word: &[u8]) -> Option<&[u8]>
    ensures { option_map (λ n. n.now) result ≡ bracketed word.now }
{
    let length = word.len();
    if 1 < length && word[0] == b'[' && word[length - 1] == b']' {
        Some(&word[1..length - 1])
    } else {
        None
    }
}

/// Whether a symbol with this letter is a function.
pub fn is_function_letter(letter: &[u8]) -> bool
    ensures { result ≡ is_function_letter letter.now }
{
    letter == b"t".as_slice()
        || letter == b"T".as_slice()
        || letter == b"w".as_slice()
        || letter == b"W".as_slice()
}

/// Reads a line: an address, a letter, a name, and the name of a module in brackets if it isn't the kernel's image.
fn row_of_line(line: &[u8]) -> Option<KernelRow<'_>>
    ensures { option_map row_meaning result ≡ row_of_line line.now }
{
    let mut words = words_of(line);
    let (Some(address), Some(letter), Some(name)) = (words.next(), words.next(), words.next())
    else {
        return None;
    };
    let address = hexadecimal(address)?;
    let object = match words.next() {
        Some(word) => bracketed(word)?,
        None => IMAGE,
    };
    Some(KernelRow {
        address: Some(address),
        is_function: is_function_letter(letter),
        name,
        object,
    })
}

fn is_zero(address: Option<u64>) -> bool
    ensures { result ≡ is_zero address }
{
    match address {
        Some(address) => address == 0,
        None => false,
    }
}

fn are_zero(rows: &[KernelRow<'_>]) -> bool
    ensures { result ≡ list_all (λ (r : KernelRow). is_zero r.address) rows.now }
{
    rows.iter().all(|row| is_zero(row.address))
}

fn have_zero(rows: &[KernelRow<'_>]) -> bool
    ensures { result ≡ list_all (λ (r : RowFacts). is_zero r.address) (map row_meaning rows.now) }
{
    are_zero(rows)
}

/// Whether all addresses of some symbols are 0, as those are that only root may read.
fn are_unknown(rows: &[KernelRow<'_>]) -> bool
    ensures { result ≡ are_unknown (map row_meaning rows.now) }
{
    !rows.is_empty() && have_zero(rows)
}

/// Adds the row of the line with this number. An empty line has none.
fn add_row<'s>(rows: &mut Vec<KernelRow<'s>>, line: &'s [u8], number: u64) -> Result<(), RowsFault>
    ensures { MatchResult result
        (λ _. (map row_meaning rows.new.items ≡ map row_meaning rows.old.items ++ filter_map row_of_line (line.now ∷ [])) × (is_bad line.now ≡ false))
        (λ fault. (fault ≡ NoMemory) ⊎ ((fault ≡ BadLine number) × (is_bad line.now ≡ true))) }
{
    match row_of_line(line) {
        Some(row) => {
            rows.push(row)?;
            Ok(())
        }
        None if line.is_empty() => Ok(()),
        None => Err(RowsFault::BadLine(number)),
    }
}

/// Reads all lines, without a look at the addresses.
fn rows_in(alloc: Global, text: &[u8]) -> Result<Vec<KernelRow<'_>>, RowsFault>
    ensures { MatchResult result
        (λ rows. (map row_meaning rows.items ≡ rows_of text.now) × (first_bad is_bad 1 (lines text.now) ≡ None))
        (λ fault. (fault ≡ NoMemory) ⊎ (option_map BadLine (first_bad is_bad 1 (lines text.now)) ≡ Some fault)) }
{
    let mut rows = Vec::new(alloc);
    let mut number: u64 = 1;
    let mut rest = Lines::new(text);
    while let Some(line) = rest.next() {
        match add_row(&mut rows, line, number) {
            Ok(()) => {}
            Err(fault) => return Err(fault),
        }
        number += 1;
    }
    Ok(rows)
}

/// Returns all symbols of a kernel in its order, by which positions are counted. The cost is linear in the text.
pub fn read_rows(alloc: Global, text: &[u8]) -> Result<Vec<KernelRow<'_>>, RowsFault>
    ensures { MatchResult result
        (λ rows. (map row_meaning rows.items ≡ rows_of text.now) × (rows_fault text.now ≡ None))
        (λ fault. (fault ≡ NoMemory) ⊎ (rows_fault text.now ≡ Some fault)) }
{
    let rows = match rows_in(alloc, text) {
        Ok(rows) => rows,
        Err(fault) => return Err(fault),
    };
    if are_unknown(&rows) {
        return Err(RowsFault::NoAddresses);
    }
    Ok(rows)
}
