//! The symbols of an image and the functions that it can trace, as a kernel lists them.
ghost use Rattle.std.specs.Prelude.{◌≡◌, ◌∷◌, [], map, IfOk};
ghost use Rattle.klp_module_symbols.specs.Kernel.{is_function_letter, row_meaning};
ghost use Rattle.klp_kernel_image.specs.Names.{text_part};
ghost use Rattle.klp_kernel_image.specs.Rows.{symbol_row};

use crate::image::{ImageSymbol, KernelImage};
use klp_module_matrix::IMAGE;
use klp_module_symbols::{KernelRow, TraceableRow, is_function_letter};
use std::alloc::{AllocError, Global};

/// How many bytes the instruction has that may stand before an entry site, `endbr64`.
const MARK: u64 = 4;

/// Returns so many bytes of a text from a place on, or those that are there.
pub(crate) fn name_in(text: &[u8], start: usize, length: usize) -> &[u8]
    ensures { result.now ≡ text_part start length text.now }
{
    if text.len() <= start {
        return &[];
    }
    let rest = &text[start..];
    if length <= rest.len() {
        &rest[..length]
    } else {
        rest
    }
}

fn is_function(symbol: &ImageSymbol) -> bool
    ensures { result ≡ is_function_letter (symbol.now.letter ∷ []) }
{
    is_function_letter(&[symbol.letter])
}

/// Whether an entry site is at an address.
fn is_site(sites: &[u64], address: u64) -> bool {
    sites.binary_search(&address).is_ok()
}

/// Whether a function has an entry site: at its address, or right behind the instruction that marks where calls may go.
fn is_traceable(sites: &[u64], symbol: &ImageSymbol) -> bool {
    is_function(symbol)
        && (is_site(sites, symbol.address) || is_site(sites, symbol.address.wrapping_add(MARK)))
}

impl KernelImage<'_> {
    /// Returns the symbols as `/proc/kallsyms` lists them, in the order in which a kernel counts positions. The cost is linear
    /// in them.
    pub fn rows(&self, alloc: Global) -> Result<Vec<KernelRow<'_>>, AllocError>
        ensures { IfOk result (λ rows. map row_meaning rows.items ≡ map (symbol_row self.now.text.items) self.now.symbols.items) }
    {
        let mut rows = Vec::new(alloc);
        for symbol in &self.symbols {
            rows.push(KernelRow {
                address: Some(symbol.address),
                is_function: is_function(symbol),
                name: name_in(&self.text, symbol.start, symbol.length),
                object: IMAGE,
            })?;
        }
        Ok(rows)
    }

    /// Returns the functions that have an entry site, in the same order. Unlike `available_filter_functions`, it has each of
    /// several functions at one address. The cost is a search for each symbol.
    pub fn traceable(&self, alloc: Global) -> Result<Vec<TraceableRow<'_>>, AllocError> {
        let mut rows = Vec::new(alloc);
        for symbol in &self.symbols {
            if is_traceable(&self.sites, symbol) {
                rows.push(TraceableRow {
                    name: name_in(&self.text, symbol.start, symbol.length),
                    object: IMAGE,
                })?;
            }
        }
        Ok(rows)
    }
}
