ghost use Rattle.std.specs.Prelude.{◌≡◌, bytes_eq, slice_get};
ghost use Rattle.klp_types.specs.Image.{Symbol};
ghost use Rattle.klp_modules.specs.Names.{picked, sites_where};

use crate::fault::SymbolFault;
use klp_types::{ObjectText, SymbolText};

/// Returns the index of one of the symbols with this name. `number` counts these symbols, from 0. Returns `None` if
/// there is no such symbol.
fn index_of(symbols: &[SymbolText], name: &str, number: usize) -> Option<usize>
    ensures { result ≡ slice_get (sites_where (λ (s : Symbol). bytes_eq name.now s.name) 0 symbols.now) number }
{
    let mut left = number;
    for (index, symbol) in symbols.iter().enumerate() {
        if name == symbol.name.as_str() {
            if left == 0 {
                return Some(index);
            }
            left -= 1;
        }
    }
    None
}

/// Returns the index, in an object, of the symbol that a name and a position pick. They pick the symbol that
/// [`Modules::resolve`](crate::Modules::resolve) picks. This function needs no table, so it serves an object of which no
/// image can be made. The cost is a walk over the object's symbols.
pub fn place_in(object: &ObjectText, name: &str, position: u32) -> Result<usize, SymbolFault>
    ensures { result ≡ picked (sites_where (λ (s : Symbol). bytes_eq name.now s.name) 0 object.now.symbols) position }
{
    let symbols = object.symbols.as_slice();
    let Some(first) = index_of(symbols, name, 0) else {
        return Err(SymbolFault::Missing);
    };
    if position > 0 {
        return match index_of(symbols, name, position as usize - 1) {
            Some(index) => Ok(index),
            None => Err(SymbolFault::NoPosition),
        };
    }
    match index_of(symbols, name, 1) {
        Some(_) => Err(SymbolFault::Ambiguous),
        None => Ok(first),
    }
}
