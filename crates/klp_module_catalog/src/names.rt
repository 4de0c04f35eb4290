//! How a catalog spells the names of a module.
ghost use Rattle.std.specs.Prelude.{◌≡◌, take, Decides};
ghost use Rattle.klp_types.specs.declared.limits.TheConstants.{MAX_NAME};
ghost use Rattle.klp_module_catalog.specs.Said.{spelled_byte, spelled_name};

use klp_types::MAX_NAME;
use klp_words::is_name;
use std::alloc::{AllocError, Global};

/// Returns a byte of a new function's name as a catalog can have it.
fn spelled_byte(byte: u8) -> u8
    ensures { result ≡ spelled_byte byte }
{
    if is_name(&[byte]) { byte } else { b'-' }
}

/// Returns the part of a name for which a catalog has room.
fn cut_name(name: &[u8]) -> &[u8]
    ensures { result.now ≡ take MAX_NAME name.now }
{
    if name.len() <= MAX_NAME {
        name
    } else {
        &name[..MAX_NAME]
    }
}

/// Returns the name of a new function as a catalog can have it: a byte that none may have is a `-`, and a name is cut
/// behind the longest. A function without a name has the name `-`.
pub(crate) fn new_name_of(alloc: Global, name: &[u8]) -> Result<Vec<u8>, AllocError> {
    let mut spelled = Vec::new(alloc);
    for byte in cut_name(name) {
        spelled.push(spelled_byte(*byte))?;
    }
    if spelled.is_empty() {
        spelled.push(b'-')?;
    }
    Ok(spelled)
}

/// Whether this is the name of a new function as a catalog can have it.
pub(crate) fn spells_new_name(spelled: &[u8], name: &[u8]) -> bool
    ensures { Decides result (spelled.now ≡ spelled_name name.now) }
{
    if name.is_empty() {
        return spelled == b"-".as_slice();
    }
    let cut = cut_name(name);
    spelled.len() == cut.len()
        && spelled
            .iter()
            .zip(cut)
            .all(|(one, byte)| *one == spelled_byte(*byte))
}
