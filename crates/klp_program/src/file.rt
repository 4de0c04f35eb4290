//! Reads the console's catalog from its file.
ghost use Rattle.std.specs.Prelude.{◌≡◌, ◌⊎◌, IsSome, IfOk, IfErr};
ghost use Rattle.klp_boot.specs.declared.fault.Fault.TheVariants.{CannotRead, NoMemory};

use crate::sample::CATALOG;
use klp_boot::Fault;
use std::fs;
use std::io::ErrorKind;
use std::rt::Files;

/// Returns the catalog's text: that of the file at this path, or the built-in catalog if there is no path. Returns
/// `Err` if the file can't be read, or if memory runs out. No clause can say what a file contains.
pub fn catalog_in<R: Files + AllocGlobal>(rt: &R, path: Option<String>) -> Result<Vec<u8>, Fault>
    ensures built_in { path ≡ None → IfOk result (λ catalog. catalog.items ≡ CATALOG.now) }
    ensures fault { IfErr result (λ fault. (fault ≡ NoMemory) ⊎ ((fault ≡ CannotRead) × IsSome path)) }
{
    let Some(path) = path else {
        return Ok(CATALOG.to_vec(rt.alloc())?);
    };
    bytes_in(rt, path.as_str())
}

/// Returns the bytes of the file at this path. Returns `Err` if the file can't be read, or if memory runs out.
pub fn bytes_in<R: Files + AllocGlobal>(rt: &R, path: &str) -> Result<Vec<u8>, Fault>
    ensures { IfErr result (λ fault. (fault ≡ NoMemory) ⊎ (fault ≡ CannotRead)) }
{
    fs::read(rt, path).map_err(|error| match error.kind() {
        ErrorKind::OutOfMemory => Fault::NoMemory,
        _ => Fault::CannotRead,
    })
}

/// Returns the bytes of two files, in the order of the paths. Returns `Err` if a file can't be read, or if memory runs
/// out.
pub fn bytes_in_both<R: Files + AllocGlobal>(
    rt: &R,
    first: &str,
    second: &str,
) -> Result<(Vec<u8>, Vec<u8>), Fault>
    ensures { IfErr result (λ fault. (fault ≡ NoMemory) ⊎ (fault ≡ CannotRead)) }
{
    let first = bytes_in(rt, first)?;
    Ok((first, bytes_in(rt, second)?))
}
