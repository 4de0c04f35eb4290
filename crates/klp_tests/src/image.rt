//! Faults of an image that no catalog's text can have, since a text with such a fault is refused earlier. The contract
//! says which fault is returned, but allows that lack of memory is returned instead.
use klp_text::{Image, ImageFault};
use klp_types::{ObjectText, SymbolText};
use std::alloc::{AllocError, Global};

const HANDLER: u64 = 0xffff_ffff_8100_0000;

/// The address that all symbols have.
const ADDRESS: u64 = 0xffff_ffff_8100_1000;

/// How many objects there are, how many symbols each object has, and how many bytes each symbol has. Also has the fault
/// of their image. Limits are checked before anything else.
const ROWS: [([usize; 3], ImageFault); 8] = [
    ([0, 0, 0], ImageFault::NoKernel),
    ([2, 0, 0], ImageFault::DuplicateObject),
    ([17, 0, 0], ImageFault::DuplicateObject),
    ([18, 0, 0], ImageFault::TooMany),
    ([1, 256, 5], ImageFault::Overlap),
    ([1, 257, 5], ImageFault::TooMany),
    ([2, 129, 5], ImageFault::TooMany),
    ([1, 1, 257], ImageFault::TooMany),
];

fn symbol(alloc: Global, length: usize) -> Result<SymbolText, AllocError> {
    let body = vec![in alloc; 0xcc; length]?;
    Ok(SymbolText {
        name: String::new(alloc),
        address: ADDRESS,
        body,
    })
}

fn put_symbols(
    alloc: Global,
    symbols: &mut Vec<SymbolText>,
    [count, length]: [usize; 2],
) -> Result<(), AllocError> {
    for _ in 0..count {
        symbols.push(symbol(alloc, length)?)?;
    }
    Ok(())
}

/// Adds objects. All of them have the kernel's name.
fn put_objects(
    alloc: Global,
    objects: &mut Vec<ObjectText>,
    [count, symbols, length]: [usize; 3],
) -> Result<(), AllocError> {
    for _ in 0..count {
        objects.push(ObjectText {
            name: String::from_str(alloc, "vmlinux")?,
            symbols: Vec::new(alloc),
        })?;
        if let Some(object) = objects.last_mut() {
            put_symbols(alloc, &mut object.symbols, [symbols, length])?;
        }
    }
    Ok(())
}

/// Returns the fault of an image of as many objects, symbols and bytes as `counts` says.
fn fault_of(alloc: Global, counts: [usize; 3]) -> Option<ImageFault> {
    let mut objects = Vec::new(alloc);
    match put_objects(alloc, &mut objects, counts) {
        Ok(()) => Image::new(alloc, objects, HANDLER).err(),
        Err(_) => Some(ImageFault::NoMemory),
    }
}

#[test]
fn images_have_limits(rt: HostRuntime) {
    for (counts, wanted) in ROWS {
        let fault = fault_of(rt.alloc(), counts);
        assert!(rt; fault == Some(wanted), "{}", counts[0]);
    }
}
