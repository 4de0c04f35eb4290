//! Writes the objects of a catalog with their symbols.
use klp_messages::Escaped;
use klp_module_matrix::IMAGE;
use klp_module_symbols::{KernelRow, ObjectSymbols};
use std::alloc::AllocError;

/// The entry site of a function that can be patched, while none is: a NOP.
const NOP: &str = "0f1f440000";

/// The function that a patched function calls first. The second one stands in where the kernel has no first.
const HANDLERS: [&[u8]; 2] = [b"ftrace_caller", b"ftrace_regs_caller"];

/// The address of the handler where the kernel's isn't known. Made-up symbols of the kernel's image begin a page behind
/// it, those of modules where modules are, each module's so many bytes behind the one before.
const HANDLER: u64 = 0xffff_ffff_8100_0000;

const PAGE: u64 = 0x1000;

const MODULES: u64 = 0xffff_ffff_c000_0000;

const MODULE_ROOM: u64 = 0x10_0000;

/// How far two made-up symbols are apart.
const APART: u64 = 64;

/// Returns where the made-up symbols of an object begin.
fn base_of(object: usize) -> u64 {
    match object {
        0 => HANDLER.saturating_add(PAGE),
        module => MODULES.saturating_add(MODULE_ROOM.saturating_mul(module as u64)),
    }
}

fn is_handler(row: &KernelRow<'_>) -> bool {
    row.object == IMAGE && HANDLERS.contains(&row.name)
}

/// Returns the address of the handler.
fn handler_of(rows: &[KernelRow<'_>]) -> u64 {
    match rows.iter().find(|row| is_handler(row)) {
        Some(row) => row.address.unwrap_or(HANDLER),
        None => HANDLER,
    }
}

/// Writes the symbols of an object, which has this number.
fn write_symbols(
    text: &mut String,
    number: usize,
    object: &ObjectSymbols<'_>,
) -> Result<(), AllocError> {
    let mut next = base_of(number);
    for symbol in &object.symbols {
        let (name, address) = (Escaped(symbol.name), symbol.address.unwrap_or(next));
        writeln!(text, "symbol {name} {address:x} {NOP}")?;
        if !symbol.is_function {
            writeln!(text, "#? data")?;
        }
        next = next.saturating_add(APART);
    }
    Ok(())
}

/// Writes the handler, and the objects with their symbols. Returns how many objects have symbols that are made up.
pub(crate) fn write_objects(
    text: &mut String,
    rows: &[KernelRow<'_>],
    objects: &[ObjectSymbols<'_>],
) -> Result<usize, AllocError> {
    let handler = handler_of(rows);
    writeln!(text, "handler {handler:x}")?;
    let mut count: usize = 0;
    for (number, object) in objects.iter().enumerate() {
        writeln!(text, "object {}", Escaped(object.name))?;
        if object.is_made_up && !object.symbols.is_empty() {
            writeln!(text, "#? assumed no symbols of it are given")?;
            count = count.saturating_add(1);
        }
        write_symbols(text, number, object)?;
    }
    Ok(count)
}
