//! The symbols of a kernel's module, by its file.
ghost use Rattle.std.specs.Prelude.{◌≡◌, ◌++◌, filter, map, not, slice_get, IfOk};
ghost use Rattle.std.specs.Option.{option_copied};
ghost use Rattle.klp_elf.specs.Looks.{is_function};
ghost use Rattle.klp_module_symbols.specs.Files.{file_row, is_for_init, is_listed, rows_of_file, stays, with_file};
ghost use Rattle.klp_module_symbols.specs.Kernel.{row_meaning};
ghost use Rattle.klp_module_symbols.specs.Symbols.{is_known};

use crate::objects::is_known;
use crate::rows::KernelRow;
use klp_elf::{Elf, Section, Symbol, SymbolKind, SymbolSection};
use std::alloc::AllocError;

/// How the names of sections begin that are given back once a module's init is done.
const INIT: &[u8] = b".init";

fn is_function(kind: SymbolKind) -> bool
    ensures { result ≡ is_function kind }
{
    matches!(kind, SymbolKind::Function)
}

/// Whether a section is given back once the module's init is done.
fn is_for_init(elf: &Elf<'_>, section: Option<&Section>) -> bool
    ensures { result ≡ is_for_init elf.now (option_copied section.entry) }
{
    match section {
        Some(section) => elf.section_name(section).starts_with(INIT),
        None => false,
    }
}

/// Whether a symbol is in a section that stays in memory as long as the module is loaded.
fn stays(elf: &Elf<'_>, section: SymbolSection) -> bool
    ensures { result ≡ stays elf.now section }
{
    match section {
        SymbolSection::In(number) => {
            let section = elf.sections.get(usize::from(number));
            section.is_some_and(|section| section.is_loaded()) && !is_for_init(elf, section)
        }
        _ => false,
    }
}

/// Whether a kernel lists a symbol of a loaded module.
fn is_listed(elf: &Elf<'_>, symbol: &Symbol) -> bool
    ensures { result ≡ is_listed elf.now symbol.now }
{
    0 < symbol.name && stays(elf, symbol.section)
}

/// Adds the symbols of a module that the kernel lists while it is loaded.
fn add_listed<'a>(
    rows: &mut Vec<KernelRow<'a>>,
    elf: &Elf<'a>,
    object: &'a [u8],
) -> Result<(), AllocError>
    ensures { IfOk result (λ _. map row_meaning rows.new.items ≡ map row_meaning rows.old.items ++ rows_of_file elf.now object.now) }
{
    for symbol in &elf.symbols {
        if is_listed(elf, symbol) {
            rows.push(KernelRow {
                address: None,
                is_function: is_function(symbol.kind),
                name: elf.symbol_name(symbol),
                object,
            })?;
        }
    }
    Ok(())
}

/// Adds the symbols of a module, by its file, to those of a kernel that has none of the module: those that a kernel lists
/// while the module is loaded, in the order of the file's symbol table, by which positions are counted
/// (`is_core_symbol`). They have no addresses. Returns whether they were added. The cost is linear in the file and in the
/// symbols.
pub fn add_file<'a>(
    rows: &mut Vec<KernelRow<'a>>,
    elf: &Elf<'a>,
    object: &'a [u8],
) -> Result<bool, AllocError>
    ensures { IfOk result (λ added. (map row_meaning rows.new.items ≡ with_file (map row_meaning rows.old.items) elf.now object.now)
        × (added ≡ not (is_known (map row_meaning rows.old.items) object.now))) }
{
    if is_known(rows, object) {
        return Ok(false);
    }
    add_listed(rows, elf, object)?;
    Ok(true)
}
