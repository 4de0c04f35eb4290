//! The changes whose position is that of a variable. Variables count for positions, and no kernel patches one.
ghost use Rattle.std.specs.Prelude.{◌≡◌, filter, map, IfOk};
ghost use Rattle.klp_module_matrix.specs.Changes.{meaning};
ghost use Rattle.klp_module_symbols.specs.Kernel.{row_meaning};
ghost use Rattle.klp_module_symbols.specs.Symbols.{is_row_of};
ghost use Rattle.klp_module_symbols.specs.Variables.{is_variable_at, is_variable_behind, picks_variable};

use crate::objects::is_row_of;
use crate::rows::KernelRow;
use klp_module_matrix::Changed;
use std::alloc::{AllocError, Global};

/// Returns the symbols of the name that a change names, in the order of the kernel.
fn rows_named<'s>(
    alloc: Global,
    rows: &[KernelRow<'s>],
    change: &Changed<'_>,
) -> Result<Vec<KernelRow<'s>>, AllocError>
    ensures { IfOk result (λ named. map row_meaning named.items ≡ filter (is_row_of (meaning change.now)) (map row_meaning rows.now)) }
{
    let mut named = Vec::new(alloc);
    for row in rows {
        if is_row_of(change, row) {
            named.push(*row)?;
        }
    }
    Ok(named)
}

/// Whether the row behind so many others is a variable.
fn is_variable_behind(before: u64, rows: &[KernelRow<'_>]) -> bool
    ensures { result ≡ is_variable_behind before (map row_meaning rows.now) }
{
    match rows {
        [] => false,
        [row, rest @ ..] => {
            if before == 0 {
                !row.is_function
            } else {
                is_variable_behind(before - 1, rest)
            }
        }
    }
}

/// Whether the symbol at a position among those of its name is a variable. Without a position there must be one alone.
fn is_variable_at(position: u64, rows: &[KernelRow<'_>]) -> bool
    ensures { result ≡ is_variable_at position (map row_meaning rows.now) }
{
    if position == 0 {
        rows.len() == 1 && is_variable_behind(0, rows)
    } else {
        is_variable_behind(position - 1, rows)
    }
}

/// Whether the symbol that a change picks is a variable.
fn picks_variable(
    alloc: Global,
    rows: &[KernelRow<'_>],
    change: &Changed<'_>,
) -> Result<bool, AllocError>
    ensures { IfOk result (λ it. it ≡ picks_variable (map row_meaning rows.now) (meaning change.now)) }
{
    let named = rows_named(alloc, rows, change)?;
    Ok(is_variable_at(change.position, &named))
}

/// Returns those of some changes whose position is that of a variable, in their order: a kernel with these symbols refuses
/// them. Each costs a step for each symbol.
pub fn variables<'a>(
    alloc: Global,
    rows: &[KernelRow<'_>],
    changes: &[Changed<'a>],
) -> Result<Vec<Changed<'a>>, AllocError>
    ensures { IfOk result (λ refused. map meaning refused.items ≡ filter (picks_variable (map row_meaning rows.now)) (map meaning changes.now)) }
{
    let mut refused = Vec::new(alloc);
    for change in changes {
        if picks_variable(alloc, rows, change)? {
            refused.push(*change)?;
        }
    }
    Ok(refused)
}
