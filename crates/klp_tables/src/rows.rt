//! All rows of a table, in order.
ghost use Rattle.std.specs.Prelude.{◌≡◌, ◌⊎◌, ◌≤◌, ◌<◌, ◌+◌, ◌*◌, true, map, length, Some, None, MatchResult};
ghost use Rattle.klp_tables.specs.Faults.{IsFunctionsFault, IsFunctionTableFault, IsRowsFault, IsStateTableFault};
ghost use Rattle.klp_tables.specs.Rows.{function_meaning, function_row, IsFunctions, IsFunctionTable, IsStateTable, IsTable, state_row};
ghost use Rattle.klp_tables.specs.declared.fault.TableFault.TheVariants.{NoMemory, TooManyFunctions, TooManyStates};

use crate::fault::TableFault;
use crate::layout::{FunctionLayout, StateLayout};
use crate::limits::{MAX_FUNCTIONS, MAX_STATES};
use crate::patch::{Function, State};
use crate::place::{bytes_of_rows, row_place};
use crate::row::{function_at, has_size, state_at};
use klp_elf::{Elf, Place};
use std::alloc::Global;

/// Reads functions up to the first empty row. There is room for so many.
fn functions_to_end<'a>(
    alloc: Global,
    elf: &Elf<'a>,
    layout: FunctionLayout,
    table: Place,
    room: usize,
) -> Result<Vec<Function<'a>>, TableFault>
    requires { room ≤ MAX_FUNCTIONS }
    ensures { MatchResult result
        (λ functions. IsTable (function_row elf.now layout table) (map function_meaning functions.items) × (length functions.items ≤ room))
        (λ fault. (fault ≡ NoMemory) ⊎ IsRowsFault (function_row elf.now layout table) room TooManyFunctions fault) }
{
    let mut functions = Vec::new(alloc);
    for k in 0..room + 1 {
        match function_at(elf, layout, row_place(table, layout.size as u64, k as u64)) {
            Ok(Some(function)) => functions.push(function)?,
            Ok(None) => return Ok(functions),
            Err(fault) => return Err(fault),
        }
    }
    Err(TableFault::TooManyFunctions)
}

/// Reads the functions of a table. Returns `Err` if its variable has another size.
fn function_table<'a>(
    alloc: Global,
    elf: &Elf<'a>,
    layout: FunctionLayout,
    table: Place,
    room: usize,
) -> Result<Vec<Function<'a>>, TableFault>
    requires { room ≤ MAX_FUNCTIONS }
    ensures { MatchResult result (λ functions. IsFunctionTable elf.now layout table functions.items × (length functions.items ≤ room))
        (λ fault. (fault ≡ NoMemory) ⊎ IsFunctionTableFault elf.now layout table room fault) }
{
    let functions = match functions_to_end(alloc, elf, layout, table, room) {
        Ok(functions) => functions,
        Err(fault) => return Err(fault),
    };
    let wanted = bytes_of_rows(layout.size, functions.len());
    if has_size(elf, table, wanted) {
        Ok(functions)
    } else {
        Err(TableFault::Layout { table, wanted })
    }
}

/// Reads the functions of an object.
pub(crate) fn functions_of<'a>(
    alloc: Global,
    elf: &Elf<'a>,
    layout: FunctionLayout,
    table: Option<Place>,
    room: usize,
) -> Result<Vec<Function<'a>>, TableFault>
    requires { room ≤ MAX_FUNCTIONS }
    ensures { MatchResult result (λ functions. IsFunctions elf.now layout table functions.items × (length functions.items ≤ room))
        (λ fault. (fault ≡ NoMemory) ⊎ IsFunctionsFault elf.now layout table room fault) }
{
    match table {
        Some(table) => function_table(alloc, elf, layout, table, room),
        None => Ok(Vec::new(alloc)),
    }
}

/// Reads states up to the first empty row.
fn states_to_end(
    alloc: Global,
    elf: &Elf<'_>,
    layout: StateLayout,
    table: Place,
) -> Result<Vec<State>, TableFault>
    ensures { MatchResult result (λ states. IsTable (state_row elf.now layout table) states.items × (length states.items ≤ MAX_STATES))
        (λ fault. (fault ≡ NoMemory) ⊎ IsRowsFault (state_row elf.now layout table) MAX_STATES TooManyStates fault) }
{
    let mut states = Vec::new(alloc);
    for k in 0..MAX_STATES + 1 {
        match state_at(elf, layout, row_place(table, layout.size as u64, k as u64)) {
            Ok(Some(state)) => states.push(state)?,
            Ok(None) => return Ok(states),
            Err(fault) => return Err(fault),
        }
    }
    Err(TableFault::TooManyStates)
}

/// Reads the states of a table. Returns `Err` if its variable has another size.
pub(crate) fn state_table(
    alloc: Global,
    elf: &Elf<'_>,
    layout: StateLayout,
    table: Place,
) -> Result<Vec<State>, TableFault>
    ensures { MatchResult result (λ states. IsStateTable elf.now layout table states.items)
        (λ fault. (fault ≡ NoMemory) ⊎ IsStateTableFault elf.now layout table fault) }
{
    let states = match states_to_end(alloc, elf, layout, table) {
        Ok(states) => states,
        Err(fault) => return Err(fault),
    };
    let wanted = bytes_of_rows(layout.size, states.len());
    if has_size(elf, table, wanted) {
        Ok(states)
    } else {
        Err(TableFault::Layout { table, wanted })
    }
}
