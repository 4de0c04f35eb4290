//! Whether a catalog says of patches what their tables say.
ghost use Rattle.std.specs.Prelude.{◌≡◌, ◌&&◌, IfOk, Some, map, option_map, slice_get, Decides};
ghost use Rattle.klp_catalog_text.specs.declared.fault.TextFaultKind.TheVariants.{NoMemory};
ghost use Rattle.klp_module_symbols.specs.Kernel.{row_meaning};
ghost use Rattle.klp_module_symbols.specs.Symbols.{object_meaning, symbol_meaning};
ghost use Rattle.klp_module_catalog.specs.Said.{are_objects, are_symbols, has_kind, is_address, is_cumulative, is_object, is_symbol, row_function, row_patch, row_state, row_target};
ghost use Rattle.klp_module_catalog.specs.Said.{said_function, said_patch, said_target, IsCatalogOf};

use crate::marks::are_marked;
use crate::names::spells_new_name;
use klp_catalog_text::{
    PlanCallback, PlanFunction, PlanPatch, PlanTarget, SystemState, TextFault, TextFaultKind,
};
use klp_module_fit::NamedPatch;
use klp_module_matrix::name_of_row;
use klp_module_symbols::{CatalogSymbol, KernelRow, ObjectSymbols, objects_of};
use klp_tables::{Function, Object, Replaces, State};
use klp_types::{ObjId, ObjectText, SymbolText, Which};
use std::alloc::{AllocError, Global};

/// Whether a function of a catalog is that of a row of the patch's tables: by its symbol, its position, and its new name
/// as a catalog spells it. The tables have no address, so none is compared.
fn is_function(plan: &PlanFunction, function: &Function<'_>) -> bool
    ensures { Decides result (said_function plan.now ≡ row_function function.now) }
{
    plan.symbol.as_bytes() == function.old_name
        && u64::from(plan.sympos) == function.position
        && spells_new_name(plan.new_name.as_bytes(), function.new_name)
}

/// Whether the functions of a target are those of the rows, in order.
fn are_functions(plan: &[PlanFunction], functions: &[Function<'_>]) -> bool
    ensures { Decides result (map said_function plan.now ≡ map row_function functions.now) }
{
    plan.len() == functions.len()
        && plan
            .iter()
            .zip(functions)
            .all(|(one, function)| is_function(one, function))
}

/// Whether a target has a callback of this kind.
fn has_callback(callbacks: &[PlanCallback], which: Which) -> bool
    ensures { result ≡ has_kind which callbacks.now }
{
    callbacks.iter().any(|callback| callback.which == which)
}

/// Returns the name of an object.
fn name_of(objects: &[ObjectText], object: ObjId) -> Option<&[u8]>
    ensures { option_map (λ name. name.now) result ≡ option_map (λ o. o.name) (slice_get objects.now object) }
{
    let found = objects.get(usize::from(object.0))?;
    Some(found.name.as_bytes())
}

/// Whether an object has this name.
fn is_named(objects: &[ObjectText], object: ObjId, name: &[u8]) -> bool
    ensures { Decides result (option_map (λ o. o.name) (slice_get objects.now object) ≡ Some name.now) }
{
    match name_of(objects, object) {
        Some(found) => found == name,
        None => false,
    }
}

/// Whether a target is the object of a row: by its name, its functions, and which callbacks it has.
fn is_target(objects: &[ObjectText], target: &PlanTarget, object: &Object<'_>) -> bool
    ensures { Decides result (said_target objects.now target.now ≡ row_target object.now) }
{
    let callbacks = object.row.callbacks;
    is_named(objects, target.object, name_of_row(&object.row))
        && has_callback(&target.callbacks, Which::Pre) == callbacks.pre_patch
        && has_callback(&target.callbacks, Which::Post) == callbacks.post_patch
        && has_callback(&target.callbacks, Which::PreUn) == callbacks.pre_unpatch
        && has_callback(&target.callbacks, Which::PostUn) == callbacks.post_unpatch
        && are_functions(&target.functions, &object.functions)
}

/// Whether the targets of a patch are the objects of its table, in order.
fn are_targets(objects: &[ObjectText], targets: &[PlanTarget], rows: &[Object<'_>]) -> bool
    ensures { Decides result (map (said_target objects.now) targets.now ≡ map row_target rows.now) }
{
    targets.len() == rows.len()
        && targets
            .iter()
            .zip(rows)
            .all(|(target, object)| is_target(objects, target, object))
}

/// Whether a system state of a catalog is that of a row.
fn is_state(plan: &SystemState, state: &State) -> bool
    ensures { Decides result (plan.now ≡ row_state state.now) }
{
    plan.id == state.id && plan.version == state.version
}

/// Whether the system states of a patch are those of its table, in order.
fn are_states(plan: &[SystemState], states: &[State]) -> bool
    ensures { Decides result (plan.now ≡ map row_state states.now) }
{
    plan.len() == states.len()
        && plan
            .iter()
            .zip(states)
            .all(|(one, state)| is_state(one, state))
}

/// Whether a patch replaces those before it as its table says. A catalog can't say that this isn't known.
fn replaces_so(replace: bool, replaces: Replaces) -> bool
    ensures { Decides result (replace ≡ is_cumulative replaces) }
{
    match replaces {
        Replaces::Yes => replace,
        Replaces::No | Replaces::Unknown => !replace,
    }
}

/// Whether a patch of a catalog is the one of these tables.
fn is_patch(objects: &[ObjectText], plan: &PlanPatch, named: &NamedPatch<'_, '_>) -> bool
    ensures { Decides result (said_patch objects.now plan.now ≡ row_patch named.now) }
{
    plan.name.as_bytes() == named.name
        && replaces_so(plan.replace, named.patch.replaces)
        && are_states(&plan.states, &named.patch.states)
        && are_targets(objects, &plan.targets, &named.patch.objects)
}

/// Whether the patches of a plan are exactly these. `objects` are those of the plan.
fn are_patches(objects: &[ObjectText], plan: &[PlanPatch], patches: &[NamedPatch<'_, '_>]) -> bool
    ensures { Decides result (map (said_patch objects.now) plan.now ≡ map row_patch patches.now) }
{
    plan.len() == patches.len()
        && plan
            .iter()
            .zip(patches)
            .all(|(one, named)| is_patch(objects, one, named))
}

/// Whether a symbol has the address that the kernel's has, if that is known.
fn is_address(address: u64, wanted: Option<u64>) -> bool
    ensures { result ≡ is_address address wanted }
{
    match wanted {
        Some(known) => address == known,
        None => true,
    }
}

fn is_symbol(symbol: &SymbolText, wanted: &CatalogSymbol<'_>) -> bool
    ensures { result ≡ is_symbol symbol.now (symbol_meaning wanted.now) }
{
    symbol.name.as_bytes() == wanted.name && is_address(symbol.address, wanted.address)
}

/// Whether some symbols are these, in order.
fn are_symbols(symbols: &[SymbolText], wanted: &[CatalogSymbol<'_>]) -> bool
    ensures { result ≡ are_symbols symbols.now (map symbol_meaning wanted.now) }
{
    let (mut left, mut right) = (symbols, wanted);
    while let ([symbol, behind @ ..], [one, rest @ ..]) = (left, right) {
        if !is_symbol(symbol, one) {
            return false;
        }
        left = behind;
        right = rest;
    }
    left.is_empty() && right.is_empty()
}

fn is_object(object: &ObjectText, wanted: &ObjectSymbols<'_>) -> bool
    ensures { result ≡ is_object object.now (object_meaning wanted.now) }
{
    object.name.as_bytes() == wanted.name && are_symbols(&object.symbols, &wanted.symbols)
}

/// Whether some objects are these, in order.
fn are_objects(objects: &[ObjectText], wanted: &[ObjectSymbols<'_>]) -> bool
    ensures { result ≡ are_objects objects.now (map object_meaning wanted.now) }
{
    let (mut left, mut right) = (objects, wanted);
    while let ([object, behind @ ..], [one, rest @ ..]) = (left, right) {
        if !is_object(object, one) {
            return false;
        }
        left = behind;
        right = rest;
    }
    left.is_empty() && right.is_empty()
}

/// Whether memory ran out, and the text isn't faulty.
fn is_no_memory(fault: TextFault) -> bool
    ensures { Decides result (fault.kind ≡ NoMemory) }
{
    matches!(fault.kind, TextFaultKind::NoMemory)
}

fn are_all(one: bool, other: bool, last: bool) -> bool
    ensures { result ≡ (one && other && last) }
{
    one && other && last
}

/// Decides whether a text is a catalog of these patches over a kernel with these symbols: whether it says of each patch
/// what its tables say, has the symbols that it should have, and marks what isn't known. `Err` if memory runs out.
pub fn is_catalog_of(
    alloc: Global,
    text: &[u8],
    rows: &[KernelRow<'_>],
    patches: &[NamedPatch<'_, '_>],
) -> Result<bool, AllocError>
    ensures { IfOk result (λ r. Decides r (IsCatalogOf text.now (map row_meaning rows.now) patches.now)) }
{
    let mut plan = match klp_catalog_text::read(alloc, text) {
        Ok(plan) => plan,
        Err(fault) if is_no_memory(fault) => return Err(AllocError),
        Err(_) => return Ok(false),
    };
    let wanted = objects_of(alloc, rows, patches)?;
    let is_marked = are_marked(alloc, text, &wanted, patches)?;
    let objects = plan.take_objects();
    let has_symbols = are_objects(&objects, &wanted);
    let says_so = are_patches(&objects, &plan.into_patches(), patches);
    Ok(are_all(is_marked, has_symbols, says_so))
}
