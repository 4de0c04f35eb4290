//! Writes a catalog of livepatches.
ghost use Rattle.std.specs.Prelude.{◌≡◌, ◌⊎◌, map, nat_lt, MatchResult, None, Some};
ghost use Rattle.klp_types.specs.declared.limits.TheConstants.{MAX_SITES};
ghost use Rattle.klp_module_symbols.specs.Kernel.{row_meaning};
ghost use Rattle.klp_module_symbols.specs.Symbols.{object_meaning};
ghost use Rattle.klp_module_catalog.specs.Refusals.{refusal_of, room_fault, symbol_count};
ghost use Rattle.klp_module_catalog.specs.declared.fault.CatalogFault.TheVariants.{NoMemory};

use crate::fault::CatalogFault;
use crate::marks::is_cut;
use crate::names::new_name_of;
use crate::objects::write_objects;
use klp_messages::Escaped;
use klp_module_fit::{LeftOut, NamedPatch, fit_fault};
use klp_module_matrix::name_of_row;
use klp_module_symbols::{KernelRow, ObjectSymbols, objects_of};
use klp_tables::{Callbacks, Object, Replaces};
use klp_types::{MAX_OBJECTS, MAX_SITES};
use std::alloc::{AllocError, Global};

/// Where new functions are said to be. Any address will do.
const NEW_FUNCTIONS: u64 = 0xffff_ffff_e000_0000;

/// How far two new functions are apart.
const APART: u64 = 64;

/// How much of a catalog isn't known, and marked so.
#[derive(Clone, Copy)]
pub struct Unknown {
    /// How many callbacks there are. What they do isn't known.
    pub callbacks: usize,
    /// Of how many patches it isn't known whether they replace those before them.
    pub replacing: usize,
    /// Of how many objects the symbols are made up.
    pub objects: usize,
    /// Of how many patches something is left out.
    pub cut: usize,
}

/// A catalog's text before it is read back, and how much of it isn't known.
#[derive(Drop)]
pub struct Draft {
    pub text: String,
    pub unknown: Unknown,
}

/// Returns the words of a catalog for the callbacks, each with whether it is there, in the order in which they run.
fn callback_words(callbacks: Callbacks) -> [(&'static str, bool); 4] {
    [
        ("pre", callbacks.pre_patch),
        ("post", callbacks.post_patch),
        ("preun", callbacks.pre_unpatch),
        ("postun", callbacks.post_unpatch),
    ]
}

/// Writes an object that a patch changes. Returns how many callbacks it has.
fn write_target(
    alloc: Global,
    text: &mut String,
    object: &Object<'_>,
    next: &mut u64,
) -> Result<usize, AllocError> {
    let name = Escaped(name_of_row(&object.row));
    writeln!(text, "target {name}")?;
    for function in &object.functions {
        let (old, position) = (Escaped(function.old_name), function.position);
        let spelled = new_name_of(alloc, function.new_name)?;
        let (new, address) = (Escaped(&spelled), *next);
        writeln!(
            text,
            "func .klp.sym.{name}.{old},{position} {new} {address:x}"
        )?;
        *next = next.saturating_add(APART);
    }
    let mut count: usize = 0;
    for (word, is_there) in callback_words(object.row.callbacks) {
        if is_there {
            writeln!(text, "{word} 0")?;
            writeln!(text, "#? unknown its code isn't read")?;
            count = count.saturating_add(1);
        }
    }
    Ok(count)
}

/// Writes the mark that says how much of a patch is left out, behind the patch's line.
fn write_left_out(text: &mut String, left_out: LeftOut) -> Result<(), AllocError> {
    let LeftOut { functions, objects } = left_out;
    writeln!(text, "#? left out {functions} functions, {objects} targets")?;
    Ok(())
}

/// Writes the line of a patch, its marks, and its system states. Returns whether it is known whether it replaces others.
fn write_head(text: &mut String, named: &NamedPatch<'_, '_>) -> Result<bool, AllocError> {
    let (name, patch) = (Escaped(named.name), named.patch);
    let is_known = match patch.replaces {
        Replaces::Yes => {
            writeln!(text, "patch {name} replace")?;
            true
        }
        Replaces::No => {
            writeln!(text, "patch {name}")?;
            true
        }
        Replaces::Unknown => {
            writeln!(text, "patch {name}")?;
            writeln!(text, "#? unknown its code sets whether it replaces others")?;
            false
        }
    };
    if is_cut(named) {
        write_left_out(text, named.left_out)?;
    }
    for state in &patch.states {
        let (id, version) = (state.id, state.version);
        writeln!(text, "state {id} {version}")?;
    }
    Ok(is_known)
}

/// Writes all patches. Counts what isn't known of them.
fn write_patches(
    alloc: Global,
    text: &mut String,
    patches: &[NamedPatch<'_, '_>],
    unknown: &mut Unknown,
) -> Result<(), AllocError> {
    let mut next = NEW_FUNCTIONS;
    for named in patches {
        if !write_head(text, named)? {
            unknown.replacing = unknown.replacing.saturating_add(1);
        }
        if is_cut(named) {
            unknown.cut = unknown.cut.saturating_add(1);
        }
        for object in &named.patch.objects {
            let callbacks = write_target(alloc, text, object, &mut next)?;
            unknown.callbacks = unknown.callbacks.saturating_add(callbacks);
        }
    }
    Ok(())
}

/// Returns the text of a catalog.
fn text_of(
    alloc: Global,
    rows: &[KernelRow<'_>],
    objects: &[ObjectSymbols<'_>],
    patches: &[NamedPatch<'_, '_>],
) -> Result<Draft, AllocError> {
    let mut text = String::new(alloc);
    let mut unknown = Unknown {
        callbacks: 0,
        replacing: 0,
        objects: write_objects(&mut text, rows, objects)?,
        cut: 0,
    };
    write_patches(alloc, &mut text, patches, &mut unknown)?;
    Ok(Draft { text, unknown })
}

/// Whether some objects have more symbols together than a catalog.
fn have_too_many(objects: &[ObjectSymbols<'_>]) -> bool
    ensures { result ≡ nat_lt MAX_SITES (symbol_count (map object_meaning objects.now)) }
{
    let mut rest = objects;
    let mut room = MAX_SITES;
    while let [object, behind @ ..] = rest {
        if room < object.symbols.len() {
            return true;
        }
        room -= object.symbols.len();
        rest = behind;
    }
    false
}

/// Returns why a catalog has no room for some objects.
fn room_fault(objects: &[ObjectSymbols<'_>]) -> Option<CatalogFault>
    ensures { result ≡ room_fault (map object_meaning objects.now) }
{
    if MAX_OBJECTS < objects.len() {
        return Some(CatalogFault::TooManyObjects);
    }
    if have_too_many(objects) {
        return Some(CatalogFault::TooManySymbols);
    }
    None
}

/// Writes a catalog of some patches, in their order, over a kernel with these symbols. Of an object of which there are
/// none the symbols are made up, and marked so; what is left out of a patch is counted by a mark. [`is_catalog_of`](crate::is_catalog_of) reads it back.
///
/// Returns `Err` with the first reason why a catalog can't have the patches, or if memory runs out.
pub fn draft_of(
    alloc: Global,
    rows: &[KernelRow<'_>],
    patches: &[NamedPatch<'_, '_>],
) -> Result<Draft, CatalogFault>
    ensures { MatchResult result (λ _. refusal_of (map row_meaning rows.now) patches.now ≡ None)
        (λ fault. (fault ≡ NoMemory) ⊎ (refusal_of (map row_meaning rows.now) patches.now ≡ Some fault)) }
{
    if let Some(fault) = fit_fault(patches) {
        return Err(CatalogFault::Unfit(fault));
    }
    let objects = match objects_of(alloc, rows, patches) {
        Ok(objects) => objects,
        Err(_) => return Err(CatalogFault::NoMemory),
    };
    if let Some(fault) = room_fault(&objects) {
        return Err(fault);
    }
    match text_of(alloc, rows, &objects, patches) {
        Ok(draft) => Ok(draft),
        Err(_) => Err(CatalogFault::NoMemory),
    }
}
