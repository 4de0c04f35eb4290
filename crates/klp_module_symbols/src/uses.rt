//! What patches name.
ghost use Rattle.std.specs.Prelude.{◌≡◌, bytes_eq, map, IfOk};
ghost use Rattle.std.specs.List.{fold, list_any};
ghost use Rattle.klp_module_matrix.specs.declared.functions.Changed.{Changed};
ghost use Rattle.klp_module_matrix.specs.Changes.{meaning};
ghost use Rattle.klp_module_matrix.specs.Names.{object_name};
ghost use Rattle.klp_module_symbols.specs.Symbols.{highest_of, higher, is_same_name, named_once, object_names, uses_of, with_object};

use klp_module_fit::NamedPatch;
use klp_module_matrix::{Changed, IMAGE, append_changed, name_of_row, object_name};
use klp_tables::Object;
use std::alloc::{AllocError, Global};

/// Returns all functions that some patches change.
pub(crate) fn uses_of<'a>(
    alloc: Global,
    patches: &[NamedPatch<'_, 'a>],
) -> Result<Vec<Changed<'a>>, AllocError>
    ensures { IfOk result (λ uses. map meaning uses.items ≡ uses_of patches.now) }
{
    let mut uses = Vec::new(alloc);
    for named in patches {
        append_changed(&mut uses, &named.patch.objects)?;
    }
    Ok(uses)
}

fn is_same_object(one: &Changed<'_>, other: &Changed<'_>) -> bool
    ensures { result ≡ bytes_eq (object_name (meaning one.now).object) (object_name (meaning other.now).object) }
{
    object_name(one.object) == object_name(other.object)
}

/// Whether two patches name symbols of one name and object.
pub(crate) fn is_same_name(one: &Changed<'_>, other: &Changed<'_>) -> bool
    ensures { result ≡ is_same_name (meaning one.now) (meaning other.now) }
{
    is_same_object(one, other) && one.name == other.name
}

fn is_among(uses: &[Changed<'_>], symbol: &Changed<'_>) -> bool
    ensures { result ≡ list_any (λ (u : Changed). is_same_name (meaning symbol.now) (meaning u)) uses.now }
{
    uses.iter().any(|other| is_same_name(symbol, other))
}

fn has_use(uses: &[Changed<'_>], symbol: &Changed<'_>) -> bool
    ensures { result ≡ list_any (is_same_name (meaning symbol.now)) (map meaning uses.now) }
{
    is_among(uses, symbol)
}

/// Returns what is named, each name of an object once.
pub(crate) fn named_once<'a>(
    alloc: Global,
    uses: &[Changed<'a>],
) -> Result<Vec<Changed<'a>>, AllocError>
    ensures { IfOk result (λ named. map meaning named.items ≡ named_once (map meaning uses.now)) }
{
    let mut named = Vec::new(alloc);
    for symbol in uses {
        if !has_use(&named, symbol) {
            named.push(*symbol)?;
        }
    }
    Ok(named)
}

/// Returns the higher one of two positions, if the second one is of this symbol.
fn higher(symbol: &Changed<'_>, highest: u64, other: &Changed<'_>) -> u64
    ensures { result ≡ higher (meaning symbol.now) highest (meaning other.now) }
{
    if is_same_name(symbol, other) {
        highest.max(other.position)
    } else {
        highest
    }
}

/// Returns the highest position at which a symbol of this name is named, and at least 1.
pub(crate) fn highest_of(uses: &[Changed<'_>], symbol: &Changed<'_>) -> u64
    ensures { result ≡ highest_of (map meaning uses.now) (meaning symbol.now) }
{
    let mut highest: u64 = 1;
    for other in uses {
        highest = higher(symbol, highest, other);
    }
    highest
}

fn is_named(names: &[&[u8]], name: &[u8]) -> bool
    ensures { result ≡ list_any (λ n. bytes_eq name.now n.now) names.now }
{
    names.iter().any(|other| name == *other)
}

fn has_name(names: &[&[u8]], name: &[u8]) -> bool
    ensures { result ≡ list_any (bytes_eq name.now) (map (λ n. n.now) names.now) }
{
    is_named(names, name)
}

fn add_objects<'a>(names: &mut Vec<&'a [u8]>, objects: &[Object<'a>]) -> Result<(), AllocError>
    ensures { IfOk result (λ _. map (λ n. n.now) names.new.items ≡ fold with_object (map (λ n. n.now) names.old.items) objects.now) }
{
    for object in objects {
        let name = name_of_row(&object.row);
        if !has_name(names, name) {
            names.push(name)?;
        }
    }
    Ok(())
}

/// Returns the names of the objects that patches change, the kernel's image first, each once.
pub(crate) fn object_names<'a>(
    alloc: Global,
    patches: &[NamedPatch<'_, 'a>],
) -> Result<Vec<&'a [u8]>, AllocError>
    ensures { IfOk result (λ names. map (λ n. n.now) names.items ≡ object_names patches.now) }
{
    let mut names: Vec<&'a [u8]> = Vec::new(alloc);
    names.push(IMAGE)?;
    for named in patches {
        add_objects(&mut names, &named.patch.objects)?;
    }
    Ok(names)
}
