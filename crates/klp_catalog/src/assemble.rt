//! Makes the patches of a catalog from those of a plan. Functions get their sites, and callbacks get their numbers.

ghost use Rattle.std.specs.Prelude.{◌≡◌, ◌+◌, ◌≤◌, ◌++◌, false, length, take, map, is_some, OnOk, IfOk, IfErr};
ghost use Rattle.std.specs.List.{list_any, list_all};
ghost use Rattle.klp_types.specs.Setting.{Callback as CallbackValue};
ghost use Rattle.klp_catalog_text.specs.Scripts.{scripts_of};
ghost use Rattle.klp_catalog.specs.Catalog as catalog;
ghost use Rattle.klp_catalog.specs.Catalog.{CatalogFunction as FunctionValue, resolved_function, functions_of_target};
ghost use Rattle.klp_catalog.specs.Catalog.{some_same_site};
ghost use Rattle.klp_catalog.specs.Assembled.{IsAssembleFault, IsShort};
ghost use Rattle.klp_catalog.specs.Stored.{symbol_count, target_size, patch_size, stored_target, stored_patch};
ghost use Rattle.klp_catalog.specs.Stored.{stored_patches};
ghost use Rattle.klp_catalog.specs.declared.assemble.AssembleFault.TheVariants.{NoMemory};

use crate::function::CatalogFunction;
use crate::numbers::Numbers;
use crate::patch::CatalogPatch;
use crate::target::{CatalogTarget, Kinds, Targets};
use klp_catalog_text::{PlanCallback, PlanFunction, PlanFunctions, PlanPatch, PlanTarget};
use klp_modules::Modules;
use klp_types::{ObjId, Site};
use smallvec::SmallVec;
use std::alloc::{AllocError, AllocFailed, Global};
use std::snapshot::Snapshot;
use thiserror::Error;

/// Why no catalog can be made of a plan. The numbers are this project's own, and don't change.
#[derive(Clone, Copy, Debug, PartialEq, Eq, Error)]
pub enum AssembleFault {
    /// The number of callbacks isn't the number of scripts in the plan. This is checked first. The caller makes the
    /// callbacks, so the text isn't at fault.
    #[error("WrongCallbacks")]
    WrongCallbacks = 1,
    /// A patch has two functions for one site. Only one of the two could run.
    #[error("SameSite")]
    SameSite = 2,
    /// Memory ran out. This fault may be reported in place of any other fault.
    #[error("NoMemory")]
    NoMemory = 3,
}

impl From<AllocError> for AssembleFault {
    ghost from_gives = { λ _ e. e ≡ NoMemory };

    fn from(_e: AllocError) -> AssembleFault {
        AssembleFault::NoMemory
    }
}

impl<T: Drop> From<AllocFailed<T>> for AssembleFault {
    ghost from_gives = { λ _ e. e ≡ NoMemory };

    fn from(_e: AllocFailed<T>) -> AssembleFault {
        AssembleFault::NoMemory
    }
}

/// Returns how many symbols each object has, by the object's number. The result has only objects whose numbers fit in
/// an `ObjId`. The catalog stores these counts, so that boot can compare them with the image's counts.
pub(crate) fn symbol_counts(alloc: Global, modules: &Modules) -> Result<Vec<u16>, AllocError>
    ensures { IfOk result (λ counts. counts.items ≡ take 256 (map symbol_count modules.now.names)) }
{
    let mut counts = Vec::new(alloc);
    for object in 0..=u8::MAX {
        let Some(count) = modules.symbols(ObjId(object)) else {
            break;
        };
        counts.push(count)?;
    }
    Ok(counts)
}

/// Resolves the symbol of a function to its site. If the symbol isn't found, the function gets no site.
fn resolve(modules: &Modules, object: ObjId, function: PlanFunction) -> CatalogFunction
    ensures { result ≡ resolved_function modules.now.names object function }
{
    let PlanFunction {
        symbol,
        sympos,
        new_name,
        address,
        line: _,
    } = function;
    let site = modules.resolve(object, symbol.as_str(), sympos).ok();
    CatalogFunction {
        object,
        symbol,
        sympos,
        site,
        new_name,
        address,
    }
}

/// Resolves the functions of an object, and appends them to `functions`. A patch's functions are numbered over all its
/// objects, so there is one list for all of them.
fn push_functions(
    modules: &Modules,
    object: ObjId,
    given: PlanFunctions,
    functions: &mut Vec<CatalogFunction>,
) -> Result<(), AllocError>
    ensures { OnOk result (functions.new.items ≡ functions.old.items ++ map
        (resolved_function modules.now.names object) given.items) }
{
    functions.reserve(given.len())?;
    for function in given {
        functions.push(resolve(modules, object, function))?;
    }
    Ok(())
}

/// Returns the kinds of the callbacks, in order. The number of each callback follows from its place in this list and
/// the number of the first callback.
fn kinds_of(alloc: Global, callbacks: &[PlanCallback]) -> Result<Kinds, AllocError>
    ensures { IfOk result (λ kinds. kinds.items ≡ map (λ (c : CallbackValue). c.which) callbacks.now) }
{
    let mut kinds = SmallVec::new(alloc);
    for callback in callbacks {
        kinds.push(callback.which)?;
    }
    Ok(kinds)
}

/// Whether both functions have the same site. False if one of the functions has no site.
fn is_same_site(one: Option<Site>, other: Option<Site>) -> bool
    ensures { result ≡ catalog.is_same_site one other }
{
    match one {
        Some(_) => one == other,
        None => false,
    }
}

/// Whether one of the functions is for this site. False if `site` is `None`.
fn is_among(site: Option<Site>, functions: &[CatalogFunction]) -> bool
    ensures { result ≡ list_any (λ (f : FunctionValue). catalog.is_same_site site f.site) functions.now }
{
    functions
        .iter()
        .any(|function| is_same_site(site, function.site))
}

/// Whether two of the functions are for one site. There are at most 64 functions, so each pair is compared
/// (docs/DECISIONS.md, "Functions by pairs").
fn has_same_site(functions: &[CatalogFunction]) -> bool
    ensures { result ≡ catalog.has_same_site functions.now }
{
    let mut left = functions;
    while let Some((function, later)) = left.split_first() {
        if is_among(function.site, later) {
            return true;
        }
        left = later;
    }
    false
}

/// Whether each of the functions has a site.
fn all_have_sites(functions: &[CatalogFunction]) -> bool
    ensures { result ≡ list_all (λ (f : FunctionValue). is_some f.site) functions.now }
{
    functions.iter().all(|function| function.site.is_some())
}

/// Makes an object of a patch, and assigns the next numbers to the object's callbacks. The object's functions are
/// appended to `functions`, the one list of all functions of the patch.
fn assemble_target(
    alloc: Global,
    modules: &Modules,
    target: PlanTarget,
    numbers: &mut Numbers,
    functions: &mut Vec<CatalogFunction>,
) -> Result<CatalogTarget, AssembleFault>
    requires { numbers.old.next ≤ numbers.old.end }
    ensures target { IfOk result (λ made. made ≡ stored_target numbers.old.next target) }
    ensures functions { OnOk result
        (functions.new.items ≡ functions.old.items ++ functions_of_target modules.now.names target) }
    ensures numbers { OnOk result (numbers.new ≡ record numbers.old { next = numbers.old.next + target_size target }) }
    ensures within { OnOk result (numbers.new.next ≤ numbers.new.end) }
    ensures fault { IfErr result (IsShort (numbers.old.next + target_size target) numbers.old.end) }
{
    let PlanTarget {
        object,
        functions: given,
        callbacks,
        line: _,
    } = target;
    let first = numbers.take(callbacks.len())?;
    let kinds = kinds_of(alloc, &callbacks)?;
    let planned = Snapshot::of(&given);
    let count = given.len();
    push_functions(modules, object, given, functions)?;
    Ok(CatalogTarget {
        object,
        functions: planned,
        count,
        first,
        kinds,
    })
}

/// Makes a patch: resolves its functions, and assigns numbers to its callbacks.
fn assemble_patch(
    alloc: Global,
    modules: &Modules,
    patch: PlanPatch,
    numbers: &mut Numbers,
) -> Result<CatalogPatch, AssembleFault>
    requires { numbers.old.next ≤ numbers.old.end }
    ensures patch { IfOk result (λ made. made ≡ stored_patch modules.now.names numbers.old.next patch) }
    ensures numbers { OnOk result (numbers.new ≡ record numbers.old { next = numbers.old.next + patch_size patch }) }
    ensures within { OnOk result (numbers.new.next ≤ numbers.new.end) }
    ensures fault { IfErr result (IsShort (numbers.old.next + patch_size patch) numbers.old.end) }
{
    let PlanPatch {
        name,
        replace,
        targets: given,
        states,
        line: _,
    } = patch;
    let mut targets = Targets::with_capacity(alloc, given.len())?;
    let mut functions = Vec::new(alloc);
    for target in given {
        targets.push(assemble_target(alloc, modules, target, numbers, &mut functions)?)?;
    }
    let names_sites = all_have_sites(&functions);
    Ok(CatalogPatch {
        name,
        replace,
        targets,
        functions,
        names_sites,
        states,
    })
}

/// Makes the patches in order: resolves the functions of each patch, and assigns numbers to its callbacks. `callbacks`
/// is how many callbacks the caller has.
///
/// A wrong number of callbacks must be reported before two functions for one site. So two functions for one site are
/// reported only when all numbers are assigned.
pub(crate) fn assemble_patches(
    alloc: Global,
    modules: &Modules,
    given: Vec<PlanPatch>,
    callbacks: usize,
) -> Result<Vec<CatalogPatch>, AssembleFault>
    ensures patches { IfOk result (λ made. made.items ≡ stored_patches modules.now.names 0 given.items) }
    ensures number { OnOk result (length (scripts_of given.items) ≡ callbacks) }
    ensures apart { OnOk result (some_same_site modules.now.names given.items ≡ false) }
    ensures fault { IfErr result (IsAssembleFault modules.now.names given.items callbacks) }
{
    let mut numbers = Numbers {
        next: 0,
        end: callbacks,
    };
    let mut same_site = false;
    let mut patches = Vec::with_capacity(alloc, given.len())?;
    for patch in given {
        let assembled = assemble_patch(alloc, modules, patch, &mut numbers)?;
        // A function whose symbol isn't resolved has no site. So it can't have the same site as another function
        // (docs/DECISIONS.md, "Functions without a site").
        same_site |= has_same_site(&assembled.functions);
        patches.push(assembled)?;
    }
    // Only at this point is it known whether there are too many callbacks. Too many callbacks are reported before two
    // functions for one site (docs/DECISIONS.md, "`WrongCallbacks` before `SameSite`").
    if numbers.next < callbacks {
        return Err(AssembleFault::WrongCallbacks);
    }
    if same_site {
        return Err(AssembleFault::SameSite);
    }
    Ok(patches)
}
