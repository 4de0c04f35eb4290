//! Why no catalog is written, in words.
use crate::fault::CatalogFault;
use klp_messages::Escaped;
use klp_module_fit::{FitFault, NamedPatch, PatchFault};
use klp_module_matrix::name_of_row;
use klp_tables::{Object, Patch};
use klp_types::{
    MAX_FUNCTIONS, MAX_NAME, MAX_OBJECTS, MAX_PATCHES, MAX_SITES, MAX_STATES, MAX_SYMBOL_NAME,
    MAX_TARGETS,
};
use klp_words::is_symbol_name;
use std::fmt;

/// What to do where a catalog has no room.
const COMPARE: &str = "--list and --matrix take it whole";

/// What to do where a catalog has no room for a patch, but may have some for a part of it.
const CUT: &str = "--cut leaves out the rest, and --list and --matrix take it whole";

const FEWER: &str = "give fewer patches; --matrix takes all";

/// What to do where a catalog has no room for the patches together.
const FEWER_OR_CUT: &str =
    "give fewer patches, or --cut, which leaves out the rest; --matrix takes all";

/// Why no catalog is written of these patches. A fault of one patch begins with its name, and each has the limit and
/// what to do.
#[derive(Clone, Copy)]
pub struct FaultWords<'f, 'p, 'a> {
    pub fault: CatalogFault,
    pub patches: &'f [NamedPatch<'p, 'a>],
    /// Whether `--cut` may help: it wasn't given.
    pub may_cut: bool,
}

/// An object of a patch, or one of its functions.
#[derive(Clone, Copy)]
struct Part<'p, 'a> {
    object: Option<&'p Object<'a>>,
    function: Option<usize>,
}

impl fmt::Display for Part<'_, '_> {
    fn fmt<W: fmt::Write>(&self, f: &mut fmt::Formatter<W>) -> fmt::Result {
        let Some(object) = self.object else {
            return Ok(());
        };
        let name = Escaped(name_of_row(&object.row));
        let function = match self.function {
            Some(number) => object.functions.get(number),
            None => None,
        };
        match function {
            Some(function) => write!(f, "function {} of {name}", Escaped(function.old_name)),
            None => write!(f, "object {name}"),
        }
    }
}

/// Returns the first function of this object of a patch whose name no symbol of a catalog can have.
fn bad_function(patch: &Patch<'_>, object: usize) -> Option<usize> {
    let object = patch.objects.get(object)?;
    object
        .functions
        .iter()
        .position(|function| !is_symbol_name(function.old_name))
}

/// Returns the first function of this object of a patch whose position is too high for a catalog.
fn far_function(patch: &Patch<'_>, object: usize) -> Option<usize> {
    let object = patch.objects.get(object)?;
    object
        .functions
        .iter()
        .position(|function| (MAX_SITES as u64) < function.position)
}

/// Returns how many functions some objects have together.
fn function_count(objects: &[Object<'_>]) -> usize {
    let mut count: usize = 0;
    for object in objects {
        count = count.saturating_add(object.functions.len());
    }
    count
}

/// Writes which of the limits of a patch it exceeds, and what to do.
fn write_count<W: fmt::Write>(
    f: &mut fmt::Formatter<W>,
    count: usize,
    what: &str,
    most: usize,
    advice: &str,
) -> fmt::Result {
    write!(
        f,
        "it has {count} {what}, and a catalog has room for {most} of a patch: {advice}"
    )
}

/// Writes that a catalog can't have the name of a part.
fn write_name<W: fmt::Write>(
    f: &mut fmt::Formatter<W>,
    part: Part<'_, '_>,
    most: usize,
    bytes: &str,
) -> fmt::Result {
    write!(
        f,
        "{part}: a catalog can't have this name: wanted are 1 to {most} letters, digits, {bytes}: {COMPARE}"
    )
}

fn write_patch_fault<W: fmt::Write>(
    f: &mut fmt::Formatter<W>,
    named: &NamedPatch<'_, '_>,
    fault: PatchFault,
    may_cut: bool,
) -> fmt::Result {
    let patch = named.patch;
    let cut_or_compare = if may_cut { CUT } else { COMPARE };
    let part = |object: usize, function: Option<usize>| Part {
        object: patch.objects.get(object),
        function,
    };
    match fault {
        PatchFault::BadName => write!(
            f,
            "a catalog can't have this name: wanted are 1 to {MAX_NAME} letters, digits, _ and -: {COMPARE}"
        ),
        PatchFault::TooManyObjects => {
            let count = patch.objects.len();
            write_count(f, count, "objects", MAX_TARGETS, cut_or_compare)
        }
        PatchFault::TooManyFunctions => {
            write_count(
                f,
                function_count(&patch.objects),
                "functions",
                MAX_FUNCTIONS,
                cut_or_compare,
            )
        }
        PatchFault::TooManyStates => {
            write_count(f, patch.states.len(), "system states", MAX_STATES, COMPARE)
        }
        PatchFault::BadObject(object) => write_name(f, part(object, None), MAX_NAME, "_ and -"),
        PatchFault::BadFunction(object) => {
            let function = bad_function(patch, object);
            write_name(f, part(object, function), MAX_SYMBOL_NAME, "_, . and $")
        }
        PatchFault::ObjectTwice(object) => write!(
            f,
            "{}: it has two tables, and a catalog has room for one: {COMPARE}",
            part(object, None)
        ),
        PatchFault::FarPosition(object) => {
            let function = far_function(patch, object);
            write!(
                f,
                "{}: its position is above {MAX_SITES}, and a catalog has room for so many symbols: {COMPARE}",
                part(object, function)
            )
        }
        PatchFault::StateTwice(number) => {
            let id = patch.states.get(number).map_or(0, |state| state.id);
            write!(
                f,
                "state {id}: it is there twice, and a catalog has room for one: {COMPARE}"
            )
        }
    }
}

impl FaultWords<'_, '_, '_> {
    fn write_unfit<W: fmt::Write>(
        &self,
        f: &mut fmt::Formatter<W>,
        fault: FitFault,
    ) -> fmt::Result {
        let (FitFault::Patch { number, .. } | FitFault::PatchTwice(number)) = fault else {
            let count = self.patches.len();
            return write!(
                f,
                "{count} patches are given, and a catalog has room for {MAX_PATCHES}: {FEWER}"
            );
        };
        let Some(named) = self.patches.get(number) else {
            return Ok(());
        };
        write!(f, "patch {}: ", Escaped(named.name))?;
        match fault {
            FitFault::Patch { fault, .. } => write_patch_fault(f, named, fault, self.may_cut),
            _ => f.write_str("another one has its name"),
        }
    }
}

impl fmt::Display for FaultWords<'_, '_, '_> {
    fn fmt<W: fmt::Write>(&self, f: &mut fmt::Formatter<W>) -> fmt::Result {
        let fewer = if self.may_cut { FEWER_OR_CUT } else { FEWER };
        match self.fault {
            CatalogFault::Unfit(fault) => self.write_unfit(f, fault),
            CatalogFault::TooManyObjects => write!(
                f,
                "the patches change more than {MAX_OBJECTS} objects with vmlinux, and a catalog has room for so many: {fewer}"
            ),
            CatalogFault::TooManySymbols => write!(
                f,
                "there are more than {MAX_SITES} symbols that the patches name, and a catalog has room for so many: {fewer}"
            ),
            CatalogFault::NoMemory => f.write_str("memory ran out"),
        }
    }
}
