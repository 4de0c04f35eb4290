//! The tables of a module's file.
ghost use Rattle.std.specs.Prelude.{◌≡◌, ◌⊎◌, [], Some, None, Ok, Err, MatchResult};
ghost use Rattle.klp_elf.specs.Looks.{pointer_at};
ghost use Rattle.klp_elf.specs.declared.look.Pointer.TheVariants.{To};
ghost use Rattle.klp_tables.specs.Faults.{table_by, IsFormFault, IsPatchFault, IsStaticFault, IsStatesFault};
ghost use Rattle.klp_tables.specs.Rows.{moved};
ghost use Rattle.klp_tables.specs.Patches.{replaces_by, replaces_of, IsPatch, IsPatchIn, IsStaticPatch, IsStates};
ghost use Rattle.klp_tables.specs.declared.fault.TableFault.TheVariants.{NoMemory};
ghost use Rattle.klp_tables.specs.declared.patch.Replaces.TheVariants.{Unknown};

use crate::fault::TableFault;
use crate::finding::{Form, form_of, is_changed};
use crate::klp_build::built_targets;
use crate::kpatch::kpatch_targets;
use crate::layout::{Layout, PatchLayout, StateLayout};
use crate::objects::object_table;
use crate::patch::{Object, Patch, Replaces, State};
use crate::place::moved;
use crate::rows::state_table;
use klp_elf::{Elf, Place, Pointer};
use std::alloc::Global;

/// Returns whether a patch replaces those before it, by the byte that its struct has, if no code changes it.
fn replaces_by(byte: u8, is_changed: bool) -> Replaces
    ensures { result ≡ replaces_by byte is_changed }
{
    if is_changed {
        Replaces::Unknown
    } else if byte == 0 {
        Replaces::No
    } else {
        Replaces::Yes
    }
}

/// Reads whether the patch with this struct replaces those before it.
fn replaces_of(elf: &Elf<'_>, layout: PatchLayout, patch: Place) -> Result<Replaces, TableFault>
    ensures { result ≡ replaces_of elf.now layout patch }
{
    match elf.byte(moved(patch, layout.replace as u64)) {
        Ok(byte) => Ok(replaces_by(byte, is_changed(elf, layout, patch))),
        Err(fault) => Err(TableFault::Look(fault)),
    }
}

/// Reads the states to which the pointer at a place points.
fn states_of(
    alloc: Global,
    elf: &Elf<'_>,
    layout: StateLayout,
    at: Place,
) -> Result<Vec<State>, TableFault>
    ensures { MatchResult result (λ states. IsStates elf.now layout (pointer_at elf.now at) states.items)
        (λ fault. (fault ≡ NoMemory) ⊎ IsStatesFault elf.now layout at (pointer_at elf.now at) fault) }
{
    match elf.pointer(at) {
        Ok(Pointer::To(table)) => state_table(alloc, elf, layout, table),
        Ok(Pointer::Null) => Ok(Vec::new(alloc)),
        Ok(Pointer::Outside(_)) => Err(TableFault::NoRows(at)),
        Err(fault) => Err(TableFault::Look(fault)),
    }
}

/// Returns where the objects of the patch with this struct are.
fn objects_place(elf: &Elf<'_>, layout: PatchLayout, patch: Place) -> Result<Place, TableFault>
    ensures { MatchResult result (λ table. pointer_at elf.now (moved patch layout.objects) ≡ Ok (To table))
        (λ fault. table_by (moved patch layout.objects) (pointer_at elf.now (moved patch layout.objects)) ≡ Err fault) }
{
    let at = moved(patch, layout.objects as u64);
    match elf.pointer(at) {
        Ok(Pointer::To(table)) => Ok(table),
        Ok(_) => Err(TableFault::NoRows(at)),
        Err(fault) => Err(TableFault::Look(fault)),
    }
}

/// Reads the patch with this struct.
fn static_patch<'a>(
    alloc: Global,
    elf: &Elf<'a>,
    layout: Layout,
    patch: Place,
) -> Result<Patch<'a>, TableFault>
    ensures { MatchResult result (λ read. IsStaticPatch elf.now layout patch read)
        (λ fault. (fault ≡ NoMemory) ⊎ IsStaticFault elf.now layout patch fault) }
{
    let replaces = match replaces_of(elf, layout.patch, patch) {
        Ok(replaces) => replaces,
        Err(fault) => return Err(fault),
    };
    let table = match objects_place(elf, layout.patch, patch) {
        Ok(table) => table,
        Err(fault) => return Err(fault),
    };
    let states = match states_of(
        alloc,
        elf,
        layout.state,
        moved(patch, layout.patch.states as u64),
    ) {
        Ok(states) => states,
        Err(fault) => return Err(fault),
    };
    match object_table(alloc, elf, layout, table) {
        Ok(objects) => Ok(Patch {
            objects,
            states,
            replaces,
        }),
        Err(fault) => Err(fault),
    }
}

/// Returns the patch with these objects, whose struct init makes.
fn made_by_init<'a>(alloc: Global, objects: Vec<Object<'a>>) -> Patch<'a>
    ensures objects { result.objects.items ≡ objects.entry.items }
    ensures states { result.states.items ≡ [] }
    ensures replaces { result.replaces ≡ Unknown }
{
    Patch {
        objects,
        states: Vec::new(alloc),
        replaces: Replaces::Unknown,
    }
}

/// Reads the patch whose tables are in this form.
fn patch_in<'a>(
    alloc: Global,
    elf: &Elf<'a>,
    layout: Layout,
    form: Form,
) -> Result<Patch<'a>, TableFault>
    ensures { MatchResult result (λ patch. IsPatchIn elf.now layout form patch)
        (λ fault. (fault ≡ NoMemory) ⊎ IsFormFault elf.now layout form fault) }
{
    match form {
        Form::Static(place) => static_patch(alloc, elf, layout, place),
        Form::Kpatch(table) => match kpatch_targets(alloc, elf, table) {
            Ok(objects) => Ok(made_by_init(alloc, objects)),
            Err(fault) => Err(fault),
        },
        Form::KlpBuild(table) => match built_targets(alloc, elf, table) {
            Ok(objects) => Ok(made_by_init(alloc, objects)),
            Err(fault) => Err(fault),
        },
    }
}

/// Reads the tables of a livepatch, by the layout of the kernel's structs. Returns as `Err` why they can't be read, or that
/// memory ran out.
pub fn read<'a>(alloc: Global, elf: &Elf<'a>, layout: Layout) -> Result<Patch<'a>, TableFault>
    ensures { MatchResult result (λ patch. IsPatch elf.now layout patch)
        (λ fault. (fault ≡ NoMemory) ⊎ IsPatchFault elf.now layout fault) }
{
    match form_of(elf, layout.patch) {
        Ok(form) => patch_in(alloc, elf, layout, form),
        Err(fault) => Err(fault),
    }
}
