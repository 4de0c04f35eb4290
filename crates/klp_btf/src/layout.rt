//! The layout of the structs of a livepatch.
use crate::fault::{BtfFault, StructName};
use crate::field::field_of;
use crate::structs::{Structs, structs_in};
use klp_tables::{CallbackPlaces, FunctionLayout, Layout, ObjectLayout, PatchLayout, StateLayout};

fn patch_layout(structs: &Structs<'_>) -> Result<PatchLayout, BtfFault> {
    let (names, patch) = (structs.names, structs.named(StructName::Patch)?);
    Ok(PatchLayout {
        size: patch.size,
        module: field_of(names, patch, "mod")?,
        objects: field_of(names, patch, "objs")?,
        states: field_of(names, patch, "states")?,
        replace: field_of(names, patch, "replace")?,
    })
}

/// Returns where a callback begins in an object whose callbacks begin at a place.
fn callback_place(structs: &Structs<'_>, begin: u16, name: &'static str) -> Result<u16, BtfFault> {
    let callbacks = structs.named(StructName::Callbacks)?;
    let place = field_of(structs.names, callbacks, name)?;
    match begin.checked_add(place) {
        Some(place) => Ok(place),
        None => Err(BtfFault::TooLarge(StructName::Object)),
    }
}

fn object_layout(structs: &Structs<'_>) -> Result<ObjectLayout, BtfFault> {
    let (names, object) = (structs.names, structs.named(StructName::Object)?);
    let begin = field_of(names, object, "callbacks")?;
    Ok(ObjectLayout {
        size: object.size,
        name: field_of(names, object, "name")?,
        functions: field_of(names, object, "funcs")?,
        callbacks: CallbackPlaces {
            pre_patch: callback_place(structs, begin, "pre_patch")?,
            post_patch: callback_place(structs, begin, "post_patch")?,
            pre_unpatch: callback_place(structs, begin, "pre_unpatch")?,
            post_unpatch: callback_place(structs, begin, "post_unpatch")?,
        },
    })
}

fn function_layout(structs: &Structs<'_>) -> Result<FunctionLayout, BtfFault> {
    let (names, function) = (structs.names, structs.named(StructName::Function)?);
    Ok(FunctionLayout {
        size: function.size,
        old_name: field_of(names, function, "old_name")?,
        new_function: field_of(names, function, "new_func")?,
        position: field_of(names, function, "old_sympos")?,
    })
}

fn state_layout(structs: &Structs<'_>) -> Result<StateLayout, BtfFault> {
    let (names, state) = (structs.names, structs.named(StructName::State)?);
    Ok(StateLayout {
        size: state.size,
        id: field_of(names, state, "id")?,
        version: field_of(names, state, "version")?,
    })
}

/// Returns the layout of a livepatch's structs, by the first struct of each name among the types of BTF. Returns as `Err` what
/// is wrong with the bytes. It takes time with their number.
pub fn layout_of(bytes: &[u8]) -> Result<Layout, BtfFault> {
    let structs = structs_in(bytes)?;
    Ok(Layout {
        patch: patch_layout(&structs)?,
        object: object_layout(&structs)?,
        function: function_layout(&structs)?,
        state: state_layout(&structs)?,
    })
}
