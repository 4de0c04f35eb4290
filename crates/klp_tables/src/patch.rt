//! What the tables of a livepatch say.
use klp_elf::Place;

/// Whether a patch replaces all patches before it.
#[derive(Clone, Copy)]
pub enum Replaces {
    No,
    Yes,
    /// Code of the module sets it, so the tables don't tell.
    Unknown,
}

/// A function that a patch changes.
#[derive(Clone, Copy)]
pub struct Function<'a> {
    pub old_name: &'a [u8],
    /// The number of the symbol among those of its name, from 1; 0 if there is one alone.
    pub position: u64,
    pub new_name: &'a [u8],
}

/// Which callbacks an object has.
#[derive(Clone, Copy)]
pub struct Callbacks {
    pub pre_patch: bool,
    pub post_patch: bool,
    pub pre_unpatch: bool,
    pub post_unpatch: bool,
}

/// The row of an object, without its functions.
#[derive(Clone, Copy)]
pub struct ObjectRow<'a> {
    /// The name of the module. The kernel's image has none.
    pub name: Option<&'a [u8]>,
    /// Where the rows of its functions begin.
    pub functions: Option<Place>,
    pub callbacks: Callbacks,
}

/// An object with the functions that a patch changes in it.
#[derive(Drop)]
pub struct Object<'a> {
    pub row: ObjectRow<'a>,
    pub functions: Vec<Function<'a>>,
}

/// A system state that a patch changes.
#[derive(Clone, Copy)]
pub struct State {
    pub id: u64,
    pub version: u32,
}

/// A livepatch.
#[derive(Drop)]
pub struct Patch<'a> {
    pub objects: Vec<Object<'a>>,
    pub states: Vec<State>,
    pub replaces: Replaces,
}
