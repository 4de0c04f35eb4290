use klp_types::ObjId;

/// An object with the numbers of its name and of its symbols' names, in order. The tables use these numbers, so texts
/// needn't be compared or hashed.
#[derive(Drop)]
pub struct NumberedObject {
    pub name: usize,
    pub symbols: Vec<usize>,
}

/// A symbol: its object, the number of its name, and its position, from 1, among the symbols of that name in the
/// object. The console prints a site in this form.
#[derive(Clone, Copy)]
pub struct NumberedSymbol {
    pub object: ObjId,
    pub name: usize,
    pub position: u32,
}
