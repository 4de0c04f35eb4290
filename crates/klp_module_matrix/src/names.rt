//! What objects are called.
ghost use Rattle.std.specs.Prelude.{◌≡◌, option_map};
ghost use Rattle.klp_module_matrix.specs.Names.{name_of_row, object_name};

use klp_tables::ObjectRow;

/// The name of the kernel's image, as an object.
pub const IMAGE: &[u8] = b"vmlinux";

/// Returns the name of an object. The kernel's image has none in a table, and is called [`IMAGE`].
pub fn object_name<'a>(name: Option<&'a [u8]>) -> &'a [u8]
    ensures { result.now ≡ object_name (option_map (λ n. n.now) name.entry) }
{
    match name {
        Some(name) => name,
        None => IMAGE,
    }
}

/// Returns the name of the object of a row.
pub fn name_of_row<'a>(row: &ObjectRow<'a>) -> &'a [u8]
    ensures { result.now ≡ name_of_row row.now }
{
    object_name(row.name)
}
