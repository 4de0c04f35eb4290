//! A patch by itself.
use crate::Form;
use crate::json::write_patch;
use crate::livepatch::Livepatch;
use klp_messages::Escaped;
use klp_module_matrix::name_of_row;
use klp_tables::{Callbacks, Function, Object, Replaces};
use std::alloc::Global;
use std::io;
use std::io::Write;

/// Returns the callbacks by their names, each with whether it is there, in the order in which they run.
pub(crate) fn named_callbacks(callbacks: Callbacks) -> [(&'static str, bool); 4] {
    [
        ("pre_patch", callbacks.pre_patch),
        ("post_patch", callbacks.post_patch),
        ("pre_unpatch", callbacks.pre_unpatch),
        ("post_unpatch", callbacks.post_unpatch),
    ]
}

/// Writes a function: its old name, with its position if the table has one, and its new one.
fn write_function<W: Write>(function: Function<'_>, out: &mut W) -> io::Result<()> {
    let (old, new) = (Escaped(function.old_name), Escaped(function.new_name));
    match function.position {
        0 => writeln!(out, "    {old} -> {new}"),
        position => writeln!(out, "    {old},{position} -> {new}"),
    }
}

/// Writes an object with its callbacks and functions.
fn write_object<W: Write>(object: &Object<'_>, out: &mut W) -> io::Result<()> {
    write!(out, "  object {}", Escaped(name_of_row(&object.row)))?;
    let mut comma = ": callbacks ";
    for (name, is_there) in named_callbacks(object.row.callbacks) {
        if is_there {
            write!(out, "{comma}{name}")?;
            comma = ", ";
        }
    }
    writeln!(out)?;
    for function in &object.functions {
        write_function(*function, out)?;
    }
    Ok(())
}

/// Writes what a patch is by its tables, in their order.
fn write_words<W: Write>(livepatch: &Livepatch<'_>, out: &mut W) -> io::Result<()> {
    let replaces = match livepatch.patch.replaces {
        Replaces::No => "replaces no other patch",
        Replaces::Yes => "replaces all patches before it",
        Replaces::Unknown =>
            "its code sets whether it replaces those before it, so that isn't known",
    };
    let (name, release) = (Escaped(livepatch.name), Escaped(livepatch.release));
    writeln!(out, "patch {name}, for {release}: {replaces}")?;
    for state in &livepatch.patch.states {
        let (id, version) = (state.id, state.version);
        writeln!(out, "  state {id}, version {version}")?;
    }
    for object in &livepatch.patch.objects {
        write_object(object, out)?;
    }
    Ok(())
}

/// Writes what each patch is by its tables. Returns whether it is known of each whether it replaces those before it.
pub fn list<W: Write>(
    alloc: Global,
    livepatches: &[Livepatch<'_>],
    form: Form,
    out: &mut W,
) -> io::Result<bool> {
    for livepatch in livepatches {
        match form {
            Form::Words => write_words(livepatch, out)?,
            Form::Json => write_patch(alloc, livepatch, out)?,
        }
    }
    Ok(!livepatches.iter().any(|livepatch| matches!(livepatch.patch.replaces, Replaces::Unknown)))
}
