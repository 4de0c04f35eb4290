//! The names in answers. Replies have numbers, and answers have names, so that nobody has to look up a number.
ghost use Rattle.std.specs.Prelude.{◌≡◌, ◌++◌, codes};
ghost use Rattle.klp_console_io.specs.Says.{Says};
ghost use Rattle.klp_console_io.specs.Texts.{address_text};
ghost use Rattle.klp_console.specs.Names.{patch_name, object_name, new_function_text};

use klp_catalog::Catalog;
use klp_console_io::{Answers, Sink};
use klp_modules::Modules;
use klp_types::{ObjId, PatchId};

/// Returns the name of a patch of a catalog. The name is empty if there is no such patch, which never happens for a
/// manager's own patches. The patch is found by its number.
pub fn patch_name(catalog: &Catalog, patch: PatchId) -> &str
    ensures { result.now ≡ patch_name catalog.now patch }
{
    catalog.patch_name(patch).unwrap_or("")
}

/// Returns the name of an object, even if the object isn't loaded. If there is no such object, the name is empty, so
/// callers needn't treat a missing object separately. The object is found by its number.
pub fn object_name(modules: &Modules, object: ObjId) -> &str
    ensures { result.now ≡ object_name modules.now.names object }
{
    modules.object_name(object).unwrap_or("")
}

/// Says a name as it was spelled in the catalog, byte by byte.
pub(crate) fn say_name<W: Sink>(answers: &mut Answers, writer: &mut W, name: &str)
    ensures { Says (answers.old, W.written writer.old) (answers.new, W.written writer.new) name.now }
{
    answers.say(writer, name.as_bytes());
}

/// Says the name of a patch, the name of a new function, and the function's address, on one line.
fn say_function<W: Sink>(
    answers: &mut Answers,
    writer: &mut W,
    patch: &str,
    new_name: &str,
    address: u64,
)
    ensures { Says (answers.old, W.written writer.old) (answers.new, W.written writer.new)
        (patch.now ++ codes " " ++ new_name.now ++ codes " " ++ address_text address ++ codes "\n") }
{
    klp_console_io::laws::what_is_said_adds_up();
    say_name(answers, writer, patch);
    answers.say(writer, b" ");
    say_name(answers, writer, new_name);
    answers.say(writer, b" ");
    answers.address(writer, address);
    answers.say(writer, b"\n");
}

/// Says a new function of a patch: the patch, the function's name, and its address in 16 hexadecimal digits. `number`
/// counts from 0 over the functions of all the patch's objects. Says nothing if there is no such patch or function.
pub(crate) fn say_new_function<W: Sink>(
    answers: &mut Answers,
    writer: &mut W,
    catalog: &Catalog,
    patch: PatchId,
    number: u16,
)
    ensures { Says (answers.old, W.written writer.old) (answers.new, W.written writer.new)
        (new_function_text catalog.now patch number) }
{
    klp_console_io::laws::what_is_said_adds_up();
    if let Some((_, new_name, address)) = catalog.function(patch, number) {
        say_function(
            answers,
            writer,
            patch_name(catalog, patch),
            new_name,
            address,
        );
    }
}
