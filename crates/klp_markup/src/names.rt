//! The names of a catalog.
ghost use Rattle.std.specs.Prelude.{◌≡◌, ◌++◌, codes};
ghost use Rattle.std.specs.Fmt.{decimal};
ghost use Rattle.klp_modules.specs.Names.{symbol_at_site};
ghost use Rattle.klp_markup.specs.Adds.{Adds};
ghost use Rattle.klp_markup.specs.Escaped.{words_text};
ghost use Rattle.klp_markup.specs.Names.{patch_name, object_name, function_name, owner_text, symbol_text, version_text};
ghost use Rattle.klp_markup.specs.Names.{is_of_kernel};

use crate::sheet::Sheet;
use klp_catalog::Catalog;
use klp_modules::Modules;
use klp_types::{ObjId, PatchId, Site, Version};

/// Returns the name of a patch, or an empty name if there is no such patch.
pub fn patch_name(catalog: &Catalog, patch: PatchId) -> &[u8]
    ensures { result.now ≡ patch_name catalog.now patch }
{
    catalog.patch_name(patch).unwrap_or("").as_bytes()
}

/// Returns the name of an object, loaded or not, or an empty name if there is no such object.
pub fn object_name(modules: &Modules, object: ObjId) -> &[u8]
    ensures { result.now ≡ object_name modules.now.names object }
{
    modules.object_name(object).unwrap_or("").as_bytes()
}

/// Returns the name of a patch's new function, or an empty name if there is no such function. `number` counts the
/// functions of the patch from 0, over all its objects.
pub fn function_name(catalog: &Catalog, patch: PatchId, number: u16) -> &[u8]
    ensures { result.now ≡ function_name catalog.now patch number }
{
    match catalog.function(patch, number) {
        Some((_, name, _)) => name.as_bytes(),
        None => b"",
    }
}

/// Adds the beginning of a symbol's spelling, up to the name of the function: `.klp.sym.OBJECT.`.
#[tactic(auto, unfolding(crate::specs::Names::owner_text))]
fn add_owner(sheet: &mut Sheet, object: &[u8])
    ensures { Adds sheet.old sheet.new (owner_text object.now) }
{
    // For the proof only: texts that are added one after the other add up.
    crate::laws::what_is_added_adds_up();
    sheet.markup(".klp.<wbr>sym.<wbr>");
    sheet.words(object);
    sheet.markup(".<wbr>");
}

/// Adds the spelling of a symbol: `.klp.sym.OBJECT.SYMBOL,POSITION`. `position` is the symbol's position, from 1, among
/// the object's symbols of that name.
fn add_symbol_of(sheet: &mut Sheet, object: &[u8], symbol: &[u8], position: u64)
    ensures { Adds sheet.old sheet.new (owner_text object.now ++ words_text symbol.now ++ codes ","
        ++ decimal position) }
{
    // For the proof only: texts that are added one after the other add up.
    crate::laws::what_is_added_adds_up();
    add_owner(sheet, object);
    sheet.words(symbol);
    sheet.markup(",");
    sheet.number(position);
}

/// Adds the symbol of a site: `.klp.sym.OBJECT.SYMBOL,POSITION`. Adds nothing if there is no such site.
pub fn add_symbol(sheet: &mut Sheet, modules: &Modules, site: Site)
    ensures { Adds sheet.old sheet.new (symbol_text modules.now.names (symbol_at_site modules.now.names site)) }
{
    // For the proof only: texts that are added one after the other add up.
    crate::laws::what_is_added_adds_up();
    if let Some((object, symbol, position)) = modules.symbol(site) {
        let owner = object_name(modules, object);
        add_symbol_of(sheet, owner, symbol.as_bytes(), u64::from(position));
    }
}

/// Adds a new function of a patch: `PATCH:INDEX (NAME)`. `number` is the index.
fn add_new_function(sheet: &mut Sheet, patch: &[u8], number: u16, name: &[u8])
    ensures { Adds sheet.old sheet.new (words_text patch.now ++ codes ":" ++ decimal number ++ codes " ("
        ++ words_text name.now ++ codes ")") }
{
    // For the proof only: texts that are added one after the other add up.
    crate::laws::what_is_added_adds_up();
    sheet.words(patch);
    sheet.markup(":");
    sheet.number(u64::from(number));
    sheet.markup(" (");
    sheet.words(name);
    sheet.markup(")");
}

/// Whether a version is an original of the kernel itself, which is never unloaded.
pub fn is_of_kernel(modules: &Modules, version: Version) -> bool
    ensures { result ≡ is_of_kernel modules.now.names version }
{
    match version {
        Version::Original(site) => match modules.symbol(site) {
            Some((object, _, _)) => object.0 == 0,
            None => false,
        },
        Version::New(..) => false,
    }
}

/// Adds the version of a function: an original as the symbol of its site, a new function of a patch as `PATCH:INDEX
/// (NAME)`. The catalog must have been assembled over these modules.
pub fn add_version(sheet: &mut Sheet, catalog: &Catalog, modules: &Modules, version: Version)
    requires { catalog.now.names ≡ modules.now.names }
    ensures { Adds sheet.old sheet.new (version_text catalog.now version) }
{
    match version {
        Version::Original(site) => add_symbol(sheet, modules, site),
        Version::New(patch, number) => {
            let (owner, name) = (
                patch_name(catalog, patch),
                function_name(catalog, patch, number),
            );
            add_new_function(sheet, owner, number, name);
        }
    }
}
