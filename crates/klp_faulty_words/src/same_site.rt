//! Finds two functions of a patch that are for the same site.

use crate::wrong::{NamedSymbol, SitePair, Wrong};
use klp_catalog_text::{PlanFunction, PlanPatch, PlanTarget};
use klp_modules::place_in;
use klp_types::ObjectText;

/// Whether two functions of a patch are for the same symbol of an object, whatever positions they spell. The result is
/// false if one of them picks no symbol.
fn are_for_one_site(object: &ObjectText, one: &PlanFunction, other: &PlanFunction) -> bool {
    let place = place_in(object, one.symbol.as_str(), one.sympos).ok();
    place.is_some() && place == place_in(object, other.symbol.as_str(), other.sympos).ok()
}

/// Returns the first of `functions` that is for the same site as `function`. Returns `None` if there is no such
/// function.
fn first_for_same_site<'a>(
    object: &ObjectText,
    functions: &'a [PlanFunction],
    function: &PlanFunction,
) -> Option<&'a PlanFunction> {
    functions
        .iter()
        .find(|other| are_for_one_site(object, other, function))
}

/// Returns the first two functions of a target that are for the same site. Returns `None` if the target has no two such
/// functions.
fn pair_in<'a>(
    patch: &'a str,
    object: &'a ObjectText,
    target: &'a PlanTarget,
) -> Option<SitePair<'a>> {
    for (place, function) in target.functions.iter().enumerate() {
        if let Some(other) = first_for_same_site(object, &target.functions[..place], function) {
            return Some(SitePair {
                patch,
                first: other.new_name.as_str(),
                second: function.new_name.as_str(),
                site: NamedSymbol {
                    symbol: function.symbol.as_str(),
                    object: object.name.as_str(),
                },
            });
        }
    }
    None
}

/// Returns the first two functions of a patch that are for the same site. Returns `None` if the patch has no two such
/// functions.
fn pair_of<'a>(objects: &'a [ObjectText], patch: &'a PlanPatch) -> Option<SitePair<'a>> {
    for target in &patch.targets {
        // A catalog that was read has the object of each target.
        let object = objects.get(usize::from(target.object.0))?;
        let pair = pair_in(patch.name.as_str(), object, target);
        if pair.is_some() {
            return pair;
        }
    }
    None
}

/// Returns the first two functions that are for the same site, from the first patch that has two such functions.
/// Returns `None` if no patch has two such functions.
pub fn first_pair<'a>(objects: &'a [ObjectText], patches: &'a [PlanPatch]) -> Option<Wrong<'a>> {
    for patch in patches {
        if let Some(pair) = pair_of(objects, patch) {
            return Some(Wrong::SameSite(pair));
        }
    }
    None
}
