ghost use Rattle.std.specs.Prelude.{◌≡◌, option_map, slice_get, IfOk};
ghost use Rattle.klp_catalog_text.specs.Scripts.{scripts_of};
ghost use Rattle.klp_boot.specs.Booted.{never_ran};
ghost use Rattle.klp_boot.specs.Kinds.{lent_by};

use klp_callback::{Quiet, Refusing, Scripted};
use klp_catalog_text::Plan;
use klp_world::Script;
use std::alloc::{AllocError, Global};

/// A callback that runs a script, in a box whose type says which kind of callback it is.
///
/// A manager needs boxes whose type doesn't say the kind. The check can't follow such a box if a function makes and
/// returns it. So `over_plan`, which boots a manager, turns a box of this type into a box without a kind.
#[derive(Drop)]
pub(crate) enum CallbackKind {
    Scripted(Box<Scripted>),
    Refusing(Box<Refusing>),
    Quiet(Box<Quiet>),
}

/// Makes a callback that does what the script says, of the simplest kind that can run the script: `Scripted` if the
/// script has edits, `Refusing` if it only returns a status other than 0, else `Quiet`. Returns `Err` if memory runs
/// out.
fn kind_of(alloc: Global, script: &Script) -> Result<CallbackKind, AllocError>
    ensures { IfOk result (λ kind. lent_by kind ≡ never_ran script.now) }
{
    if !script.edits.is_empty() {
        let scripted = Scripted::new(script.copy());
        Ok(CallbackKind::Scripted(Box::new(alloc, scripted)?))
    } else if script.status != 0 {
        let refusing = Refusing::new(script.status);
        Ok(CallbackKind::Refusing(Box::new(alloc, refusing)?))
    } else {
        Ok(CallbackKind::Quiet(Box::new(alloc, Quiet::new())?))
    }
}

/// Makes a callback for the plan's script with this number, counted from 0 in the order of the text. The callback is of
/// the simplest kind that can run this script. Returns `None` if the plan has no such script, and `Err` if memory runs
/// out.
pub(crate) fn callback_of(
    alloc: Global,
    plan: &Plan,
    number: usize,
) -> Result<Option<CallbackKind>, AllocError>
    ensures { IfOk result (λ kind. option_map lent_by kind ≡ option_map never_ran
        (slice_get (scripts_of plan.now.patches) number)) }
{
    match plan.script(number) {
        Some(script) => Ok(Some(kind_of(alloc, script)?)),
        None => Ok(None),
    }
}
