//! The shadow variables with which callbacks are judged: those of a manager, or no variables at all.
ghost use Rattle.std.specs.Prelude.{◌≡◌};
ghost use Rattle.klp_world.specs.Parents.{lowest_above};
ghost use Rattle.klp_lint.specs.Undone.{IsNextOf};

use klp_types::{ShadowKey, ShadowValue};

/// The shadow variables that exist.
pub(crate) trait Variables {
    ghost use Rattle.std.specs.Prelude.{Option};
    ghost use Rattle.klp_types.specs.declared.shadow.ShadowKey.{ShadowKey as AnyKey};
    ghost use Rattle.klp_types.specs.World.{ShadowValue as AnyValue};

    /// The value of each variable. `None` if the variable doesn't exist.
    ghost values: { Self → AnyKey → Option AnyValue };

    fn get(&self, key: ShadowKey) -> Option<ShadowValue>
        ensures { result ≡ values self.now key };

    /// Returns the lowest parent object that is above `after` and has a variable of the id. If `after` is `None`,
    /// returns the lowest parent object that has one. Returns `None` if there is no such parent object.
    fn next_parent(&self, id: u64, after: Option<u64>) -> Option<u64>
        ensures { IsNextOf (values self.now) id (lowest_above after) result };
}

/// No variables at all, as in a world without any variable that the callbacks touch.
#[derive(Clone, Copy)]
pub(crate) struct Nowhere;

impl Variables for Nowhere {
    ghost use Rattle.std.specs.Prelude.{None};

    ghost values = { λ _ _. None };

    fn get(&self, _key: ShadowKey) -> Option<ShadowValue> {
        None
    }

    fn next_parent(&self, _id: u64, _after: Option<u64>) -> Option<u64> {
        None
    }
}
