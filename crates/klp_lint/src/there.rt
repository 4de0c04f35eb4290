//! The shadow variables that a manager has.

use crate::variables::Variables;
use klp_core::Manager;
use klp_types::{ShadowKey, ShadowValue};

/// The variables of a manager.
#[derive(Clone, Copy)]
pub(crate) struct There<'a>(pub(crate) &'a Manager);

impl Variables for There<'_> {
    ghost use Rattle.klp_types.specs.World.{variable};

    ghost values = { λ there. variable there.0.now.managed.state.world };

    fn get(&self, key: ShadowKey) -> Option<ShadowValue> {
        self.0.shadow_get(key)
    }

    fn next_parent(&self, id: u64, after: Option<u64>) -> Option<u64> {
        self.0.next_parent(id, after)
    }
}
