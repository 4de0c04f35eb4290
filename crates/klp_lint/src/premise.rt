ghost use Rattle.std.specs.Prelude.{◌≡◌};
ghost use Rattle.klp_lint.specs.Premises.{premise_of};

use klp_types::ShadowKey;

/// Two callbacks of an object. The second callback has to undo the first.
#[derive(Clone, Copy, Debug, PartialEq, Eq)]
pub enum Pair {
    /// Post-unpatch undoes pre-patch.
    Pre,
    /// Pre-unpatch undoes post-patch.
    Post,
}

/// The variable that an object's callbacks leave changed. After the second callback of the pair, the variable has
/// another value than before the first callback.
#[derive(Clone, Copy, PartialEq, Eq)]
pub(crate) struct Left {
    pub(crate) pair: Pair,
    pub(crate) key: ShadowKey,
}

/// A premise of the round trip that doesn't hold for a patch (docs/ROUND_TRIP.md). An object is given by its index
/// among the patch's objects, from 0.
#[derive(Clone, Copy, PartialEq, Eq)]
pub enum Premise {
    /// A patch is in transition.
    Moving,
    /// The patch is installed.
    Installed,
    /// After the callbacks of this pair, the variable has another value than before them.
    NotUndone {
        place: usize,
        pair: Pair,
        key: ShadowKey,
    },
    /// The callbacks of both objects touch the variable.
    NotApart {
        first: usize,
        second: usize,
        key: ShadowKey,
    },
}

/// Returns the premise that fails for the object at this index if its callbacks leave `left` changed.
pub(crate) fn premise_of(place: usize, left: Left) -> Premise
    ensures { result ≡ premise_of place left }
{
    let Left { pair, key } = left;
    Premise::NotUndone { place, pair, key }
}
