ghost use Rattle.std.specs.Prelude.{◌≡◌, length};
ghost use Rattle.klp_types.specs.Callbacks as callbacks;

use klp_catalog_text::PlanFunctions;
use klp_types::{CALLBACK_KINDS, ObjId, Which};
use smallvec::SmallVec;
use std::alloc::Global;
use std::default::MadeWith;
use std::marker::Model;
use std::snapshot::Snapshot;

/// The kinds of an object's callbacks. A plan has at most one callback of each kind for an object, so this list takes
/// no memory.
pub(crate) type Kinds = SmallVec<Which, CALLBACK_KINDS>;

/// How many objects most patches change, at most.
const USUAL_TARGETS: usize = 2;

/// The objects that a patch changes. The list takes memory only if the patch changes more than `USUAL_TARGETS` objects.
pub(crate) type Targets = SmallVec<CatalogTarget, USUAL_TARGETS>;

/// An object that a patch changes. The catalog has the callbacks of the object, and the target has their numbers and
/// kinds.
#[derive(Drop)]
pub struct CatalogTarget {
    pub(crate) object: ObjId,
    /// The functions as in the plan. Only contracts use them. At run time the patch's resolved functions are used.
    pub(crate) functions: Snapshot<PlanFunctions>,
    /// How many functions the patch has for the object. All functions of a patch are in one list, in the order of the
    /// patch's objects.
    pub(crate) count: usize,
    /// The number of the object's first callback, among all callbacks of the catalog. The callbacks and their counts
    /// are one list in the order of the text. So the index of each callback in this list follows from `first` and
    /// `kinds` (docs/DECISIONS.md, "Counts of callbacks").
    pub(crate) first: usize,
    /// The kinds of the object's callbacks, in the order of their numbers.
    pub(crate) kinds: Kinds,
}

impl Model for CatalogTarget {
    ghost use Rattle.std.specs.Prelude.{◌≡◌, ◌+◌, ◌<◌, ◌^◌, length};
    ghost use Rattle.klp_catalog.specs.Stored.{StoredTarget};

    ghost Value = { StoredTarget };

    ghost view = { λ t. record {
      object = t.object;
      functions = t.functions.value.items;
      first = t.first;
      kinds = t.kinds.items;
    } };

    ghost invariant = { λ t. (t.first + length t.kinds.items < 2 ^ 64) × (t.count ≡ length t.functions.value.items) };
}

/// Makes a target without functions and callbacks. The unused elements of a patch's list have this value, and are never
/// read.
impl MadeWith<Global> for CatalogTarget {
    fn made_with(alloc: Global) -> CatalogTarget {
        CatalogTarget {
            object: ObjId::default(),
            functions: Snapshot::of(&PlanFunctions::new(alloc)),
            count: 0,
            first: 0,
            kinds: Kinds::new(alloc),
        }
    }
}

impl CatalogTarget {
    pub fn object(&self) -> ObjId
        ensures { result ≡ self.now.object }
    {
        self.object
    }

    /// Returns how many functions the patch has for this object.
    pub fn functions(&self) -> usize
        ensures { result ≡ length self.now.functions }
    {
        self.count
    }
}

pub(crate) fn is_kind(own: Which, which: Which) -> bool
    ensures { result ≡ callbacks.is_kind own which }
{
    own == which
}
