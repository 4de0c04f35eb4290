//! The kinds of record, and the tag at the end of a record's words.
ghost use Rattle.std.specs.Prelude.{◌≡◌, ◌+◌, ◌*◌, ◌<◌, ◌≤◌};

/// A task, and whether it existed.
pub const KIND_TASK: u64 = 1;

/// A shadow variable, and whether it existed.
pub const KIND_VARIABLE: u64 = 2;

/// The value of a system state.
pub const KIND_STATE_VALUE: u64 = 3;

/// A system state of a patch, and whether it existed.
pub const KIND_STATE: u64 = 4;

/// Whether an object was loaded.
pub const KIND_LOADED: u64 = 5;

/// A patch, and whether it was installed.
pub const KIND_INSTALLED: u64 = 6;

/// An entry of a function stack, and whether it existed.
pub const KIND_ENTRY: u64 = 7;

/// Whether a site was hooked.
pub const KIND_HOOK: u64 = 8;

/// The transition, and whether there was one.
pub const KIND_TRANSITION: u64 = 9;

/// Whether a patch was pinned.
pub const KIND_PINNED: u64 = 10;

/// How much each word before the tag adds to the tag. A tag is the record's kind plus this number for each word before
/// the tag. All kinds are below this number.
pub const TAG_OF_A_WORD: u64 = 256;

/// Returns the tag of a record of this kind with `count` words before the tag.
#[inline(always)]
pub(crate) fn tag(kind: u64, count: u64) -> u64
    requires kind { kind < 256 }
    requires count { count ≤ 64 }
    ensures { result ≡ kind + 256 * count }
{
    kind + TAG_OF_A_WORD * count
}
