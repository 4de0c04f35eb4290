//! The kinds of record that events log most, in a small form. Undo reads this form at a low cost.
ghost use Rattle.std.specs.Prelude.{◌≡◌, ℕ, List, ◌++◌, length, IfSome};
ghost use Rattle.klp_journal.specs.declared.kinds.TheConstants.{KIND_TASK, KIND_ENTRY, KIND_HOOK};
ghost use Rattle.klp_journal.specs.Words.{words_of, IsRecord};
ghost use Rattle.klp_journal.specs.Decoded.{record_of};
ghost use Rattle.klp_journal.specs.Stored.{EndWithRecord, AreOfKind};
ghost use Rattle.klp_journal.specs.Small.{row_of};

use crate::kinds::{KIND_ENTRY, KIND_HOOK, KIND_TASK, TAG_OF_A_WORD};
use crate::read_words::{func_of, mode_of, state_of};
use klp_types::{Mode, PatchId, PatchState, Place, Site, TaskId};

/// A record of one of the kinds that events log most, in a small form. A [`Record`](klp_types::Record) has room for a
/// whole task, and passing a `Record` on costs more than putting an entry back.
#[derive(Clone, Copy)]
pub enum SmallRecord {
    /// The entry of a patch on the function stack of a site. `None` if the patch had no entry there.
    Entry {
        site: Site,
        patch: PatchId,
        was: Option<Place>,
    },
    /// Whether a site was hooked.
    Hook {
        site: Site,
        was: bool,
    },
    /// A task that existed and was inside of nothing.
    Resting {
        task: TaskId,
        state: PatchState,
        mode: Mode,
    },
}

/// The tag of a task that is inside of nothing. The task's record has two words before the tag. This tag and the three
/// that follow are each made of the record's kind and its number of words.
const RESTING: u64 = KIND_TASK + TAG_OF_A_WORD * 2;

/// The tag of the record of an entry that didn't exist.
const NO_ENTRY: u64 = KIND_ENTRY + TAG_OF_A_WORD * 2;

/// The tag of the record of an entry that existed. The record has the entry's place.
const ENTRY: u64 = KIND_ENTRY + TAG_OF_A_WORD * 4;

/// The tag of the record of a site's hook.
const HOOK: u64 = KIND_HOOK + TAG_OF_A_WORD * 2;

/// Returns the record at the end of these words, and how many words the record has, including its tag. Returns `None`
/// if the record isn't of a small kind. The words must end with a record, so only the tag is checked.
#[inline(always)]
pub(crate) fn small(words: &[u64]) -> Option<(SmallRecord, usize)>
    requires { EndWithRecord words.now }
    ensures { IfSome result (λ found. (older : List ℕ) × ((words.now ≡ older ++ words_of (row_of found.0))
        × (found.1 ≡ length (words_of (row_of found.0))) × IsRecord (row_of found.0))) }
{
    let last = words.len() - 1;
    let record = match words[last] {
        HOOK => hook(&words[last - 2..last]),
        RESTING => resting(&words[last - 2..last]),
        NO_ENTRY => no_entry(&words[last - 2..last]),
        ENTRY => return Some((entry(&words[last - 4..last]), 5)),
        _ => return None,
    };
    Some((record, 3))
}

/// Reads a record of a site's hook from the words before its tag.
#[inline(always)]
fn hook(body: &[u64]) -> SmallRecord
    requires { AreOfKind KIND_HOOK body.now }
    ensures { row_of result ≡ record_of KIND_HOOK body.now }
{
    SmallRecord::Hook {
        site: Site(body[0] as u16),
        was: body[1] == 1,
    }
}

/// Reads a record of a task inside of nothing from the words before its tag.
#[inline(always)]
fn resting(body: &[u64]) -> SmallRecord
    requires kind { AreOfKind KIND_TASK body.now }
    requires count { length body.now ≡ 2 }
    ensures { row_of result ≡ record_of KIND_TASK body.now }
{
    SmallRecord::Resting {
        task: TaskId(body[0] as u8),
        state: state_of(body[1] % 4),
        mode: mode_of(body[1] / 4),
    }
}

/// Reads a record of an entry that didn't exist from the words before its tag.
#[inline(always)]
fn no_entry(body: &[u64]) -> SmallRecord
    requires kind { AreOfKind KIND_ENTRY body.now }
    requires count { length body.now ≡ 2 }
    ensures { row_of result ≡ record_of KIND_ENTRY body.now }
{
    SmallRecord::Entry {
        site: Site(body[0] as u16),
        patch: PatchId(body[1] as u8),
        was: None,
    }
}

/// Reads a record of an entry that existed from the words before its tag.
#[inline(always)]
fn entry(body: &[u64]) -> SmallRecord
    requires kind { AreOfKind KIND_ENTRY body.now }
    requires count { length body.now ≡ 4 }
    ensures { row_of result ≡ record_of KIND_ENTRY body.now }
{
    SmallRecord::Entry {
        site: Site(body[0] as u16),
        patch: PatchId(body[1] as u8),
        was: Some(Place {
            index: body[2] as u8,
            func: func_of(body[3]),
        }),
    }
}
