//! Which patches of a log are cumulative.
ghost use Rattle.std.specs.Prelude.{◌≡◌, IfSome};
ghost use Rattle.std.specs.List.{list_any};
ghost use Rattle.klp_capture_catalog.specs.Newer.{reads_replace, cumulative_by};

use crate::changed_functions::{FoundFunction, is_shared};
use crate::named::{files_in, moving_in, new_symbol_of};
use klp_capture::{Capture, PatchRow};

/// Whether this row has the file `replace` of a patch, and it reads so.
fn reads_replace(row: &PatchRow<'_>, patch: &[u8], wanted: bool) -> bool
    ensures { result ≡ reads_replace patch.now wanted row.now }
{
    match row {
        PatchRow::Patch { name, newer, .. } => *name == patch
            && newer.is_cumulative == Some(wanted),
        _ => false,
    }
}

/// Whether one of these rows has the file `replace` of a patch, and it reads so.
fn is_replace_read(rows: &[PatchRow<'_>], patch: &[u8], wanted: bool) -> bool
    ensures { result ≡ list_any (reads_replace patch.now wanted) rows.now }
{
    rows.iter().any(|row| reads_replace(row, patch, wanted))
}

/// Returns whether a patch is cumulative by its file `replace`. Returns `None` if no row has this file, or if rows
/// disagree: then the log has two patches of this name, one after the other.
pub(crate) fn is_read_cumulative(rows: &[PatchRow<'_>], patch: &[u8]) -> Option<bool>
    ensures { result ≡ cumulative_by rows.now patch.now }
{
    let is_read = is_replace_read(rows, patch, true);
    let is_denied = is_replace_read(rows, patch, false);
    if is_read == is_denied {
        None
    } else {
        Some(is_read)
    }
}

/// Whether older patches were gone when the transition of this patch completed. With `guesses`, it is enough that they
/// were gone in the first sample that shows the patch enabled. They may have been disabled before, too.
pub(crate) fn has_replaced(capture: &Capture<'_>, patch: &[u8], guesses: bool) -> bool {
    let mut last: Option<usize> = None;
    for (number, sample) in capture.samples.iter().enumerate() {
        let after = sample.patches.of(&capture.rows);
        if !sample.is_settled() {
            continue;
        }
        if let Some(sample) = last.and_then(|last| capture.samples.get(last)) {
            let before = sample.patches.of(&capture.rows);
            let was_moving = files_in(before, patch) == Some((true, true))
                || (guesses && files_in(before, patch) != Some((true, false)));
            let completes = was_moving && files_in(after, patch) == Some((true, false));
            if completes && has_lost_another(before, after, patch) {
                return true;
            }
        }
        last = Some(number);
    }
    false
}

fn has_lost_another(before: &[PatchRow<'_>], after: &[PatchRow<'_>], patch: &[u8]) -> bool {
    for row in before {
        if let PatchRow::Patch { name, .. } = row
            && *name != patch
            && files_in(before, name) == Some((true, false))
            && files_in(after, name).is_none()
        {
            return true;
        }
    }
    false
}

/// Whether a patch has new functions, but has none for a function in its list that another patch changes too. A
/// cumulative patch gives such a function back, and no other patch is like this. So the patch is known to be cumulative
/// before its transition completes.
fn gives_back(
    capture: &Capture<'_>,
    found: &[FoundFunction<'_>],
    patch: usize,
    name: &[u8],
) -> bool {
    let mut has_new = false;
    let mut has_nop = false;
    for function in found {
        if function.patch == patch {
            let is_new = new_symbol_of(&capture.symbols, name, function.name).is_some();
            has_new = has_new || is_new;
            has_nop = has_nop || (!is_new && is_shared(found, function));
        }
    }
    has_new && has_nop
}

/// Whether the samples show that a patch is cumulative.
fn is_shown_cumulative(
    capture: &Capture<'_>,
    found: &[FoundFunction<'_>],
    patch: usize,
    name: &[u8],
) -> bool {
    has_replaced(capture, name, false) || gives_back(capture, found, patch, name)
}

/// Whether a patch may be cumulative, though the samples don't show it: it is in transition in the last one, or older
/// patches went before it was first seen enabled.
fn may_be_cumulative(capture: &Capture<'_>, patch: &[u8]) -> bool {
    let last = capture.samples.last();
    let is_last_moving = last
        .and_then(|last| moving_in(last.patches.of(&capture.rows)))
        .is_some_and(|(name, _target)| name == patch);
    is_last_moving || has_replaced(capture, patch, true)
}

/// What decides whether a patch is cumulative where the log doesn't read so.
#[derive(Clone, Copy)]
pub(crate) struct Otherwise {
    /// Whether it is, by a catalog that has the patch.
    pub(crate) known: Option<bool>,
    /// Whether a guess decides where nothing else does.
    pub(crate) guesses: bool,
}

/// Whether a patch is cumulative: by its file `replace`, or by a catalog, or by the samples, or by a guess. If the log has
/// that file, it alone decides.
pub(crate) fn is_cumulative(
    capture: &Capture<'_>,
    found: &[FoundFunction<'_>],
    patch: usize,
    name: &[u8],
    otherwise: Otherwise,
) -> bool
    ensures { IfSome (cumulative_by capture.now.rows.items name.now) (λ read. result ≡ read) }
{
    match is_read_cumulative(&capture.rows, name) {
        Some(read) => read,
        None => is_cumulative_by(capture, found, patch, name, otherwise),
    }
}

/// Whether a patch is cumulative, by what is known or guessed, or by the samples.
fn is_cumulative_by(
    capture: &Capture<'_>,
    found: &[FoundFunction<'_>],
    patch: usize,
    name: &[u8],
    otherwise: Otherwise,
) -> bool {
    match otherwise.known {
        Some(known) => known,
        None => is_shown_cumulative(capture, found, patch, name)
            || (otherwise.guesses && may_be_cumulative(capture, name)),
    }
}
