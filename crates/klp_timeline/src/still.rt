//! Lines about which there is nothing to say.
ghost use Rattle.std.specs.Prelude.{◌≡◌, ◌<◌};
ghost use Rattle.klp_timeline.specs.Still.{is_same_move, is_same_stay, are_same, are_equal, is_still};

use crate::moment::{Moment, Stay, View};
use crate::stays::{is_in_stay, is_same_transition_as};
use klp_types::{PatchId, Transition};

/// Whether both views show a transition with the same patch and target, or both show none.
fn is_same_move(before: &Option<Transition>, after: &Option<Transition>) -> bool
    ensures { result ≡ is_same_move before.now after.now }
{
    match (before, after) {
        (None, None) => true,
        (Some(moving), Some(other)) => is_same_transition_as(moving, other),
        _ => false,
    }
}

/// Whether a task is in the same stay before and after a line, or in no stay both times.
fn is_same_stay(before: &Option<Stay>, after: &Option<Stay>) -> bool
    ensures { result ≡ is_same_stay before.now after.now }
{
    match before {
        Some(stay) => is_in_stay(stay, after),
        None => after.is_none(),
    }
}

/// Whether each task is in the same stay before and after a line, or in no stay both times. Both lists are by task
/// number. False if they differ in length.
pub fn are_same(before: &[Option<Stay>], after: &[Option<Stay>]) -> bool
    ensures { result ≡ are_same before.now after.now }
{
    match before {
        [] => after.is_empty(),
        [stay, stays @ ..] => match after {
            [] => false,
            [other, others @ ..] => is_same_stay(stay, other) && are_same(stays, others),
        },
    }
}

/// Whether two lists have the same patches in the same order.
fn are_equal(before: &[PatchId], after: &[PatchId]) -> bool
    ensures { result ≡ are_equal before.now after.now }
{
    match before {
        [] => after.is_empty(),
        [patch, patches @ ..] => match after {
            [] => false,
            [other, others @ ..] => patch == other && are_equal(patches, others),
        },
    }
}

/// Whether there is nothing to say about a line. `before` is the view before the line. The line must have no effect
/// that views don't show, and both views must show the same transition, installed patches and stays. The tasks that lag
/// without blocking the transition aren't compared.
pub fn is_still(before: &View, moment: &Moment) -> bool
    ensures { result ≡ is_still before.now moment.now }
{
    let after = &moment.view;
    moment.act.is_none()
        && is_same_move(&before.moving, &after.moving)
        && are_equal(before.installed.as_slice(), after.installed.as_slice())
        && are_same(&before.stays, &after.stays)
}
