//! What happens to a transition at a line.

use klp_timeline::{Fact, Moment, View};

/// What happens to a transition. A mark shows this.
#[derive(Clone, Copy, PartialEq, Eq)]
pub(crate) enum Sign {
    Starts,
    Turns,
    Forced,
    Ends,
    /// A rewind undid events and changed the transition.
    Back,
}

/// Returns what a line did to the transition. `before` is the state before the line. Returns `None` if the line left
/// the transition as it was.
pub(crate) fn sign_of(before: &View, moment: &Moment) -> Option<Sign> {
    let after = &moment.view;
    match (moment.act, before.moving, after.moving) {
        (Some(Fact::Forces(_)), _, _) => Some(Sign::Forced),
        (_, own, other) if own == other => None,
        (Some(Fact::Undoes(_, _)), _, _) => Some(Sign::Back),
        (_, None, _) => Some(Sign::Starts),
        (_, _, None) => Some(Sign::Ends),
        _ => Some(Sign::Turns),
    }
}

/// Returns the sign that is drawn above a mark.
pub(crate) fn sign_text(sign: Sign) -> &'static str {
    match sign {
        Sign::Starts => "\u{25b6}",
        Sign::Turns => "\u{21ba}",
        Sign::Forced => "!",
        Sign::Ends => "\u{25a0}",
        Sign::Back => "\u{21b6}",
    }
}
