//! Draws the parts of a lane: rectangles and words.

use klp_markup::Sheet;
use klp_markup::Value::{Markup, Number};

/// The height of a lane in points.
pub(crate) const LANE: u64 = 26;

/// The upper end of the highest bar in its lane, in points from the upper end of the lane.
pub(crate) const TOP: u64 = 3;

/// The height of the highest bar, in points.
pub(crate) const BAR: u64 = 20;

/// The width that is left free to the right of all lanes, in points.
pub(crate) const MARGIN: u64 = 44;

/// The width of the widest letter, in points.
pub(crate) const LETTER: u64 = 8;

/// A rectangle: its left end, its upper end, its width and its height.
#[derive(Clone, Copy)]
pub(crate) struct Area {
    pub x: u64,
    pub y: u64,
    pub width: u64,
    pub height: u64,
}

impl Area {
    /// Returns the rectangle inside of this one that leaves free this many points on each side.
    pub(crate) fn inside(self, margin: u64) -> Area {
        Area {
            x: self.x.saturating_add(margin),
            y: self.y.saturating_add(margin),
            width: self.width.saturating_sub(margin).saturating_sub(margin),
            height: self.height.saturating_sub(margin).saturating_sub(margin),
        }
    }
}

/// Returns for how many digits a number needs room. That is how many it has, but 7 for each number of six or more
/// digits.
pub(crate) fn digits(number: u64) -> usize {
    match number {
        0..=9 => 1,
        10..=99 => 2,
        100..=999 => 3,
        1_000..=9_999 => 4,
        10_000..=99_999 => 5,
        _ => 7,
    }
}

/// Returns for how many points a number needs room.
pub(crate) fn number_width(number: u64) -> u64 {
    (digits(number) as u64).saturating_mul(LETTER)
}

/// Adds a rectangle with this CSS class.
pub(crate) fn add_rect(sheet: &mut Sheet, class: &'static str, area: Area) {
    sheet.fill(
        "<rect class={} x=\"{}\" y=\"{}\" width=\"{}\" height=\"{}\"/>",
        &[
            Markup(class),
            Number(area.x),
            Number(area.y),
            Number(area.width),
            Number(area.height),
        ],
    );
}

/// Begins a text at this place, with this CSS class. `y` is the lower end of its letters. The caller adds the words and
/// `</text>`.
pub(crate) fn add_text_start(sheet: &mut Sheet, class: &'static str, x: u64, y: u64) {
    sheet.fill(
        "<text class={} x=\"{}\" y=\"{}\">",
        &[Markup(class), Number(x), Number(y)],
    );
}
