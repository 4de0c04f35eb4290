//! Finds places for words in a lane where no mark crosses them.

use crate::bars::Bars;
use crate::scale::CUT;
use std::alloc::{AllocError, Global};

/// The place of a mark or a cut. No word may cross this place.
#[derive(Clone, Copy, PartialEq, Eq, PartialOrd, Ord)]
pub(crate) struct Stop {
    pub from: u64,
    pub to: u64,
}

/// Returns the places of the cuts, and of these marks, from left to right. No word may cross them. `Err` if memory runs
/// out.
pub(crate) fn stops(alloc: Global, bars: &Bars, marks: &[u64]) -> Result<Vec<Stop>, AllocError> {
    let mut stops = Vec::new(alloc);
    for x in &bars.scale.cuts {
        stops.push(Stop {
            from: *x,
            to: x.saturating_add(CUT),
        })?;
    }
    for x in marks {
        stops.push(Stop {
            from: *x,
            to: x.saturating_add(1),
        })?;
    }
    stops.sort()?;
    Ok(stops)
}

/// Returns the width in points of this many letters and of a gap on each side.
pub(crate) fn width_of(letters: usize) -> u64 {
    // A letter is at most 7.5 points wide. The gaps are 8 points wide together.
    (letters as u64).saturating_mul(15).saturating_add(16) / 2
}

/// Returns the left end of the rightmost place between `from` and `to` that is `width` points wide and without a stop.
/// Returns `None` if there is no such place.
pub(crate) fn last_place(stops: &[Stop], from: u64, to: u64, width: u64) -> Option<u64> {
    // The place must end here, or further left.
    let mut end = to;
    for stop in stops.iter().rev() {
        if stop.from < end {
            if stop.to.max(from).saturating_add(width) <= end {
                return Some(end.saturating_sub(width));
            }
            end = stop.from;
        }
    }
    if from.saturating_add(width) <= end {
        Some(end.saturating_sub(width))
    } else {
        None
    }
}

/// Returns the left end of the leftmost place between `from` and `to` that is `width` points wide and without a stop.
/// Returns `None` if there is no such place.
pub(crate) fn first_place(stops: &[Stop], from: u64, to: u64, width: u64) -> Option<u64> {
    // The place must begin here, or further right.
    let mut place = from;
    for stop in stops {
        if stop.to > place {
            if place.saturating_add(width) <= stop.from.min(to) {
                return Some(place);
            }
            place = stop.to;
        }
    }
    if place.saturating_add(width) <= to {
        Some(place)
    } else {
        None
    }
}
