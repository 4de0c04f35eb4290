//! Turns times into places in the drawing.

use crate::scale::{COST, CUT, WIDTH};
use klp_names::Names;
use std::alloc::{AllocError, Global};

/// A stretch is cut if it is more than this many times as long as all shorter stretches together.
const LONG: u64 = 12;

/// If the shorter stretches together last less than this many microseconds, no stretch is cut.
const SECOND: u64 = 1_000_000;

/// A stretch of time in which nothing changes.
#[derive(Clone, Copy)]
struct Stretch {
    /// How long the stretch is, in microseconds. `drawn` is the length of the part that is drawn.
    length: u64,
    drawn: u64,
    /// The time at which the stretch ends, in microseconds since the first time.
    end: u64,
    /// The left end of the stretch in the drawing. `width` is the width of the stretch in the drawing.
    x: u64,
    width: u64,
}

impl Stretch {
    /// Whether the stretch is cut, so that only its first part is drawn.
    fn is_cut(&self) -> bool {
        self.drawn < self.length
    }

    /// Returns where a time within this stretch is drawn. Each time in the part that isn't drawn is at the cut.
    fn place_of(&self, time: u64) -> u64 {
        let begin = self.end.saturating_sub(self.length);
        let drawn = time.saturating_sub(begin).min(self.drawn);
        // `max` only avoids a division by 0 in a stretch without length.
        let x = drawn.saturating_mul(self.width) / self.drawn.max(1);
        self.x.saturating_add(x)
    }
}

/// The scale of a drawing by time. It has the stretches of the run in order, and the left end of each cut.
#[derive(Drop)]
pub(crate) struct Pace {
    stretches: Vec<Stretch>,
    pub cuts: Vec<u64>,
}

/// A search for the places of rising times. It has the stretches that aren't passed yet.
#[derive(Drop)]
pub(crate) struct Steps<'a> {
    rest: &'a [Stretch],
}

impl<'a> Steps<'a> {
    /// Returns where a time is drawn. Each call drops the stretches that ended before its time, so the times of
    /// successive calls must not fall. A time after the end of the last stretch is at its right end.
    pub(crate) fn place_of(&mut self, time: u64) -> u64 {
        while let [first, rest @ ..] = self.rest {
            if time < first.end || rest.is_empty() {
                return first.place_of(time);
            }
            self.rest = rest;
        }
        // There are no stretches. `pace_of` returns no such scale.
        0
    }
}

impl Pace {
    /// Begins a search for the places of rising times.
    pub(crate) fn steps(&self) -> Steps<'_> {
        Steps {
            rest: &self.stretches,
        }
    }

    /// Computes the place and the width of each stretch, and the place of each cut. The stretches share the width of a
    /// drawing in proportion to their drawn lengths. `Err` if memory runs out.
    fn place_stretches(&mut self) -> Result<(), AllocError> {
        let (mut all, mut cuts) = (0u64, 0u64);
        for stretch in &self.stretches {
            all = all.saturating_add(stretch.drawn);
            cuts = cuts.saturating_add(u64::from(stretch.is_cut()));
        }
        // Each cut narrows the stretches, but together they have at least half the width.
        let room = WIDTH
            .saturating_sub(cuts.saturating_mul(COST))
            .max(WIDTH / 2);
        let (mut drawn, mut cut) = (0u64, 0u64);
        for stretch in &mut self.stretches {
            let x = drawn.saturating_mul(room) / all.max(1);
            drawn = drawn.saturating_add(stretch.drawn);
            let end = drawn.saturating_mul(room) / all.max(1);
            stretch.x = x.saturating_add(cut);
            stretch.width = end.saturating_sub(x);
            if stretch.is_cut() {
                self.cuts.push(stretch.x.saturating_add(stretch.width))?;
                cut = cut.saturating_add(CUT);
            }
        }
        Ok(())
    }

    /// Cuts each stretch that is longer than `longest` microseconds: of it, only the first `longest / 2` microseconds
    /// are drawn.
    fn cut_long(&mut self, longest: u64) {
        for stretch in &mut self.stretches {
            if stretch.length > longest {
                stretch.drawn = longest / 2;
            }
        }
    }
}

/// Returns the length of the longest stretch that isn't cut, in microseconds. Returns `u64::MAX` if no stretch is cut.
/// The shortest stretch that is cut is longer than [`LONG`] times all shorter stretches together, which must last at
/// least [`SECOND`]. `Err` if memory runs out.
fn longest_of(alloc: Global, stretches: &[Stretch]) -> Result<u64, AllocError> {
    let mut lengths = Vec::new(alloc);
    for stretch in stretches {
        lengths.push(stretch.length)?;
    }
    lengths.sort()?;
    let (mut longest, mut shorter) = (0u64, 0u64);
    for length in &lengths {
        if shorter >= SECOND && *length > shorter.saturating_mul(LONG) {
            return Ok(longest);
        }
        longest = *length;
        shorter = shorter.saturating_add(*length);
    }
    Ok(u64::MAX)
}

/// Appends the stretch between two times, without its place in the drawing. Returns the time at which it ends. `Err` if
/// memory runs out.
fn add_stretch(stretches: &mut Vec<Stretch>, begin: u64, end: u64) -> Result<u64, AllocError> {
    let length = end.saturating_sub(begin);
    stretches.push(Stretch {
        length,
        drawn: length,
        end,
        x: 0,
        width: 0,
    })?;
    Ok(end)
}

/// Returns the stretches of a run with `lines` lines: one up to each line in `changed`, and one from the last such line
/// to the run's last line. If a line in `changed` has no time, the list ends before its stretch. If the run's last line
/// has no time, the last stretch is missing. `Err` if memory runs out.
fn stretches_of(
    alloc: Global,
    changed: &[u64],
    lines: u64,
    names: &Names,
) -> Result<Vec<Stretch>, AllocError> {
    let mut stretches = Vec::new(alloc);
    let mut begin = 0;
    for line in changed {
        let Some(time) = names.since_start(*line) else {
            return Ok(stretches);
        };
        begin = add_stretch(&mut stretches, begin, time)?;
    }
    if let Some(time) = names.since_start(lines) {
        add_stretch(&mut stretches, begin, time)?;
    }
    Ok(stretches)
}

/// Returns the scale by time of a run with `lines` lines. `changed` are the lines that change something, in order.
/// Returns `None` if a line in `changed` has no time, or if no time passes. `Err` if memory runs out.
pub(crate) fn pace_of(
    alloc: Global,
    changed: &[u64],
    lines: u64,
    names: &Names,
) -> Result<Option<Pace>, AllocError> {
    let stretches = stretches_of(alloc, changed, lines, names)?;
    if stretches.len() < changed.len() || stretches.iter().all(|stretch| stretch.length == 0) {
        return Ok(None);
    }
    let longest = longest_of(alloc, &stretches)?;
    let mut pace = Pace {
        stretches,
        cuts: Vec::new(alloc),
    };
    pace.cut_long(longest);
    pace.place_stretches()?;
    Ok(Some(pace))
}
