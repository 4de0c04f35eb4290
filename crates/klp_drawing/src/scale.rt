//! Turns the lines of a run into places in the drawing.

use crate::pace::{Pace, pace_of};
use klp_names::Names;
use std::alloc::{AllocError, Global};

/// A stretch of at most this many lines in which nothing changes is never cut.
const FEWEST_IDLE: u64 = 12;

/// How many lines of a cut stretch are drawn: its first ones, left of the cut.
const KEPT: u64 = 4;

/// The width of a cut in points.
pub(crate) const CUT: u64 = 12;

/// How many points each cut takes from the width of all lines together when drawings with different cuts are compared,
/// and in a drawing to scale by time. A cut is narrower than this, so it must be worth more than its own width.
pub(crate) const COST: u64 = 40;

/// The width in points that shows the state after the run's last line, in a drawing to scale by time. Otherwise each
/// line has a width itself.
const TAIL: u64 = 30;

/// The largest width of one line, in points.
const LINE: u64 = 40;

/// The largest width of all lines together, in points. It is that of a sheet of paper at a readable size.
pub(crate) const WIDTH: u64 = 780;

/// The left end of the first line, in points.
const LEFT: u64 = 6;

/// The places of lines in the drawing. In a drawing to scale by time, each line is at its time. Otherwise all lines
/// have the same width. A long stretch in which nothing changes is cut.
#[derive(Drop)]
pub(crate) struct Scale {
    /// The left end of each line. The list begins with the left end of line 0.
    places: Vec<u64>,
    /// The left end of each cut.
    pub cuts: Vec<u64>,
    /// The right end of the run's last line.
    end: u64,
    /// A stretch with more lines than this is cut.
    max_idle: u64,
    /// How many lines are drawn. `width` is the width of all these lines together.
    drawn: u64,
    width: u64,
    /// Whether the drawing is to scale by time.
    is_timed: bool,
}

/// Returns how many lines of a stretch of `lines` lines are drawn: all, or the first [`KEPT`] if `lines` is more than
/// `max_idle`, so that the stretch is cut.
fn drawn_lines(lines: u64, max_idle: u64) -> u64 {
    if lines > max_idle { KEPT } else { lines }
}

/// How many lines of a run are drawn, and how many stretches are cut.
#[derive(Clone, Copy)]
struct Extent {
    drawn: u64,
    cuts: u64,
}

impl Extent {
    /// Returns the extent together with one more stretch, which has `lines` lines. The stretch is cut if `lines` is
    /// more than `max_idle`.
    fn with_stretch(self, lines: u64, max_idle: u64) -> Extent {
        let is_cut = lines > max_idle;
        Extent {
            drawn: self.drawn.saturating_add(drawn_lines(lines, max_idle)),
            cuts: self.cuts.saturating_add(u64::from(is_cut)),
        }
    }

    /// Returns the width in points of all drawn lines together, without the cuts. A cut leaves `cost` points less for
    /// the lines.
    fn width(self, cost: u64) -> u64 {
        let room = WIDTH.saturating_sub(self.cuts.saturating_mul(cost));
        self.drawn.saturating_mul(LINE).min(room)
    }

    /// Returns how wide one line would be, in millionths of a point, if each cut had the width [`COST`]. Used to
    /// compare extents.
    fn line_width(self) -> u64 {
        // `max` only avoids a division by 0 if no line is drawn.
        self.width(COST).saturating_mul(1_000_000) / self.drawn.max(1)
    }
}

/// Returns the extent of a run with `lines` lines. `changed` are the lines that change something, in order: with each
/// of them a stretch begins. A stretch of more than `max_idle` lines is cut.
fn extent_of(changed: &[u64], lines: u64, max_idle: u64) -> Extent {
    let mut extent = Extent { drawn: 0, cuts: 0 };
    let mut from = 1;
    for line in changed {
        extent = extent.with_stretch(line.saturating_sub(from), max_idle);
        from = *line;
    }
    extent.with_stretch(lines.saturating_add(1).saturating_sub(from), max_idle)
}

/// Returns the number of lines above which a stretch is cut, chosen so that lines become as wide as possible. Tries
/// [`FEWEST_IDLE`], its double, and so on. If no cuts make lines wider, returns a number for which nothing is cut.
fn max_idle_of(changed: &[u64], lines: u64) -> u64 {
    let mut max_idle = lines.max(FEWEST_IDLE);
    let mut widest = extent_of(changed, lines, max_idle).line_width();
    let mut idle = FEWEST_IDLE;
    // 64 doublings reach any number of lines.
    for _doubling in 0..64 {
        if idle >= lines {
            return max_idle;
        }
        let width = extent_of(changed, lines, idle).line_width();
        if width > widest {
            (max_idle, widest) = (idle, width);
        }
        idle = idle.saturating_mul(2);
    }
    max_idle
}

impl Scale {
    /// Returns a scale without lines. Allocates nothing.
    pub(crate) fn new(alloc: Global) -> Scale {
        Scale {
            places: Vec::new(alloc),
            cuts: Vec::new(alloc),
            end: LEFT,
            max_idle: FEWEST_IDLE,
            drawn: 0,
            width: 0,
            is_timed: false,
        }
    }

    /// Computes the places of a run's `lines` lines. `changed` are the lines that change something, in order. If each
    /// of them has a time, and time passes, the drawing is to scale by time. `Err` if memory runs out.
    pub(crate) fn measure(
        &mut self,
        changed: &[u64],
        lines: u64,
        names: &Names,
    ) -> Result<(), AllocError> {
        let alloc = *self.places.allocator();
        match pace_of(alloc, changed, lines, names)? {
            Some(pace) => self.place_by_time(&pace, lines, names),
            None => self.place_by_lines(changed, lines),
        }
    }

    /// Puts each line at its time. A line without a time gets the place of the previous line. `Err` if memory runs out.
    fn place_by_time(&mut self, pace: &Pace, lines: u64, names: &Names) -> Result<(), AllocError> {
        self.is_timed = true;
        let mut steps = pace.steps();
        let mut x = LEFT;
        // The place of line 0.
        self.places.push(LEFT)?;
        for line in 1..lines.saturating_add(1) {
            if let Some(time) = names.since_start(line) {
                x = LEFT.saturating_add(steps.place_of(time));
            }
            self.places.push(x)?;
        }
        for cut in &pace.cuts {
            self.cuts.push(LEFT.saturating_add(*cut))?;
        }
        self.end = x.saturating_add(TAIL);
        Ok(())
    }

    /// Chooses which stretches are cut and how wide a line is, and puts the lines side by side, all with this width.
    /// `Err` if memory runs out.
    fn place_by_lines(&mut self, changed: &[u64], lines: u64) -> Result<(), AllocError> {
        self.max_idle = max_idle_of(changed, lines);
        let extent = extent_of(changed, lines, self.max_idle);
        self.drawn = extent.drawn;
        self.width = extent.width(CUT);
        self.place_all(changed, lines)
    }

    /// Puts the lines side by side. `max_idle`, `drawn` and `width` must be known already. `Err` if memory runs out.
    fn place_all(&mut self, changed: &[u64], lines: u64) -> Result<(), AllocError> {
        let (mut from, mut drawn) = (1, 0);
        // The place of line 0.
        self.places.push(LEFT)?;
        for line in changed {
            drawn = self.place_stretch(line.saturating_sub(from), drawn)?;
            from = *line;
        }
        let last = lines.saturating_add(1).saturating_sub(from);
        drawn = self.place_stretch(last, drawn)?;
        self.end = self.x_after(drawn);
        Ok(())
    }

    /// Gives the lines of the next stretch, `lines` lines, their places to the right of `before` drawn lines. If the
    /// stretch is cut, only its first [`KEPT`] lines are drawn, and the others are put where the cut begins. Returns
    /// how many lines are drawn so far. `Err` if memory runs out.
    fn place_stretch(&mut self, lines: u64, before: u64) -> Result<u64, AllocError> {
        let drawn = drawn_lines(lines, self.max_idle);
        for number in 0..lines {
            let x = self.x_after(before.saturating_add(number.min(drawn)));
            self.places.push(x)?;
        }
        let drawn_so_far = before.saturating_add(drawn);
        if drawn < lines {
            let x = self.x_after(drawn_so_far);
            self.cuts.push(x)?;
        }
        Ok(drawn_so_far)
    }

    /// Returns the place to the right of the first `drawn` drawn lines and of all cuts so far, in points.
    fn x_after(&self, drawn: u64) -> u64 {
        let cuts = (self.cuts.len() as u64).saturating_mul(CUT);
        // `max` only avoids a division by 0 if no line is drawn.
        let lines = drawn.saturating_mul(self.width) / self.drawn.max(1);
        LEFT.saturating_add(cuts).saturating_add(lines)
    }

    /// Returns the left end of a line. Returns the right end of the run if the run has fewer lines.
    pub(crate) fn left_of(&self, line: u64) -> u64 {
        match self.places.get(line as usize) {
            Some(place) => *place,
            None => self.end,
        }
    }

    /// Returns the right end of the run's last line.
    pub(crate) fn end(&self) -> u64 {
        self.end
    }

    /// Whether lines are narrower than a point, so that one point shows several lines. False if the drawing is to scale
    /// by time.
    pub(crate) fn is_coarse(&self) -> bool {
        self.drawn > self.width
    }

    /// Whether the drawing is to scale by time.
    pub(crate) fn is_timed(&self) -> bool {
        self.is_timed
    }
}
