//! The axis along the drawing: the numbers of lines, or their times.

use crate::bars::Bars;
use crate::pen::{LETTER, add_text_start, number_width};
use crate::scale::Scale;
use klp_markup::Sheet;
use klp_markup::Value::Number;
use klp_names::Names;
use klp_timeline::{Said, Sentence};
use std::alloc::{AllocError, Global};

/// The lines that have their number, or their time, on the axis.
///
/// The axis doesn't have room for the number of each line. So lines are offered in a fixed order, and a line gets no
/// number if another number is in the way. A reader looks for the line of a sentence, and most of all for the end of
/// the run. So the lines where a sentence begins or ends are offered first, from the last sentence back to the first.
/// After these lines, the lines in which something changes are offered, from left to right.
#[derive(Drop)]
pub(crate) struct Axis<'a> {
    names: &'a Names,
    /// For each place, whether it is covered by a number or by the gap after a number.
    taken: Vec<bool>,
    lines: Vec<u64>,
}

impl<'a> Axis<'a> {
    /// Returns an axis without numbers, as wide as the drawing. `Err` if memory runs out.
    fn new(alloc: Global, names: &'a Names, scale: &Scale) -> Result<Axis<'a>, AllocError> {
        let mut taken = Vec::new(alloc);
        // A number may extend up to 64 points beyond the right end of the run.
        taken.resize(scale.end().saturating_add(64) as usize, false)?;
        Ok(Axis {
            names,
            taken,
            lines: Vec::new(alloc),
        })
    }

    /// Returns the width in points of what stands on the axis for a line: the seconds since the first known time if the
    /// drawing is to scale by time and the line has a time, otherwise the number of the line.
    fn width_at(&self, scale: &Scale, line: u64) -> u64 {
        match self.names.since_start(line) {
            // A point and the tenths follow the seconds.
            Some(time) if scale.is_timed() => {
                number_width(time / 1_000_000).saturating_add(2 * LETTER)
            }
            _ => number_width(line),
        }
    }

    /// Puts a line on the axis, unless another number is in the way or there is no room up to the right end. `Err` if
    /// memory runs out.
    fn offer(&mut self, scale: &Scale, line: u64) -> Result<(), AllocError> {
        let from = scale.left_of(line) as usize;
        let width = self.width_at(scale, line).saturating_add(LETTER);
        let to = from.saturating_add(width as usize);
        if to > self.taken.len() || self.taken[from..to].contains(&true) {
            return Ok(());
        }
        self.taken[from..to].fill(true);
        self.lines.push(line)?;
        Ok(())
    }

    /// Offers the first and the last line of a sentence. In a drawing to scale by time, a stay ends at the time of the
    /// line after its last line, so this line is offered instead. `Err` if memory runs out.
    fn offer_sentence(&mut self, scale: &Scale, sentence: &Sentence) -> Result<(), AllocError> {
        self.offer(scale, sentence.line)?;
        match &sentence.said {
            Said::Slept(sleepers) => match sleepers.to {
                Some(last) if scale.is_timed() => self.offer(scale, last.saturating_add(1)),
                Some(last) => self.offer(scale, last),
                None => Ok(()),
            },
            Said::Did(_) => Ok(()),
        }
    }

    /// Adds what stands on the axis for a line: the seconds since the first known time if the drawing is to scale by
    /// time and the line has a time, otherwise the number of the line.
    fn add_number_or_time(&self, sheet: &mut Sheet, scale: &Scale, line: u64) {
        match self.names.since_start(line) {
            Some(time) if scale.is_timed() => add_plain_seconds(sheet, time),
            _ => sheet.number(line),
        }
    }

    /// Adds all numbers of the axis. `y` is the lower end of their digits, in points.
    pub(crate) fn add_numbers(&self, sheet: &mut Sheet, scale: &Scale, y: u64) {
        for line in &self.lines {
            add_text_start(sheet, "soft", scale.left_of(*line), y);
            self.add_number_or_time(sheet, scale, *line);
            sheet.markup("</text>");
        }
    }
}

/// Adds a time in microseconds, written as seconds with one decimal, rounded down: `15.1`.
fn add_plain_seconds(sheet: &mut Sheet, time: u64) {
    let (seconds, tenths) = (time / 1_000_000, time / 100_000 % 10);
    sheet.fill("{}.{}", &[Number(seconds), Number(tenths)]);
}

/// Returns the axis of a run with these bars and sentences. [`Axis`] says which lines it has. `Err` if memory runs out.
pub(crate) fn axis_of<'a>(
    alloc: Global,
    names: &'a Names,
    bars: &Bars,
    sentences: &[Sentence],
) -> Result<Axis<'a>, AllocError> {
    let mut axis = Axis::new(alloc, names, &bars.scale)?;
    for sentence in sentences.iter().rev() {
        axis.offer_sentence(&bars.scale, sentence)?;
    }
    for line in bars.changed() {
        axis.offer(&bars.scale, *line)?;
    }
    axis.lines.sort()?;
    Ok(axis)
}
