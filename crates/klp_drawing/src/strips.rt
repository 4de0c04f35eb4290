//! Turns the bars of a lane into strips, as they are drawn.

use crate::bars::Bar;
use crate::look::{Look, height_of};
use crate::scale::Scale;
use std::alloc::{AllocError, Global};

/// A bar, with the places in the drawing between which it lies.
#[derive(Clone, Copy)]
pub(crate) struct Strip {
    pub from: u64,
    pub to: u64,
    pub look: Look,
}

/// Builds the strips of a lane from left to right. No two strips overlap.
#[derive(Drop)]
struct Strips {
    /// The strips that won't change any more.
    finished: Vec<Strip>,
    /// The rightmost strip. The next one may shorten it.
    last: Option<Strip>,
}

impl Strips {
    /// Moves the rightmost strip to the finished strips. Drops it if nothing is left of it. `Err` if memory runs out.
    fn finish_last(&mut self) -> Result<(), AllocError> {
        match self.last.take() {
            Some(strip) if strip.from < strip.to => self.finished.push(strip)?,
            _ => {}
        }
        Ok(())
    }

    /// Adds a strip, which must begin no further left than the rightmost strip so far. Where the two overlap, only the
    /// higher is drawn, and of two strips of one height the earlier. If nothing is left of the new strip, drops it.
    /// `Err` if memory runs out.
    fn add(&mut self, mut strip: Strip) -> Result<(), AllocError> {
        let Some(mut last) = self.last else {
            self.last = Some(strip);
            return Ok(());
        };
        // The new strip is higher: it cuts the overlap off the earlier one.
        if strip.from < last.to && height_of(strip.look) > height_of(last.look) {
            last.to = strip.from.max(last.from);
        }
        // They still overlap, so the earlier strip keeps the overlap.
        if strip.from < last.to {
            strip.from = last.to;
        }
        if strip.to <= strip.from {
            return Ok(());
        }
        self.last = Some(last);
        self.finish_last()?;
        self.last = Some(strip);
        Ok(())
    }
}

/// Returns the strips for a lane's bars, which must be in the order of their lines. A bar that is narrower than one
/// point is widened to one, so strips can overlap: then only the higher is drawn, and of two strips of one height the
/// earlier. A strip of which nothing is left is dropped. `Err` if memory runs out.
pub(crate) fn strips_of(
    alloc: Global,
    bars: &[Bar],
    scale: &Scale,
) -> Result<Vec<Strip>, AllocError> {
    let mut builder = Strips {
        finished: Vec::new(alloc),
        last: None,
    };
    for bar in bars {
        let from = scale.left_of(bar.from);
        builder.add(Strip {
            from,
            to: scale.left_of(bar.to).max(from.saturating_add(1)),
            look: bar.look,
        })?;
    }
    builder.finish_last()?;
    let Strips { finished, last: _ } = builder;
    Ok(finished)
}
