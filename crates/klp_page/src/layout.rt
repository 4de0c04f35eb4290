//! The parts of a page that are layout: the drawing, and what an open row shows.

use klp_cards::{Chronicle, RowParts};
use klp_catalog_text::Plan;
use klp_console::LineOutcome;
use klp_core::Manager;
use klp_drawing::{Bars, add_drawing};
use klp_markup::Sheet;
use klp_names::Names;
use klp_timeline::{Fact, Moment, Sentence, View};
use std::alloc::{AllocError, Global};

/// The cards of a row, and whether the row is open at first.
#[derive(Drop)]
pub struct Cards {
    pub sheet: Sheet,
    pub is_open: bool,
}

/// The state of the drawing and of the cards while a run is served line by line. Neither has a contract.
#[derive(Drop)]
pub struct Layout<'a> {
    names: &'a Names,
    chronicle: Chronicle<'a>,
    bars: Bars,
    lines: u64,
    /// Whether lines have no cards and aren't drawn.
    is_bare: bool,
}

/// Whether a row shows its cards at first: the line changed a patch or the transition, ran a callback, or had an effect
/// that views don't show.
fn is_open_at_first(parts: &RowParts, act: &Option<Fact>) -> bool {
    parts.patches || parts.callbacks || act.is_some()
}

impl<'a> Layout<'a> {
    /// Returns the layout of a run before its first line. Allocates no memory.
    pub fn new(alloc: Global, names: &'a Names) -> Layout<'a> {
        Layout {
            names,
            chronicle: Chronicle::new(alloc, names),
            bars: Bars::new(alloc),
            lines: 0,
            is_bare: false,
        }
    }

    /// Returns a layout that makes no cards and draws nothing, for who needs the sentences of a run and no page.
    pub fn bare(alloc: Global, names: &'a Names) -> Layout<'a> {
        Layout {
            is_bare: true,
            ..Layout::new(alloc, names)
        }
    }

    /// Begins to watch the shadow variables that the scripts of a plan's callbacks change. Call this before a manager
    /// is booted over the plan. `Err` if memory runs out.
    pub fn watch(&mut self, plan: &Plan) -> Result<(), AllocError> {
        self.chronicle.watch(plan)
    }

    /// Makes room for each patch, task and site of a manager that was just booted. `Err` if memory runs out.
    pub fn open(&mut self, manager: &Manager) -> Result<(), AllocError> {
        self.chronicle.open(manager)?;
        self.bars.open()
    }

    /// Adds a line to the drawing, and returns the line's cards. Call this for each line, in order, since it counts the
    /// lines. `before` is the view before the line, and `moment` has the view after it. If the line neither did nor
    /// undid an event, there are no cards. `Err` if memory runs out.
    pub fn see(
        &mut self,
        alloc: Global,
        manager: &Manager,
        outcome: &LineOutcome,
        before: &View,
        moment: &Moment,
    ) -> Result<Cards, AllocError> {
        self.lines = self.lines.saturating_add(1);
        let did_something = matches!(
            outcome,
            LineOutcome::Answered(_, Ok(_)) | LineOutcome::Rewound(_)
        );
        if self.is_bare || !did_something {
            return Ok(Cards {
                sheet: Sheet::new(alloc),
                is_open: false,
            });
        }
        self.bars.see(self.lines, before, moment, manager);
        let parts = self
            .chronicle
            .describe(alloc, manager, outcome, before, moment)?;
        let is_open = is_open_at_first(&parts, &moment.act);
        Ok(Cards {
            sheet: parts.cards,
            is_open,
        })
    }

    /// Adds to the drawing that the kernel differs from the rules at the line that was seen last.
    pub fn differ(&mut self) {
        if !self.is_bare {
            self.bars.differ(self.lines);
        }
    }

    /// Returns the drawing of the lines that were seen. `sentences` are all sentences of the run. Call this once, after
    /// the run's last line. `Err` if memory runs out.
    pub(crate) fn draw(
        &mut self,
        alloc: Global,
        manager: &Manager,
        sentences: &[Sentence],
    ) -> Result<Sheet, AllocError> {
        self.bars.close(self.lines, self.names)?;
        let mut sheet = Sheet::new(alloc);
        add_drawing(
            alloc, &mut sheet, self.names, manager, &self.bars, sentences,
        )?;
        Ok(sheet)
    }
}
