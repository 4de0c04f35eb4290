//! The functions that tasks are inside of, by the calls of a trace.

use klp_catalog_text::Lines;
use klp_faulty_words::item::Item;
use std::alloc::{AllocError, Global};

/// The text in front of the object's name in a symbol's spelling.
const SPELLING: &[u8] = b".klp.sym.";

/// A call from which its task hasn't returned.
#[derive(Clone, Copy)]
struct Call<'a> {
    task: u64,
    symbol: &'a [u8],
}

/// All calls from which their tasks haven't returned, oldest first.
#[derive(Drop)]
pub(crate) struct Calls<'a> {
    open: Vec<Call<'a>>,
}

impl<'a> Call<'a> {
    /// Whether the called symbol belongs to this module, by the symbol's spelling.
    fn is_in(&self, module: &[u8]) -> bool {
        match self.symbol.strip_prefix(SPELLING) {
            Some(rest) => match rest.strip_prefix(module) {
                Some(symbol) => symbol.first() == Some(&b'.'),
                None => false,
            },
            None => false,
        }
    }
}

impl<'a> Calls<'a> {
    /// Follows one line of a trace: adds its call, or for a return removes the newest open call of its task. Does
    /// nothing for other lines. Returns `Err` if memory runs out.
    fn add(&mut self, item: Option<Item<'a>>) -> Result<(), AllocError> {
        match item {
            Some(Item::Call(task, symbol)) => self.open.push(Call { task, symbol })?,
            Some(Item::Return(task)) => {
                if let Some(place) = self.open.iter().rposition(|call| call.task == task) {
                    self.open.remove(place);
                }
            }
            _ => {}
        }
        Ok(())
    }

    /// Returns the calls that are open after the first `lines_before` lines of a trace. These lines must be honest
    /// items. If they weren't, a task might have ended without returning from its calls. Returns `Err` if memory runs
    /// out.
    pub(crate) fn behind(
        alloc: Global,
        trace: &'a [u8],
        lines_before: u64,
    ) -> Result<Calls<'a>, AllocError> {
        let mut calls = Calls {
            open: Vec::new(alloc),
        };
        let mut lines = Lines::new(trace);
        for _ in 0..lines_before {
            calls.add(Item::read(lines.next().unwrap_or(&[])))?;
        }
        Ok(calls)
    }

    /// Returns the symbol that the task called last and is still inside of. Returns `None` if the task is inside of no
    /// function.
    pub(crate) fn last_of(&self, task: u64) -> Option<&'a [u8]> {
        let call = self.open.iter().rfind(|call| call.task == task)?;
        Some(call.symbol)
    }

    /// Returns the lowest-numbered task that is inside of a module, and the module's symbol that the task called last.
    /// Returns `None` if no task is inside of the module.
    pub(crate) fn first_in(&self, module: &[u8]) -> Option<(u64, &'a [u8])> {
        let mut first: Option<Call<'a>> = None;
        for call in &self.open {
            // Of the calls of one task, the newest is taken.
            let is_first = match first {
                Some(other) => call.task <= other.task,
                None => true,
            };
            if call.is_in(module) && is_first {
                first = Some(*call);
            }
        }
        let call = first?;
        Some((call.task, call.symbol))
    }
}
