//! The sentences that the page of a trace has, for who doesn't need the page.
ghost use Rattle.std.specs.Prelude.{◌≡◌, IfOk};
ghost use Rattle.klp_trace_page.specs.RunSentences.{AreSentencesOf, AreSentencesOver};

use crate::record::record_trace;
use klp_boot::{Fault, ManagerUse, over_text};
use klp_core::Manager;
use klp_names::Names;
use klp_page::{Layout, view_of};
use klp_timeline::{Sentence, sentences};
use klp_trace::Trace;
use std::alloc::Global;

/// Plays a trace on a manager that was just booted, and returns all sentences of the run. Returns `Err` if the trace has a
/// fault, or if memory runs out.
fn run_sentences(
    alloc: Global,
    manager: &mut Manager,
    trace: &[u8],
    layout: &mut Layout<'_>,
) -> Result<Vec<Sentence>, Fault>
    ensures { IfOk result (λ found. AreSentencesOf manager.old trace.now found.items) }
{
    let read = Trace::read(alloc, trace, manager)?;
    layout.open(manager)?;
    let opening = view_of(manager);
    let recorded = record_trace(alloc, manager, trace, &read.items, &opening, layout)?;
    let found = sentences(alloc, &opening, &recorded.run)?;
    Ok(found)
}

/// A trace whose sentences are wanted.
#[derive(Drop)]
struct Tale<'t, 'n> {
    trace: &'t [u8],
    layout: Layout<'n>,
}

impl ManagerUse for Tale<'_, '_> {
    type Done = Result<Vec<Sentence>, Fault>;

    ghost comes_to = { λ before _ booted ended. IfOk ended (λ found. AreSentencesOf booted before.trace.now found.items) };

    fn run(&mut self, alloc: Global, manager: &mut Manager) -> Result<Vec<Sentence>, Fault> {
        run_sentences(alloc, manager, self.trace, &mut self.layout)
    }
}

/// Plays a trace by the rules on a manager that is booted over the catalog's text, and returns all sentences that the page
/// of the trace has about the run, in order. Lines are counted from 1. Returns `Err` if the catalog or the trace has a
/// fault, or if memory runs out. Allocates memory in proportion to the run.
pub fn sentences_over_trace(
    alloc: Global,
    catalog: &[u8],
    trace: &[u8],
) -> Result<Vec<Sentence>, Fault>
    ensures { IfOk result (λ found. AreSentencesOver catalog.now trace.now found.items) }
{
    let names = Names::new(alloc);
    let mut tale = Tale {
        trace,
        layout: Layout::bare(alloc, &names),
    };
    let found = over_text(alloc, catalog, &mut tale)??;
    Ok(found)
}
