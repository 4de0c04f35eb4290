//! The page that compares a kernel's trace with a manager that follows the rules.
ghost use Rattle.std.specs.Prelude.{◌≡◌, length, IfOk, IfErr};
ghost use Rattle.std.specs.Str.Lines.{lines};
ghost use Rattle.klp_trace_page.specs.Pages.{IsPlayed, IsTracePage, IsTracePageOf, IsTraceUnshown, IsFaultOf, Writes};

use crate::differing::differing_in;
use crate::record::record_trace;
use klp_boot::Fault;
use klp_core::Manager;
use klp_names::Names;
use klp_page::{Layout, PageSource, Unshown, page_of, page_over, view_of, write_over};
use klp_trace::Trace;
use klp_watch::Observed;
use std::alloc::{AllocError, Global};
use std::io::Write;

/// Plays a trace on a manager that was just booted, and returns the text of its page. `name` is the page's title.
/// `items` are the items of the trace, one for each line. `Err` if memory runs out.
fn paged(
    alloc: Global,
    manager: &mut Manager,
    name: &[u8],
    names: &Names,
    set_up: u64,
    trace: &[u8],
    items: &[Observed],
    layout: &mut Layout<'_>,
) -> Result<Vec<u8>, AllocError>
    requires { length (lines trace.now) ≡ length items.now }
    ensures { IfOk result (λ page. IsPlayed manager.old name.now names.now set_up trace.now items.now page.items) }
{
    layout.open(manager)?;
    let opening = view_of(manager);
    let recorded = record_trace(alloc, manager, trace, items, &opening, layout)?;
    let differing = differing_in(set_up, &recorded.rows);
    page_of(
        alloc,
        manager,
        name,
        names,
        &opening,
        &recorded,
        Some(differing),
        layout,
    )
}

/// Reads a trace with the names of a manager that was just booted, plays it, and returns the text of its page. `name`
/// is the page's title. Returns the first faulty line as `Err`, and also `Err` if memory runs out.
fn read_and_paged(
    alloc: Global,
    manager: &mut Manager,
    name: &[u8],
    names: &Names,
    set_up: u64,
    trace: &[u8],
    layout: &mut Layout<'_>,
) -> Result<Vec<u8>, Unshown>
    ensures page { IfOk result (λ page. IsTracePage manager.old name.now names.now set_up trace.now page.items) }
    ensures fault { IfErr result (λ why. IsTraceUnshown manager.old trace.now why) }
{
    match Trace::read(alloc, trace, manager) {
        Ok(read) => Ok(paged(
            alloc,
            manager,
            name,
            names,
            set_up,
            trace,
            &read.items,
            layout,
        )?),
        Err(fault) => Err(Unshown::BadTrace(fault)),
    }
}

/// A trace, and what the head of its page says of it.
#[derive(Clone, Copy)]
struct TraceRun<'a> {
    name: &'a [u8],
    names: &'a Names,
    /// How many lines at the beginning were made up.
    set_up: u64,
    trace: &'a [u8],
}

impl PageSource for TraceRun<'_> {
    ghost shows = { λ run booted page. IsTracePage booted run.name.now run.names.now run.set_up run.trace.now page };

    ghost lacks = { λ run booted why. IsTraceUnshown booted run.trace.now why };

    fn page(
        &self,
        alloc: Global,
        manager: &mut Manager,
        layout: &mut Layout<'_>,
    ) -> Result<Vec<u8>, Unshown> {
        read_and_paged(
            alloc,
            manager,
            self.name,
            self.names,
            self.set_up,
            self.trace,
            layout,
        )
    }
}

/// Plays a trace by the rules on a manager that is booted over the catalog's text, and returns the page, with a row for
/// each line. `name` is the page's title. The first `set_up` lines were made up, and are folded away. Returns the first faulty line of the trace as `Err`. The catalog, and what
/// else `Err` means, are as for [`page_over`].
pub fn page_over_trace(
    alloc: Global,
    catalog: &[u8],
    name: &[u8],
    names: &Names,
    set_up: u64,
    trace: &[u8],
) -> Result<Vec<u8>, Fault>
    ensures page { IfOk result
        (λ page. IsTracePageOf catalog.now name.now names.now set_up trace.now page.items) }
    ensures fault { IfErr result (λ fault. IsFaultOf catalog.now trace.now fault) }
{
    let run = TraceRun {
        name,
        names,
        set_up,
        trace,
    };
    page_over(alloc, catalog, names, &run)
}

/// Writes the page of a trace to `out`, as [`write_over`] does. `name` is the page's title.
pub fn write_trace_page<W: Write>(
    alloc: Global,
    catalog: &[u8],
    name: &[u8],
    names: &Names,
    trace: &[u8],
    out: &mut W,
) -> Result<(), Fault>
    ensures { Writes catalog.now name.now names.now trace.now (W.contents out.old) (W.contents out.new) result }
{
    let run = TraceRun {
        name,
        names,
        set_up: 0,
        trace,
    };
    write_over(alloc, catalog, names, &run, out)
}
