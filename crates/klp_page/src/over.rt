//! Boots a manager with a catalog's text, and makes the page of a run that is done with it.
ghost use Rattle.std.specs.Prelude.{◌≡◌, IfOk, IfErr};
ghost use Rattle.klp_page.specs.Over.{IsShownOver, IsFaultOver, WritesOver};

use crate::layout::Layout;
use crate::source::PageSource;
use crate::unshown::{Unshown, fault_of};
use klp_boot::{Fault, ManagerUse, over_plan};
use klp_catalog::Catalog;
use klp_console::ServeFault;
use klp_core::Manager;
use klp_names::Names;
use std::alloc::Global;
use std::io::Write;

/// A run whose page is made with a manager.
#[derive(Drop)]
struct Shown<'a, S> {
    source: &'a S,
    layout: Layout<'a>,
}

impl<S: PageSource> ManagerUse for Shown<'_, S> {
    type Done = Result<Vec<u8>, Unshown>;

    ghost comes_to = { λ before _ booted ended.
        IfOk ended (λ page. S.shows before.source.now booted page.items)
        × IfErr ended (λ why. S.lacks before.source.now booted why) };

    fn run(&mut self, alloc: Global, manager: &mut Manager) -> Result<Vec<u8>, Unshown> {
        self.source.page(alloc, manager, &mut self.layout)
    }
}

/// Boots a manager over the catalog's text, does a run with it, and returns the run's page. `names` has the names of
/// tasks and the times of lines. Returns `Err` if no manager can be booted over the text, or if the run shows no page.
/// Allocates memory in proportion to the run.
pub fn page_over<S: PageSource>(
    alloc: Global,
    catalog: &[u8],
    names: &Names,
    source: &S,
) -> Result<Vec<u8>, Fault>
    ensures page { IfOk result (λ page. IsShownOver (S.shows source.now) catalog.now page.items) }
    ensures fault { IfErr result (λ fault. IsFaultOver (S.lacks source.now) catalog.now fault) }
{
    let plan = Catalog::read(alloc, catalog)?;
    let mut layout = Layout::new(alloc, names);
    layout.watch(&plan)?;
    let mut shown = Shown { source, layout };
    let ended = over_plan(alloc, plan, &mut shown)?;
    match ended {
        Ok(page) => Ok(page),
        Err(why) => Err(fault_of(why)),
    }
}

/// Makes the page of a run, as [`page_over`] does, and then writes it to `out`. If there is no page, writes nothing and
/// returns why as `Err`. Also returns `Err` if the page can't be written.
pub fn write_over<S: PageSource, W: Write>(
    alloc: Global,
    catalog: &[u8],
    names: &Names,
    source: &S,
    out: &mut W,
) -> Result<(), Fault>
    ensures { WritesOver (S.shows source.now) (S.lacks source.now) catalog.now (W.contents out.old)
        (W.contents out.new) result }
{
    let page = match page_over(alloc, catalog, names, source) {
        Ok(page) => page,
        Err(fault) => return Err(fault),
    };
    match out.write_all(&page) {
        Ok(()) => Ok(()),
        Err(_) => Err(Fault::Serve(ServeFault::Write)),
    }
}
