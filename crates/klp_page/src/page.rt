//! The page of a script that a manager serves, from its rows, sentences and drawing.
ghost use Rattle.std.specs.Prelude.{◌≡◌, count_by, IfOk, IfErr};
ghost use Rattle.klp_page.specs.Rows.{last_view};
ghost use Rattle.klp_page.specs.Text.{page_text};
ghost use Rattle.klp_page.specs.Pages.{is_refused, IsTitle, IsPage, IsPageOfRun, IsScriptFault};
ghost use Rattle.klp_page.specs.Pages.{IsPageOf, IsFaultOf, Writes};

use crate::head::{Differing, Title, add_front, add_story_and_drawing, set_up_of, transitions};
use crate::layout::Layout;
use crate::over::{page_over, write_over};
use crate::record::{Recorded, last_view, record};
use crate::row::{Row, add_rows};
use crate::source::PageSource;
use crate::style::FOOT;
use crate::unshown::Unshown;
use crate::view::view_of;
use klp_boot::Fault;
use klp_core::Manager;
use klp_markup::Sheet;
use klp_names::Names;
use klp_timeline::{Sentence, View, sentences};
use std::alloc::{AllocError, Global};
use std::io::Write;

/// Returns the text of a page, whose parts are made already: its head, sentences, drawing and rows. `view` is the state
/// at the end of the run, and `sentences` are all sentences of the run. `Err` if memory runs out.
fn written(
    alloc: Global,
    manager: &Manager,
    title: &Title<'_>,
    view: &View,
    sentences: &[Sentence],
    drawing: &Sheet,
    rows: &[Row],
) -> Result<Vec<u8>, AllocError>
    ensures { IfOk result (λ page. page.items ≡ page_text title.now manager.now.managed.catalog view.now
        sentences.now drawing.now.text rows.now) }
{
    // For the proof only: texts that are added one after the other add up.
    klp_markup::laws::what_is_added_adds_up();
    let mut sheet = Sheet::new(alloc);
    let (catalog, modules) = (manager.catalog(), manager.modules());
    add_front(&mut sheet, title, catalog, modules, view, sentences);
    add_story_and_drawing(
        &mut sheet,
        title.names,
        catalog,
        modules,
        sentences,
        rows,
        drawing,
    );
    add_rows(&mut sheet, title.names, set_up_of(&title.differing), rows);
    sheet.markup(FOOT);
    sheet.into_bytes()
}

/// Returns how many rows are of refused lines.
fn refused(rows: &[Row]) -> u64
    ensures { result ≡ count_by is_refused rows.now }
{
    let mut count = 0usize;
    for row in rows {
        if row.is_refused {
            count += 1;
        }
    }
    count as u64
}

/// Returns what the head of the page says of a run. `view` is the state at the end of the run, and `sentences` are all
/// sentences of the run. `differing` is `None` for a script.
fn title_of<'a>(
    name: &'a [u8],
    names: &'a Names,
    rows: &[Row],
    view: &View,
    sentences: &[Sentence],
    differing: Option<Differing>,
) -> Title<'a>
    ensures { IsTitle result name.now names.now rows.now view.now sentences.now differing }
{
    Title {
        name,
        names,
        lines: rows.len() as u64,
        refused: refused(rows),
        transitions: transitions(sentences),
        is_moving: view.moving.is_some(),
        differing,
    }
}

/// Returns the text of the page of a run that was already served and recorded. `name` is the page's title. `opening` is
/// the state before the run. `differing` is `None` for a script. `layout` must have seen each line of the run. `Err` if
/// memory runs out.
pub fn page_of(
    alloc: Global,
    manager: &Manager,
    name: &[u8],
    names: &Names,
    opening: &View,
    recorded: &Recorded,
    differing: Option<Differing>,
    layout: &mut Layout<'_>,
) -> Result<Vec<u8>, AllocError>
    ensures { IfOk result (λ page. IsPageOfRun manager.now.managed.catalog name.now names.now opening.now
        recorded.now.rows.items recorded.now.run.items differing page.items) }
{
    let sentences = sentences(alloc, opening, &recorded.run)?;
    let view = last_view(opening, &recorded.run);
    let title = title_of(name, names, &recorded.rows, view, &sentences, differing);
    let drawing = layout.draw(alloc, manager, &sentences)?;
    written(
        alloc,
        manager,
        &title,
        view,
        &sentences,
        &drawing,
        &recorded.rows,
    )
}

/// Serves a script with a manager that was just booted, and returns the text of the script's page. `name` is the page's
/// title. `Err` if a line is too long, or if memory runs out.
fn paged(
    alloc: Global,
    manager: &mut Manager,
    name: &[u8],
    names: &Names,
    script: &[u8],
    layout: &mut Layout<'_>,
) -> Result<Vec<u8>, Unshown>
    ensures page { IfOk result (λ page. IsPage manager.old name.now names.now script.now page.items) }
    ensures fault { IfErr result (λ why. IsScriptFault script.now why) }
{
    layout.open(manager)?;
    let opening = view_of(manager);
    let recorded = record(alloc, manager, script, &opening, layout)?;
    Ok(page_of(
        alloc, manager, name, names, &opening, &recorded, None, layout,
    )?)
}

/// A script, and what the head of its page says of it.
#[derive(Clone, Copy)]
struct ScriptRun<'a> {
    name: &'a [u8],
    names: &'a Names,
    script: &'a [u8],
}

impl PageSource for ScriptRun<'_> {
    ghost shows = { λ run booted page. IsPage booted run.name.now run.names.now run.script.now page };

    ghost lacks = { λ run _ why. IsScriptFault run.script.now why };

    fn page(
        &self,
        alloc: Global,
        manager: &mut Manager,
        layout: &mut Layout<'_>,
    ) -> Result<Vec<u8>, Unshown> {
        paged(alloc, manager, self.name, self.names, self.script, layout)
    }
}

/// Returns the page of a script, with a row for each line. `name` is the page's title. The catalog, and what `Err`
/// means, are as for [`page_over`].
pub fn page_over_text(
    alloc: Global,
    catalog: &[u8],
    name: &[u8],
    names: &Names,
    script: &[u8],
) -> Result<Vec<u8>, Fault>
    ensures page { IfOk result (λ page. IsPageOf catalog.now name.now names.now script.now page.items) }
    ensures fault { IfErr result (λ fault. IsFaultOf catalog.now script.now fault) }
{
    let run = ScriptRun {
        name,
        names,
        script,
    };
    page_over(alloc, catalog, names, &run)
}

/// Writes the page of a script to `out`, as [`write_over`] does. `name` is the page's title.
pub fn write_page<W: Write>(
    alloc: Global,
    catalog: &[u8],
    name: &[u8],
    names: &Names,
    script: &[u8],
    out: &mut W,
) -> Result<(), Fault>
    ensures { Writes catalog.now name.now names.now script.now (W.contents out.old) (W.contents out.new) result }
{
    let run = ScriptRun {
        name,
        names,
        script,
    };
    write_over(alloc, catalog, names, &run, out)
}
