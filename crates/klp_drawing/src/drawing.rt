//! The drawing of a whole run: a table with a row for each patch and each task, over the lines of the script.

use crate::axis::{Axis, axis_of};
use crate::bars::{Bars, LANES};
use crate::idle::add_idle;
use crate::lane::{add_bars, add_words};
use crate::pen::{LANE, MARGIN, add_text_start, number_width};
use crate::scale::CUT;
use crate::stays::{Held, add_areas, add_labels, all_held};
use crate::strips::strips_of;
use crate::style::{DIFFERING_LEGEND, LEGEND, PATTERNS};
use crate::turn::sign_text;
use crate::words::{Stop, stops};
use klp_core::Manager;
use klp_markup::Value::{Markup, Number, Words};
use klp_markup::{Sheet, add_task, patch_name};
use klp_names::Names;
use klp_timeline::Sentence;
use klp_types::{MAX_PATCHES, PatchId, TaskId};
use std::alloc::{AllocError, Global};

/// The width of a sign and of the gap after it, in points.
const SIGN: u64 = 12;

/// How far to the left of a place its sign begins, in points. A sign is about 8 points wide, so its middle is over the
/// place.
const HALF_SIGN: u64 = 4;

/// The lower end of the signs in the head of the table, in points from the top.
const SIGN_BOTTOM: u64 = 13;

/// The data that the parts of the drawing need: what is drawn and where it is drawn.
#[derive(Drop)]
struct Board<'a> {
    names: &'a Names,
    manager: &'a Manager,
    bars: &'a Bars,
    sentences: &'a [Sentence],
    held: Vec<Held>,
    stops: Vec<Stop>,
    /// The places at which a kernel differs from the rules.
    differing: Vec<u64>,
    axis: Axis<'a>,
    width: u64,
}

/// Returns the places of the marks that are drawn, from left to right. Leaves out each mark whose sign would cover the
/// sign of the mark drawn before. `Err` if memory runs out.
fn places_of_marks(alloc: Global, bars: &Bars) -> Result<Vec<u64>, AllocError> {
    let mut places = Vec::new(alloc);
    let mut free = 0;
    for mark in &bars.marks {
        let x = bars.scale.left_of(mark.line);
        if x >= free {
            places.push(x)?;
            free = x.saturating_add(SIGN);
        }
    }
    Ok(places)
}

/// Adds the signs of the marks. Leaves out each sign that would cover the sign drawn before. If there is room up to the
/// next mark, the number of the mark's line follows the sign. In a drawing to scale by time, no number does.
fn add_signs(sheet: &mut Sheet, bars: &Bars) {
    let mut free = 0;
    for (number, mark) in bars.marks.iter().enumerate() {
        let x = bars.scale.left_of(mark.line);
        if x < free {
            continue;
        }
        free = x.saturating_add(SIGN);
        add_text_start(sheet, "sign", x.saturating_sub(HALF_SIGN), SIGN_BOTTOM);
        sheet.markup(sign_text(mark.sign));
        let next = match bars.marks.get(number.saturating_add(1)) {
            Some(next) => bars.scale.left_of(next.line),
            None => u64::MAX,
        };
        let room = number_width(mark.line).saturating_add(SIGN);
        if !bars.scale.is_timed() && next.saturating_sub(x) >= room {
            sheet.fill("{}", &[Number(mark.line)]);
        }
        sheet.markup("</text>");
    }
}

/// Adds the definition of the marks, which each lane uses. A mark is a dotted line as high as a lane, 26 points, at one
/// of these places.
fn add_marks(sheet: &mut Sheet, places: &[u64]) {
    sheet.markup("<g id=marks><path class=mark d=\"M0 0");
    for x in places {
        sheet.fill("M{} 0v26", &[Number(*x)]);
    }
    sheet.markup("\"/></g>");
}

/// Adds the definition of the cuts, which each lane uses. A cut is a gap between two zigzags, as high as a lane, 26
/// points.
fn add_cuts(sheet: &mut Sheet, bars: &Bars) {
    sheet.markup("<g id=cuts>");
    for x in &bars.scale.cuts {
        sheet.fill(
            "<path class=gap d=\"M{} 0l6 6.5l-6 6.5l6 6.5l-6 6.5h6l6 -6.5l-6 -6.5l6 -6.5l-6 -6.5z\"/><path class=zig d=\"M{} 0l6 6.5l-6 6.5l6 6.5l-6 6.5m6 0l6 -6.5l-6 -6.5l6 -6.5l-6 -6.5\"/>",
            &[Number(*x), Number(*x)],
        );
    }
    sheet.markup("</g>");
}

/// Returns the places at which a kernel differs from the rules, from left to right, each once. `Err` if memory runs out.
fn places_of_differences(alloc: Global, bars: &Bars) -> Result<Vec<u64>, AllocError> {
    let mut places: Vec<u64> = Vec::new(alloc);
    for line in &bars.differing {
        let x = bars.scale.left_of(*line);
        if places.last() != Some(&x) {
            places.push(x)?;
        }
    }
    Ok(places)
}

/// Adds the definition of the lines at which a kernel differs from the rules, which each lane uses. They are as high as a
/// lane, 26 points. Adds nothing if the kernel differs nowhere.
fn add_differing(sheet: &mut Sheet, places: &[u64]) {
    if places.is_empty() {
        return;
    }
    sheet.markup(
        "<g id=differing><path style=\"fill:none;stroke:var(--hold);stroke-width:3\" d=\"M0 0",
    );
    for x in places {
        sheet.fill("M{} 0v26", &[Number(*x)]);
    }
    sheet.markup("\"/></g>");
}

/// Adds a sign above each place at which a kernel differs from the rules. It may cover a mark's sign at the same place,
/// since a difference matters more.
fn add_differing_signs(sheet: &mut Sheet, places: &[u64]) {
    for x in places {
        add_text_start(sheet, "sign", x.saturating_sub(HALF_SIGN), SIGN_BOTTOM);
        sheet.markup("<tspan style=\"fill:var(--hold);font-weight:600\">\u{2260}</tspan></text>");
    }
}

/// Begins the table, and adds its head: the signs, the axis, and the definitions that each lane uses. `marks` are the
/// places of the marks.
fn add_head(sheet: &mut Sheet, board: &Board<'_>, marks: &[u64]) {
    sheet.fill(
        "<div class=run><table><thead><tr><th></th><td><svg width=\"{}\" height=\"36\" aria-hidden=true><defs>",
        &[Number(board.width)],
    );
    sheet.markup(PATTERNS);
    add_marks(sheet, marks);
    add_cuts(sheet, board.bars);
    add_differing(sheet, &board.differing);
    sheet.markup("</defs>");
    add_signs(sheet, board.bars);
    add_differing_signs(sheet, &board.differing);
    board.axis.add_numbers(sheet, &board.bars.scale, 30);
    sheet.markup("</svg></td></tr></thead>");
}

/// Adds the foot of the table, which has the axis once more, and ends the table.
fn add_foot(sheet: &mut Sheet, board: &Board<'_>) {
    sheet.fill(
        "<tfoot><tr><th></th><td><svg width=\"{}\" height=\"18\" aria-hidden=true>",
        &[Number(board.width)],
    );
    board.axis.add_numbers(sheet, &board.bars.scale, 13);
    sheet.markup("</svg></td></tr></tfoot></table></div>\n");
}

/// Returns the task of a lane. The lanes of tasks follow those of patches. For the lane of a patch, returns a task
/// without meaning.
fn task_in(lane: usize) -> TaskId {
    // There are fewer than 256 tasks, so `min` changes nothing.
    TaskId((lane.saturating_sub(MAX_PATCHES)).min(255) as u8)
}

/// Begins the table row of a lane, and adds its first cell: the name of the patch, or the number and name of the task.
fn add_name(sheet: &mut Sheet, names: &Names, manager: &Manager, lane: usize) {
    if lane < MAX_PATCHES {
        let name = patch_name(manager.catalog(), PatchId(lane as u8));
        sheet.fill("<tr><th scope=row>{}</th>", &[Words(name)]);
    } else {
        sheet.markup("<tr><th scope=row>task ");
        add_task(sheet, names, task_in(lane));
        sheet.markup("</th>");
    }
}

/// Adds the table row of a patch or a task. Parts that are added later cover earlier parts, so the order is: marks,
/// bars, stays, cuts, and all words. `Err` if memory runs out.
fn add_lane(
    alloc: Global,
    sheet: &mut Sheet,
    board: &Board<'_>,
    lane: usize,
) -> Result<(), AllocError> {
    let strips = strips_of(alloc, board.bars.bars_of(lane), &board.bars.scale)?;
    let is_task = lane >= MAX_PATCHES;
    let task = task_in(lane);
    add_name(sheet, board.names, board.manager, lane);
    sheet.fill(
        "<td><svg width=\"{}\" height=\"{}\"><use href=\"#marks\"/>",
        &[Number(board.width), Number(LANE)],
    );
    add_bars(sheet, &strips);
    if is_task {
        add_areas(sheet, &board.held, task);
    }
    sheet.markup("<use href=\"#cuts\"/>");
    if !board.differing.is_empty() {
        sheet.markup("<use href=\"#differing\"/>");
    }
    add_words(sheet, &strips, &board.stops, is_task);
    if is_task {
        add_labels(
            sheet,
            board.names,
            board.manager,
            board.sentences,
            &board.held,
            task,
            &board.stops,
        );
    }
    sheet.markup("</svg></td></tr>\n");
    Ok(())
}

/// Adds the note below the drawing, which says what the numbers of the axis and the zigzags mean. If one point shows
/// several lines, the note also says which of their bars is drawn there.
fn add_note(sheet: &mut Sheet, bars: &Bars) {
    let (numbers, cut) = if bars.scale.is_timed() {
        (
            "<p class=soft>The drawing is to scale: numbers along it are seconds since the first time.",
            " At a zigzag, time is cut out in which nothing changes.",
        )
    } else {
        (
            "<p class=soft>Numbers are lines of the file.",
            " At a zigzag, lines are cut out in which nothing changes.",
        )
    };
    sheet.markup(numbers);
    if !bars.scale.cuts.is_empty() {
        sheet.markup(cut);
    }
    if bars.scale.is_coarse() {
        sheet.markup(
            " There are so many lines that one point shows several: of its bars the highest.",
        );
    }
    sheet.markup("</p>\n");
}

/// Adds the drawing of a run, its legend and a note. `bars` must be closed. `sentences` are all sentences of the run. A
/// stay links to its sentence, `#stay-LINE-TASK`, or, if the page leaves out that sentence, to the row of the line with
/// which the stay begins, `#line-LINE`. `Err` if memory runs out.
pub fn add_drawing(
    alloc: Global,
    sheet: &mut Sheet,
    names: &Names,
    manager: &Manager,
    bars: &Bars,
    sentences: &[Sentence],
) -> Result<(), AllocError> {
    let marks = places_of_marks(alloc, bars)?;
    let board = Board {
        names,
        manager,
        bars,
        sentences,
        held: all_held(alloc, &bars.scale, sentences)?,
        stops: stops(alloc, bars, &marks)?,
        differing: places_of_differences(alloc, bars)?,
        axis: axis_of(alloc, names, bars, sentences)?,
        width: bars.scale.end().saturating_add(MARGIN),
    };
    add_head(sheet, &board, &marks);
    sheet.markup("<tbody>");
    for lane in 0..LANES {
        if bars.acts(lane) {
            add_lane(alloc, sheet, &board, lane)?;
        }
    }
    add_idle(sheet, bars);
    sheet.markup("</tbody>");
    add_foot(sheet, &board);
    sheet.markup(LEGEND);
    if !bars.differing.is_empty() {
        sheet.markup(DIFFERING_LEGEND);
    }
    add_note(sheet, bars);
    Ok(())
}
