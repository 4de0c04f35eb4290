//! The stays in the lanes of the drawing: tasks that hold a transition up, or sleep in code that isn't called now.

use crate::pen::{Area, BAR, MARGIN, TOP, add_rect, add_text_start, digits};
use crate::scale::Scale;
use crate::words::{Stop, first_place, last_place};
use klp_core::Manager;
use klp_markup::Value::{Markup, Number, Text};
use klp_markup::{Sheet, add_line_time, add_plain_task, function_name, object_name, patch_name};
use klp_names::Names;
use klp_timeline::{Said, Sentence, Sleepers, Stay, excess, is_left_out};
use klp_types::{MAX_TASKS, TaskId, Version};
use std::alloc::{AllocError, Global};

/// The smallest width of a stay in the drawing, in points, so that readers don't overlook it.
const NARROWEST: u64 = 4;

/// How many points stay free between the label of a lasting stay and the right end of the margin.
const GAP: u64 = 4;

/// A stay that is narrower than this many points has no outline of two colours, since hardly any pattern would be left
/// inside.
const OUTLINED: u64 = 8;

/// How many points of a stay its label leaves free, so that the pattern of the stay can be seen.
const SHOWN: u64 = 12;

/// The width of a letter of a label, in quarters of a point: 7.5 points.
const LETTER_QUARTERS: u64 = 30;

/// What a label needs beside its letters, in quarters of a point: 5 points on each side, and 3 quarters that round up
/// the division by 4.
const BORDER_QUARTERS: u64 = 43;

/// The stay of one task, with the places in the drawing between which it lies.
#[derive(Clone, Copy)]
pub(crate) struct Held {
    task: TaskId,
    /// The index of the stay's sentence among all sentences of the run.
    sentence: usize,
    /// Whether the stay's sentence is on the page.
    has_sentence: bool,
    /// Whether the task holds the transition up. If false, the task sleeps in code that isn't called now.
    is_holding: bool,
    /// Whether the stay still goes on at the end of the run.
    is_lasting: bool,
    from: u64,
    to: u64,
}

/// Stays, as they are gathered from left to right.
#[derive(Drop)]
struct Gathered {
    held: Vec<Held>,
    /// The right end of each task's last stay.
    filled: [u64; MAX_TASKS],
}

impl Gathered {
    /// Adds the stay of one task, or of it only the part to the right of the task's earlier stays. Drops the stay if
    /// nothing is left. `Err` if memory runs out.
    fn add(&mut self, held: Held) -> Result<(), AllocError> {
        let number = usize::from(held.task.0);
        if number >= MAX_TASKS {
            // No task has such a number.
            return Ok(());
        }
        let filled = self.filled[number];
        if held.to > filled {
            self.filled[number] = held.to;
            self.held.push(Held {
                from: held.from.max(filled),
                ..held
            })?;
        }
        Ok(())
    }

    /// Adds the stay of each task of a sentence. `sentence` is the index of this sentence among all sentences of the
    /// run. The stays lie between the places `from` and `to`, but are at least [`NARROWEST`] points wide. `Err` if memory
    /// runs out.
    fn add_sleepers(
        &mut self,
        sentence: usize,
        sleepers: &Sleepers,
        has_sentence: bool,
        from: u64,
        to: u64,
    ) -> Result<(), AllocError> {
        for task in sleepers.tasks.as_slice() {
            self.add(Held {
                task: *task,
                sentence,
                has_sentence,
                is_holding: matches!(sleepers.stay, Stay::Holds(_, _)),
                is_lasting: sleepers.to.is_none(),
                from,
                to: to.max(from.saturating_add(NARROWEST)),
            })?;
        }
        Ok(())
    }
}

/// Returns the right end of the stays of a sentence. This is the left end of the line after the stays' last line. If
/// the stays last until the end of the run, it is the right end of the run.
fn right_end_of(scale: &Scale, sleepers: &Sleepers) -> u64 {
    match sleepers.to {
        Some(last) => scale.left_of(last.saturating_add(1)),
        None => scale.end(),
    }
}

/// Returns the stays of all sentences of a run, in the order of their first lines. A stay whose sentence isn't on the
/// page is drawn all the same, with `has_sentence` false. `Err` if memory runs out.
pub(crate) fn all_held(
    alloc: Global,
    scale: &Scale,
    sentences: &[Sentence],
) -> Result<Vec<Held>, AllocError> {
    let mut gathered = Gathered {
        held: Vec::new(alloc),
        filled: [0; MAX_TASKS],
    };
    let mut excess = excess(sentences);
    for (number, sentence) in sentences.iter().enumerate() {
        let is_left_out = is_left_out(excess, sentence);
        if is_left_out {
            excess = excess.saturating_sub(1);
        }
        if let Said::Slept(sleepers) = &sentence.said {
            let (from, to) = (scale.left_of(sentence.line), right_end_of(scale, sleepers));
            gathered.add_sleepers(number, sleepers, !is_left_out, from, to)?;
        }
    }
    let Gathered { held, filled: _ } = gathered;
    Ok(held)
}

/// Returns the rectangle of a stay. It is as high as the highest bar.
fn area_of(held: &Held) -> Area {
    Area {
        x: held.from,
        y: TOP,
        width: held.to.saturating_sub(held.from),
        height: BAR,
    }
}

/// Adds the rectangle of a stay: hatched if the task holds the transition up, otherwise dotted. Its outline is black
/// and white, so that one of the two contrasts with any colour below. A stay that is too narrow for an outline is half
/// black and half white.
fn add_area(sheet: &mut Sheet, held: &Held) {
    let area = area_of(held);
    if area.width < OUTLINED {
        let half = Area {
            width: area.width / 2,
            ..area
        };
        add_rect(sheet, "light", area);
        add_rect(sheet, "dark", half);
        return;
    }
    add_rect(sheet, if held.is_holding { "hatch" } else { "dots" }, area);
    add_rect(sheet, "outer", area.inside(1));
    add_rect(sheet, "inner", area.inside(2));
}

/// Adds the rectangles of a task's stays. They cover what is already in the lane, so call this before the words are
/// added.
pub(crate) fn add_areas(sheet: &mut Sheet, all: &[Held], task: TaskId) {
    for held in all {
        if held.task == task {
            add_area(sheet, held);
        }
    }
}

/// What the label and the tooltip of a stay are made of: the line with which the stay begins, and the version that the
/// task sleeps in.
#[derive(Clone, Copy)]
struct Label {
    line: u64,
    version: Version,
}

/// Returns the line with which a stay begins, and the version that the task sleeps in, both out of the stay's sentence.
/// Returns `None` if there is no such sentence, or if the sentence is on a fact.
fn label_of(sentences: &[Sentence], held: &Held) -> Option<Label> {
    let sentence = sentences.get(held.sentence)?;
    let Said::Slept(sleepers) = &sentence.said else {
        return None;
    };
    let (Stay::Holds(_, version) | Stay::Outdated(version)) = sleepers.stay;
    Some(Label {
        line: sentence.line,
        version,
    })
}

/// Returns the name of a version's function, without the name of its object or patch. The name is empty if there is no
/// such function.
fn short_name(manager: &Manager, version: Version) -> &[u8] {
    match version {
        Version::Original(site) => match manager.modules().symbol(site) {
            Some((_, symbol, _)) => symbol.as_bytes(),
            None => b"",
        },
        Version::New(patch, function) => function_name(manager.catalog(), patch, function),
    }
}

/// Adds a version as words alone, since a tooltip can't have markup: `NAME of the object OBJECT`, or `NAME of the patch
/// PATCH`. Adds nothing for the original of a site that doesn't exist.
fn add_plain_version(sheet: &mut Sheet, manager: &Manager, version: Version) {
    let name = Text(short_name(manager, version));
    match &version {
        Version::Original(site) => {
            if let Some((object, _, _)) = manager.modules().symbol(*site) {
                let object = Text(object_name(manager.modules(), object));
                sheet.fill("{} of the object {}", &[name, object]);
            }
        }
        Version::New(patch, _) => {
            let patch = Text(patch_name(manager.catalog(), *patch));
            sheet.fill("{} of the patch {}", &[name, patch]);
        }
    }
}

/// Adds the tooltip of a stay: the task, whether it holds the transition up or sleeps in code that isn't called now,
/// since which line and time, and in which version.
fn add_tooltip(sheet: &mut Sheet, names: &Names, manager: &Manager, held: &Held, label: &Label) {
    let what = if held.is_holding {
        " holds the transition up since line "
    } else {
        " sleeps in code that isn't called now, since line "
    };
    sheet.markup("<title>task ");
    add_plain_task(sheet, names, held.task);
    sheet.fill("{}{}", &[Markup(what), Number(label.line)]);
    add_line_time(sheet, names, label.line);
    sheet.markup(": ");
    add_plain_version(sheet, manager, label.version);
    sheet.markup("</title>");
}

/// Begins the link of a stay to its sentence, `#stay-LINE-TASK`. If the sentence isn't on the page, the link is to the
/// row of `line`, the line with which the stay begins. The caller adds `</a>`.
fn begin_link(sheet: &mut Sheet, held: &Held, line: u64) {
    let line = Number(line);
    if held.has_sentence {
        let task = Number(u64::from(held.task.0));
        sheet.fill("<a href=\"#stay-{}-{}\">", &[line, task]);
    } else {
        sheet.fill("<a href=\"#line-{}\">", &[line]);
    }
}

/// Returns the width in points of a label with this many letters, including 5 points on each side, rounded up. The
/// style sheet sets a monospace font of 12 points, whose letters are at most 7.5 points wide.
fn label_width(letters: usize) -> u64 {
    let quarters = (letters as u64).saturating_mul(LETTER_QUARTERS);
    quarters.saturating_add(BORDER_QUARTERS) / 4
}

/// Returns the left end of a stay's label, which is `width` points wide, or `None` if there is no room for it between
/// the stops.
///
/// If the stay has ended, the label is as far left in it as possible, and [`SHOWN`] points right of the label show the
/// stay's pattern. If the stay lasts until the end of the run, the label is as far right in it as possible, since a
/// reader of a drawing that is wider than the screen sees the right end first; the [`SHOWN`] points are left of it. Such
/// a label extends into the margin if the stay has no room for it.
fn place_of_label(stops: &[Stop], held: &Held, width: u64) -> Option<u64> {
    let room = width.saturating_add(SHOWN);
    if !held.is_lasting {
        return first_place(stops, held.from, held.to, room);
    }
    let margin_end = held.to.saturating_add(MARGIN).saturating_sub(GAP);
    let place = match last_place(stops, held.from, held.to, room) {
        Some(place) => place,
        None => last_place(stops, held.from, margin_end, room)?,
    };
    Some(place.saturating_add(SHOWN))
}

/// If there is room for a label with this many letters, adds its box, begins its text and returns true. The caller adds
/// the letters and `</text>`. If there is no room, adds nothing and returns false.
fn begin_label(sheet: &mut Sheet, held: &Held, stops: &[Stop], letters: usize) -> bool {
    let width = label_width(letters);
    let Some(place) = place_of_label(stops, held, width) else {
        return false;
    };
    // The box leaves 3 points free on each side, so that it doesn't cover the outline of the stay.
    let plate = Area {
        x: place.saturating_add(3),
        y: TOP + 3,
        width: width.saturating_sub(6),
        height: BAR - 6,
    };
    add_rect(sheet, "plate", plate);
    add_text_start(sheet, "name", place.saturating_add(5), TOP + 14);
    true
}

/// Adds the label of a stay. It is the name of the function, or, if there is no room for it, the number of the line
/// with which the stay begins, by which a reader finds the sentence. If there is no room for the number either, adds
/// nothing.
fn add_label(sheet: &mut Sheet, manager: &Manager, held: &Held, label: &Label, stops: &[Stop]) {
    let name = short_name(manager, label.version);
    if begin_label(sheet, held, stops, name.len()) {
        sheet.fill("{}</text>", &[Text(name)]);
    } else if begin_label(sheet, held, stops, digits(label.line)) {
        sheet.fill("{}</text>", &[Number(label.line)]);
    }
}

/// Adds, for each stay of a task, a link to its sentence, with a tooltip and a label. `all` has the stays of all tasks.
pub(crate) fn add_labels(
    sheet: &mut Sheet,
    names: &Names,
    manager: &Manager,
    sentences: &[Sentence],
    all: &[Held],
    task: TaskId,
    stops: &[Stop],
) {
    for held in all {
        if held.task != task {
            continue;
        }
        if let Some(label) = label_of(sentences, held) {
            begin_link(sheet, held, label.line);
            add_tooltip(sheet, names, manager, held, &label);
            // Transparent, so that the whole stay is part of the link.
            add_rect(sheet, "clear", area_of(held));
            add_label(sheet, manager, held, &label, stops);
            sheet.markup("</a>");
        }
    }
}
