//! A lane: the bars of a patch or a task, and the words on the bars.

use crate::look::{Look, Shade, class_of, height_of, mode_word, shade_word};
use crate::pen::{Area, BAR, TOP, add_rect, add_text_start};
use crate::strips::Strip;
use crate::words::{Stop, first_place, width_of};
use klp_markup::Sheet;
use klp_markup::Value::Markup;

/// Returns the rectangle of a strip. All strips of a lane have the same lower end, and differ in height.
fn area_of(strip: &Strip) -> Area {
    let height = height_of(strip.look);
    Area {
        x: strip.from,
        y: TOP.saturating_add(BAR.saturating_sub(height)),
        width: strip.to.saturating_sub(strip.from),
        height,
    }
}

/// Adds the strips of a lane, each with the CSS class of its shade. A strip with a border is drawn one point smaller on
/// each side, so that the border doesn't extend beyond the strip's place. A strip of at most two points isn't: nothing
/// would be left of it.
pub(crate) fn add_bars(sheet: &mut Sheet, strips: &[Strip]) {
    for strip in strips {
        let area = area_of(strip);
        match strip.look.shade {
            Shade::Rest | Shade::Patching | Shade::Unpatching | Shade::Forced if area.width > 2 => {
                add_rect(sheet, class_of(strip.look.shade), area.inside(1));
            }
            shade => add_rect(sheet, class_of(shade), area),
        }
    }
}

/// Returns the words of a bar in three parts: the word for its shade, a comma, and for a task the word for its mode. If
/// one of the words is empty, the comma is empty, too.
fn words_of(look: Look, is_task: bool) -> [&'static str; 3] {
    let shade = shade_word(look.shade);
    let mode = if is_task { mode_word(look.mode) } else { "" };
    let join = if shade.is_empty() || mode.is_empty() {
        ""
    } else {
        ", "
    };
    [shade, join, mode]
}

/// Returns the CSS class of a bar's words, and the lower end of their letters. If the bar is too low for words, they
/// stand above it, otherwise inside of it.
fn place_of_words(shade: Shade, area: Area) -> (&'static str, u64) {
    let below = area.y.saturating_add(area.height);
    match area.height {
        0..=13 => ("above", area.y.saturating_sub(3)),
        14..=19 => (class_of(shade), below.saturating_sub(3)),
        _ => (class_of(shade), below.saturating_sub(6)),
    }
}

/// Adds these words to a strip if there is room for them. Returns false if there is no room. If all words are empty,
/// adds nothing and returns true.
fn add_if_room(sheet: &mut Sheet, strip: &Strip, stops: &[Stop], words: &[&'static str]) -> bool {
    let mut letters = 0usize;
    for word in words {
        letters = letters.saturating_add(word.len());
    }
    if letters == 0 {
        return true;
    }
    let Some(place) = first_place(stops, strip.from, strip.to, width_of(letters)) else {
        return false;
    };
    let (class, y) = place_of_words(strip.look.shade, area_of(strip));
    add_text_start(sheet, class, place.saturating_add(5), y);
    for word in words {
        sheet.fill("{}", &[Markup(word)]);
    }
    sheet.markup("</text>");
    true
}

/// Adds to each strip its words. If there isn't room for all of them, adds only the word for the shade. Adds nothing to
/// a strip that is part of a stay, which may have a label.
pub(crate) fn add_words(sheet: &mut Sheet, strips: &[Strip], stops: &[Stop], is_task: bool) {
    for strip in strips {
        if strip.look.has_sentence {
            continue;
        }
        let words = words_of(strip.look, is_task);
        if !add_if_room(sheet, strip, stops, &words) {
            add_if_room(sheet, strip, stops, &words[..1]);
        }
    }
}
