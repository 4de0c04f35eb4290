//! The cards of tasks.

use crate::shot::TaskShot;
use klp_core::Manager;
use klp_markup::Value::{Markup, Number};
use klp_markup::{Sheet, add_task, add_version, is_of_kernel};
use klp_names::Names;
use klp_timeline::Stay;
use klp_types::{Mode, TaskId, Transition, Version};

/// A task that did something, and all that its card depends on.
#[derive(Clone, Copy)]
pub(crate) struct Actor<'a> {
    pub task: TaskId,
    pub shot: &'a TaskShot,
    pub stay: &'a Option<Stay>,
    /// The transition under way, if there is one.
    pub moving: &'a Option<Transition>,
}

/// Returns the CSS class of a task's card: for its patch state, and for a task that holds the transition up.
fn class_of(shot: &TaskShot) -> &'static str {
    match (shot.state, shot.is_holding) {
        (1, true) => "\"card new hold\"",
        (1, false) => "\"card new\"",
        (0, true) => "\"card old hold\"",
        (0, false) => "\"card old\"",
        _ => "card",
    }
}

/// Returns the words for a task in this mode.
fn mode_text(mode: Mode) -> &'static str {
    match mode {
        Mode::User => "is in user space",
        Mode::Kernel => "runs in the kernel",
        Mode::Asleep => "sleeps",
    }
}

/// Returns how far a task is in the transition under way: it is at the target, it holds the transition up, or it lags,
/// with the words that say when it will switch. Returns no words if there is no transition.
fn progress_text(actor: &Actor<'_>) -> &'static str {
    let Some(moving) = actor.moving else {
        return "";
    };
    if actor.shot.state == i8::from(moving.target) {
        return "<p>is at the target</p>";
    }
    if actor.shot.is_holding {
        return "<p class=holds>holds the transition up</p>";
    }
    match actor.shot.mode {
        Mode::User => "<p>behind: switches once it has been in the kernel again</p>",
        Mode::Kernel => "<p>behind: switches as it leaves the kernel</p>",
        Mode::Asleep => "<p>behind: the next poll switches it</p>",
    }
}

/// Returns why it matters that a task sleeps in this version, one of its frames: its calls wouldn't run the version
/// now, or the version blocks the transition. Returns no words for any other version.
fn why_it_matters(manager: &Manager, actor: &Actor<'_>, version: Version) -> &'static str {
    match *actor.stay {
        // The kernel itself is never unloaded.
        Some(Stay::Outdated(outdated))
            if outdated == version && is_of_kernel(manager.modules(), version) => {
            "not called now"
        }
        Some(Stay::Outdated(outdated)) if outdated == version => {
            "not called now: what has it mustn't be unloaded"
        }
        // A task at the target isn't in such a stay, since no version blocks the transition for it.
        Some(Stay::Holds(moving, _)) if manager.blocks(version) => {
            if moving.target {
                "blocks: the patch changes it"
            } else {
                "blocks: it leaves with the patch"
            }
        }
        _ => "",
    }
}

/// Adds a list item for a version that a task sleeps in. `why` says why the version matters, and is empty if it
/// doesn't.
fn add_frame(sheet: &mut Sheet, manager: &Manager, version: Version, why: &'static str) {
    let (catalog, modules) = (manager.catalog(), manager.modules());
    if why.is_empty() {
        sheet.markup("<li>");
        add_version(sheet, catalog, modules, version);
    } else {
        sheet.markup("<li class=blocks>");
        add_version(sheet, catalog, modules, version);
        sheet.fill(" <span class=why>{}</span>", &[Markup(why)]);
    }
}

/// Adds the card of a task that did something: its mode, the versions that it sleeps in, outermost first, and how far
/// it is in the transition.
pub(crate) fn add_task_card(
    sheet: &mut Sheet,
    names: &Names,
    manager: &Manager,
    actor: &Actor<'_>,
) {
    let shot = actor.shot;
    sheet.fill("<div class={}><b>task ", &[Markup(class_of(shot))]);
    add_task(sheet, names, actor.task);
    sheet.fill("</b> {}", &[Markup(mode_text(shot.mode))]);
    let frames = shot.frames.as_slice();
    if !frames.is_empty() {
        sheet.markup(" in<ul class=m>");
        for version in frames {
            let why = why_it_matters(manager, actor, *version);
            add_frame(sheet, manager, *version, why);
        }
        sheet.markup("</ul>");
    }
    sheet.markup(progress_text(actor));
    sheet.markup("</div>");
}

/// Adds the card of a task that ended with this line.
pub(crate) fn add_ended_card(sheet: &mut Sheet, names: &Names, task: TaskId) {
    sheet.markup("<div class=card><b>task ");
    add_task(sheet, names, task);
    sheet.markup("</b> has ended</div>");
}

/// Adds a card with the number of tasks for which there was no room. Adds nothing if there was room for all tasks, so
/// that `count` is 0.
pub(crate) fn add_uncarded(sheet: &mut Sheet, count: u64) {
    match count {
        0 => {}
        1 => sheet.markup("<div class=card>1 more task did something or switched</div>"),
        _ => sheet.fill(
            "<div class=card>{} more tasks did something or switched</div>",
            &[Number(count)],
        ),
    }
}
