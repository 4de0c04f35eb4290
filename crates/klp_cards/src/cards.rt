//! The cards of the effect of a line, and the cards of patches.

use klp_core::Manager;
use klp_markup::Value::{Markup, Name};
use klp_markup::{Sheet, add_tasks, object_name, patch_name, plural};
use klp_names::Names;
use klp_timeline::{Fact, View, lagging};
use klp_types::{Mode, PatchId};

/// Adds a card of a patch or a module: its name, and the words `what`.
fn add_card(sheet: &mut Sheet, class: &'static str, name: &[u8], what: &'static str) {
    sheet.fill(
        "<div class={}><b>{}</b> {}</div>",
        &[Markup(class), Name(name), Markup(what)],
    );
}

/// Adds a card of what a line did, if the view doesn't show it: a module was loaded or unloaded, a pre-patch callback
/// failed, or a transition was forced. Adds nothing for any other line.
pub(crate) fn add_act(sheet: &mut Sheet, manager: &Manager, act: &Option<Fact>) {
    let (catalog, modules) = (manager.catalog(), manager.modules());
    let (name, what) = match *act {
        Some(Fact::Comes(object)) => (object_name(modules, object), "is loaded"),
        Some(Fact::Goes(object)) => (object_name(modules, object), "isn't loaded"),
        Some(Fact::PreFailed(patch, _, _)) => (
            patch_name(catalog, patch),
            "has a pre-patch callback that failed, so nothing came of it",
        ),
        Some(Fact::Forces(moving)) => (
            patch_name(catalog, moving.patch),
            "is forced: consistency isn't promised from here on",
        ),
        _ => return,
    };
    add_card(sheet, "card", name, what);
}

/// Whether the views before and after a line differ in the transition or in the installed patches.
pub(crate) fn are_patches_changed(before: &View, after: &View) -> bool {
    before.moving != after.moving || before.installed.as_slice() != after.installed.as_slice()
}

/// Returns the CSS class of an installed patch's card, and the words that say whether the patch is enabled, moves in or
/// moves out.
fn class_and_words(manager: &Manager, view: &View, patch: PatchId) -> (&'static str, &'static str) {
    match view.moving {
        Some(moving) if moving.patch != patch => ("card", "is enabled"),
        Some(moving) if !moving.target => ("\"card moves\"", "moves out"),
        Some(_) if manager.catalog().is_cumulative(patch) => {
            ("\"card moves\"", "moves in, to replace all others")
        }
        Some(_) => ("\"card moves\"", "moves in"),
        None => ("card", "is enabled"),
    }
}

/// Returns the words for `count` tasks that lag in this mode: where they are, and when they will switch.
fn switching(mode: Mode, count: usize) -> &'static str {
    match mode {
        Mode::User => plural(
            count,
            " in user space: it switches once it has been in the kernel again",
            " in user space: each switches once it has been in the kernel again",
        ),
        Mode::Kernel => plural(
            count,
            " in the kernel: it switches as it leaves",
            " in the kernel: each switches as it leaves",
        ),
        Mode::Asleep => plural(
            count,
            " asleep elsewhere: the next poll switches it",
            " asleep elsewhere: the next poll switches them",
        ),
    }
}

/// Adds a list item with the tasks in this mode that lag without holding the transition up. Adds nothing if there is no
/// such task.
fn add_mode_item(sheet: &mut Sheet, names: &Names, view: &View, mode: Mode) {
    let laggards = lagging(mode, &view.waits);
    let tasks = laggards.as_slice();
    if !tasks.is_empty() {
        sheet.markup("<li>");
        add_tasks(sheet, names, tasks);
        sheet.markup(switching(mode, tasks.len()));
    }
}

/// Adds a card of the tasks that lag without holding the transition up. Adds nothing if there is no such task.
fn add_behind_card(sheet: &mut Sheet, names: &Names, view: &View) {
    if view.waits.iter().all(|waits| waits.is_none()) {
        return;
    }
    sheet.markup("<div class=card><b>behind</b><ul>");
    add_mode_item(sheet, names, view, Mode::User);
    add_mode_item(sheet, names, view, Mode::Kernel);
    add_mode_item(sheet, names, view, Mode::Asleep);
    sheet.markup("</ul></div>");
}

/// Adds a card for each patch that is installed after a line, one for each patch that the line removed, and one for the
/// tasks that lag without holding the transition up. `before` and `after` are the views before and after the line.
pub(crate) fn add_patches(
    sheet: &mut Sheet,
    names: &Names,
    manager: &Manager,
    before: &View,
    after: &View,
) {
    let catalog = manager.catalog();
    for patch in &after.installed {
        let (class, what) = class_and_words(manager, after, *patch);
        add_card(sheet, class, patch_name(catalog, *patch), what);
    }
    for patch in &before.installed {
        if !after.installed.as_slice().contains(patch) {
            add_card(sheet, "card", patch_name(catalog, *patch), "is gone");
        }
    }
    add_behind_card(sheet, names, after);
}
