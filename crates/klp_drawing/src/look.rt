//! How patches and tasks look after a line.

use klp_core::Manager;
use klp_timeline::{Stay, View};
use klp_types::{Mode, PatchId, TaskId};

/// The colour of a bar. It shows which version a task runs, or the state of a patch.
#[derive(Clone, Copy, PartialEq, Eq)]
pub(crate) enum Shade {
    /// The task isn't in a transition.
    Rest,
    /// The task runs without the patch in transition: its patch state is 0.
    Old,
    /// The task runs with the patch in transition: its patch state is 1.
    New,
    Patching,
    Unpatching,
    Forced,
    Enabled,
    Gone,
}

/// How a bar is drawn. The bar of a patch is as high as the bar of a task in the kernel.
#[derive(Clone, Copy, PartialEq, Eq)]
pub(crate) struct Look {
    pub shade: Shade,
    pub mode: Mode,
    /// Whether the bar is part of a stay of the task that a sentence reports. Such a stay has a label, so the bar gets
    /// no words.
    pub has_sentence: bool,
}

/// Returns the look of a task. `stay` is the stay that the task is in, if any. Returns `None` if there is no such task.
pub(crate) fn look_of_task(manager: &Manager, task: TaskId, stay: &Option<Stay>) -> Option<Look> {
    let mode = manager.mode(task)?;
    let shade = match manager.patch_state(task)? {
        0 => Shade::Old,
        1 => Shade::New,
        _ => Shade::Rest,
    };
    Some(Look {
        shade,
        mode,
        has_sentence: stay.is_some(),
    })
}

/// Returns the shade of an installed patch. `is_forced` says whether the transition under way was forced.
fn shade_of_patch(view: &View, patch: PatchId, is_forced: bool) -> Shade {
    match view.moving {
        Some(moving) if moving.patch != patch => Shade::Enabled,
        Some(_) if is_forced => Shade::Forced,
        Some(moving) if moving.target => Shade::Patching,
        Some(_) => Shade::Unpatching,
        None => Shade::Enabled,
    }
}

/// Returns the look of a patch in this state. `is_forced` says whether the transition under way was forced, and
/// `was_there` whether the patch was installed after an earlier line. Returns `None` if the patch isn't installed and
/// never was.
pub(crate) fn look_of_patch(
    view: &View,
    patch: PatchId,
    is_forced: bool,
    was_there: bool,
) -> Option<Look> {
    let shade = if view.installed.as_slice().contains(&patch) {
        shade_of_patch(view, patch, is_forced)
    } else if was_there {
        Shade::Gone
    } else {
        return None;
    };
    Some(Look {
        shade,
        mode: Mode::Kernel,
        has_sentence: false,
    })
}

/// Returns the height of a bar in points. The bar of a task is highest in the kernel, lower asleep, and lowest in user
/// space. The bar of a patch that is gone is a thin line.
pub(crate) fn height_of(look: Look) -> u64 {
    match look.mode {
        _ if look.shade == Shade::Gone => 2,
        Mode::User => 6,
        Mode::Asleep => 14,
        Mode::Kernel => 20,
    }
}

/// Returns the CSS class of a shade.
pub(crate) fn class_of(shade: Shade) -> &'static str {
    match shade {
        Shade::Rest => "rest",
        Shade::Old => "old",
        Shade::New => "new",
        Shade::Patching => "coming",
        Shade::Unpatching => "leaving",
        Shade::Forced => "forced",
        Shade::Enabled => "enabled",
        Shade::Gone => "gone",
    }
}

/// Returns the word for this shade that stands on a bar. It is empty for a task that isn't in a transition.
pub(crate) fn shade_word(shade: Shade) -> &'static str {
    match shade {
        Shade::Rest => "",
        Shade::Old => "old",
        Shade::New => "new",
        Shade::Patching => "patching",
        Shade::Unpatching => "unpatching",
        Shade::Forced => "forced",
        Shade::Enabled => "enabled",
        Shade::Gone => "gone",
    }
}

/// Returns the word for this mode that stands on a task's bar. It is empty for user space, which the low bar shows.
pub(crate) fn mode_word(mode: Mode) -> &'static str {
    match mode {
        Mode::User => "",
        Mode::Kernel => "kernel",
        Mode::Asleep => "asleep",
    }
}
