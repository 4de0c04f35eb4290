//! What the patches' files, a task's patch state and the functions that it sleeps in contradict.
ghost use Rattle.std.specs.Prelude.{◌≡◌, true, is_some};
ghost use Rattle.klp_contradictions.specs.Impossible.{NeverInNew, NeverInOriginal};

use crate::contradiction::{Contradiction, Replacement};
use crate::impossible::{
    is_never_above_older, is_never_in_new, is_never_in_original, is_never_while,
};
use crate::tasks::{is_asleep, name_of};
use klp_capture::{Capture, NewerFiles, PatchRow, SeenTask, Span, TaskLine};
use klp_capture_catalog::{Files, Functions, SeenFunction, files_in, moving_in};

/// The patches of a sample.
#[derive(Clone, Copy)]
pub(crate) struct Patches<'c, 'a> {
    pub(crate) capture: &'c Capture<'a>,
    pub(crate) functions: &'c Functions<'a>,
    pub(crate) rows: &'c [PatchRow<'a>],
}

/// Returns the rows about one patch: its objects and functions.
fn rows_of<'r, 'a>(rows: &'r [PatchRow<'a>], patch: &[u8]) -> &'r [PatchRow<'a>] {
    let begin = rows.iter().position(|row| match row {
        PatchRow::Patch { name, .. } => *name == patch,
        _ => false,
    });
    let from = begin.unwrap_or(rows.len()).saturating_add(1);
    let rest = Span {
        from,
        to: rows.len(),
    };
    let rest = rest.of(rows);
    let count = rest
        .iter()
        .position(|row| matches!(row, PatchRow::Patch { .. }))
        .unwrap_or(rest.len());
    let own = Span {
        from,
        to: from.saturating_add(count),
    };
    own.of(rows)
}

/// Returns how many functions the rows have, and how many of them the other rows have, too.
fn count_shared(rows: &[PatchRow<'_>], others: &[PatchRow<'_>]) -> (usize, usize) {
    let (mut count, mut shared): (usize, usize) = (0, 0);
    for row in rows {
        if let PatchRow::Function { name, position } = row {
            count = count.saturating_add(1);
            let is_shared = others.iter().any(|other| match other {
                PatchRow::Function {
                    name: own,
                    position: place,
                } => own == name && place == position,
                _ => false,
            });
            if is_shared {
                shared = shared.saturating_add(1);
            }
        }
    }
    (count, shared)
}

/// Whether a patch changes the same functions by both lists of rows.
fn has_same_functions(one: &[PatchRow<'_>], other: &[PatchRow<'_>], patch: &[u8]) -> bool {
    let (one, other) = (rows_of(one, patch), rows_of(other, patch));
    let (count, shared) = count_shared(one, other);
    count == shared && count_shared(other, one).0 == count
}

/// Returns what a task contradicts that sleeps in a new function of a patch whose files read so.
fn asleep_in_new<'a>(
    files: Files,
    task: &TaskLine<'a>,
    it: Replacement<'a>,
) -> Option<Contradiction<'a>>
    ensures { is_some result ≡ true → NeverInNew files task.now.state }
{
    if !is_never_in_new(files, task.state) {
        return None;
    }
    match files {
        None => Some(Contradiction::NotThere(name_of(task), it)),
        Some(_) => Some(Contradiction::TooNew(name_of(task), it)),
    }
}

/// Returns what a task contradicts that sleeps in an original which a patch replaces whose files read so. No other patch
/// gives the original back.
fn asleep_in_original<'a>(
    files: Files,
    task: &TaskLine<'a>,
    it: Replacement<'a>,
) -> Option<Contradiction<'a>>
    ensures { is_some result ≡ true → NeverInOriginal files task.now.state }
{
    if !is_never_in_original(files, task.state) {
        return None;
    }
    match files {
        Some((true, false)) => Some(Contradiction::Replaced(name_of(task), it)),
        _ => Some(Contradiction::TooOld(name_of(task), it)),
    }
}

impl<'c, 'a> Patches<'c, 'a> {
    /// Returns the name of a function's patch, which is empty for a function that no patch changes.
    fn name_of(&self, patch: Option<usize>) -> &'a [u8] {
        let Some(number) = patch else {
            return b"";
        };
        match self.functions.patches.get(number) {
            Some(patch) => patch.name,
            None => b"",
        }
    }

    fn files_of(&self, patch: Option<usize>) -> Files {
        files_in(self.rows, self.name_of(patch))
    }

    fn replacement(&self, function: &SeenFunction<'a>, new: &'a [u8]) -> Replacement<'a> {
        Replacement {
            patch: self.name_of(function.patch),
            old: function.name,
            new,
        }
    }

    /// Returns what the patches' files contradict by themselves.
    pub(crate) fn contradiction(&self) -> Option<Contradiction<'a>> {
        let mut moving: Option<&'a [u8]> = None;
        let mut enabled: Option<&'a [u8]> = None;
        for row in self.rows {
            match row {
                PatchRow::Patch {
                    name,
                    is_enabled,
                    is_moving,
                    ..
                } => {
                    if let Some(other) = moving
                        && *is_moving
                    {
                        return Some(Contradiction::TwoInTransition(other, *name));
                    }
                    if *is_moving {
                        moving = Some(*name);
                    }
                    enabled = if *is_enabled { Some(*name) } else { None };
                }
                PatchRow::Object {
                    name: b"vmlinux",
                    is_patched: Some(false),
                } => {
                    if let Some(patch) = enabled {
                        return Some(Contradiction::Unpatched(patch));
                    }
                }
                _ => {}
            }
        }
        None
    }

    /// Returns what the patches contradict of the sample before. A patch that is as it was then changes the same
    /// functions. When a transition completes, a cumulative patch gives up those that it gave back.
    pub(crate) fn contradiction_to(&self, before: &[PatchRow<'a>]) -> Option<Contradiction<'a>> {
        for row in self.rows {
            if let PatchRow::Patch { name, .. } = row
                && files_in(before, name).is_some()
                && files_in(before, name) == files_in(self.rows, name)
                && !has_same_functions(before, self.rows, name)
            {
                return Some(Contradiction::ChangesOthers(*name));
            }
        }
        None
    }

    /// Whether exactly one symbol of the log has this name, in this module or in the kernel itself. Otherwise a frame of
    /// this name may be in another function.
    fn is_only(&self, name: &[u8], module: Option<&[u8]>) -> bool {
        let symbols = self.capture.symbols.iter();
        symbols
            .filter(|symbol| symbol.name == name && symbol.module == module)
            .count()
            == 1
    }

    /// Returns the name of an installed patch below this place. A replaced one whose directory the kernel hasn't removed
    /// yet isn't installed: both of its files read 0.
    fn installed_below(&self, place: u32) -> Option<&'a [u8]> {
        for row in self.rows {
            if let PatchRow::Patch { name, newer, .. } = row
                && newer.order.is_some_and(|order| order < place)
                && files_in(self.rows, name).is_some()
            {
                return Some(*name);
            }
        }
        None
    }

    /// Returns an installed patch below a cumulative one whose transition is complete.
    pub(crate) fn outlives(&self) -> Option<Contradiction<'a>> {
        for row in self.rows {
            if let PatchRow::Patch {
                name,
                newer: NewerFiles {
                    is_cumulative: Some(true),
                    order: Some(place),
                },
                ..
            } = row
                && is_never_above_older(files_in(self.rows, name))
                && let Some(older) = self.installed_below(*place)
            {
                return Some(Contradiction::Outlives(older, *name));
            }
        }
        None
    }

    /// Whether the log doesn't deny that a patch is cumulative.
    fn may_be_cumulative(&self, patch: Option<usize>) -> bool {
        match patch.and_then(|number| self.functions.patches.get(number)) {
            Some(patch) => patch.may_be_cumulative(),
            None => true,
        }
    }

    /// Whether an installed patch may give the original of a function back.
    fn may_be_given_back(&self, function: &SeenFunction<'a>) -> bool {
        self.functions.functions.iter().any(|other| {
            other.object == function.object
                && other.name == function.name
                && other.new_name.is_none()
                && self.files_of(other.patch).is_some()
                && self.may_be_cumulative(other.patch)
        })
    }

    /// Returns what a frame in the new function of a patch contradicts.
    fn in_new(
        &self,
        seen: &SeenTask<'a>,
        function: &SeenFunction<'a>,
    ) -> Option<Contradiction<'a>> {
        let new = function.new_name?;
        let it = self.replacement(function, new);
        if !self.is_only(new, Some(it.patch)) {
            return None;
        }
        asleep_in_new(self.files_of(function.patch), &seen.task, it)
    }

    /// Returns what a frame in an original contradicts: an enabled patch replaces it.
    fn in_original(
        &self,
        seen: &SeenTask<'a>,
        function: &SeenFunction<'a>,
    ) -> Option<Contradiction<'a>> {
        let module = self.functions.module_of(function);
        if !self.is_only(function.name, module) || self.may_be_given_back(function) {
            return None;
        }
        for other in &self.functions.functions {
            if other.object != function.object || other.name != function.name {
                continue;
            }
            let Some(new) = other.new_name else {
                continue;
            };
            let it = self.replacement(other, new);
            let found = asleep_in_original(self.files_of(other.patch), &seen.task, it);
            if found.is_some() {
                return found;
            }
        }
        None
    }

    /// Returns the first contradiction between the functions that a task sleeps in, and the patches' files or the task's
    /// patch state. Returns `None` if there is none, or if the task didn't sleep all the time while it was read.
    fn in_frames(&self, seen: &SeenTask<'a>) -> Option<Contradiction<'a>> {
        if !is_asleep(&seen.task) {
            return None;
        }
        for frame in seen.frames.of(&self.capture.frames) {
            let Some(version) = self.functions.seen_version(*frame) else {
                continue;
            };
            let function = self.functions.functions.get(version.function)?;
            let found = if version.is_new {
                self.in_new(seen, function)
            } else {
                self.in_original(seen, function)
            };
            if found.is_some() {
                return found;
            }
        }
        None
    }

    /// Returns what a task contradicts. `has_moved_before` says whether the same transition was under way in the sample
    /// before: at its very beginning, a task may not have its patch state yet.
    pub(crate) fn contradiction_of(
        &self,
        seen: &SeenTask<'a>,
        has_moved_before: bool,
    ) -> Option<Contradiction<'a>> {
        let task = name_of(&seen.task);
        let moving = moving_in(self.rows);
        if is_never_while(moving.is_some(), seen.task.state) {
            match moving {
                None => return Some(Contradiction::StateAtRest(task)),
                Some((patch, _)) if has_moved_before => {
                    return Some(Contradiction::NoState(task, patch));
                }
                Some(_) => {}
            }
        }
        self.in_frames(seen)
    }
}
