//! Events that change patches, and short lists of them that lead from one reading of the patches' files to the next.
//!
//! A sample says what the files of each patch read, but not what happened since the sample before. [`straight_way`]
//! returns the shortest list of events that leads there. [`detours`] returns longer ones, in which transitions also
//! completed, began or were reversed between the two samples.
use klp_capture_catalog::Files;
use std::alloc::{AllocError, Global};

/// An event that changes which patches are there, or which of them is in transition.
#[derive(Clone, Copy, PartialEq, Eq)]
pub(crate) enum Move {
    /// The patch with this index is loaded, and its transition starts.
    Load(usize),
    /// The patch with this index is disabled, and its transition starts.
    Disable(usize),
    /// The transition is reversed.
    Reverse,
    /// The transition completes.
    Complete,
}

/// What the files of a patch read that is enabled and not in transition.
const ENABLED: Files = Some((true, false));

/// At most this many detours are returned, of at most `MAX_MOVES` events each.
const MAX_DETOURS: usize = 12;

const MAX_MOVES: usize = 6;

/// At most this many states are looked at in the search for detours.
const MAX_LOOKED_AT: usize = 400;

/// What the files of all patches read, and which patches are cumulative.
#[derive(Drop)]
pub(crate) struct PatchFiles {
    /// What the files of each patch read. `None` if the patch isn't installed.
    pub(crate) files: Vec<Files>,
    /// For each patch, whether it replaces all older patches.
    pub(crate) are_cumulative: Vec<bool>,
}

/// Returns the index of the patch in transition, and the target. Returns `None` without a transition.
pub(crate) fn moving_of(files: &[Files]) -> Option<(usize, bool)> {
    for (patch, files) in files.iter().enumerate() {
        if let Some((target, true)) = files {
            return Some((patch, *target));
        }
    }
    None
}

/// Returns what the files of one patch read, or `None` for an index that no patch has.
fn files_of(files: &[Files], patch: usize) -> Files {
    files.get(patch).copied().unwrap_or(None)
}

/// Whether the files of all patches but one read the same.
fn are_same_but(files: &[Files], to: &[Files], patch: usize) -> bool {
    files
        .iter()
        .zip(to)
        .enumerate()
        .all(|(number, (own, other))| number == patch || own == other)
}

impl PatchFiles {
    fn copied(&self, alloc: Global) -> Result<PatchFiles, AllocError> {
        let mut copy = PatchFiles {
            files: Vec::new(alloc),
            are_cumulative: Vec::new(alloc),
        };
        copy.files.extend_from_slice(&self.files)?;
        copy.are_cumulative.extend_from_slice(&self.are_cumulative)?;
        Ok(copy)
    }

    fn is_cumulative(&self, patch: usize) -> bool {
        self.are_cumulative.get(patch) == Some(&true)
    }

    fn set(&mut self, patch: usize, files: Files) {
        if let Some(own) = self.files.get_mut(patch) {
            *own = files;
        }
    }

    /// Completes the transition. If it was of a cumulative patch that is now enabled, all other patches are gone.
    fn complete(&mut self) {
        let Some((patch, target)) = moving_of(&self.files) else {
            return;
        };
        if target && self.is_cumulative(patch) {
            for files in self.files.iter_mut() {
                *files = None;
            }
        }
        self.set(patch, if target { ENABLED } else { None });
    }

    /// Does one event. The caller only passes events that are possible.
    pub(crate) fn apply(&mut self, event: Move) {
        match event {
            Move::Load(patch) => self.set(patch, Some((true, true))),
            Move::Disable(patch) => self.set(patch, Some((false, true))),
            Move::Reverse => {
                if let Some((patch, target)) = moving_of(&self.files) {
                    self.set(patch, Some((!target, true)));
                }
            }
            Move::Complete => self.complete(),
        }
    }

    /// Returns the next event of the transition under way, on the way to these files.
    fn next_in_transition(&self, patch: usize, target: bool, to: &[Files]) -> Move {
        let complete_or_reverse = if target {
            Move::Complete
        } else {
            Move::Reverse
        };
        match files_of(to, patch) {
            Some((_, true)) if are_same_but(&self.files, to, patch) => Move::Reverse,
            Some(_) => complete_or_reverse,
            None if target => Move::Reverse,
            None => Move::Complete,
        }
    }

    /// Returns the next event on the straight way to these files, if no transition is under way. Cumulative patches are
    /// loaded first, since older patches go with them. The patch that is in transition in the end comes last.
    fn next_at_rest(&self, to: &[Files]) -> Option<Move> {
        let count = self.files.len();
        let is_missing = |patch: usize| {
            files_of(&self.files, patch).is_none() && files_of(to, patch) == ENABLED
        };
        if let Some(patch) = (0..count).find(|patch| is_missing(*patch)
            && self.is_cumulative(*patch))
        {
            return Some(Move::Load(patch));
        }
        if let Some(patch) = (0..count).find(|patch| {
            files_of(&self.files, *patch).is_some() && files_of(to, *patch).is_none()
        }) {
            return Some(Move::Disable(patch));
        }
        if let Some(patch) = (0..count).find(|patch| is_missing(*patch)) {
            return Some(Move::Load(patch));
        }
        let (patch, _target) = moving_of(to)?;
        match files_of(&self.files, patch) {
            None => Some(Move::Load(patch)),
            Some(_) => Some(Move::Disable(patch)),
        }
    }

    fn next(&self, to: &[Files]) -> Option<Move> {
        if self.files.as_slice() == to {
            return None;
        }
        match moving_of(&self.files) {
            Some((patch, target)) => Some(self.next_in_transition(patch, target, to)),
            None => self.next_at_rest(to),
        }
    }

    /// Whether an event may lie on a detour: it is about a patch whose files change, or about the patch in transition
    /// before or after.
    fn may_change(&self, patch: usize, from: &[Files], to: &[Files]) -> bool {
        files_of(&self.files, patch) != files_of(to, patch)
            || moving_of(from).is_some_and(|moving| moving.0 == patch)
            || moving_of(to).is_some_and(|moving| moving.0 == patch)
    }

    /// Returns the events that are possible now and may lie on a detour.
    fn possible(
        &self,
        alloc: Global,
        from: &[Files],
        to: &[Files],
    ) -> Result<Vec<Move>, AllocError> {
        let mut events = Vec::new(alloc);
        if moving_of(&self.files).is_some() {
            events.push(Move::Complete)?;
            events.push(Move::Reverse)?;
            return Ok(events);
        }
        for patch in 0..self.files.len() {
            if self.may_change(patch, from, to) {
                match files_of(&self.files, patch) {
                    None => events.push(Move::Load(patch))?,
                    Some(_) => events.push(Move::Disable(patch))?,
                }
            }
        }
        Ok(events)
    }
}

/// Returns a shortest list of events that leads to these files. Returns `None` if the files can't be reached, for
/// example because two patches are in transition.
pub(crate) fn straight_way(
    alloc: Global,
    from: &PatchFiles,
    to: &[Files],
) -> Result<Option<Vec<Move>>, AllocError> {
    let mut now = from.copied(alloc)?;
    let mut way = Vec::new(alloc);
    // A patch is disabled, loaded and reversed at most once each, and each of these transitions completes.
    let most = to.len().saturating_add(1).saturating_mul(6);
    for _event in 0..most {
        let Some(event) = now.next(to) else {
            break;
        };
        now.apply(event);
        way.push(event)?;
    }
    if now.files.as_slice() == to {
        Ok(Some(way))
    } else {
        Ok(None)
    }
}

/// Files that some events lead to.
#[derive(Drop)]
struct Reached {
    now: PatchFiles,
    way: Vec<Move>,
}

impl Reached {
    fn after(&self, alloc: Global, event: Move) -> Result<Reached, AllocError> {
        let mut now = self.now.copied(alloc)?;
        now.apply(event);
        let mut way = Vec::new(alloc);
        way.extend_from_slice(&self.way)?;
        way.push(event)?;
        Ok(Reached { now, way })
    }
}

/// Returns lists of events that lead to these files, shorter ones first.
pub(crate) fn detours(
    alloc: Global,
    from: &PatchFiles,
    to: &[Files],
) -> Result<Vec<Vec<Move>>, AllocError> {
    let mut found = Vec::new(alloc);
    let mut reached = Vec::new(alloc);
    reached.push(Reached {
        now: from.copied(alloc)?,
        way: Vec::new(alloc),
    })?;
    for number in 0..MAX_LOOKED_AT {
        if found.len() >= MAX_DETOURS || reached.len() >= MAX_LOOKED_AT {
            break;
        }
        let Some(last) = reached.get(number) else {
            break;
        };
        let mut longer = Vec::new(alloc);
        for event in &last.now.possible(alloc, &from.files, to)? {
            longer.push(last.after(alloc, *event)?)?;
        }
        for next in longer {
            if next.now.files.as_slice() == to {
                let mut way = Vec::new(alloc);
                way.extend_from_slice(&next.way)?;
                found.push(way)?;
            }
            if next.way.len() < MAX_MOVES {
                reached.push(next)?;
            }
        }
    }
    Ok(found)
}
