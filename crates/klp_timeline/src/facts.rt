//! The facts of a line, which are what the line did.
ghost use Rattle.std.specs.Prelude.{◌≡◌, ◌++◌, ◌==◌, map, OnOk, ◌∷◌, []};
ghost use Rattle.std.specs.List.{list_any, count_by, flat_map};
ghost use Rattle.std.specs.Option.{option_to_list};
ghost use Rattle.klp_timeline.specs.Facts.{is_outdated, turn, is_moving_patch, leave_of, facts};
ghost use Rattle.klp_timeline.specs.Sentences.{did};

use crate::moment::{Fact, Moment, Said, Sentence, Stay, View};
use crate::stays::is_same_transition_as;
use klp_types::{PatchId, Transition};
use std::alloc::AllocError;

/// Returns how many tasks sleep in a version that their calls wouldn't run now ([`Stay::Outdated`]).
pub fn outdated(stays: &[Option<Stay>]) -> usize
    ensures { result ≡ count_by is_outdated stays.now }
{
    let mut count = 0;
    for stay in stays {
        if matches!(stay, Some(Stay::Outdated(_))) {
            count += 1;
        }
    }
    count
}

/// Returns what a line did to the transition: started, completed or reversed it. `before` and `after` are the views
/// before and after the line. Returns `None` if both show a transition with the same patch and target, or both show
/// none.
fn turn(before: &View, after: &View) -> Option<Fact>
    ensures { result ≡ turn before.now.moving after.now.moving after.now.stays }
{
    match (&before.moving, &after.moving) {
        (None, None) => None,
        (None, Some(moving)) => Some(Fact::Starts(*moving)),
        (Some(moved), None) => Some(Fact::Completes(*moved, outdated(&after.stays))),
        (Some(moved), Some(moving)) if is_same_transition_as(moved, moving) => None,
        (Some(_), Some(moving)) => Some(Fact::Reverses(*moving)),
    }
}

/// Whether `moving` is a transition of this patch. False if `moving` is `None`: then no transition is under way.
fn is_moving_patch(moving: &Option<Transition>, patch: PatchId) -> bool
    ensures { result ≡ is_moving_patch moving.now patch }
{
    match moving {
        Some(moving) => moving.patch == patch,
        None => false,
    }
}

/// Whether the list has this patch.
fn is_among(patch: PatchId, patches: &[PatchId]) -> bool
    ensures { result ≡ list_any (λ other. other == patch) patches.now }
{
    for other in patches {
        if *other == patch {
            return true;
        }
    }
    false
}

/// Returns the fact that a patch that was installed before a line was replaced: it isn't in `installed`, the patches
/// that are installed after the line. Returns `None` if it is. Also returns `None` if the patch was in transition
/// before the line (`moved`), since [`turn`] returns its completion.
fn leave_of(patch: PatchId, moved: &Option<Transition>, installed: &[PatchId]) -> Option<Fact>
    ensures { option_to_list result ≡ leave_of moved.now installed.now patch }
{
    if is_moving_patch(moved, patch) || is_among(patch, installed) {
        None
    } else {
        Some(Fact::Leaves(patch))
    }
}

/// Appends the sentence that `line` did this fact. Appends nothing if there is no fact.
fn add_fact(sentences: &mut Vec<Sentence>, fact: Option<Fact>, line: u64) -> Result<(), AllocError>
    ensures { OnOk result (sentences.new.items
        ≡ sentences.old.items ++ map (did line) (option_to_list fact)) }
{
    if let Some(fact) = fact {
        let said = Said::Did(fact);
        sentences.push(Sentence { line, said })?;
    }
    Ok(())
}

/// Appends a sentence for each patch that was replaced. `before` and `installed` are the patches that are installed
/// before and after the line. `moved` is the transition before the line.
fn add_leaving(
    sentences: &mut Vec<Sentence>,
    moved: &Option<Transition>,
    before: &[PatchId],
    installed: &[PatchId],
    line: u64,
) -> Result<(), AllocError>
    ensures { OnOk result (sentences.new.items
        ≡ sentences.old.items ++ map (did line) (flat_map (leave_of moved.now installed.now) before.now)) }
{
    for patch in before {
        add_fact(sentences, leave_of(*patch, moved, installed), line)?;
    }
    Ok(())
}

/// Appends a sentence for each fact of a line: its effect that no view shows, what it did to the transition, and which
/// patches were replaced. `before` is the view before the line. If the line undid events, the undoing is its only fact.
pub(crate) fn add_facts(
    sentences: &mut Vec<Sentence>,
    before: &View,
    moment: &Moment,
    line: u64,
) -> Result<(), AllocError>
    ensures { OnOk result (sentences.new.items
        ≡ sentences.old.items ++ map (did line) (facts before.now moment.now)) }
{
    add_fact(sentences, moment.act, line)?;
    if matches!(moment.act, Some(Fact::Undoes(_, _))) {
        return Ok(());
    }
    let after = &moment.view;
    add_fact(sentences, turn(before, after), line)?;
    add_leaving(
        sentences,
        &before.moving,
        before.installed.as_slice(),
        after.installed.as_slice(),
        line,
    )
}
