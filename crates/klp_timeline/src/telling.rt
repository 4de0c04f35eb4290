//! Making the sentences on a run.
ghost use Rattle.std.specs.Prelude.{◌≡◌, ◌++◌, ◌∷◌, [], ◌≤◌, ◌<◌, ◌+◌, ◌^◌, ◌==◌, map, length, IfOk, OnOk};
ghost use Rattle.std.specs.List.{list_any};
ghost use Rattle.klp_timeline.specs.Sentences.{is_end, is_alike, tasks_alike, slept, slept_from, said_of, sentences_of};

use crate::facts::add_facts;
use crate::moment::{Moment, Said, Sentence, Sleep, Sleepers, View};
use crate::stays::{is_same_stay_as, sleeps_begun};
use crate::task_list::TaskList;
use std::alloc::{AllocError, Global};

/// Whether two stays end with the same line, or both last until the end of the run (`None`).
fn is_end(own: &Option<u64>, other: &Option<u64>) -> bool
    ensures { result ≡ is_end own.now other.now }
{
    match (own, other) {
        (None, None) => true,
        (Some(to), Some(last)) => to == last,
        _ => false,
    }
}

/// Whether two stays that begin with the same line are alike, so that one sentence has both tasks. They must be the
/// same stay, and end with the same line.
fn is_alike(own: &Sleep, other: &Sleep) -> bool
    ensures { result ≡ is_alike own.now other.now }
{
    is_same_stay_as(&own.stay, &other.stay) && is_end(&own.to, &other.to)
}

/// Whether a stay in `sleeps` is alike to `own`.
fn has_alike(own: &Sleep, sleeps: &[Sleep]) -> bool
    ensures { result ≡ list_any (is_alike own.now) sleeps.now }
{
    for sleep in sleeps {
        if is_alike(own, sleep) {
            return true;
        }
    }
    false
}

/// Returns the tasks of all stays in `sleeps` that are alike to `own`, in the order of `sleeps`.
fn tasks_alike(alloc: Global, own: &Sleep, sleeps: &[Sleep]) -> Result<TaskList, AllocError>
    ensures { IfOk result (λ tasks. tasks ≡ tasks_alike own.now sleeps.now) }
{
    let mut tasks = TaskList::new(alloc);
    for sleep in sleeps {
        if is_alike(own, sleep) {
            tasks.push(sleep.task)?;
        }
    }
    Ok(tasks)
}

/// Appends one sentence about `own`, which is one of `sleeps`, and about all stays in `sleeps` that are alike to it. The
/// sentence has the tasks of all of them. Every stay in `sleeps` must begin with `line`.
fn add_alike(
    sentences: &mut Vec<Sentence>,
    alloc: Global,
    own: &Sleep,
    sleeps: &[Sleep],
    line: u64,
) -> Result<(), AllocError>
    ensures { OnOk result (sentences.new.items ≡ sentences.old.items ++ slept line own.now sleeps.now ∷ []) }
{
    let said = Said::Slept(Sleepers {
        stay: own.stay,
        tasks: tasks_alike(alloc, own, sleeps)?,
        to: own.to,
    });
    sentences.push(Sentence { line, said })?;
    Ok(())
}

/// Appends one sentence for each group of alike stays, in the order of the groups' first stays. `sleeps` has the stays
/// that begin with `line`.
fn add_slept(
    sentences: &mut Vec<Sentence>,
    alloc: Global,
    sleeps: &[Sleep],
    line: u64,
) -> Result<(), AllocError>
    ensures { OnOk result (sentences.new.items ≡ sentences.old.items ++ slept_from line sleeps.now [] sleeps.now) }
{
    for index in 0..sleeps.len() {
        let own = &sleeps[index];
        // Otherwise the sentence on an earlier stay has this stay's task, too.
        if !has_alike(own, &sleeps[..index]) {
            add_alike(sentences, alloc, own, sleeps, line)?;
        }
    }
    Ok(())
}

/// Appends the sentences of a line: first its facts, and then the stays that begin with the line. `before` is the view
/// before the line, and `rest` has the run's lines from the next line on.
fn add_line(
    sentences: &mut Vec<Sentence>,
    alloc: Global,
    before: &View,
    moment: &Moment,
    line: u64,
    rest: &[Moment],
) -> Result<(), AllocError>
    requires { line + length rest.now < 2 ^ 64 }
    ensures { OnOk result (sentences.new.items
        ≡ sentences.old.items ++ said_of before.now line moment.now rest.now) }
{
    add_facts(sentences, before, moment, line)?;
    let sleeps = sleeps_begun(alloc, &before.stays, &moment.view.stays, line, rest)?;
    add_slept(sentences, alloc, &sleeps, line)
}

/// Returns all sentences on a run that begins with the view `opening`, in the order of the lines. Each line has first
/// its facts, and then the stays that begin with it. Stays that are alike share a sentence. The cost of a line grows
/// with the length of the stays that begin with it. Returns `Err` if memory runs out.
pub fn sentences(alloc: Global, opening: &View, run: &[Moment]) -> Result<Vec<Sentence>, AllocError>
    ensures { IfOk result (λ sentences. sentences.items ≡ sentences_of opening.now run.now) }
{
    let mut list = Vec::new(alloc);
    let mut before = opening;
    for index in 0..run.len() {
        let moment = &run[index];
        let (line, rest) = (index as u64 + 1, &run[index + 1..]);
        add_line(&mut list, alloc, before, moment, line, rest)?;
        before = &moment.view;
    }
    Ok(list)
}
