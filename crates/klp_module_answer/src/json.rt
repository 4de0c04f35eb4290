//! What is said of patches, as programs read it.
use crate::listing::named_callbacks;
use crate::livepatch::Livepatch;
use crate::pairs::{OutcomeWords, Pair, has_unpatch_callbacks};
use crate::spelled::Spelled;
use klp_messages::Escaped;
use klp_module_matrix::{Changed, Judgement, Outcome, Refusal, name_of_row};
use klp_tables::{Callbacks, Object, Replaces};
use serde::Serialize;
use std::alloc::{AllocError, Global};
use std::io;
use std::io::Write;

/// Whether a patch replaces those before it.
#[derive(Clone, Copy, Serialize)]
#[serde(rename_all = "kebab-case")]
enum ReplacesWord {
    No,
    Yes,
    Unknown,
}

#[derive(Clone, Copy, Serialize)]
struct StateObject {
    id: u64,
    version: u32,
}

/// A function. Its position is 0 if the table gives none.
#[derive(Drop, Serialize)]
struct FunctionObject {
    name: String,
    position: u64,
    new_name: String,
}

#[derive(Drop, Serialize)]
struct ObjectObject {
    name: String,
    /// The callbacks that it has.
    callbacks: Vec<&'static str>,
    functions: Vec<FunctionObject>,
}

#[derive(Drop, Serialize)]
struct PatchObject<'a> {
    patch: String,
    file: &'a str,
    /// The release of the kernel for which the module is built.
    release: String,
    replaces: ReplacesWord,
    states: Vec<StateObject>,
    objects: Vec<ObjectObject>,
}

/// What becomes of the older patch.
#[derive(Clone, Copy, Serialize)]
#[serde(rename_all = "kebab-case")]
enum OutcomeWord {
    Refused,
    TakenOut,
    Beside,
}

/// Which state refuses the newer patch. A patch that lacks it has no version of it.
#[derive(Clone, Copy, Serialize)]
struct RefusalObject {
    state: u64,
    version_of_older: u32,
    version_of_newer: Option<u32>,
}

#[derive(Drop, Serialize)]
struct PairObject {
    finding: bool,
    older: String,
    newer: String,
    /// Whether this holds if the newer patch replaces those before it, or if it doesn't, where that isn't known.
    #[serde(skip_serializing_if = "Option::is_none")]
    if_it_replaces: Option<bool>,
    outcome: OutcomeWord,
    #[serde(skip_serializing_if = "Option::is_none")]
    refusal: Option<RefusalObject>,
    /// The functions whose originals run again, or that both patches change.
    functions: Vec<String>,
    /// The objects whose pre_unpatch and post_unpatch of the older patch never run.
    unrun: Vec<String>,
    sentence: String,
}

/// Writes an object of JSON, in a line.
fn write_line<T: Serialize, W: Write>(alloc: Global, object: &T, out: &mut W) -> io::Result<()> {
    match serde_json::to_string(alloc, object) {
        Ok(text) => writeln!(out, "{text}"),
        Err(_) => Err(io::Error::from(io::ErrorKind::OutOfMemory)),
    }
}

fn text_of(alloc: Global, name: &[u8]) -> Result<String, AllocError> {
    Escaped(name).to_string(alloc)
}

fn callbacks_of(alloc: Global, callbacks: Callbacks) -> Result<Vec<&'static str>, AllocError> {
    let mut names = Vec::new(alloc);
    for (name, is_there) in named_callbacks(callbacks) {
        if is_there {
            names.push(name)?;
        }
    }
    Ok(names)
}

fn object_of(alloc: Global, object: &Object<'_>) -> Result<ObjectObject, AllocError> {
    let mut functions = Vec::new(alloc);
    for function in &object.functions {
        functions.push(FunctionObject {
            name: text_of(alloc, function.old_name)?,
            position: function.position,
            new_name: text_of(alloc, function.new_name)?,
        })?;
    }
    Ok(ObjectObject {
        name: text_of(alloc, name_of_row(&object.row))?,
        callbacks: callbacks_of(alloc, object.row.callbacks)?,
        functions,
    })
}

fn patch_of<'a>(alloc: Global, livepatch: &Livepatch<'a>) -> Result<PatchObject<'a>, AllocError> {
    let (mut states, mut objects) = (Vec::new(alloc), Vec::new(alloc));
    for state in &livepatch.patch.states {
        states.push(StateObject {
            id: state.id,
            version: state.version,
        })?;
    }
    for object in &livepatch.patch.objects {
        objects.push(object_of(alloc, object)?)?;
    }
    Ok(PatchObject {
        patch: text_of(alloc, livepatch.name)?,
        file: livepatch.file,
        release: text_of(alloc, livepatch.release)?,
        replaces: match livepatch.patch.replaces {
            Replaces::No => ReplacesWord::No,
            Replaces::Yes => ReplacesWord::Yes,
            Replaces::Unknown => ReplacesWord::Unknown,
        },
        states,
        objects,
    })
}

/// Writes what a patch is by its tables.
pub(crate) fn write_patch<W: Write>(
    alloc: Global,
    livepatch: &Livepatch<'_>,
    out: &mut W,
) -> io::Result<()> {
    let patch = patch_of(alloc, livepatch)?;
    write_line(alloc, &patch, out)
}

fn refusal_of(refusal: Refusal) -> RefusalObject {
    match refusal {
        Refusal::Lacks(installed) => RefusalObject {
            state: installed.id,
            version_of_older: installed.version,
            version_of_newer: None,
        },
        Refusal::Older { own, installed } => RefusalObject {
            state: own.id,
            version_of_older: installed.version,
            version_of_newer: Some(own.version),
        },
    }
}

fn spelled(alloc: Global, functions: &[Changed<'_>]) -> Result<Vec<String>, AllocError> {
    let mut names = Vec::new(alloc);
    for function in functions {
        names.push(Spelled(*function).to_string(alloc)?)?;
    }
    Ok(names)
}

/// Returns the objects of the older patch whose callbacks never run if it is taken out.
fn unrun_of(alloc: Global, pair: Pair<'_, '_>) -> Result<Vec<String>, AllocError> {
    let mut names = Vec::new(alloc);
    for object in &pair.older.patch.objects {
        if has_unpatch_callbacks(object) {
            names.push(text_of(alloc, name_of_row(&object.row))?)?;
        }
    }
    Ok(names)
}

/// Returns an outcome for programs, without what it is if it is only assumed whether the newer patch replaces others.
fn outcome_object(
    alloc: Global,
    pair: Pair<'_, '_>,
    outcome: &Outcome<'_>,
) -> Result<PairObject, AllocError> {
    let (word, refusal, functions, unrun) = match outcome {
        Outcome::Refused(refusal) => (
            OutcomeWord::Refused,
            Some(refusal_of(*refusal)),
            Vec::new(alloc),
            Vec::new(alloc),
        ),
        Outcome::TakenOut(lost) => (
            OutcomeWord::TakenOut,
            None,
            spelled(alloc, lost)?,
            unrun_of(alloc, pair)?,
        ),
        Outcome::Beside(shared) => (
            OutcomeWord::Beside,
            None,
            spelled(alloc, shared)?,
            Vec::new(alloc),
        ),
    };
    Ok(PairObject {
        finding: outcome.is_finding(),
        older: text_of(alloc, pair.older.name)?,
        newer: text_of(alloc, pair.newer.name)?,
        if_it_replaces: None,
        outcome: word,
        refusal,
        functions,
        unrun,
        sentence: OutcomeWords { pair, outcome }.to_string(alloc)?,
    })
}

/// Writes what becomes of the older patch. Where it isn't known whether the newer one replaces those before it, writes an
/// object for either case. Each of them is a finding.
pub(crate) fn write_pair<W: Write>(
    alloc: Global,
    pair: Pair<'_, '_>,
    judgement: &Judgement<'_>,
    out: &mut W,
) -> io::Result<()> {
    let (if_it_replaces, else_it_is) = match judgement {
        Judgement::Known(outcome) => {
            return write_line(alloc, &outcome_object(alloc, pair, outcome)?, out);
        }
        Judgement::Unknown {
            if_it_replaces,
            else_it_is,
        } => (if_it_replaces, else_it_is),
    };
    for (outcome, replaces) in [(if_it_replaces, true), (else_it_is, false)] {
        let mut object = outcome_object(alloc, pair, outcome)?;
        object.finding = true;
        object.if_it_replaces = Some(replaces);
        write_line(alloc, &object, out)?;
    }
    Ok(())
}
