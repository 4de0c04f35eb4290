//! Findings as programs read them.

use crate::words::Sentence;
use klp_lint_findings::{FindingKind, Linted, Said, World};
use serde::Serialize;
use std::alloc::{AllocError, Global};
use std::io;
use std::io::Write;

/// The world in which a finding holds, if it doesn't hold in both that were judged.
#[derive(Clone, Copy, Serialize)]
#[serde(rename_all = "kebab-case")]
enum WorldWord {
    WithoutModules,
    WithModules,
}

/// A finding as programs read it. Names and numbers that the finding isn't about are left out.
#[derive(Drop, Serialize)]
struct FindingObject<'a> {
    kind: FindingKind,
    finding: bool,
    catalog: &'a str,
    #[serde(skip_serializing_if = "Option::is_none")]
    line: Option<u64>,
    #[serde(skip_serializing_if = "Option::is_none")]
    patch: Option<&'a str>,
    #[serde(skip_serializing_if = "Option::is_none")]
    object: Option<&'a str>,
    /// The parent object and the id of a shadow variable.
    #[serde(skip_serializing_if = "Option::is_none")]
    key: Option<(u64, u64)>,
    #[serde(skip_serializing_if = "Option::is_none")]
    state: Option<u64>,
    /// The names of other patches.
    #[serde(skip_serializing_if = "Vec::is_empty")]
    others: Vec<&'a str>,
    #[serde(skip_serializing_if = "Option::is_none")]
    world: Option<WorldWord>,
    sentence: String,
}

/// The word for a world. `None` if the finding holds wherever it was judged.
fn world_word(world: World) -> Option<WorldWord> {
    match world {
        World::Each => None,
        World::WithoutModules => Some(WorldWord::WithoutModules),
        World::WithModules => Some(WorldWord::WithModules),
    }
}

/// A finding as programs read it. `Err` if memory runs out.
fn object_of<'a>(
    alloc: Global,
    linted: Linted<'a>,
    said: Said,
) -> Result<FindingObject<'a>, AllocError> {
    let about = said.about;
    let mut others = Vec::new(alloc);
    for other in about.others.as_slice() {
        others.push(linted.patch_name(*other))?;
    }
    Ok(FindingObject {
        kind: about.kind,
        finding: said.finding.decides(),
        catalog: linted.input.catalog.name,
        line: about.line,
        patch: about.patch.map(|patch| linted.patch_name(patch)),
        object: about.object.map(|object| linted.object_name(object)),
        key: about.key.map(|key| (key.obj, key.id)),
        state: about.state,
        others,
        world: world_word(said.world),
        sentence: Sentence { linted, said }.to_string(alloc)?,
    })
}

/// Writes a finding as an object of JSON, in a line.
pub(crate) fn write_object<W: Write>(
    alloc: Global,
    linted: Linted<'_>,
    said: Said,
    out: &mut W,
) -> io::Result<()> {
    let object = object_of(alloc, linted, said)?;
    match serde_json::to_string(alloc, &object) {
        Ok(text) => writeln!(out, "{text}"),
        Err(_) => Err(io::Error::from(io::ErrorKind::OutOfMemory)),
    }
}
