//! Writes the list of findings, part by part, and in each part patch by patch.

use crate::json::write_object;
use crate::words::Sentence;
use klp_lint_findings::{Findings, Linted, PARTS, Part, Said, patch_id};
use klp_messages::Escaped;
use klp_types::PatchId;
use std::alloc::Global;
use std::io;
use std::io::Write;

/// The form of an answer: a line of words for each finding, or an object of JSON, which also has one line.
#[derive(Clone, Copy, PartialEq, Eq)]
pub enum Form {
    Words,
    /// Words with the first one in colour, for a terminal.
    ColoredWords,
    Json,
}

/// The word with which the line of a finding begins. At a terminal that of a finding is red, and that of a remark dim.
fn first_word(is_finding: bool, is_colored: bool) -> &'static str {
    match (is_finding, is_colored) {
        (true, false) => "finding:",
        (false, false) => "remark:",
        (true, true) => "\x1b[1;31mfinding:\x1b[0m",
        (false, true) => "\x1b[2mremark:\x1b[0m",
    }
}

/// Writes a finding as a line of words.
fn write_words<W: Write>(
    linted: Linted<'_>,
    said: Said,
    is_colored: bool,
    out: &mut W,
) -> io::Result<()> {
    let about = said.about;
    let word = first_word(said.finding.decides(), is_colored);
    let name = Escaped(linted.input.catalog.name.as_bytes());
    let sentence = Sentence { linted, said };
    match (about.line, about.patch) {
        (Some(line), Some(patch)) => {
            let patch = linted.patch_name(patch);
            writeln!(out, "{word} {name}: line {line}: {patch}: {sentence}")
        }
        _ => writeln!(out, "{word} {name}: {sentence}"),
    }
}

/// Writes a finding in this form.
fn write_said<W: Write>(
    alloc: Global,
    form: Form,
    linted: Linted<'_>,
    said: Said,
    out: &mut W,
) -> io::Result<()> {
    match form {
        Form::Words => write_words(linted, said, false, out),
        Form::ColoredWords => write_words(linted, said, true, out),
        Form::Json => write_object(alloc, linted, said, out),
    }
}

/// Writes the findings of a part about a patch, or those about no patch.
fn write_about<W: Write>(
    alloc: Global,
    form: Form,
    found: &Findings<'_>,
    part: Part,
    patch: Option<PatchId>,
    out: &mut W,
) -> io::Result<()> {
    for said in found.said.as_slice() {
        if said.part() == part && said.about.patch == patch {
            if let Some(shown) = found.shown(said) {
                write_said(alloc, form, found.linted, shown, out)?;
            }
        }
    }
    Ok(())
}

/// Writes all findings.
pub(crate) fn write_findings<W: Write>(
    alloc: Global,
    form: Form,
    found: &Findings<'_>,
    out: &mut W,
) -> io::Result<()> {
    for part in PARTS {
        for number in 0..found.linted.patches.len() {
            write_about(alloc, form, found, part, Some(patch_id(number)), out)?;
        }
        write_about(alloc, form, found, part, None, out)?;
    }
    Ok(())
}
