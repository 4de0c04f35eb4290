//! The words of marks, and of faulty ones.

use klp_lint_findings::{MARK_PREFIX, Mark, MarkFault, MarkFaultKind};
use klp_messages::{Quoted, line_at};
use std::fmt;

/// The words of a mark behind its first one.
pub fn reason_of<'a>(text: &'a [u8], mark: &Mark) -> Quoted<'a> {
    let line = line_at(text, mark.line);
    let words = line.strip_prefix(MARK_PREFIX).unwrap_or(&[]);
    let end = words
        .iter()
        .position(|b| *b == b' ' || *b == b'\t')
        .unwrap_or(words.len());
    let reason = words.get(end..).unwrap_or(&[]);
    Quoted(reason.trim_ascii())
}

/// A faulty mark as a message: the line, the mark, and what is wanted in its place. `text` is the catalog.
#[derive(Clone, Copy)]
pub struct MarkFaultWords<'a> {
    pub text: &'a [u8],
    pub fault: MarkFault,
}

impl fmt::Display for MarkFaultWords<'_> {
    fn fmt<W: fmt::Write>(&self, f: &mut fmt::Formatter<W>) -> fmt::Result {
        let MarkFault { kind, line } = self.fault;
        let mark = Quoted(line_at(self.text, line));
        match kind {
            MarkFaultKind::NoForm => write!(
                f,
                "line {line}: BadMark: {mark}: wanted is guessed, unknown or assumed and a reason, fails if there, left out N functions, M targets, or data"
            ),
            MarkFaultKind::Misplaced => write!(
                f,
                "line {line}: BadMark: {mark}: it can't be about the line before it"
            ),
        }
    }
}
