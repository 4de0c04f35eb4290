//! The program `klplint`. It boots a manager over a catalog, and serves a script. Then it writes to standard output
//! whether each patch would leave a trace after it was withdrawn, and what becomes of patches that are loaded over
//! others. What is wrong with the files, and where, goes to standard error.
#![tactic(auto)]

ghost use Rattle.std.specs.Prelude.{◌≡◌};
ghost use Rattle.klp_lint_worlds.specs.Whole.{IsCleanText};

use klp_arguments::{LintWords, Program, given_words, lint_words};
use klp_diagnostics::{FileKind, FileText, Inputs, file_in, only_one_input};
use klp_lint_remarks::{Form, LintFault, LintInput, NamedText, lint_over_text, print_mark_fault};
use std::alloc::Global;
use std::env::FillError;
use std::io;
use std::io::{IsTerminal, Write};
use std::rt::Env;

/// The name of the program in its messages.
const NAME: &str = "klplint";

/// The exit status of a catalog without findings. Behind it follows that of one with findings.
const CLEAN: u8 = 0;

const FINDINGS: u8 = 3;

/// The exit status of a faulty mark, as of each other fault.
const FAULT: u8 = 1;

// Whether the user wants no colours, at any terminal: the variable NO_COLOR is set, and not empty.
fn has_no_color(rt: &HostRuntime) -> bool {
    let mut first = [0u8; 1];
    !matches!(
        rt.var("NO_COLOR", &mut first),
        Err(FillError::NotPresent) | Ok(0)
    )
}

// Returns the form of the answer: for programs, or in words, which are coloured at a terminal.
fn form_of(rt: &HostRuntime, is_json: bool) -> Form {
    if is_json {
        Form::Json
    } else if rt.stdout().is_terminal() && !has_no_color(rt) {
        Form::ColoredWords
    } else {
        Form::Words
    }
}

// Returns the bytes of the script. Returns no bytes if there is no script.
fn script_in<E: Write>(rt: &HostRuntime, script: Option<&str>, err: &mut E) -> Result<Vec<u8>, u8> {
    match script {
        Some(name) => file_in(rt, NAME, name, err),
        None => Ok(Vec::new(rt.alloc())),
    }
}

/// What is judged: the catalog, behind the script if one is given.
fn input_of<'a>(inputs: &Inputs<'a>, has_script: bool) -> LintInput<'a> {
    let FileText { name, bytes } = inputs.catalog;
    let catalog = NamedText { name, bytes };
    let FileText { name, bytes } = inputs.second;
    let script = NamedText { name, bytes };
    LintInput {
        catalog,
        script: if has_script { Some(script) } else { None },
    }
}

// Writes the findings to `out`. If there is a fault, writes to `err` where it is. Returns the exit status. If it is 0, each
// patch of the catalog is ready in the worlds that are judged: it can be loaded, and leaves no trace.
fn lint<W: Write, E: Write>(
    alloc: Global,
    inputs: &Inputs<'_>,
    input: LintInput<'_>,
    form: Form,
    out: &mut W,
    err: &mut E,
) -> u8
    ensures { result ≡ 0 → IsCleanText input.entry.catalog.bytes.now input.entry.script }
{
    if input.script.is_some() {
        inputs.hint_misspelled(alloc, err);
    }
    match lint_over_text(alloc, input, form, out) {
        Ok(true) => CLEAN,
        Ok(false) => FINDINGS,
        Err(LintFault::Program(fault)) => inputs.print_fault(alloc, fault, err).max(FAULT),
        Err(LintFault::Mark(fault)) => {
            print_mark_fault(NAME, input, fault, err);
            FAULT
        }
    }
}

// Returns the program's exit status. Returns it as `Err` if the arguments are refused, or if a file can't be read.
fn status_in(rt: &HostRuntime) -> Result<u8, u8> {
    let (mut out, mut err) = (io::writer(rt), rt.stderr());
    let given = given_words(rt, Program::Klplint, &mut out, &mut err)?;
    let LintWords {
        catalog,
        script,
        is_json,
    } = lint_words(rt.alloc(), &given, &mut out, &mut err)?;
    only_one_input(NAME, catalog, script.unwrap_or(""), &mut err)?;
    let first = file_in(rt, NAME, catalog, &mut err)?;
    let second = script_in(rt, script, &mut err)?;
    let inputs = Inputs {
        program: NAME,
        catalog: FileText {
            name: catalog,
            bytes: &first,
        },
        second: FileText {
            name: script.unwrap_or(""),
            bytes: &second,
        },
        kind: FileKind::Script,
    };
    let input = input_of(&inputs, script.is_some());
    Ok(lint(
        rt.alloc(),
        &inputs,
        input,
        form_of(rt, is_json),
        &mut out,
        &mut err,
    ))
}

/// Runs the program, and returns the exit status.
pub fn run(rt: &HostRuntime) -> u8 {
    let (Ok(status) | Err(status)) = status_in(rt);
    status
}
