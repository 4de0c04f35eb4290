//! The program. It is the one as which it is called: `klpwatch`, `klppage`, `klplint`, `klpsee` or `klpko`, or else
//! `klpsim`. As `klpsim` it boots a manager over a catalog, and answers console lines from standard input on standard output. Or
//! it lets two task threads run the steps of a file.
#![tactic(auto)]

mod called;
mod synopsis;
mod typed;

ghost use Rattle.std.specs.Prelude.{◌≡◌, ◌⊎◌, ℕ, List, Option, None, IfErr};
ghost use Rattle.klp_program.specs.declared.sample.TheConstants.{CATALOG};
ghost use Rattle.klp_program.specs.Runs.{IsServed};
ghost use Rattle.klp_live_run.specs.Living.{Exits};

use crate::called::{CalledProgram, program_called};
use crate::synopsis::write_synopsis;
use crate::typed::{NAME, TypedLines};
use klp_diagnostics::hint_file;
use klp_live_run::live;
use klp_program::{
    Wanted, bytes_in, bytes_in_both, catalog_in, console, parse_arguments, program_arguments,
    report_fault,
};
use std::io;
use std::io::{Input, IsTerminal, Write};
use std::process::ExitCode;
use std::rt::Files;
use std::sync::Wait;
use std::thread::Threads;

/// The exit status if a file is faulty or can't be read, a line is too long, or memory ran out.
const FAULT: u8 = 1;

/// The exit status if the arguments are refused.
const USAGE: u8 = 2;

// Whether lines are typed at a terminal, and hints at them can be read there.
fn is_typed(rt: &HostRuntime) -> bool {
    rt.stdin().is_terminal() && rt.stderr().is_terminal()
}

// At a terminal, hints at files without which the program ended with this status: its fault names none. Returns the status.
fn with_hints(rt: &HostRuntime, status: u8, files: &[&str]) -> u8
    ensures { result ≡ status }
{
    if status == FAULT && rt.stderr().is_terminal() {
        for file in files {
            hint_file(rt, NAME, file, &mut rt.stderr());
        }
    }
    status
}

// Serves standard input over a catalog's text. Returns the exit status.
fn serve_text(rt: &HostRuntime, catalog: &Vec<u8>) -> u8
    ensures { IsServed catalog.now.items result }
{
    let (is_typed, out) = (is_typed(rt), io::writer(rt));
    let hints = is_typed.then_some(rt.stderr());
    let input = TypedLines::new(rt.alloc(), rt.reader(), hints, catalog);
    console(rt.alloc(), catalog, input, out, &mut rt.stderr()).0
}

// Serves standard input over the built-in catalog. Returns the exit status. It is 1 also if memory runs out.
fn serve_built_in(rt: &HostRuntime) -> u8
    ensures { (result ≡ 1) ⊎ IsServed CATALOG.now result }
{
    match catalog_in(rt, None) {
        Ok(catalog) => serve_text(rt, &catalog),
        Err(fault) => report_fault(fault, &mut rt.stderr()),
    }
}

// Serves standard input over the catalog in this file. Returns the exit status. It is 1 also if the catalog can't be read.
fn serve_file(rt: &HostRuntime, path: &str) -> u8
    ensures { (result ≡ 1) ⊎ ((text : List ℕ) × IsServed text result) }
{
    match bytes_in(rt, path) {
        Ok(catalog) => serve_text(rt, &catalog),
        Err(fault) => report_fault(fault, &mut rt.stderr()),
    }
}

// Lets two tasks run the steps of a file over a catalog, and writes the result to standard output. Returns the exit
// status. It is 1 also if a file can't be read. The function gets its own handle, since only in `main` does the runtime
// have threads.
fn race<R: Threads + Wait + Sync + Files + Print + AllocGlobal, E: Write>(
    rt: &R,
    catalog: &str,
    steps: &str,
    err: &mut E,
) -> u8
    ensures { (result ≡ 1) ⊎ ((first : List ℕ) × (second : List ℕ) × (before : Option (List ℕ))
        × (after : Option (List ℕ))
        × Exits first second before after result) }
{
    match bytes_in_both(rt, catalog, steps) {
        Ok((catalog, steps)) => live(rt, rt.alloc(), &catalog, &steps, &mut io::writer(rt), err),
        Err(fault) => report_fault(fault, err),
    }
}

// Returns what the arguments ask for. If they are refused, as are those that aren't text, returns the exit status as
// `Err`.
fn wanted(rt: &HostRuntime) -> Result<Wanted, u8>
    ensures { IfErr result (λ status. (status ≡ 1) ⊎ (status ≡ 2)) }
{
    let mut err = rt.stderr();
    let given = program_arguments(rt, &mut err)?;
    parse_arguments(rt.alloc(), &given, &mut err)
}

// Returns the exit status of refused arguments, behind which standard error has how klpsim is called.
fn refused(rt: &HostRuntime, status: u8) -> u8
    ensures { result ≡ status }
{
    if status == USAGE {
        write_synopsis(&mut rt.stderr());
    }
    status
}

fn main(rt: HostRuntime) -> ExitCode {
    let status = match program_called(&rt) {
        CalledProgram::Klpsim => match wanted(&rt) {
            Ok(Wanted::Console(None)) => serve_built_in(&rt),
            Ok(Wanted::Console(Some(path))) => {
                let status = serve_file(&rt, path.as_str());
                with_hints(&rt, status, &[path.as_str()])
            }
            Ok(Wanted::Live(catalog, steps)) => {
                let status = race(&rt, catalog.as_str(), steps.as_str(), &mut rt.stderr());
                with_hints(&rt, status, &[catalog.as_str(), steps.as_str()])
            }
            Err(status) => refused(&rt, status),
        },
        CalledProgram::Klpwatch => klpwatch::run(&rt),
        CalledProgram::Klppage => klppage::run(&rt),
        CalledProgram::Klplint => klplint::run(&rt),
        CalledProgram::Klpsee => klpsee::run(&rt),
        CalledProgram::Klpko => klpko::run(&rt),
    };
    ExitCode::from(status)
}
