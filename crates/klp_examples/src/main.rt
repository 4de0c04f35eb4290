//! Runs the scripts of the examples, also without memory. After that, measures the costs of an event and of the whole
//! program. The program must run in the folder of its data. Its argument is the number of rounds that are measured. The
//! gate runs one round, and then no time is written.
#![tactic(auto)]

mod bench;
mod case;
mod events;
mod examples;
mod few;
mod hoard;
mod measured;
mod scarce;
mod starved;
mod tally;
mod time;
mod whole;

use crate::hoard::Hoard;
use crate::tally::Tally;
use std::process::ExitCode;
use std::rt::{Clock, Env, Files};
use std::{env, fs, io};

/// Whether all examples print their output. Writes how many examples do and how many don't.
fn hold<R: Clock + Files + Print + AllocGlobal>(rt: &R) -> io::Result<bool> {
    let index = fs::read_to_string(rt, "index")?;
    let mut tally = Tally::new();
    examples::run(rt, index.as_str(), &mut tally)?;
    tally.print_tally(rt, "scripts print what is written", "don't")
}

/// Whether all examples print their output even if so little memory is left that a script can take all of it.
fn hold_besieged<R: Clock + Files + Print + AllocGlobal>(rt: &R) -> io::Result<bool> {
    let _besieged = Hoard::siege(rt.alloc())?;
    hold(rt)
}

/// Returns how many rounds are measured.
fn rounds<R: Env + AllocGlobal>(rt: &R) -> io::Result<u32> {
    Ok(match env::args(rt)?.nth(1) {
        Some(word) => word.as_str().parse::<u32>().unwrap_or(1),
        None => 1,
    })
}

fn main(rt: HostRuntime) -> io::Result<ExitCode> {
    let rounds = rounds(&rt)?;
    let hold = hold_besieged(&rt)?;
    let is_reported = scarce::run(&rt)?;
    bench::run(&rt, rounds)?;
    Ok(if hold && is_reported {
        ExitCode::SUCCESS
    } else {
        ExitCode::FAILURE
    })
}
