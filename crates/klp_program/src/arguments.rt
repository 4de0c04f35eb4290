ghost use Rattle.std.specs.Prelude.{◌≡◌, ◌⊎◌, map, string_bytes, Some, None, option_map, IfOk, IfErr};
ghost use Rattle.clap.specs.Words.{first_of, found_of, rows_of, subcommand_rows_of};
ghost use Rattle.klp_program.specs.Asked.{asked_of, meaning};
ghost use Rattle.klp_program.specs.Commands.{asked_in, console_app, klpsim_app, live_app, IsCommand};

use crate::wanted::Wanted;
use clap::error::ErrorKind as WordsErrorKind;
use clap::{Arg, ArgMatches, Command};
use klp_boot::Fault;
use std::alloc::{AllocError, Global};
use std::io::{ErrorKind, Write};
use std::rt::Env;
use std::{env, io};

/// The name by which the program calls itself.
const NAME: &str = "klpsim";

/// The command that runs two task threads. The names of its arguments follow in the code below.
const LIVE: &str = "live";

const CATALOG: &str = "CATALOG";

const STEPS: &str = "STEPS";

/// The exit status if the program's arguments are refused.
const USAGE: u8 = 2;

/// The status of any other fault.
const FAULT: u8 = 1;

/// Returns klpsim's command `console`. The command has one argument, the catalog's file, which may be left out.
fn console_command<'a>(alloc: Global) -> Result<Command<'a>, AllocError>
    ensures { IfOk result (λ command. IsCommand command console_app) }
{
    Command::new(alloc, "console").arg(Arg::new(alloc, CATALOG))
}

/// Returns klpsim's command `live`. The command needs two arguments: the files of the catalog and of the steps.
fn live_command<'a>(alloc: Global) -> Result<Command<'a>, AllocError>
    ensures { IfOk result (λ command. IsCommand command live_app) }
{
    Command::new(alloc, LIVE)
        .arg(Arg::new(alloc, CATALOG).required(true))?
        .arg(Arg::new(alloc, STEPS).required(true))
}

/// Returns klpsim's command line, with its subcommands `console` and `live`. The command line begins with the
/// subcommand, not with the program's name.
fn command<'a>(alloc: Global) -> Result<Command<'a>, AllocError>
    ensures { IfOk result (λ command. IsCommand command klpsim_app) }
{
    let console = console_command(alloc)?;
    let command = Command::new(alloc, NAME)
        .no_binary_name(true)
        .subcommand(console)?;
    command.subcommand(live_command(alloc)?)
}

/// Returns the path that was given for the argument of this name. Returns `None` if no path was given, and `Err` if
/// memory runs out.
fn path_of(
    alloc: Global,
    matches: &ArgMatches<'_>,
    name: &str,
) -> Result<Option<String>, AllocError>
    ensures { IfOk result (λ path. option_map string_bytes path ≡ first_of name.now (rows_of (found_of matches.now))) }
{
    match matches.get_str(name) {
        Some(path) => Ok(Some(String::from_str(alloc, path)?)),
        None => Ok(None),
    }
}

/// Returns what the matched arguments ask for: without a subcommand, the console with the built-in catalog. Returns
/// `None` if a file of `live` is missing, and `Err` if memory runs out.
fn wanted(alloc: Global, matches: &ArgMatches<'_>) -> Result<Option<Wanted>, AllocError>
    ensures { IfOk result (λ words. option_map meaning words ≡ asked_in (subcommand_rows_of matches.now)) }
{
    let Some((name, given)) = matches.subcommand() else {
        return Ok(Some(Wanted::Console(None)));
    };
    let catalog = path_of(alloc, given, CATALOG)?;
    if name != LIVE {
        return Ok(Some(Wanted::Console(catalog)));
    }
    match (catalog, path_of(alloc, given, STEPS)?) {
        (Some(catalog), Some(steps)) => Ok(Some(Wanted::Live(catalog, steps))),
        _ => Ok(None),
    }
}

/// Returns the arguments that the process was given, without its name. Returns `Err` if an argument isn't text, or if
/// memory runs out.
fn words_given<R: Env + AllocGlobal>(rt: &R) -> io::Result<Vec<String>> {
    let mut given = Vec::new(rt.alloc());
    for word in env::args(rt)?.skip(1) {
        given.push(word)?;
    }
    Ok(given)
}

/// Returns the arguments that klpsim was given, for `parse_arguments` to read. If an argument isn't text, or if memory
/// runs out, writes a line to `err` and returns the exit status as `Err`. The exit status is 2 for an argument that
/// isn't text, and 1 for lack of memory.
pub fn program_arguments<R: Env + AllocGlobal, W: Write>(
    rt: &R,
    err: &mut W,
) -> Result<Vec<String>, u8>
    ensures { IfErr result (λ status. (status ≡ 1) ⊎ (status ≡ 2)) }
{
    match words_given(rt) {
        Ok(given) => Ok(given),
        Err(error) if error.kind() == ErrorKind::OutOfMemory => {
            Err(report_fault(Fault::NoMemory, err))
        }
        Err(_) => Err(report_usage(err)),
    }
}

/// Returns what klpsim's arguments ask for. Returns `Err(None)` if they are refused, and `Err` with a fault if memory
/// runs out.
fn parse(alloc: Global, given: &[String]) -> Result<Wanted, Option<Fault>>
    ensures meant { IfOk result (λ words. asked_of (map string_bytes given.now) ≡ Some (meaning words)) }
    ensures refused { IfErr result (λ fault. fault ≡ None → asked_of (map string_bytes given.now) ≡ None) }
{
    let command = command(alloc).map_err(|_| Some(Fault::NoMemory))?;
    match command.try_get_matches_from(given) {
        Ok(matches) => match wanted(alloc, &matches) {
            Ok(Some(words)) => Ok(words),
            Ok(None) => Err(None),
            Err(_) => Err(Some(Fault::NoMemory)),
        },
        Err(error) if error.kind() == WordsErrorKind::OutOfMemory => Err(Some(Fault::NoMemory)),
        Err(_) => Err(None),
    }
}

/// Returns what klpsim's arguments ask for. If they are refused, or if memory runs out, writes a line to `err` and
/// returns the exit status as `Err`. The exit status is 2 for refused arguments, and 1 for lack of memory. `--help` is
/// refused too.
pub fn parse_arguments<W: Write>(alloc: Global, given: &[String], err: &mut W) -> Result<Wanted, u8>
    ensures meant { IfOk result (λ words. asked_of (map string_bytes given.now) ≡ Some (meaning words)) }
    ensures refused { IfErr result (λ status. status ≡ 2 → asked_of (map string_bytes given.now) ≡ None) }
    ensures status { IfErr result (λ status. (status ≡ 1) ⊎ (status ≡ 2)) }
{
    match parse(alloc, given) {
        Ok(words) => Ok(words),
        Err(Some(fault)) => Err(report_fault(fault, err)),
        Err(None) => Err(report_usage(err)),
    }
}

/// Writes a fault to `err`, as a line of klpsim. Returns the exit status, 1.
pub fn report_fault<W: Write>(fault: Fault, err: &mut W) -> u8
    ensures { result ≡ 1 }
{
    report_fault_as(NAME, fault, err)
}

/// Writes the line `klpsim: usage` to `err`, which says that klpsim's arguments are refused. Returns the exit status,
/// 2.
pub fn report_usage<W: Write>(err: &mut W) -> u8
    ensures { result ≡ 2 }
{
    let _ = writeln!(err, "{NAME}: usage");
    USAGE
}

/// Writes a fault to `err`, as a line of the program `name`. Returns the exit status, 1.
pub fn report_fault_as<W: Write>(name: &str, fault: Fault, err: &mut W) -> u8
    ensures { result ≡ 1 }
{
    let _ = writeln!(err, "{name}: {fault}");
    FAULT
}
