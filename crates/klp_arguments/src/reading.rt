//! Reads the arguments of each program.
ghost use Rattle.std.specs.Prelude.{◌≡◌, ◌⊎◌, [], true, length, map, option_map, string_bytes, Some, IfErr, IfOk, MatchResult};
ghost use Rattle.clap.specs.Words.{all_of, app_of, fault_of, first_of, found_of, is_simple, is_simple_and_free, matches_of, rows_of};
ghost use Rattle.klp_arguments.specs.Asked.{is_given, lint_asked, module_asked, page_asked, see_asked, watch_asked, Ends, EndsBy, EndsWith};
ghost use Rattle.klp_arguments.specs.Asked.{lint_meaning, module_meaning, page_meaning, see_meaning, watch_meaning};
ghost use Rattle.klp_arguments.specs.Asked.{clash, go_together, has_kernel, is_for_catalog, linted_in, modules_in, paged_in, question_of, seen_in, unless_clash, values_in, watched_in};
ghost use Rattle.klp_arguments.specs.Commands.{lint_app, module_app, page_app, see_app, watch_app};

use crate::asked::{LintWords, ModuleQuestion, ModuleWords, PageWords, SeeWords, WatchWords};
use crate::commands::{
    BTF, CATALOG, CUT, FOLDER, FOLLOW, JSON, KERNEL, LIST, LOG, MATRIX, METRICS, MODULE, NAMES,
    PATCH, SCRIPT, SYMBOLS, TRACE, TRACEABLE, lint_command, module_command, page_command,
    see_command, watch_command,
};
use crate::ending::Ending;
use crate::program::Program;
use clap::error::ErrorKind as WordsErrorKind;
use clap::{ArgMatches, Command};
use std::alloc::{AllocError, Global};
use std::io::{ErrorKind, Write};
use std::rt::Env;
use std::{env, io};

/// Returns the arguments that the process was given, without its name. Returns `Err` if an argument isn't text, or if
/// memory runs out.
fn words<R: Env + AllocGlobal>(rt: &R) -> io::Result<Vec<String>> {
    let mut given = Vec::new(rt.alloc());
    for word in env::args(rt)?.skip(1) {
        given.push(word)?;
    }
    Ok(given)
}

/// Returns the arguments that the program was given. If an argument isn't text, or if memory runs out, writes a line to
/// `err` and returns the exit status as `Err`: 2 for an argument that isn't text, and 1 for lack of memory.
pub fn given_words<R: Env + AllocGlobal, W: Write, E: Write>(
    rt: &R,
    program: Program,
    out: &mut W,
    err: &mut E,
) -> Result<Vec<String>, u8>
    ensures { IfErr result (λ status. (status ≡ 1) ⊎ (status ≡ 2)) }
{
    match words(rt) {
        Ok(given) => Ok(given),
        Err(error) if error.kind() == ErrorKind::OutOfMemory => {
            Err(Ending::NoMemory.report(program, out, err))
        }
        Err(_) => Err(Ending::Refused.report(program, out, err)),
    }
}

/// Matches the arguments that a program was given with its command. If they ask for help or the version, if they are
/// refused, or if memory runs out, returns as `Err` how the program ends.
fn matches_in<'a>(command: Command<'a>, given: &'a [String]) -> Result<ArgMatches<'a>, Ending>
    requires walked { is_simple (app_of command) ≡ true }
    requires judged { is_simple_and_free (app_of command) ≡ true }
    ensures { MatchResult result
        (λ matches. (fault_of (app_of command.entry) (map string_bytes given.now) ≡ [])
        × (rows_of (found_of matches) ≡ matches_of (app_of command.entry) (map string_bytes given.now)))
        (λ ending. EndsBy (fault_of (app_of command.entry) (map string_bytes given.now)) ending) }
{
    match command.try_get_matches_from(given) {
        Ok(matches) => Ok(matches),
        Err(error) => Err(match error.kind() {
            WordsErrorKind::DisplayHelp => Ending::Shown(error),
            WordsErrorKind::DisplayVersion => Ending::Shown(error),
            WordsErrorKind::OutOfMemory => Ending::NoMemory,
            _ => Ending::Refused,
        }),
    }
}

/// Returns the value that was given for the argument of this name, the first one if several were given. Returns `None`
/// if the argument has no value.
fn value_of<'a>(matches: &ArgMatches<'a>, name: &str) -> Option<&'a str>
    ensures { option_map (λ value. value.now) result ≡ first_of name.now (rows_of (found_of matches.now)) }
{
    matches.get_str(name)
}

/// Whether an option that takes no value was given. `clap` stores the value `true` for such an option.
fn is_given(matches: &ArgMatches<'_>, name: &str) -> bool
    ensures { result ≡ is_given (first_of name.now (rows_of (found_of matches.now))) }
{
    match value_of(matches, name) {
        Some(value) => value == "true",
        None => false,
    }
}

/// Returns the files of klpwatch from its matched arguments. Returns `None` if one is missing.
fn watched<'a>(matches: &ArgMatches<'a>) -> Option<WatchWords<'a>>
    ensures { option_map watch_meaning result ≡ watched_in (rows_of (found_of matches.now)) }
{
    match (value_of(matches, CATALOG), value_of(matches, TRACE)) {
        (Some(catalog), Some(trace)) => Some(WatchWords { catalog, trace }),
        _ => None,
    }
}

/// Returns what the arguments of klpwatch ask for. If they ask for help or the version, if they are refused, or if
/// memory runs out, returns as `Err` how the program ends.
fn watch_asked<'a>(alloc: Global, given: &'a [String]) -> Result<WatchWords<'a>, Ending>
    ensures { MatchResult result (λ asked. watch_asked (map string_bytes given.now) ≡ Some (watch_meaning asked))
        (λ ending. Ends (fault_of watch_app (map string_bytes given.now)) (watch_asked (map string_bytes given.now)) ending) }
{
    match matches_in(watch_command(alloc)?, given) {
        Ok(matches) => match watched(&matches) {
            Some(asked) => Ok(asked),
            None => Err(Ending::Refused),
        },
        Err(ending) => Err(ending),
    }
}

/// Returns the files of klppage from its matched arguments. If there is a trace, there is no script, and the file in
/// the place of the script is the one with the names. Returns `None` if the catalog, or both trace and script are
/// missing, or if there is a file too many.
fn paged<'a>(matches: &ArgMatches<'a>) -> Option<PageWords<'a>>
    ensures { option_map page_meaning result ≡ paged_in (rows_of (found_of matches.now)) }
{
    let (script, names) = (value_of(matches, SCRIPT), value_of(matches, NAMES));
    match (
        value_of(matches, CATALOG),
        value_of(matches, TRACE),
        script,
        names,
    ) {
        (Some(catalog), None, Some(run), names) => Some(PageWords {
            catalog,
            run,
            is_trace: false,
            names,
        }),
        (Some(catalog), Some(run), names, None) => Some(PageWords {
            catalog,
            run,
            is_trace: true,
            names,
        }),
        _ => None,
    }
}

/// Returns what the arguments of klppage ask for. If they ask for help or the version, if they are refused, or if
/// memory runs out, returns as `Err` how the program ends.
fn page_asked<'a>(alloc: Global, given: &'a [String]) -> Result<PageWords<'a>, Ending>
    ensures { MatchResult result (λ asked. page_asked (map string_bytes given.now) ≡ Some (page_meaning asked))
        (λ ending. Ends (fault_of page_app (map string_bytes given.now)) (page_asked (map string_bytes given.now)) ending) }
{
    match matches_in(page_command(alloc)?, given) {
        Ok(matches) => match paged(&matches) {
            Some(asked) => Ok(asked),
            None => Err(Ending::Refused),
        },
        Err(ending) => Err(ending),
    }
}

/// Returns from the matched arguments of klplint which files it is to judge, and the form of its answer. Returns `None`
/// if the catalog is missing.
fn linted<'a>(matches: &ArgMatches<'a>) -> Option<LintWords<'a>>
    ensures { option_map lint_meaning result ≡ linted_in (rows_of (found_of matches.now)) }
{
    match value_of(matches, CATALOG) {
        Some(catalog) => Some(LintWords {
            catalog,
            script: value_of(matches, SCRIPT),
            is_json: is_given(matches, JSON),
        }),
        None => None,
    }
}

/// Returns what the arguments of klplint ask for. If they ask for help or the version, if they are refused, or if
/// memory runs out, returns as `Err` how the program ends.
fn lint_asked<'a>(alloc: Global, given: &'a [String]) -> Result<LintWords<'a>, Ending>
    ensures { MatchResult result (λ asked. lint_asked (map string_bytes given.now) ≡ Some (lint_meaning asked))
        (λ ending. Ends (fault_of lint_app (map string_bytes given.now)) (lint_asked (map string_bytes given.now)) ending) }
{
    match matches_in(lint_command(alloc)?, given) {
        Ok(matches) => match linted(&matches) {
            Some(asked) => Ok(asked),
            None => Err(Ending::Refused),
        },
        Err(ending) => Err(ending),
    }
}

/// Returns the values that were given for the argument of this name.
fn values_of<'a>(
    alloc: Global,
    matches: &ArgMatches<'a>,
    name: &str,
) -> Result<Vec<&'a str>, AllocError>
    ensures { IfOk result (λ values. map (λ value. value.now) values.items
        ≡ values_in (all_of name.now (rows_of (found_of matches.now)))) }
{
    let mut list = Vec::new(alloc);
    let Some(values) = matches.get_strs(name) else {
        return Ok(list);
    };
    for value in values {
        list.push(*value)?;
    }
    Ok(list)
}

/// Whether what was asked of klpsee goes together. A folder or an answer for programs is for one log alone. A log that is
/// followed is alone, too, and told in words. Numbers are of any logs.
fn go_together(words: &SeeWords<'_>) -> bool
    ensures { result ≡ go_together (length words.now.logs.items) (see_meaning words.now) }
{
    let is_plain = words.folder.is_none() && !words.is_json;
    let count = words.logs.len();
    if words.follows {
        count == 1 && is_plain && !words.is_metrics
    } else if words.is_metrics {
        0 < count && is_plain
    } else {
        count == 1 || 0 < count && is_plain
    }
}

/// Returns from the matched arguments of klpsee which logs it is to explain, the folder for files and the catalog if they
/// are given, and the form of its answer. Returns `None` if no log is given, or if what is asked doesn't go together.
fn seen<'a>(alloc: Global, matches: &ArgMatches<'a>) -> Result<Option<SeeWords<'a>>, AllocError>
    ensures { IfOk result (λ asked. option_map see_meaning asked ≡ seen_in (rows_of (found_of matches.now))) }
{
    let words = SeeWords {
        logs: values_of(alloc, matches, LOG)?,
        folder: value_of(matches, FOLDER),
        catalog: value_of(matches, CATALOG),
        is_json: is_given(matches, JSON),
        follows: is_given(matches, FOLLOW),
        is_metrics: is_given(matches, METRICS),
    };
    if go_together(&words) {
        Ok(Some(words))
    } else {
        Ok(None)
    }
}

/// Returns what the arguments of klpsee ask for. If they ask for help or the version, if they are refused, or if
/// memory runs out, returns as `Err` how the program ends.
fn see_asked<'a>(alloc: Global, given: &'a [String]) -> Result<SeeWords<'a>, Ending>
    ensures { MatchResult result (λ asked. see_asked (map string_bytes given.now) ≡ Some (see_meaning asked))
        (λ ending. Ends (fault_of see_app (map string_bytes given.now)) (see_asked (map string_bytes given.now)) ending) }
{
    match matches_in(see_command(alloc)?, given) {
        Ok(matches) => match seen(alloc, &matches)? {
            Some(asked) => Ok(asked),
            None => Err(Ending::Refused),
        },
        Err(ending) => Err(ending),
    }
}

/// Returns what klpko is to say, by which of its options are given. Returns `None` if they don't go together.
fn question_of(
    lists: bool,
    compares: bool,
    is_json: bool,
    is_for_catalog: bool,
) -> Option<ModuleQuestion>
    ensures { result ≡ question_of lists compares is_json is_for_catalog }
{
    match (lists, compares, is_json, is_for_catalog) {
        (true, false, _, false) => Some(ModuleQuestion::List),
        (false, true, _, false) => Some(ModuleQuestion::Matrix),
        (false, false, false, _) => Some(ModuleQuestion::Catalog),
        _ => None,
    }
}

/// Whether files say something of the kernel: its symbols, modules of it, or which functions can be traced.
fn has_kernel(symbols: Option<&str>, objects: &[&str], traceable: Option<&str>) -> bool
    ensures { result ≡ has_kernel (option_map (λ s. s.now) symbols.entry) (map (λ o. o.now) objects.now) (option_map (λ t. t.now) traceable.entry) }
{
    symbols.is_some() || !objects.is_empty() || traceable.is_some()
}

/// Whether an option is given that is for a catalog alone.
fn is_for_catalog(has_kernel: bool, kernel: Option<&str>, is_cut: bool) -> bool
    ensures { result ≡ is_for_catalog has_kernel (option_map (λ k. k.now) kernel.entry) is_cut }
{
    has_kernel || kernel.is_some() || is_cut
}

/// Whether a kernel's image is given, and beside it what the image has.
fn clash(kernel: Option<&str>, symbols: Option<&str>, traceable: Option<&str>) -> bool
    ensures { result ≡ clash (option_map (λ k. k.now) kernel.entry) (option_map (λ s. s.now) symbols.entry) (option_map (λ t. t.now) traceable.entry) }
{
    kernel.is_some() && (symbols.is_some() || traceable.is_some())
}

fn unless_clash(clashes: bool, question: Option<ModuleQuestion>) -> Option<ModuleQuestion>
    ensures { result ≡ unless_clash clashes question }
{
    if clashes { None } else { question }
}

/// Returns from the matched arguments of klpko which modules it is to read, what it is to say of them, and the form of
/// its answer. Returns `None` if what is asked doesn't go together.
fn modules<'a>(
    alloc: Global,
    matches: &ArgMatches<'a>,
) -> Result<Option<ModuleWords<'a>>, AllocError>
    ensures { IfOk result (λ asked. option_map module_meaning asked ≡ modules_in (rows_of (found_of matches.now))) }
{
    let (is_json, symbols) = (is_given(matches, JSON), value_of(matches, SYMBOLS));
    let (lists, compares) = (is_given(matches, LIST), is_given(matches, MATRIX));
    let (objects, traceable) = (
        values_of(alloc, matches, MODULE)?,
        value_of(matches, TRACEABLE),
    );
    let (kernel, is_cut) = (value_of(matches, KERNEL), is_given(matches, CUT));
    let has_kernel = has_kernel(symbols, &objects, traceable);
    let is_for_catalog = is_for_catalog(has_kernel, kernel, is_cut);
    let asked = question_of(lists, compares, is_json, is_for_catalog);
    let Some(question) = unless_clash(clash(kernel, symbols, traceable), asked) else {
        return Ok(None);
    };
    Ok(Some(ModuleWords {
        modules: values_of(alloc, matches, PATCH)?,
        question,
        is_json,
        layout: value_of(matches, BTF),
        symbols,
        objects,
        traceable,
        kernel,
        is_cut,
    }))
}

/// Returns what the arguments of klpko ask for. If they ask for help or the version, if they are refused, or if
/// memory runs out, returns as `Err` how the program ends.
fn module_asked<'a>(alloc: Global, given: &'a [String]) -> Result<ModuleWords<'a>, Ending>
    ensures { MatchResult result (λ asked. module_asked (map string_bytes given.now) ≡ Some (module_meaning asked))
        (λ ending. Ends (fault_of module_app (map string_bytes given.now)) (module_asked (map string_bytes given.now)) ending) }
{
    match matches_in(module_command(alloc)?, given) {
        Ok(matches) => match modules(alloc, &matches)? {
            Some(asked) => Ok(asked),
            None => Err(Ending::Refused),
        },
        Err(ending) => Err(ending),
    }
}

/// Reads the arguments of klpwatch. If they ask for help or the version, writes it to `out`. If they are refused, or if
/// memory runs out, writes a line to `err`. In these cases klpwatch doesn't run, and the exit status is returned as
/// `Err`.
pub fn watch_words<'a, W: Write, E: Write>(
    alloc: Global,
    given: &'a [String],
    out: &mut W,
    err: &mut E,
) -> Result<WatchWords<'a>, u8>
    ensures { MatchResult result (λ asked. watch_asked (map string_bytes given.now) ≡ Some (watch_meaning asked))
        (λ status. EndsWith (fault_of watch_app (map string_bytes given.now)) (watch_asked (map string_bytes given.now)) status) }
{
    match watch_asked(alloc, given) {
        Ok(asked) => Ok(asked),
        Err(ending) => Err(ending.report(Program::Klpwatch, out, err)),
    }
}

/// Reads the arguments of klppage, as [`watch_words`] does those of klpwatch.
pub fn page_words<'a, W: Write, E: Write>(
    alloc: Global,
    given: &'a [String],
    out: &mut W,
    err: &mut E,
) -> Result<PageWords<'a>, u8>
    ensures { MatchResult result (λ asked. page_asked (map string_bytes given.now) ≡ Some (page_meaning asked))
        (λ status. EndsWith (fault_of page_app (map string_bytes given.now)) (page_asked (map string_bytes given.now)) status) }
{
    match page_asked(alloc, given) {
        Ok(asked) => Ok(asked),
        Err(ending) => Err(ending.report(Program::Klppage, out, err)),
    }
}

/// Reads the arguments of klplint, as [`watch_words`] does those of klpwatch.
pub fn lint_words<'a, W: Write, E: Write>(
    alloc: Global,
    given: &'a [String],
    out: &mut W,
    err: &mut E,
) -> Result<LintWords<'a>, u8>
    ensures { MatchResult result (λ asked. lint_asked (map string_bytes given.now) ≡ Some (lint_meaning asked))
        (λ status. EndsWith (fault_of lint_app (map string_bytes given.now)) (lint_asked (map string_bytes given.now)) status) }
{
    match lint_asked(alloc, given) {
        Ok(asked) => Ok(asked),
        Err(ending) => Err(ending.report(Program::Klplint, out, err)),
    }
}

/// Reads the arguments of klpsee, as [`watch_words`] does those of klpwatch.
pub fn see_words<'a, W: Write, E: Write>(
    alloc: Global,
    given: &'a [String],
    out: &mut W,
    err: &mut E,
) -> Result<SeeWords<'a>, u8>
    ensures { MatchResult result (λ asked. see_asked (map string_bytes given.now) ≡ Some (see_meaning asked))
        (λ status. EndsWith (fault_of see_app (map string_bytes given.now)) (see_asked (map string_bytes given.now)) status) }
{
    match see_asked(alloc, given) {
        Ok(asked) => Ok(asked),
        Err(ending) => Err(ending.report(Program::Klpsee, out, err)),
    }
}

/// Reads the arguments of klpko, as [`watch_words`] does those of klpwatch.
pub fn module_words<'a, W: Write, E: Write>(
    alloc: Global,
    given: &'a [String],
    out: &mut W,
    err: &mut E,
) -> Result<ModuleWords<'a>, u8>
    ensures { MatchResult result (λ asked. module_asked (map string_bytes given.now) ≡ Some (module_meaning asked))
        (λ status. EndsWith (fault_of module_app (map string_bytes given.now)) (module_asked (map string_bytes given.now)) status) }
{
    match module_asked(alloc, given) {
        Ok(asked) => Ok(asked),
        Err(ending) => Err(ending.report(Program::Klpko, out, err)),
    }
}
