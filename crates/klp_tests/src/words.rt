//! Examples of the program's arguments: which arguments are refused, and what the accepted ones ask for.
use klp_program::{Wanted, parse_arguments};
use std::alloc::{AllocError, Global};

/// Arguments and their meaning, with the files that they name.
const CASES: &str = "\
console => console
 => console
console fix.catalog => console fix.catalog
console - => console -
console -- -x => console -x
live fix.catalog steps => live fix.catalog steps
live - - => live - -
--help => usage
-h => usage
help => usage
-V => usage
--version => usage
fix.catalog => usage
console fix.catalog more => usage
console --help => usage
console -x => usage
live => usage
live fix.catalog => usage
live fix.catalog steps more => usage
live fix.catalog -x => usage
live --help => usage
";

fn put_words(alloc: Global, given: &mut Vec<String>, words: &str) -> Result<(), AllocError> {
    for word in words.split(' ').filter(|word| !word.is_empty()) {
        given.push(String::from_str(alloc, word)?)?;
    }
    Ok(())
}

/// What these arguments ask for, as a case spells it.
fn wanted_words(alloc: Global, words: &Wanted) -> Result<String, AllocError> {
    match words {
        Wanted::Console(None) => String::from_str(alloc, "console"),
        Wanted::Console(Some(catalog)) => format!(in alloc; "console {catalog}"),
        Wanted::Live(catalog, steps) => format!(in alloc; "live {catalog} {steps}"),
    }
}

/// Whether the arguments `given` ask for what `wanted` says. Standard error must have a line if they are refused, and
/// no line if they aren't.
fn is_answer(alloc: Global, given: &[String], wanted: &str) -> Result<bool, AllocError> {
    let mut err = Vec::new(alloc);
    Ok(match parse_arguments(alloc, given, &mut err) {
        Ok(words) => wanted_words(alloc, &words)?.as_str() == wanted && err.is_empty(),
        Err(status) => {
            status == 2 && wanted == "usage" && err.as_slice() == b"klpsim: usage\n".as_slice()
        }
    })
}

fn is_case(alloc: Global, case: &str) -> Result<bool, AllocError> {
    let (words, wanted) = case.split_once(" => ").unwrap_or((case, ""));
    let mut given = Vec::new(alloc);
    put_words(alloc, &mut given, words)?;
    is_answer(alloc, &given, wanted)
}

#[test]
fn words_name_files_or_none_or_are_refused(rt: HostRuntime) {
    for case in CASES.lines() {
        let holds = is_case(rt.alloc(), case);
        assert!(rt; holds == Ok(true), "{case}");
    }
}
