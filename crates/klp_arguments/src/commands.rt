//! The command of each program, by which `clap` reads its arguments and writes its help.
ghost use Rattle.std.specs.Prelude.{◌≡◌, IfOk};
ghost use Rattle.clap.specs.Words.{app_of, new_rule};
ghost use Rattle.klp_arguments.specs.Commands.{answer_app, bare, flag, folder, follow, json, kernel, known, known_app, layout, lint_app, logs, metrics};
ghost use Rattle.klp_arguments.specs.Commands.{module_app, name_of, objects, page_app, patches, question_app, required, see_app, symbols, table_app};
ghost use Rattle.klp_arguments.specs.Commands.{trace, traceable, valued, watch_app, IsArg};
ghost use Rattle.klp_arguments.specs.Commands.{IsCommand};

use crate::program::Program;
use crate::version::version_text;
use clap::{Arg, ArgAction, Command};
use std::alloc::{AllocError, Global};

pub(crate) const CATALOG: &str = "CATALOG";

pub(crate) const TRACE: &str = "TRACE";

/// The script of `klppage` or `klplint`. If `klppage` has a trace, the file in this place is the one with the names.
pub(crate) const SCRIPT: &str = "SCRIPT";

pub(crate) const NAMES: &str = "NAMES";

pub(crate) const LOG: &str = "LOG";

pub(crate) const FOLDER: &str = "FOLDER";

pub(crate) const JSON: &str = "JSON";

pub(crate) const FOLLOW: &str = "FOLLOW";

pub(crate) const METRICS: &str = "METRICS";

pub(crate) const PATCH: &str = "PATCH";

pub(crate) const LIST: &str = "LIST";

pub(crate) const MATRIX: &str = "MATRIX";

pub(crate) const SYMBOLS: &str = "SYMBOLS";

pub(crate) const MODULE: &str = "MODULE";

pub(crate) const TRACEABLE: &str = "TRACEABLE";

pub(crate) const KERNEL: &str = "KERNEL";

pub(crate) const CUT: &str = "CUT";

pub(crate) const BTF: &str = "BTF";

/// Returns the command of a program with its version and the texts of its help, but without arguments. The words that it
/// matches begin after the program's name.
fn command_of<'a>(alloc: Global, program: Program) -> Command<'a>
    ensures { app_of result ≡ bare (name_of program) }
{
    Command::new(alloc, program.name())
        .no_binary_name(true)
        .version(version_text())
        .about(program.about())
        .override_usage(program.usage())
        .after_help(program.more())
}

/// Returns an argument for a file that may be left out. `id` is the argument's name, and `help` says in the help what
/// the file is.
fn file<'a>(alloc: Global, id: &'a str, help: &'a str) -> Arg<'a>
    ensures { IsArg result (new_rule id.now) }
{
    Arg::new(alloc, id).help(help)
}

/// Returns an argument for a file that is needed. `id` is the argument's name, and `help` says in the help what the
/// file is.
fn needed<'a>(alloc: Global, id: &'a str, help: &'a str) -> Arg<'a>
    ensures { IsArg result (required id.now) }
{
    Arg::new(alloc, id).required(true).help(help)
}

/// Returns the argument for the catalog's file, which each program but klpsee needs.
fn catalog<'a>(alloc: Global) -> Arg<'a>
    ensures { IsArg result (required CATALOG.now) }
{
    needed(alloc, CATALOG, "The file with the catalog")
}

/// Returns klppage's option `--trace`. Its value is the file with a trace, of which a page is made in place of a
/// script.
fn trace<'a>(alloc: Global) -> Arg<'a>
    ensures { IsArg result trace }
{
    Arg::new(alloc, TRACE)
        .long("trace")
        .help("The file with the trace, in place of a script")
}

/// Returns klpsee's option `-o`. Its value is the folder into which klpsee writes a catalog, a trace, names and a page.
fn folder<'a>(alloc: Global) -> Arg<'a>
    ensures { IsArg result folder }
{
    Arg::new(alloc, FOLDER).short('o').help(
        "The folder for a catalog, a trace, names and a page of the run",
    )
}

/// Returns an option that takes no value. `id` is the argument's name, `long` the option's, and `help` says in the help
/// what it asks for.
fn flag<'a>(alloc: Global, id: &'a str, long: &'a str, help: &'a str) -> Arg<'a>
    ensures { IsArg result (flag id.now long.now) }
{
    Arg::new(alloc, id)
        .long(long)
        .action(ArgAction::SetTrue)
        .help(help)
}

/// Returns the option `--json` of klplint, klpsee and klpko. It asks for an answer that programs read.
fn json<'a>(alloc: Global) -> Arg<'a>
    ensures { IsArg result json }
{
    flag(alloc, JSON, "json", "Answer for programs")
}

/// Returns the command of klpwatch: it takes a catalog and a trace.
pub(crate) fn watch_command<'a>(alloc: Global) -> Result<Command<'a>, AllocError>
    ensures { IfOk result (λ command. IsCommand command watch_app) }
{
    command_of(alloc, Program::Klpwatch)
        .arg(catalog(alloc))?
        .arg(needed(alloc, TRACE, "The file with the trace"))
}

/// Returns the command of klppage: it takes a catalog, a script or the option `--trace`, and names if there are any.
pub(crate) fn page_command<'a>(alloc: Global) -> Result<Command<'a>, AllocError>
    ensures { IfOk result (λ command. IsCommand command page_app) }
{
    command_of(alloc, Program::Klppage)
        .arg(catalog(alloc))?
        .arg(file(
            alloc,
            SCRIPT,
            "The file with the script, unless there is a trace",
        ))?
        .arg(file(
            alloc,
            NAMES,
            "The file with names of tasks and times of lines",
        ))?
        .arg(trace(alloc))
}

/// Returns the command of klplint: it takes a catalog, a script if there is one, and the option `--json`.
pub(crate) fn lint_command<'a>(alloc: Global) -> Result<Command<'a>, AllocError>
    ensures { IfOk result (λ command. IsCommand command lint_app) }
{
    command_of(alloc, Program::Klplint)
        .arg(catalog(alloc))?
        .arg(file(alloc, SCRIPT, "The file with lines that are answered first"))?
        .arg(json(alloc))
}

/// Returns klpsee's argument for the files with logs, of which at least one is needed.
fn logs<'a>(alloc: Global) -> Arg<'a>
    ensures { IsArg result logs }
{
    needed(alloc, LOG, "The files with the logs of klpcap").action(ArgAction::Append)
}

/// Returns klpsee's option `--follow`. It asks for each change of the answer while the log grows.
fn follow<'a>(alloc: Global) -> Arg<'a>
    ensures { IsArg result follow }
{
    flag(
        alloc,
        FOLLOW,
        "follow",
        "Tell each change while the log grows",
    )
}

/// Returns an option with a value, a file's path. `id` is the argument's name, `long` the option's, and `help` says in
/// the help what the file is.
fn valued<'a>(alloc: Global, id: &'a str, long: &'a str, help: &'a str) -> Arg<'a>
    ensures { IsArg result (valued id.now long.now) }
{
    Arg::new(alloc, id).long(long).help(help)
}

/// Returns klpsee's option `--catalog`. Its value is the file with a catalog that has what a log doesn't show of its
/// patches.
fn known<'a>(alloc: Global) -> Arg<'a>
    ensures { IsArg result known }
{
    valued(
        alloc,
        CATALOG,
        "catalog",
        "The file with a catalog of the log's patches, such as klpko writes",
    )
}

/// Returns klpsee's option `--metrics`. It asks for numbers for Prometheus.
fn metrics<'a>(alloc: Global) -> Arg<'a>
    ensures { IsArg result metrics }
{
    flag(
        alloc,
        METRICS,
        "metrics",
        "Answer in numbers for Prometheus",
    )
}

/// Returns the command of klpsee for the answer to logs: it takes these, and the options `-o` and `--json`.
fn answer_command<'a>(alloc: Global) -> Result<Command<'a>, AllocError>
    ensures { IfOk result (λ command. IsCommand command answer_app) }
{
    command_of(alloc, Program::Klpsee)
        .arg(logs(alloc))?
        .arg(folder(alloc))?
        .arg(json(alloc))
}

/// Returns the command of klpsee: it takes logs, and the options `-o`, `--json`, `--catalog`, `--follow` and `--metrics`.
pub(crate) fn see_command<'a>(alloc: Global) -> Result<Command<'a>, AllocError>
    ensures { IfOk result (λ command. IsCommand command see_app) }
{
    answer_command(alloc)?
        .arg(known(alloc))?
        .arg(follow(alloc))?
        .arg(metrics(alloc))
}

/// Returns klpko's argument for the files of modules, of which at least one is needed.
fn patches<'a>(alloc: Global) -> Arg<'a>
    ensures { IsArg result patches }
{
    needed(alloc, PATCH, "The files of the livepatches, .ko").action(ArgAction::Append)
}

/// Returns klpko's option `--symbols`. Its value is the file with the symbols of the kernel.
fn symbols<'a>(alloc: Global) -> Arg<'a>
    ensures { IsArg result symbols }
{
    valued(
        alloc,
        SYMBOLS,
        "symbols",
        "The symbols of the kernel, /proc/kallsyms",
    )
}

/// Returns klpko's option `--module`, which may be given again. Its values are the files of modules whose functions the
/// patches change.
fn objects<'a>(alloc: Global) -> Arg<'a>
    ensures { IsArg result objects }
{
    valued(
        alloc,
        MODULE,
        "module",
        "The file of a module that the patches change, .ko; may be given again",
    )
    .action(ArgAction::Append)
}

/// Returns klpko's option `--traceable`. Its value is the file with the functions that the kernel can trace.
fn traceable<'a>(alloc: Global) -> Arg<'a>
    ensures { IsArg result traceable }
{
    valued(
        alloc,
        TRACEABLE,
        "traceable",
        "The functions that can be patched, available_filter_functions",
    )
}

/// Returns klpko's option `--btf`. Its value is the file with the layout of the kernel's structs.
fn layout<'a>(alloc: Global) -> Arg<'a>
    ensures { IsArg result layout }
{
    valued(
        alloc,
        BTF,
        "btf",
        "The layout of the kernel's structs, /sys/kernel/btf/vmlinux",
    )
}

/// Returns klpko's option `--kernel`. Its value is the file of the kernel's image.
fn kernel<'a>(alloc: Global) -> Arg<'a>
    ensures { IsArg result kernel }
{
    valued(
        alloc,
        KERNEL,
        "kernel",
        "The kernel's image, unpacked, in place of both lists",
    )
}

/// Returns the command of klpko for what is asked of modules: it takes these, and the options `--list` and `--matrix`.
fn question_command<'a>(alloc: Global) -> Result<Command<'a>, AllocError>
    ensures { IfOk result (λ command. IsCommand command question_app) }
{
    command_of(alloc, Program::Klpko)
        .arg(patches(alloc))?
        .arg(flag(alloc, LIST, "list", "Say what the tables of each one say"))?
        .arg(flag(
            alloc,
            MATRIX,
            "matrix",
            "Say what becomes of each one under each other one",
        ))
}

/// Returns the command of klpko for what it says of modules: it takes these, and the options `--list`, `--matrix`, `--btf`
/// and `--json`.
fn table_command<'a>(alloc: Global) -> Result<Command<'a>, AllocError>
    ensures { IfOk result (λ command. IsCommand command table_app) }
{
    question_command(alloc)?
        .arg(layout(alloc))?
        .arg(json(alloc))
}

/// Returns the command of klpko for what it says of modules and for what is known of the kernel: it takes the options
/// `--symbols`, `--module` and `--traceable`, too.
fn known_command<'a>(alloc: Global) -> Result<Command<'a>, AllocError>
    ensures { IfOk result (λ command. IsCommand command known_app) }
{
    table_command(alloc)?
        .arg(symbols(alloc))?
        .arg(objects(alloc))?
        .arg(traceable(alloc))
}

/// Returns the command of klpko: it takes modules, and the options `--list`, `--matrix`, `--json`, `--symbols`,
/// `--module`, `--traceable`, `--kernel` and `--cut`.
pub(crate) fn module_command<'a>(alloc: Global) -> Result<Command<'a>, AllocError>
    ensures { IfOk result (λ command. IsCommand command module_app) }
{
    known_command(alloc)?.arg(kernel(alloc))?.arg(flag(
        alloc,
        CUT,
        "cut",
        "Leave out functions for which a catalog has no room",
    ))
}
