//! The programs by their names, and how each one is called. The texts have any lifetime, since the borrow checker
//! doesn't shorten one inside of a command.
ghost use Rattle.std.specs.Prelude.{◌≡◌};
ghost use Rattle.klp_arguments.specs.Commands.{name_of};

/// What ends each program's help.
const WATCH_MORE: &str = "\
Exit status:
  0  The trace is honest, and the kernel does as the rules say
  1  A file is faulty or can't be read, or memory ran out
  2  The arguments are refused
  3  A line breaks a premise, or the kernel differs from the rules in it

Example:
  klpwatch examples/k.catalog examples/watched.trace

More: man klpwatch";

const PAGE_MORE: &str = "\
Exit status:
  0  The page was written
  1  A file is faulty or can't be read, or memory ran out
  2  The arguments are refused

Example:
  klppage examples/pages/sleeper.catalog examples/pages/sleeper.script >page.html

More: man klppage";

const LINT_MORE: &str = "\
Exit status:
  0  There is no finding
  1  A file is faulty or can't be read, or memory ran out
  2  The arguments are refused
  3  There are findings

Example:
  klplint examples/lint/three_faults.catalog

More: man klplint";

const SEE_MORE: &str = "\
Exit status:
  0  The rules explain the log
  1  A file is faulty or can't be read or written, or memory ran out
  2  The arguments are refused
  3  The rules exclude a sample of the log
  4  No run was found, and nothing says that there is none
  5  The log doesn't have what a verdict needs

Example:
  klpcap --once | klpsee -

More: man klpsee";

const MODULES_MORE: &str = "\
Exit status:
  0  There is no finding, or the catalog has no marks
  1  A file is faulty or can't be read, or memory ran out
  2  The arguments are refused
  3  There are findings, or the catalog has marks

Examples:
  klpko --matrix examples/modules/two_objects.ko examples/modules/cumulative.ko
  klpko --symbols /proc/kallsyms fix.ko >fix.catalog
  klpko --kernel vmlinux fix.ko >fix.catalog

More: man klpko";

/// A program with files for arguments.
#[derive(Clone, Copy)]
pub enum Program {
    Klpwatch,
    Klppage,
    Klplint,
    Klpsee,
    Klpko,
}

impl Program {
    /// Returns the name by which the program calls itself.
    pub fn name<'a>(self) -> &'a str
        ensures { result.now ≡ name_of self }
    {
        match self {
            Program::Klpwatch => "klpwatch",
            Program::Klppage => "klppage",
            Program::Klplint => "klplint",
            Program::Klpsee => "klpsee",
            Program::Klpko => "klpko",
        }
    }

    /// Returns how the program is called. The synopsis of its man page says the same.
    pub fn usage<'a>(self) -> &'a str {
        match self {
            Program::Klpwatch => "klpwatch CATALOG TRACE",
            Program::Klppage => "klppage CATALOG SCRIPT|--trace TRACE [NAMES]",
            Program::Klplint => "klplint [--json] CATALOG [SCRIPT]",
            Program::Klpsee =>
                "klpsee [-o FOLDER] [--json|--follow] [--catalog FILE] LOG|[--metrics] LOG..",
            Program::Klpko =>
                "klpko [--btf FILE] [--kernel IMAGE|[--symbols FILE] [--traceable FILE]] [--module FILE].. [--cut] PATCH..|--list|--matrix [--json] PATCH..",
        }
    }

    /// Returns the line of the program's help that says what the program does.
    pub(crate) fn about<'a>(self) -> &'a str {
        match self {
            Program::Klpwatch => "Checks a kernel's trace against the consistency model",
            Program::Klppage => "Writes an HTML page of a script's run or of a kernel's trace",
            Program::Klplint => "Names patches of a catalog that may leave something behind",
            Program::Klpsee => "Says what a log of klpcap means, and whether the rules explain it",
            Program::Klpko => "Says what livepatch modules change, and which loads over which",
        }
    }

    /// Returns the end of the program's help: its exit statuses, an example, and its man page.
    pub(crate) fn more<'a>(self) -> &'a str {
        match self {
            Program::Klpwatch => WATCH_MORE,
            Program::Klppage => PAGE_MORE,
            Program::Klplint => LINT_MORE,
            Program::Klpsee => SEE_MORE,
            Program::Klpko => MODULES_MORE,
        }
    }
}
