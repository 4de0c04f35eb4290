//! How klpsim is called.
use klp_arguments::version_text;
use std::io::Write;

/// The synopsis, what its words mean, the exit statuses, and an example.
const SYNOPSIS: &str = "\
Usage: klpsim [console [CATALOG]]
       klpsim live CATALOG STEPS

A model of the Linux kernel's live patching manager

Commands:
  console  Answers lines of standard input, until it ends; without a command, too
  live     Lets two tasks run the steps of a file at once

Arguments:
  CATALOG  The file with patches and the kernel's text; without it, a sample
  STEPS    The file with the steps of the two tasks

Exit status:
  0  The input ended, or the steps are done
  1  A file is faulty or can't be read, a line is too long, or memory ran out
  2  The arguments are refused, as --help and --version are

Example:
  printf 'load p\\npoll\\n' | klpsim

More: man klpsim";

/// Writes how klpsim is called, and its version. What can't be written is left out.
pub(crate) fn write_synopsis<W: Write>(err: &mut W) {
    let version = version_text();
    let _ = writeln!(err, "{SYNOPSIS}\nklpsim {version}");
}
