//! Hints at lines that are typed for the console.

use klp_catalog::Catalog;
use klp_catalog_text::Plan;
use klp_faulty_words::item::mistyped_in;
use klp_faulty_words::names::CatalogNames;
use std::alloc::Global;
use std::io;
use std::io::Write;

/// All lines of the console, for the word `help`.
const HELP: &str = "\
the lines of the console (P is /sys/kernel/livepatch, T a task, 0 to 63, SYM a
symbol such as .klp.sym.vmlinux.f,0, FRAME a SYM or PATCH:INDEX):
  load PATCH   insmod OBJECT   rmmod OBJECT   poll
  echo 0 > P/PATCH/enabled   echo 1 > P/PATCH/enabled   echo 1 > P/PATCH/force
  cat P/PATCH/enabled   cat P/PATCH/transition   cat /proc/T/patch_state
  ls P   ls P/PATCH   ls P/PATCH/OBJECT
  task new T   task enter T   task exit T   task end T   task fork T T
  task sleep T FRAME ..   task wake T
  shadow alloc OBJ ID V   shadow getalloc OBJ ID V   shadow get OBJ ID
  shadow free OBJ ID   shadow freeall ID
  text OBJECT   stack SYM   pick T SYM   runs PATCH OBJECT
  mark   rewind K   seal";

/// Writes a hint about a line that may be misspelled. Takes the names that lines may have from the catalog's plan.
fn write_mistyped<E: Write>(
    program: &str,
    mut plan: Plan,
    catalog: &[u8],
    line: &[u8],
    err: &mut E,
) -> io::Result<()> {
    let objects = plan.take_objects();
    let patches = plan.into_patches();
    let names = CatalogNames {
        objects: &objects,
        patches: &patches,
    };
    match mistyped_in(line, &names, catalog) {
        Some(wrong) => writeln!(err, "{program}: hint: {wrong}"),
        None => Ok(()),
    }
}

/// Writes to `err` what helps whoever typed this line for the console over a catalog: all lines for the word `help`, and a
/// hint at a line that may be misspelled. The console answers such a line, too. What can't be written is left out.
pub fn hint_typed<E: Write>(
    alloc: Global,
    program: &str,
    catalog: &[u8],
    line: &[u8],
    err: &mut E,
) {
    if line.trim_ascii() == b"help".as_slice() {
        let _ = writeln!(err, "{program}: {HELP}");
    } else if let Ok(plan) = Catalog::read(alloc, catalog) {
        let _ = write_mistyped(program, plan, catalog, line, err);
    }
}
