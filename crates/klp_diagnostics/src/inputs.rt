//! The two files of a program, and the messages to standard error about their lines.
ghost use Rattle.std.specs.Prelude.{◌≡◌};

use crate::calls::Calls;
use crate::dishonest::act_of;
use crate::lack::lack_of;
use crate::replay::{sides_in, versions_after};
use crate::tasks::TaskNumbers;
use klp_boot::Fault;
use klp_catalog::{AssembleFault, Catalog};
use klp_catalog_text::{Plan, TextFault};
use klp_console::ServeFault;
use klp_faulty_words::catalog_fault::{begins_as_catalog, begins_as_utf16};
use klp_faulty_words::item::Item;
use klp_faulty_words::names::CatalogNames;
use klp_faulty_words::same_site::first_pair;
use klp_faulty_words::stray::{FileKind, STRAYS, Stray, begins_as_log};
use klp_faulty_words::unpicked::first_unloadable;
use klp_faulty_words::wrong::Wrong;
use klp_faulty_words::{catalog_fault, image, item};
use klp_messages::{Escaped, Quoted, line_at};
use klp_program::{Counts, Verdict};
use klp_trace::{LineParts, TraceFault, TraceFaultKind};
use klp_types::MAX_CONSOLE_LINE;
use klp_watch::{Cause, Differs, NotHonest};
use klp_words::microseconds;
use std::alloc::Global;
use std::io;
use std::io::Write;

/// The exit status of a fault.
pub(crate) const FAULT: u8 = 1;

/// What is wanted in a line in which a task falls asleep.
const SLEEP: &str = "is each function that the task is inside of";

/// A file that a program was given: its name and its bytes.
#[derive(Clone, Copy)]
pub struct FileText<'a> {
    pub name: &'a str,
    pub bytes: &'a [u8],
}

/// The two files of a program. If a message can't be written to standard error, it is left out.
#[derive(Clone, Copy)]
pub struct Inputs<'a> {
    /// The name by which the program calls itself.
    pub program: &'a str,
    pub catalog: FileText<'a>,
    pub second: FileText<'a>,
    pub kind: FileKind,
}

/// Returns what is wrong with a line of a trace that has no item. `plan` and `catalog` are the plan and the text of the
/// same catalog.
fn wrong_item<'a>(mut plan: Plan, line: &'a [u8], catalog: &'a [u8]) -> Wrong<'a> {
    let objects = plan.take_objects();
    let patches = plan.into_patches();
    let names = CatalogNames {
        objects: &objects,
        patches: &patches,
    };
    item::wrong_of(line, &names, catalog)
}

impl<'a> FileText<'a> {
    /// Returns the name of the file in a form that no longer has bytes that control a terminal.
    fn escaped_name(&self) -> Escaped<'a> {
        Escaped(self.name.as_bytes())
    }

    /// Begins a message about a line of a trace: writes the program, the file and the line's number. If the line has a
    /// valid time, writes the time too.
    fn write_item_place<E: Write>(&self, program: &str, line: u64, err: &mut E) -> io::Result<()> {
        match LineParts::of(line_at(self.bytes, line)).time {
            Some(time) if microseconds(time).is_some() => {
                let (name, time) = (self.escaped_name(), Escaped(time));
                write!(err, "{program}: {name}: line {line} ({time} s): ")
            }
            _ => self.write_place(program, line, err),
        }
    }

    /// Begins a message about a line: writes the program, the file and the line's number.
    fn write_place<E: Write>(&self, program: &str, line: u64, err: &mut E) -> io::Result<()> {
        write!(err, "{program}: {}: line {line}: ", self.escaped_name())
    }
}

impl<'a> Inputs<'a> {
    /// Writes hints to `err`: one about the first function of the catalog that picks no symbol, and one for each
    /// [`Stray`] in the second file, about the first line that has the stray. If the two files are swapped, writes no
    /// hint, since the fault says enough.
    pub fn hint<E: Write>(&self, err: &mut E) {
        if self.are_swapped() {
            return;
        }
        let _ = self.write_unloadable(err);
        for stray in STRAYS {
            let _ = self.write_stray(stray, err);
        }
    }

    /// Writes a hint to `err` about the first line of the script that seems misspelled. This is no fault, since a script
    /// may have a line that the console refuses on purpose. Writes nothing if the script's file is a catalog or UTF-16,
    /// since another message says so. Also writes nothing if the first file can't be read as a catalog.
    pub fn hint_misspelled<E: Write>(&self, alloc: Global, err: &mut E) {
        let text = self.second.bytes;
        if begins_as_catalog(text) || begins_as_utf16(text) {
            return;
        }
        if let Ok(plan) = Catalog::read(alloc, self.catalog.bytes) {
            let _ = self.write_misspelled(plan, err);
        }
    }

    /// Writes to `err` the reason for a verdict on the trace. If the trace isn't honest, names the task, and the
    /// function that the task is inside of. If the kernel differs from the rules, says what the rules have at that
    /// line, and why. If the trace is honest, hints at the events that are refused, if there are any.
    pub fn print_verdict<E: Write>(&self, alloc: Global, verdict: Verdict, err: &mut E) {
        let _ = match verdict {
            Verdict::Honest(counts) => self.write_refused(counts, err),
            Verdict::Dishonest(fault) => self.write_dishonest(alloc, fault, err),
            Verdict::Differs(differs) => self.write_difference(alloc, differs, err),
        };
    }

    /// Writes a message about a fault to `err`: the file and the line of the fault, and what is wanted there. If the
    /// fault has no place, the message has the program and the fault's name instead. Returns 1, the exit status of a
    /// fault, even if the message can't be written.
    pub fn print_fault<E: Write>(&self, alloc: Global, fault: Fault, err: &mut E) -> u8
        ensures { result ≡ 1 }
    {
        let _ = self.write_fault(alloc, fault, err);
        FAULT
    }

    /// Writes a hint about the first function of the catalog that picks no symbol and is worth a hint. Writes nothing
    /// if there is no such function.
    fn write_unloadable<E: Write>(&self, err: &mut E) -> io::Result<()> {
        match first_unloadable(self.catalog.bytes, self.second.bytes) {
            Some(found) => {
                self.catalog
                    .write_place(self.program, found.line as u64, err)?;
                writeln!(err, "hint: {found}")
            }
            None => Ok(()),
        }
    }

    /// Writes a hint about the first line of the script that may be misspelled. Takes the names that lines may have
    /// from the catalog's plan.
    fn write_misspelled<E: Write>(&self, mut plan: Plan, err: &mut E) -> io::Result<()> {
        let objects = plan.take_objects();
        let patches = plan.into_patches();
        let names = CatalogNames {
            objects: &objects,
            patches: &patches,
        };
        self.write_first_misspelled(&names, err)
    }

    /// Writes a hint about the first line of the script that may be misspelled. `names` are the names of the catalog.
    /// Writes nothing if no line seems misspelled.
    fn write_first_misspelled<E: Write>(
        &self,
        names: &CatalogNames<'_>,
        err: &mut E,
    ) -> io::Result<()> {
        let mut number = 0u64;
        for line in self.second.bytes.split(|b| *b == b'\n') {
            number = number.saturating_add(1);
            if let Some(wrong) = item::misspelled_in(line, names, self.catalog.bytes) {
                self.second.write_place(self.program, number, err)?;
                return writeln!(err, "hint: {wrong}");
            }
        }
        Ok(())
    }

    /// Writes a hint about the first line of the second file that has this stray. Writes nothing if no line has it, or
    /// if a file of this kind may have it. If the file is UTF-16, its bytes aren't the ones that were meant, so only
    /// the hint about UTF-16 is written.
    fn write_stray<E: Write>(&self, stray: Stray, err: &mut E) -> io::Result<()> {
        let text = self.second.bytes;
        let is_reported = matches!(stray, Stray::Utf16) || !begins_as_utf16(text);
        match (stray.first_line(text), stray.hint(self.kind)) {
            (Some(line), Some(hint)) if is_reported => {
                self.second.write_place(self.program, line as u64, err)?;
                writeln!(err, "hint: {hint}")
            }
            _ => Ok(()),
        }
    }

    /// Writes a hint about the first event of an honest trace that the rules refuse, and how many events they refuse.
    /// Writes nothing if no event is refused.
    fn write_refused<E: Write>(&self, counts: Counts, err: &mut E) -> io::Result<()> {
        let Some(first) = counts.refused.first else {
            return Ok(());
        };
        let (line, refusal) = (first.item as u64, first.refusal);
        let event = Quoted(line_at(self.second.bytes, line));
        let (refused, events) = (counts.refused.count, counts.events);
        self.second.write_item_place(self.program, line, err)?;
        writeln!(
            err,
            "hint: {event}: {refusal}; {refused} of {events} events refused, which is no fault"
        )
    }

    /// Writes a message about the line that breaks a premise: the cause, and which task does what in the line.
    fn write_dishonest<E: Write>(
        &self,
        alloc: Global,
        fault: NotHonest,
        err: &mut E,
    ) -> io::Result<()> {
        let (line, trace) = (fault.item as u64, self.second.bytes);
        self.second.write_item_place(self.program, line, err)?;
        write!(err, "{}: ", fault.cause)?;
        // The line is 0, which no line precedes, if the run couldn't begin.
        match Calls::behind(alloc, trace, line.saturating_sub(1)) {
            Ok(calls) => self.write_act(alloc, fault, &calls, err),
            Err(_) => writeln!(err, "there is no memory to find the task"),
        }
    }

    /// Writes a message about the line at which the kernel differs from the rules: the line, what the rules have in its
    /// place, and why.
    fn write_difference<E: Write>(
        &self,
        alloc: Global,
        differs: Differs,
        err: &mut E,
    ) -> io::Result<()> {
        let (line, trace) = (differs.item as u64, self.second.bytes);
        let text = Quoted(LineParts::of(line_at(trace, line)).text);
        self.second.write_item_place(self.program, line, err)?;
        match sides_in(alloc, self.catalog.bytes, trace, line) {
            Some(sides) => {
                let rules = sides.rules.in_words(&TaskNumbers);
                writeln!(err, "{}: {text}: {rules}", differs.cause)
            }
            None => writeln!(
                err,
                "{}: {text}: there is no memory to find out what the rules have",
                differs.cause
            ),
        }
    }

    /// Ends the message about the line of the trace that breaks a premise: writes which task does what in the line.
    /// `calls` are the calls that are open before the line.
    fn write_act<E: Write>(
        &self,
        alloc: Global,
        fault: NotHonest,
        calls: &Calls<'a>,
        err: &mut E,
    ) -> io::Result<()> {
        let number = fault.item as u64;
        let line = line_at(self.second.bytes, number);
        match (fault.cause, Item::read(line)) {
            (Cause::Frames, Some(Item::Sleep(task))) => {
                write!(err, "{}:", Wrong::Word(line, SLEEP))?;
                self.write_versions(alloc, number.saturating_sub(1), task, err)
            }
            (Cause::NoCall, Some(Item::Call(task, symbol))) => {
                let lack = lack_of(alloc, self, number, task);
                writeln!(err, "task {task} calls {}, {lack}", Escaped(symbol))
            }
            (cause, item) => writeln!(err, "{}", act_of(cause, item, calls)),
        }
    }

    /// Ends a message with the versions that a task is inside of after the first `lines` lines of the trace.
    ///
    /// Reads the catalog again for the names of the patches, since booting consumed the plan. The catalog had no fault
    /// when the trace was judged, so only memory can be lacking.
    fn write_versions<E: Write>(
        &self,
        alloc: Global,
        lines: u64,
        task: u64,
        err: &mut E,
    ) -> io::Result<()> {
        let entered = versions_after(alloc, self.catalog.bytes, self.second.bytes, lines);
        match (entered, Catalog::read(alloc, self.catalog.bytes)) {
            (Some(entered), Ok(plan)) => {
                let patches = plan.into_patches();
                entered.write_versions(task, self.second.bytes, &patches, err)
            }
            _ => writeln!(err, " there is no memory to find them"),
        }
    }

    /// Writes a message about any fault: the file and the line of the fault, and what is wanted there, if its kind
    /// points at a place. Otherwise writes the program and the fault's name.
    fn write_fault<E: Write>(&self, alloc: Global, fault: Fault, err: &mut E) -> io::Result<()> {
        match fault {
            Fault::Text(fault) => self.write_text_fault(alloc, fault, err),
            Fault::Image(_) | Fault::Assemble(AssembleFault::SameSite) => {
                self.write_whole(alloc, fault, err)
            }
            Fault::Trace(fault) => self.write_trace_fault(alloc, fault, err),
            Fault::Serve(ServeFault::LineTooLong) => self.write_long_line(err),
            _ => writeln!(err, "{}: {fault}", self.program),
        }
    }

    /// Whether the two files seem to be swapped: the second begins as a catalog, and the first doesn't.
    fn are_swapped(&self) -> bool {
        begins_as_catalog(self.second.bytes) && !begins_as_catalog(self.catalog.bytes)
    }

    /// Writes a message about a faulty line of the catalog: the word at fault, and what is wanted in its place. If the
    /// two files are swapped, says that instead.
    fn write_text_fault<E: Write>(
        &self,
        alloc: Global,
        fault: TextFault,
        err: &mut E,
    ) -> io::Result<()> {
        let wrong = if self.are_swapped() {
            Wrong::Swapped(self.second.name)
        } else if begins_as_log(self.catalog.bytes) {
            Wrong::Log
        } else {
            catalog_fault::wrong_of(alloc, self.catalog.bytes, fault)
        };
        self.catalog.write_place(self.program, fault.line, err)?;
        writeln!(err, "{}: {wrong}", fault.kind)
    }

    /// Writes a message about a fault that the catalog has as a whole, so none of its lines is faulty by itself. Reads
    /// the catalog again to find the symbols or functions at fault, since booting consumed the plan.
    fn write_whole<E: Write>(&self, alloc: Global, fault: Fault, err: &mut E) -> io::Result<()> {
        match Catalog::read(alloc, self.catalog.bytes) {
            Ok(plan) => self.write_in_plan(plan, fault, err),
            Err(_) => self.write_catalog_fault(fault, None, err),
        }
    }

    /// Writes a message about a fault that the catalog has as a whole. Finds the symbols or functions at fault in the
    /// catalog's plan.
    fn write_in_plan<E: Write>(&self, mut plan: Plan, fault: Fault, err: &mut E) -> io::Result<()> {
        let (objects, handler) = (plan.take_objects(), plan.handler());
        let patches = plan.into_patches();
        let wrong = match fault {
            Fault::Image(fault) => image::wrong_of(&objects, handler, fault),
            _ => first_pair(&objects, &patches),
        };
        self.write_catalog_fault(fault, wrong, err)
    }

    /// Writes a message about a fault that the catalog has as a whole. `wrong` is what is wrong, if it is known.
    fn write_catalog_fault<E: Write>(
        &self,
        fault: Fault,
        wrong: Option<Wrong<'_>>,
        err: &mut E,
    ) -> io::Result<()> {
        let (program, name) = (self.program, self.catalog.escaped_name());
        match wrong {
            Some(wrong) => writeln!(err, "{program}: {name}: {fault}: {wrong}"),
            None => writeln!(err, "{program}: {name}: {fault}"),
        }
    }

    /// Writes a message about a faulty line of the trace: the word at fault and what is wanted in its place, or that
    /// the line's time is too early.
    fn write_trace_fault<E: Write>(
        &self,
        alloc: Global,
        fault: TraceFault,
        err: &mut E,
    ) -> io::Result<()> {
        let line = line_at(self.second.bytes, fault.line);
        self.second.write_item_place(self.program, fault.line, err)?;
        match fault.kind {
            TraceFaultKind::BadItem => self.write_no_item(alloc, line, err),
            TraceFaultKind::OutOfOrder => writeln!(
                err,
                "{}: {}: the time is before that of a line above",
                fault.kind,
                Quoted(line)
            ),
            TraceFaultKind::NoMemory => writeln!(err, "{}", fault.kind),
        }
    }

    /// Ends the message about a line of the trace that has no item with what is wrong in the line. Writes only the
    /// fault's name if there is no memory to read the catalog again.
    fn write_no_item<E: Write>(&self, alloc: Global, line: &[u8], err: &mut E) -> io::Result<()> {
        match Catalog::read(alloc, self.catalog.bytes) {
            Ok(plan) => writeln!(
                err,
                "BadItem: {}",
                wrong_item(plan, line, self.catalog.bytes)
            ),
            Err(_) => writeln!(err, "BadItem"),
        }
    }

    /// Writes a message about the first line of the script that is too long for the console. If no line is, writes only
    /// the program and the fault's name.
    fn write_long_line<E: Write>(&self, err: &mut E) -> io::Result<()> {
        let bytes = self.second.bytes;
        let mut lines = bytes.split(|b| *b == b'\n');
        let Some(place) = lines.position(|line| line.len() > MAX_CONSOLE_LINE) else {
            return writeln!(err, "{}: {}", self.program, ServeFault::LineTooLong);
        };
        let number = (place as u64).saturating_add(1);
        let wrong = Wrong::Most(line_at(bytes, number), MAX_CONSOLE_LINE, "bytes");
        self.second.write_place(self.program, number, err)?;
        writeln!(err, "LineTooLong: {wrong}")
    }
}
