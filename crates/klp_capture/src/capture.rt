//! A log, sample by sample.
ghost use Rattle.std.specs.Prelude.{◌≡◌};
ghost use Rattle.klp_capture.specs.Shown.{span_of};

use crate::fault::{CaptureFault, CaptureFaultKind};
use crate::line::{
    Clock, FrameLine, Line, NewerFiles, ProcessLine, SampleLine, SymbolLine, TaskLine,
};
use crate::time::BootTime;
use klp_catalog_text::Lines;
use std::alloc::Global;

/// Some consecutive items of a list.
#[derive(Clone, Copy)]
pub struct Span {
    /// The number of the first item, from 0.
    pub from: usize,
    /// The number of the item after the last one.
    pub to: usize,
}

impl Span {
    /// A span without items.
    pub const EMPTY: Span = Span { from: 0, to: 0 };

    /// Returns the items of the span. Returns no item if the list is too short.
    pub fn of<T>(self, items: &[T]) -> &[T]
        ensures { result.now ≡ span_of self items.now }
    {
        items.get(self.from..self.to).unwrap_or(&[])
    }
}

/// A line of a sample that is about patches.
#[derive(Clone, Copy)]
pub enum PatchRow<'a> {
    /// A patch, with what its files read.
    Patch {
        /// The patch's name.
        name: &'a [u8],
        /// Whether the file `enabled` reads 1.
        is_enabled: bool,
        /// Whether the file `transition` reads 1.
        is_moving: bool,
        /// What the files read that only newer kernels have.
        newer: NewerFiles,
    },
    /// An object that the patch of an earlier line changes.
    Object {
        /// The object's name.
        name: &'a [u8],
        /// What the object's file `patched` reads. `None` if there is no such file.
        is_patched: Option<bool>,
    },
    /// The object that the line before names is loaded.
    Loaded,
    /// A function that the patch changes in the object. Earlier lines name the patch and the object.
    Function {
        /// The function's name.
        name: &'a [u8],
        /// The function's position among the symbols of this name, or 0 if no other symbol has the name.
        position: u32,
    },
}

/// A task that a sample names because the task changed.
#[derive(Clone, Copy)]
pub struct SeenTask<'a> {
    /// The task's line.
    pub task: TaskLine<'a>,
    /// The functions that the task is inside of, innermost first, as a span of [`Capture::frames`].
    pub frames: Span,
}

/// The contents of a sample. A sample doesn't repeat what hasn't changed since earlier samples.
#[derive(Clone, Copy)]
pub struct Sample {
    /// When the sample was taken, and how many tasks it counted.
    pub line: SampleLine,
    /// The latest list of patches up to this sample, as a span of [`Capture::rows`].
    pub patches: Span,
    /// Whether this sample itself lists the patches.
    pub tells_patches: bool,
    /// The tasks that the sample names, as a span of [`Capture::seen`].
    pub tasks: Span,
    /// The threads that have ended, as a span of [`Capture::gone`].
    pub gone: Span,
    /// The threads that are there and aren't followed any longer, as a span of [`Capture::left`].
    pub left: Span,
}

/// A line of the kernel's own log.
#[derive(Clone, Copy)]
pub struct LogLine<'a> {
    /// When the kernel wrote the line.
    pub at: BootTime,
    /// The text of the line.
    pub text: &'a [u8],
}

/// The contents of a log that `klpcap` recorded. Names are borrowed from the log's text.
#[derive(Drop)]
pub struct Capture<'a> {
    /// The kernel's release, and the machine.
    pub kernel: &'a [u8],
    /// The machine's name. Empty if the log doesn't have it.
    pub host: &'a [u8],
    /// When the log was begun. `None` if the log doesn't say that.
    pub clock: Option<Clock>,
    /// The processes of threads that the log names.
    pub processes: Vec<ProcessLine<'a>>,
    /// The files that the kernel didn't show.
    pub missing: Vec<&'a [u8]>,
    /// The functions for which `klpcap` was told to look, though no patch changes them.
    pub asked: Vec<&'a [u8]>,
    /// The lines about patches, of all samples.
    pub rows: Vec<PatchRow<'a>>,
    /// The tasks that samples name, of all samples.
    pub seen: Vec<SeenTask<'a>>,
    /// The functions that the tasks in `seen` are inside of.
    pub frames: Vec<FrameLine<'a>>,
    /// The threads that have ended.
    pub gone: Vec<u64>,
    /// The threads that are there and aren't followed any longer.
    pub left: Vec<u64>,
    /// The samples, in the order in which they were taken.
    pub samples: Vec<Sample>,
    /// The lines of the kernel's own log that are about livepatching.
    pub log: Vec<LogLine<'a>>,
    /// Functions with their addresses.
    pub symbols: Vec<SymbolLine<'a>>,
    /// The modules that are loaded, the newest first.
    pub modules: Vec<&'a [u8]>,
    /// Whether the log has its last line. A log without its last line was cut off.
    pub is_whole: bool,
    begun: Begun,
}

/// The sample that is being read. The numbers say where the sample's lines begin in the lists.
#[derive(Clone, Copy)]
struct Begun {
    patches: Span,
    tells_patches: bool,
    tasks: usize,
    gone: usize,
    left: usize,
}

/// The newest version of the format.
const NEWEST: u64 = 2;

/// Whether logs of this version can be read.
fn are_known(version: u64) -> Result<(), CaptureFaultKind> {
    match version {
        0 => Err(CaptureFaultKind::NoHeading),
        1..=NEWEST => Ok(()),
        _ => Err(CaptureFaultKind::Newer),
    }
}

impl<'a> Capture<'a> {
    fn new(alloc: Global) -> Capture<'a> {
        Capture {
            kernel: b"",
            host: b"",
            clock: None,
            processes: Vec::new(alloc),
            missing: Vec::new(alloc),
            asked: Vec::new(alloc),
            rows: Vec::new(alloc),
            seen: Vec::new(alloc),
            frames: Vec::new(alloc),
            gone: Vec::new(alloc),
            left: Vec::new(alloc),
            samples: Vec::new(alloc),
            log: Vec::new(alloc),
            symbols: Vec::new(alloc),
            modules: Vec::new(alloc),
            is_whole: false,
            begun: Begun {
                patches: Span::EMPTY,
                tells_patches: false,
                tasks: 0,
                gone: 0,
                left: 0,
            },
        }
    }

    /// Adds a line about patches to the lines of the sample.
    fn add_row(&mut self, row: PatchRow<'a>) -> Result<(), CaptureFaultKind> {
        if !self.begun.tells_patches {
            return Err(CaptureFaultKind::Stray);
        }
        self.rows.push(row)?;
        self.begun.patches.to = self.rows.len();
        Ok(())
    }

    /// Adds a line about the latest object. It is a fault if no object was named since the latest patch.
    fn add_of_object(&mut self, row: PatchRow<'a>) -> Result<(), CaptureFaultKind> {
        match self.begun.patches.of(&self.rows).last() {
            Some(PatchRow::Object { .. } | PatchRow::Loaded | PatchRow::Function { .. }) => {
                self.add_row(row)
            }
            _ => Err(CaptureFaultKind::Stray),
        }
    }

    fn begin_patches(&mut self) {
        let end = self.rows.len();
        self.begun.patches = Span { from: end, to: end };
        self.begun.tells_patches = true;
    }

    fn add_task(&mut self, task: TaskLine<'a>) -> Result<(), CaptureFaultKind> {
        let end = self.frames.len();
        let frames = Span { from: end, to: end };
        self.seen.push(SeenTask { task, frames })?;
        Ok(())
    }

    /// Adds a function that the latest task is inside of.
    fn add_frame(&mut self, frame: FrameLine<'a>) -> Result<(), CaptureFaultKind> {
        if self.seen.len() <= self.begun.tasks {
            return Err(CaptureFaultKind::Stray);
        }
        self.frames.push(frame)?;
        let end = self.frames.len();
        if let Some(seen) = self.seen.last_mut() {
            seen.frames.to = end;
        }
        Ok(())
    }

    /// Notes that the latest task is inside of the same functions as in its line before.
    fn keep_frames(&mut self) -> Result<(), CaptureFaultKind> {
        if self.seen.len() <= self.begun.tasks {
            return Err(CaptureFaultKind::Stray);
        }
        let Some((last, before)) = self.seen.split_last_mut() else {
            return Err(CaptureFaultKind::Stray);
        };
        let thread = last.task.thread;
        let start = last.task.start;
        let same = before.iter().rfind(|seen| seen.task.thread == thread
            && seen.task.start == start);
        match same {
            Some(seen) => {
                last.frames = seen.frames;
                Ok(())
            }
            None => Err(CaptureFaultKind::Stray),
        }
    }

    fn end_sample(&mut self, line: SampleLine) -> Result<(), CaptureFaultKind> {
        if line.to < line.from {
            return Err(CaptureFaultKind::OutOfOrder);
        }
        if let Some(last) = self.samples.last()
            && line.from < last.line.to
        {
            return Err(CaptureFaultKind::OutOfOrder);
        }
        let tasks = Span {
            from: self.begun.tasks,
            to: self.seen.len(),
        };
        let gone = Span {
            from: self.begun.gone,
            to: self.gone.len(),
        };
        let left = Span {
            from: self.begun.left,
            to: self.left.len(),
        };
        self.samples.push(Sample {
            line,
            patches: self.begun.patches,
            tells_patches: self.begun.tells_patches,
            tasks,
            gone,
            left,
        })?;
        self.begun.tells_patches = false;
        self.begun.tasks = self.seen.len();
        self.begun.gone = self.gone.len();
        self.begun.left = self.left.len();
        Ok(())
    }

    /// Adds a line about the patches or tasks of a sample.
    fn add_seen(&mut self, line: Line<'a>) -> Result<(), CaptureFaultKind> {
        match line {
            Line::Patches => self.begin_patches(),
            Line::Patch(patch) => self.add_row(PatchRow::Patch {
                name: patch.name,
                is_enabled: patch.is_enabled,
                is_moving: patch.is_moving,
                newer: patch.newer,
            })?,
            Line::Object(name, is_patched) => {
                if self.begun.patches.of(&self.rows).is_empty() {
                    return Err(CaptureFaultKind::Stray);
                }
                self.add_row(PatchRow::Object { name, is_patched })?;
            }
            Line::Loaded(_) => self.add_of_object(PatchRow::Loaded)?,
            Line::Function { name, position } => {
                self.add_of_object(PatchRow::Function { name, position })?;
            }
            Line::Task(task) => self.add_task(task)?,
            Line::Frame(frame) => self.add_frame(frame)?,
            Line::SameFrames => self.keep_frames()?,
            Line::Process(process) => self.processes.push(process)?,
            Line::Gone(thread) => self.gone.push(thread)?,
            Line::Left(thread) => self.left.push(thread)?,
            Line::Sample(line) => self.end_sample(line)?,
            _ => return Err(CaptureFaultKind::BadLine),
        }
        Ok(())
    }

    fn add(&mut self, line: Line<'a>) -> Result<(), CaptureFaultKind> {
        if self.is_whole {
            return Err(CaptureFaultKind::Stray);
        }
        match line {
            Line::Heading(_) => return Err(CaptureFaultKind::Stray),
            Line::Kernel(name) => self.kernel = name,
            Line::Host(name) => self.host = name,
            Line::Clock(clock) => self.clock = Some(clock),
            Line::Missing(file) => self.missing.push(file)?,
            Line::Find(function) => self.asked.push(function)?,
            Line::Log { at, text } => self.log.push(LogLine { at, text })?,
            Line::Symbol(symbol) => self.symbols.push(symbol)?,
            Line::Module(name) => self.modules.push(name)?,
            Line::End => self.is_whole = true,
            seen => self.add_seen(seen)?,
        }
        Ok(())
    }

    /// Returns the name of a process. Returns `None` if the log doesn't have it.
    pub fn process_name(&self, process: u64) -> Option<&'a [u8]> {
        let found = self.processes.iter().rfind(|own| own.process == process)?;
        Some(found.name)
    }

    /// Whether `klpcap` was told to look for functions that no patch changes.
    pub fn is_preflight(&self) -> bool {
        !self.asked.is_empty()
    }

    /// Reads a log. If a line is faulty, returns the first such line as `Err`. The time is linear in the length of the
    /// log. If the log was cut off, it is read up to its last whole line. A sample that hasn't ended by that line is
    /// left out.
    pub fn read(alloc: Global, text: &'a [u8]) -> Result<Capture<'a>, CaptureFault> {
        let mut capture = Capture::new(alloc);
        let whole = match text.iter().rposition(|byte| *byte == b'\n') {
            Some(end) => text.get(..end).unwrap_or(b""),
            None => b"",
        };
        let mut lines = Lines::new(whole);
        let mut number: u64 = 0;
        while let Some(line) = lines.next() {
            number = number.saturating_add(1);
            let kind = match Line::read(line) {
                Some(Line::Heading(version)) if number == 1 => are_known(version),
                _ if number == 1 => Err(CaptureFaultKind::NoHeading),
                Some(line) => capture.add(line),
                None => Err(CaptureFaultKind::BadLine),
            };
            if let Err(kind) = kind {
                return Err(CaptureFault { line: number, kind });
            }
        }
        if number == 0 {
            return Err(CaptureFault {
                line: 1,
                kind: CaptureFaultKind::NoHeading,
            });
        }
        Ok(capture)
    }
}
