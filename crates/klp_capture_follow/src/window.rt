//! The latest sample of a log, and the next.
use klp_capture::{CaptureFault, CaptureFaultKind, Line};
use std::alloc::{AllocError, Global};
use std::mem;

/// The lines about a task: its own, and those of the functions that it is inside of.
#[derive(Drop)]
struct TaskText {
    thread: u64,
    line: Vec<u8>,
    frames: Vec<u8>,
}

/// The line about a process.
#[derive(Drop)]
struct ProcessText {
    process: u64,
    line: Vec<u8>,
}

/// What a line was.
#[derive(Clone, Copy, PartialEq, Eq)]
pub enum Taken {
    /// A line of a sample that isn't whole yet, or of no sample.
    Part,
    /// The last line of a sample.
    Sample,
    /// The last line of the log.
    End,
}

/// The lines of a sample, which names what has changed.
#[derive(Drop)]
struct SampleText {
    /// The list of patches, if the sample has one.
    patches: Option<Vec<u8>>,
    tasks: Vec<TaskText>,
    /// The threads that have ended or aren't followed any longer, and the lines that say so.
    released: Vec<u64>,
    released_lines: Vec<u8>,
    /// The sample's last line. Empty until the sample is whole.
    last_line: Vec<u8>,
}

impl SampleText {
    fn new(alloc: Global) -> SampleText {
        SampleText {
            patches: None,
            tasks: Vec::new(alloc),
            released: Vec::new(alloc),
            released_lines: Vec::new(alloc),
            last_line: Vec::new(alloc),
        }
    }

    /// Appends the lines of the sample.
    fn add_to(&self, text: &mut Vec<u8>) -> Result<(), AllocError> {
        if let Some(patches) = &self.patches {
            text.extend_from_slice(patches)?;
        }
        add_tasks(text, &self.tasks)?;
        text.extend_from_slice(&self.released_lines)?;
        text.extend_from_slice(&self.last_line)?;
        Ok(())
    }
}

/// What is known after the latest sample, and the lines of the next.
#[derive(Drop)]
pub struct Window {
    alloc: Global,
    /// How many lines were taken.
    lines: u64,
    /// The lines that belong to no sample.
    head: Vec<u8>,
    processes: Vec<ProcessText>,
    /// The latest list of patches up to the latest sample.
    patches: Vec<u8>,
    /// The latest lines of each task up to the latest sample.
    tasks: Vec<TaskText>,
    /// The last line of the latest sample. Empty before the first sample.
    sample: Vec<u8>,
    /// The samples behind the latest that are torn: a patch changed while they were taken. They count for no answer, but
    /// what they name is known.
    torn: Vec<SampleText>,
    next: SampleText,
}

/// Appends a line.
fn add_line(text: &mut Vec<u8>, line: &[u8]) -> Result<(), AllocError> {
    text.extend_from_slice(line)?;
    text.push(b'\n')?;
    Ok(())
}

/// Appends the lines of each task.
fn add_tasks(text: &mut Vec<u8>, tasks: &[TaskText]) -> Result<(), AllocError> {
    for task in tasks {
        text.extend_from_slice(&task.line)?;
        text.extend_from_slice(&task.frames)?;
    }
    Ok(())
}

impl Window {
    /// Returns a window before the first line of a log.
    pub fn new(alloc: Global) -> Window {
        Window {
            alloc,
            lines: 0,
            head: Vec::new(alloc),
            processes: Vec::new(alloc),
            patches: Vec::new(alloc),
            tasks: Vec::new(alloc),
            sample: Vec::new(alloc),
            torn: Vec::new(alloc),
            next: SampleText::new(alloc),
        }
    }

    /// Takes the next line of the log, without its line feed. `Err` if it can't be a line of a log there, or if memory runs
    /// out. What is wrong with a sample as a whole is found when its window is read.
    pub fn take(&mut self, line: &[u8]) -> Result<Taken, CaptureFault> {
        self.lines = self.lines.saturating_add(1);
        let number = self.lines;
        match self.take_line(line) {
            Ok(taken) => Ok(taken),
            Err(kind) => Err(CaptureFault { line: number, kind }),
        }
    }

    /// Returns how many lines were taken.
    pub fn lines(&self) -> u64 {
        self.lines
    }

    fn take_line(&mut self, line: &[u8]) -> Result<Taken, CaptureFaultKind> {
        let read = match Line::read(line) {
            Some(read) => read,
            None if self.lines == 1 => return Err(CaptureFaultKind::NoHeading),
            None => return Err(CaptureFaultKind::BadLine),
        };
        if self.lines == 1 && !matches!(read, Line::Heading(_)) {
            return Err(CaptureFaultKind::NoHeading);
        }
        match read {
            Line::Patches => {
                let mut patches = Vec::new(self.alloc);
                add_line(&mut patches, line)?;
                self.next.patches = Some(patches);
            }
            Line::Patch { .. } | Line::Object(..) | Line::Loaded(_) | Line::Function { .. } => {
                let Some(patches) = &mut self.next.patches else {
                    return Err(CaptureFaultKind::Stray);
                };
                add_line(patches, line)?;
            }
            Line::Task(task) => self.add_task(task.thread, line)?,
            Line::Frame(_) => self.add_frame(line)?,
            Line::SameFrames => self.keep_frames()?,
            Line::Process(process) => self.set_process(process.process, line)?,
            Line::Gone(thread) | Line::Left(thread) => {
                self.next.released.push(thread)?;
                add_line(&mut self.next.released_lines, line)?;
            }
            Line::Sample(sample) => {
                self.next.last_line.clear();
                add_line(&mut self.next.last_line, line)?;
                if !sample.is_torn {
                    return Ok(Taken::Sample);
                }
                let torn = self.take_next();
                self.torn.push(torn)?;
            }
            Line::End => return Ok(Taken::End),
            _ => add_line(&mut self.head, line)?,
        }
        Ok(Taken::Part)
    }

    fn add_task(&mut self, thread: u64, line: &[u8]) -> Result<(), AllocError> {
        let mut task = TaskText {
            thread,
            line: Vec::new(self.alloc),
            frames: Vec::new(self.alloc),
        };
        add_line(&mut task.line, line)?;
        self.next.tasks.push(task)?;
        Ok(())
    }

    /// Adds a function that the latest task is inside of.
    fn add_frame(&mut self, line: &[u8]) -> Result<(), CaptureFaultKind> {
        let Some(task) = self.next.tasks.last_mut() else {
            return Err(CaptureFaultKind::Stray);
        };
        add_line(&mut task.frames, line)?;
        Ok(())
    }

    /// Returns the latest lines of a thread before those of the next sample.
    fn known(&self, thread: u64) -> Option<&TaskText> {
        for sample in self.torn.iter().rev() {
            if let Some(task) = sample.tasks.iter().rfind(|task| task.thread == thread) {
                return Some(task);
            }
        }
        self.tasks.iter().find(|task| task.thread == thread)
    }

    /// Notes that the latest task is inside of the same functions as in its lines before.
    fn keep_frames(&mut self) -> Result<(), CaptureFaultKind> {
        let Some((last, before)) = self.next.tasks.split_last() else {
            return Err(CaptureFaultKind::Stray);
        };
        let thread = last.thread;
        let own = before.iter().rfind(|task| task.thread == thread);
        let Some(known) = own.or(self.known(thread)) else {
            return Err(CaptureFaultKind::Stray);
        };
        let mut frames = Vec::new(self.alloc);
        frames.extend_from_slice(&known.frames)?;
        if let Some(last) = self.next.tasks.last_mut() {
            last.frames = frames;
        }
        Ok(())
    }

    /// Takes the next sample out, and begins another one.
    fn take_next(&mut self) -> SampleText {
        let begun = SampleText::new(self.alloc);
        mem::replace(&mut self.next, begun)
    }

    /// Notes the name of a process, in place of the one that it had.
    fn set_process(&mut self, process: u64, line: &[u8]) -> Result<(), AllocError> {
        if let Some(place) = self.processes.iter().position(|own| own.process == process) {
            self.processes.remove(place);
        }
        let mut text = Vec::new(self.alloc);
        add_line(&mut text, line)?;
        self.processes.push(ProcessText {
            process,
            line: text,
        })?;
        Ok(())
    }

    /// Returns a log of the latest sample and the next, which must be whole ([`Taken::Sample`]). The log has no last line.
    pub fn text(&self) -> Result<Vec<u8>, AllocError> {
        let mut text = Vec::new(self.alloc);
        text.extend_from_slice(&self.head)?;
        for process in &self.processes {
            text.extend_from_slice(&process.line)?;
        }
        if !self.sample.is_empty() {
            text.extend_from_slice(&self.patches)?;
            add_tasks(&mut text, &self.tasks)?;
            text.extend_from_slice(&self.sample)?;
        }
        for torn in &self.torn {
            torn.add_to(&mut text)?;
        }
        self.next.add_to(&mut text)?;
        Ok(text)
    }

    /// Adds what a sample names to what is known.
    fn settle(&mut self, sample: SampleText) -> Result<(), AllocError> {
        let SampleText {
            patches,
            tasks,
            released,
            last_line,
            ..
        } = sample;
        if let Some(patches) = patches {
            self.patches = patches;
        }
        for task in tasks {
            self.forget(task.thread);
            self.tasks.push(task)?;
        }
        for thread in &released {
            self.forget(*thread);
        }
        self.sample = last_line;
        Ok(())
    }

    fn forget(&mut self, thread: u64) {
        if let Some(place) = self.tasks.iter().position(|own| own.thread == thread) {
            self.tasks.remove(place);
        }
    }

    /// Makes the next sample the latest one.
    pub fn step(&mut self) -> Result<(), AllocError> {
        let none = Vec::new(self.alloc);
        for torn in mem::replace(&mut self.torn, none) {
            self.settle(torn)?;
        }
        let next = self.take_next();
        self.settle(next)
    }
}
