//! One line of a log: a word, and the rest of the line (docs/CAPTURE.md, "What a log says").
ghost use Rattle.std.specs.Prelude.{◌≡◌, IfSome};
ghost use Rattle.klp_words.specs.Split.{words_between, separates};
ghost use Rattle.klp_words.specs.declared.split.Separators.TheVariants.{Spaces};
ghost use Rattle.klp_capture.specs.PatchLine.{flag_of, flag_if_there, order_if_there, newer_of, Says};

use crate::time::BootTime;
use klp_words::{LineWords, Separators, cut, hexadecimal, microseconds, number32, number64};

/// What a task does, by the letter in `/proc/<pid>/stat`.
#[derive(Clone, Copy, PartialEq, Eq)]
pub enum Activity {
    /// The task runs, or waits for a processor.
    Running,
    /// The task sleeps, in any way.
    Asleep,
    /// The task has ended, and waits to be reaped. It never runs again, and is inside of no function.
    Ended,
}

/// A task as a sample shows it.
#[derive(Clone, Copy)]
pub struct TaskLine<'a> {
    /// The thread's number.
    pub thread: u64,
    /// The number of the thread's process.
    pub process: u64,
    /// When the thread began, in ticks since boot. If the thread's number is used again, the new thread began at
    /// another time.
    pub start: u64,
    /// Whether the task ran or slept.
    pub activity: Activity,
    /// The letter itself, such as `S` for a sleep that a signal ends, or `D` for one that none does.
    pub letter: u8,
    /// What `patch_state` reads: -1, 0 or 1.
    pub state: PatchedState,
    /// How often the task got a processor.
    pub runs: u64,
    /// Whether the task slept all the time while it was read. If so, the functions listed for it are those of one
    /// moment.
    pub is_stable: bool,
    /// Whether the task is a thread of the kernel itself.
    pub is_kernel_thread: bool,
    /// The task's name. Its bytes needn't be text.
    pub name: &'a [u8],
}

/// What a task's `patch_state` reads.
#[derive(Clone, Copy, PartialEq, Eq)]
pub enum PatchedState {
    /// -1: no patch is in transition.
    Undefined,
    /// 0
    Unpatched,
    /// 1
    Patched,
}

/// A function that a task is inside of.
#[derive(Clone, Copy)]
pub struct FrameLine<'a> {
    /// The function's name.
    pub function: &'a [u8],
    /// The module that has the function, or `None` if the kernel itself has it.
    pub module: Option<&'a [u8]>,
}

/// The end of a sample.
#[derive(Clone, Copy)]
pub struct SampleLine {
    /// When the sample began.
    pub from: BootTime,
    /// When the sample had ended.
    pub to: BootTime,
    /// How many tasks there were in all.
    pub tasks: u64,
    /// How many tasks lagged and ran, without the tasks that `klpcap` followed.
    pub running: u64,
    /// How many tasks lagged and slept, without the tasks that `klpcap` followed.
    pub sleeping: u64,
    /// Whether a patch changed while the sample was taken.
    pub is_torn: bool,
    /// How many tasks that `klpcap` didn't follow lagged inside of a patched function. `None` if `klpcap` didn't look, and
    /// counted them among the others.
    pub inside: Option<u64>,
}

/// When the log was begun, by two clocks.
#[derive(Clone, Copy)]
pub struct Clock {
    /// The time of day, in seconds since 1970.
    pub epoch: u64,
    /// The time since boot.
    pub uptime: BootTime,
}

/// A process, of which the log names a thread.
#[derive(Clone, Copy)]
pub struct ProcessLine<'a> {
    /// The process's number.
    pub process: u64,
    /// The name of its command.
    pub name: &'a [u8],
}

/// What the files of a patch read that only newer kernels have.
#[derive(Clone, Copy)]
pub struct NewerFiles {
    /// Whether the patch is cumulative: what the file `replace` reads. `None` if the log doesn't have it.
    pub is_cumulative: Option<bool>,
    /// The place of the patch among the installed ones, from 1 for the oldest: what the file `stack_order` reads. `None`
    /// if the log doesn't have it.
    pub order: Option<u32>,
}

/// A patch, with what its files read.
#[derive(Clone, Copy)]
pub struct PatchLine<'a> {
    /// The patch's name.
    pub name: &'a [u8],
    /// Whether the file `enabled` reads 1.
    pub is_enabled: bool,
    /// Whether the file `transition` reads 1.
    pub is_moving: bool,
    /// What the files read that only newer kernels have.
    pub newer: NewerFiles,
}

/// A symbol with its address.
#[derive(Clone, Copy)]
pub struct SymbolLine<'a> {
    /// The symbol's address.
    pub address: u64,
    /// Its name.
    pub name: &'a [u8],
    /// The module that has the symbol, or `None` if the kernel itself has it.
    pub module: Option<&'a [u8]>,
}

/// One line of a log.
#[derive(Clone, Copy)]
pub enum Line<'a> {
    /// `klpcap 2`, or another version.
    Heading(u64),
    /// The machine's name.
    Host(&'a [u8]),
    Clock(Clock),
    Process(ProcessLine<'a>),
    /// A thread that is there, and isn't followed any longer.
    Left(u64),
    /// The kernel's release, and the machine.
    Kernel(&'a [u8]),
    Missing(&'a [u8]),
    /// A function for which `klpcap` was told to look, though no patch changes the function.
    Find(&'a [u8]),
    Patches,
    Patch(PatchLine<'a>),
    /// An object, and what its file `patched` reads. `None` if there is no such file.
    Object(&'a [u8], Option<bool>),
    Loaded(&'a [u8]),
    Function { name: &'a [u8], position: u32 },
    Task(TaskLine<'a>),
    Frame(FrameLine<'a>),
    /// The task is inside of the same functions as in its line before.
    SameFrames,
    Gone(u64),
    Sample(SampleLine),
    Log { at: BootTime, text: &'a [u8] },
    Symbol(SymbolLine<'a>),
    Module(&'a [u8]),
    End,
}

fn flag_of(word: &[u8]) -> Option<bool>
    ensures { result ≡ flag_of word.now }
{
    if word == b"0".as_slice() {
        Some(false)
    } else if word == b"1".as_slice() {
        Some(true)
    } else {
        None
    }
}

fn boot_time_of(word: &[u8]) -> Option<BootTime> {
    match microseconds(word) {
        Some(at) => Some(BootTime(at)),
        None => None,
    }
}

/// Returns the name, or `None` if it is empty.
fn named(word: &[u8]) -> Option<&[u8]> {
    if word.is_empty() { None } else { Some(word) }
}

/// Reads the module that may follow a function: `[NAME]`. A function of the kernel itself isn't followed by such a
/// word. Returns `None` if the word has another form.
fn module_of(word: Option<&[u8]>) -> Option<Option<&[u8]>> {
    let Some(word) = word else {
        return Some(None);
    };
    let inner = word.strip_prefix(b"[".as_slice())?;
    let inner = inner.strip_suffix(b"]".as_slice())?;
    Some(Some(named(inner)?))
}

/// Reads what a file says that may not be there. If it isn't, the word is `-`.
fn flag_if_there(word: &[u8]) -> Option<Option<bool>>
    ensures { result ≡ flag_if_there word.now }
{
    if word == b"-".as_slice() {
        return Some(None);
    }
    Some(Some(flag_of(word)?))
}

/// Reads a place among the installed patches, counted from 1. If the file isn't there, the word is `-`.
fn order_if_there(word: &[u8]) -> Option<Option<u32>>
    ensures { result ≡ order_if_there word.now }
{
    if word == b"-".as_slice() {
        return Some(None);
    }
    match number32(word)? {
        0 => None,
        order => Some(Some(order)),
    }
}

/// Reads `REPLACE STACK_ORDER`, up to the end of the line. A kernel that has neither file is told by no word.
fn newer_files(words: &mut LineWords<'_>) -> Option<NewerFiles>
    ensures { result ≡ newer_of words.old }
{
    let Some(replace) = words.next() else {
        return Some(NewerFiles {
            is_cumulative: None,
            order: None,
        });
    };
    let order = words.next()?;
    if words.next().is_some() {
        return None;
    }
    Some(NewerFiles {
        is_cumulative: flag_if_there(replace)?,
        order: order_if_there(order)?,
    })
}

/// Reads `NAME ENABLED TRANSITION`, and `REPLACE STACK_ORDER` of a kernel that has one of these files.
fn patch_line(rest: &[u8]) -> Option<PatchLine<'_>>
    ensures { IfSome result (λ line. Says (words_between (separates Spaces) rest.now) line) }
{
    let mut words = LineWords::new(rest, Separators::Spaces);
    let name = words.next()?;
    let is_enabled = flag_of(words.next()?)?;
    let is_moving = flag_of(words.next()?)?;
    let newer = newer_files(&mut words)?;
    Some(PatchLine {
        name,
        is_enabled,
        is_moving,
        newer,
    })
}

/// Reads `NAME PATCHED`. `PATCHED` is `-` or missing if the object has no file `patched`.
fn object_line(rest: &[u8]) -> Option<Line<'_>> {
    let (name, patched) = cut(rest, b' ');
    Some(Line::Object(named(name)?, flag_of(patched)))
}

/// Reads `NAME,POSITION`. The name itself may have commas.
fn function_line(rest: &[u8]) -> Option<Line<'_>> {
    let comma = rest.iter().rposition(|byte| *byte == b',')?;
    let name = named(rest.get(..comma)?)?;
    let position = number32(rest.get(comma.checked_add(1)?..)?)?;
    Some(Line::Function { name, position })
}

/// Reads the letter of a task's state in `/proc/<pid>/stat`. Returns what it means, and the letter.
fn activity_of(word: &[u8]) -> Option<(Activity, u8)> {
    match word {
        [letter] => Some((
            match letter {
                b'R' => Activity::Running,
                b'Z' | b'X' => Activity::Ended,
                _ => Activity::Asleep,
            },
            *letter,
        )),
        _ => None,
    }
}

fn state_of(word: &[u8]) -> Option<PatchedState> {
    if word == b"-1".as_slice() {
        Some(PatchedState::Undefined)
    } else if word == b"0".as_slice() {
        Some(PatchedState::Unpatched)
    } else if word == b"1".as_slice() {
        Some(PatchedState::Patched)
    } else {
        None
    }
}

/// Reads `TID PID START STATE PATCH_STATE RUNS STABLE KTHREAD NAME`. The name is the rest of the line, and may have
/// blanks.
fn task_line(rest: &[u8]) -> Option<Line<'_>> {
    let (thread, rest) = cut(rest, b' ');
    let (process, rest) = cut(rest, b' ');
    let (start, rest) = cut(rest, b' ');
    let (activity, rest) = cut(rest, b' ');
    let (state, rest) = cut(rest, b' ');
    let (runs, rest) = cut(rest, b' ');
    let (stable, rest) = cut(rest, b' ');
    let (kernel_thread, name) = cut(rest, b' ');
    let (activity, letter) = activity_of(activity)?;
    Some(Line::Task(TaskLine {
        thread: number64(thread)?,
        process: number64(process)?,
        start: number64(start)?,
        activity,
        letter,
        state: state_of(state)?,
        runs: number64(runs)?,
        is_stable: flag_of(stable)?,
        is_kernel_thread: flag_of(kernel_thread)?,
        name,
    }))
}

/// Reads `FUNC+OFFSET/SIZE [MODULE]`. If the word is an address without a function's name, it has no offset.
fn frame_line(rest: &[u8]) -> Option<Line<'_>> {
    if rest == b"=".as_slice() {
        return None;
    }
    let mut words = LineWords::new(rest, Separators::Spaces);
    let (function, _offset) = cut(words.next()?, b'+');
    let module = module_of(words.next())?;
    if words.next().is_some() {
        return None;
    }
    Some(Line::Frame(FrameLine { function, module }))
}

/// Reads `EPOCH UPTIME`.
fn clock_line(rest: &[u8]) -> Option<Line<'_>> {
    let (epoch, uptime) = cut(rest, b' ');
    Some(Line::Clock(Clock {
        epoch: number64(epoch)?,
        uptime: boot_time_of(uptime)?,
    }))
}

/// Reads `PID NAME`. The name is the rest of the line, and may have blanks.
fn process_line(rest: &[u8]) -> Option<Line<'_>> {
    let (process, name) = cut(rest, b' ');
    Some(Line::Process(ProcessLine {
        process: number64(process)?,
        name,
    }))
}

/// Reads `FROM TO TASKS RUNNING SLEEPING TORN INSIDE`. Version 1 has no `INSIDE`.
fn sample_line(rest: &[u8]) -> Option<Line<'_>> {
    let mut words = LineWords::new(rest, Separators::Spaces);
    let line = SampleLine {
        from: boot_time_of(words.next()?)?,
        to: boot_time_of(words.next()?)?,
        tasks: number64(words.next()?)?,
        running: number64(words.next()?)?,
        sleeping: number64(words.next()?)?,
        is_torn: flag_of(words.next()?)?,
        inside: match words.next() {
            Some(word) => Some(number64(word)?),
            None => None,
        },
    };
    if words.next().is_some() {
        return None;
    }
    Some(Line::Sample(line))
}

fn log_line(rest: &[u8]) -> Option<Line<'_>> {
    let (at, text) = cut(rest, b' ');
    Some(Line::Log {
        at: boot_time_of(at)?,
        text,
    })
}

/// Reads `ADDRESS TYPE NAME [MODULE]`.
fn symbol_line(rest: &[u8]) -> Option<Line<'_>> {
    let mut words = LineWords::new(rest, Separators::Spaces);
    let address = hexadecimal(words.next()?)?;
    let _type = words.next()?;
    let name = words.next()?;
    let module = module_of(words.next())?;
    if words.next().is_some() {
        return None;
    }
    Some(Line::Symbol(SymbolLine {
        address,
        name,
        module,
    }))
}

/// The forms of lines, each with its first word.
const FORMS: [(&str, &str); 21] = [
    ("klpcap", "klpcap VERSION"),
    ("kernel", "kernel RELEASE MACHINE"),
    ("host", "host NAME"),
    ("clock", "clock EPOCH UPTIME"),
    ("missing", "missing FILE"),
    ("find", "find FUNC"),
    ("patches", "patches"),
    (
        "patch",
        "patch NAME ENABLED TRANSITION [REPLACE STACK_ORDER]",
    ),
    ("object", "object NAME PATCHED"),
    ("loaded", "loaded NAME"),
    ("function", "function NAME,POSITION"),
    ("process", "process PID NAME"),
    (
        "task",
        "task TID PID START STATE PATCH_STATE RUNS STABLE KTHREAD NAME",
    ),
    ("frame", "frame FUNC+OFFSET/SIZE [MODULE]"),
    ("frames", "frames ="),
    ("gone", "gone TID"),
    ("left", "left TID"),
    (
        "sample",
        "sample FROM TO TASKS RUNNING SLEEPING TORN INSIDE",
    ),
    ("log", "log TIME TEXT"),
    ("symbol", "symbol ADDRESS TYPE NAME [MODULE]"),
    ("module", "module NAME"),
];

/// Returns the form of lines that begin with this word. Returns `None` if no line does.
pub fn form_of(word: &[u8]) -> Option<&'static str> {
    for (first, form) in FORMS {
        if first.as_bytes() == word {
            return Some(form);
        }
    }
    None
}

impl<'a> Line<'a> {
    /// Reads a line, without its line feed. Returns `None` if it isn't a line of a log, whatever stands before it.
    pub fn read(line: &'a [u8]) -> Option<Line<'a>> {
        let (word, rest) = cut(line, b' ');
        match word {
            b"klpcap" => Some(Line::Heading(number64(rest)?)),
            b"host" => Some(Line::Host(named(rest)?)),
            b"clock" => clock_line(rest),
            b"process" => process_line(rest),
            b"left" => Some(Line::Left(number64(rest)?)),
            b"kernel" => Some(Line::Kernel(named(rest)?)),
            b"missing" => Some(Line::Missing(named(rest)?)),
            b"find" => Some(Line::Find(named(rest)?)),
            b"patches" if rest.is_empty() => Some(Line::Patches),
            b"patch" => Some(Line::Patch(patch_line(rest)?)),
            b"object" => object_line(rest),
            b"loaded" => Some(Line::Loaded(named(rest)?)),
            b"function" => function_line(rest),
            b"task" => task_line(rest),
            b"frame" => frame_line(rest),
            b"frames" if rest == b"=".as_slice() => Some(Line::SameFrames),
            b"gone" => Some(Line::Gone(number64(rest)?)),
            b"sample" => sample_line(rest),
            b"log" => log_line(rest),
            b"symbol" => symbol_line(rest),
            b"module" => Some(Line::Module(named(rest)?)),
            b"end" => Some(Line::End),
            _ => None,
        }
    }
}
