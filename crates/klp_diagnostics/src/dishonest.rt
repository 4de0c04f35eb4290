//! Says which task does what in an item that isn't honest.

use crate::calls::Calls;
use klp_faulty_words::item::Item;
use klp_messages::Escaped;
use klp_watch::Cause;
use std::fmt;

/// What is said of an item that isn't honest.
#[derive(Clone, Copy)]
pub(crate) enum Act<'a> {
    /// The fault isn't an act of a task.
    Nobody(&'static str),
    /// This task does this act. The last field is the function that the task is inside of, if it is inside of one.
    Inside(u64, &'static str, Option<&'a [u8]>),
    /// This module is unloaded while this task is inside of this function of the module.
    Going(&'a [u8], u64, &'a [u8]),
}

/// Writes the act as the end of a message about an item that isn't honest.
impl<'a> fmt::Display for Act<'a> {
    fn fmt<W: fmt::Write>(&self, f: &mut fmt::Formatter<W>) -> fmt::Result {
        match *self {
            Act::Nobody(what) => write!(f, "{what}"),
            Act::Inside(task, does, None) => write!(f, "task {task} {does} inside of no function"),
            Act::Inside(task, does, Some(symbol)) => {
                write!(f, "task {task} {does} inside of {}", Escaped(symbol))
            }
            Act::Going(module, task, symbol) => write!(
                f,
                "{} goes while task {task} is inside of {}",
                Escaped(module),
                Escaped(symbol)
            ),
        }
    }
}

/// Returns the act of a task that returns where it can't: it is inside of no function, or else it sleeps. `calls` are
/// the calls that are open before the item.
fn return_act<'a>(task: u64, calls: &Calls<'a>) -> Act<'a> {
    match calls.last_of(task) {
        None => Act::Inside(task, "returns, and is", None),
        inside => Act::Inside(task, "returns while it sleeps", inside),
    }
}

/// Returns the act of a module that is unloaded while a task is inside of it. The act names the lowest-numbered such
/// task, and the module's symbol that this task called last. Returns `None` if by the calls no task is inside of the
/// module.
fn going_act<'a>(module: &'a [u8], calls: &Calls<'a>) -> Option<Act<'a>> {
    let (task, symbol) = calls.first_in(module)?;
    Some(Act::Going(module, task, symbol))
}

/// Returns what a task does in an item that breaks the premise `cause`, or which task keeps a module from being
/// unloaded. `calls` are the calls that are open before the item. Returns `None` if no task is at fault.
fn act_in<'a>(cause: Cause, item: Item<'a>, calls: &Calls<'a>) -> Option<Act<'a>> {
    let (task, does) = match (cause, item) {
        (Cause::FramesLeft, Item::Exit(task)) => (task, "leaves the kernel"),
        (Cause::FramesLeft, Item::End(task)) => (task, "ends"),
        (Cause::Deep, Item::Call(task, _)) => (task, "calls one function too many, and is"),
        (Cause::NoReturn, Item::Return(task)) => return Some(return_act(task, calls)),
        (Cause::ModuleInUse, Item::Going(module)) => return going_act(module, calls),
        _ => return None,
    };
    Some(Act::Inside(task, does, calls.last_of(task)))
}

/// Returns what is said of an item that breaks the premise `cause`. `item` is `None` if the item isn't about a task or
/// a module that is unloaded. `calls` are the calls that are open before the item.
pub(crate) fn act_of<'a>(cause: Cause, item: Option<Item<'a>>, calls: &Calls<'a>) -> Act<'a> {
    let act = match item {
        Some(item) => act_in(cause, item, calls),
        None => None,
    };
    act.unwrap_or(match cause {
        Cause::Forced => Act::Nobody("a transition is forced"),
        Cause::NotOpening => Act::Nobody("a task is there at the start"),
        _ => Act::Nobody("a premise of the consistency model is broken"),
    })
}
