//! The answers of a manager with a catalog's text to several inputs, one after another. Each return of a function is
//! proved on its own, so a function that owns a manager is costly to prove. In this crate, only this file and
//! library.rt own managers.
ghost use Rattle.std.specs.Prelude.{length};
ghost use Rattle.klp_catalog_text.specs.Within.{AreTargetsWithin};

use crate::input::{Input, serve_input};
use arrayvec::ArrayVec;
use klp_boot::{Fault, close, opened};
use klp_callback::{Boxed, Scripted};
use klp_catalog::Catalog;
use klp_catalog_text::Plan;
use klp_console::{ServeFault, Served};
use klp_core::Manager;
use klp_types::PatchId;
use klp_world::Script;
use std::alloc::{AllocError, Global};

/// A catalog's text, and the number of callbacks with which a manager over it is booted.
#[derive(Clone, Copy)]
pub struct Given<'a> {
    pub text: &'a str,
    pub callbacks: usize,
}

/// The result of an input. Also has how many bytes were answered up to its end, and how many records then still fit
/// into the journal.
#[derive(Clone, Copy)]
pub struct Look {
    pub ended: Result<Served, ServeFault>,
    pub said: usize,
    pub free: u32,
}

/// The data that is seen of a manager after it served some inputs.
#[derive(Drop)]
pub struct Shown {
    /// A look after each input.
    pub looks: Vec<Look>,
    /// The answers to all inputs together.
    pub said: Vec<u8>,
    /// The values of the system states 3 and 4 of the first two patches after all inputs.
    pub states: [Option<u64>; 4],
}

/// The script with this number, counted in the order of the text. If there is no such script, a script that does
/// nothing.
fn script_at(plan: &Plan, number: usize) -> Script {
    match plan.script(number) {
        Some(script) => script.copy(),
        None => Script {
            edits: ArrayVec::new(),
            status: 0,
        },
    }
}

/// Boots a manager over a plan with these callbacks. The number of callbacks may be wrong.
fn booted(alloc: Global, mut plan: Plan, callbacks: Vec<Boxed>) -> Result<Manager, Fault>
    requires { AreTargetsWithin (length plan.objects) plan.patches }
{
    let (image, modules) = opened(alloc, &mut plan)?;
    let catalog = Catalog::assemble(alloc, &modules, plan, callbacks)?;
    Ok(Manager::boot(alloc, image, modules, catalog)?)
}

fn states_of(manager: &Manager) -> [Option<u64>; 4] {
    let [first, second] = [PatchId(0), PatchId(1)];
    [
        manager.state_of(first, 3),
        manager.state_of(first, 4),
        manager.state_of(second, 3),
        manager.state_of(second, 4),
    ]
}

/// Returns the answers of a manager to these inputs. `shown` must be empty, with room for a look after each input.
fn after(
    booted: Result<Manager, Fault>,
    inputs: &[Input<'_>],
    mut shown: Shown,
) -> Result<Shown, Fault> {
    let mut manager = booted?;
    for input in inputs {
        let ended = serve_input(&mut manager, input, &mut shown.said);
        let said = shown.said.len();
        let free = manager.records_free();
        let _ = shown.looks.push(Look { ended, said, free });
    }
    shown.states = states_of(&manager);
    close(manager);
    Ok(shown)
}

/// Returns a `Shown` that is empty, and has room for `looks` looks.
fn nothing_shown(alloc: Global, looks: usize) -> Result<Shown, AllocError> {
    Ok(Shown {
        looks: Vec::with_capacity(alloc, looks)?,
        said: Vec::new(alloc),
        states: [None; 4],
    })
}

/// Returns the answers of a manager to these inputs. If memory for a callback's box is refused, that callback is
/// missing.
pub fn outcome(alloc: Global, given: Given<'_>, inputs: &[Input<'_>]) -> Result<Shown, Fault> {
    let plan = Catalog::read(alloc, given.text.as_bytes())?;
    let shown = nothing_shown(alloc, inputs.len())?;
    let mut boxes = Vec::new(alloc);
    for number in 0..given.callbacks {
        if let Ok(callback) = Box::new(alloc, Scripted::new(script_at(&plan, number))) {
            let _ = boxes.push(Boxed::new(callback));
        }
    }
    after(booted(alloc, plan, boxes), inputs, shown)
}
