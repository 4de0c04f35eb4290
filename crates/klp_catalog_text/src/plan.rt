ghost use Rattle.std.specs.Prelude.{◌≡◌, ◌<◌, [], length, slice_get, option_map, OnOk, OnErr};
ghost use Rattle.klp_catalog_text.specs.PlanParts.{with_function, with_target, with_function_in, with_callback};
ghost use Rattle.klp_catalog_text.specs.PlanParts.{with_callback_in, with_state};
ghost use Rattle.klp_catalog_text.specs.Limits.{AreFew};
ghost use Rattle.klp_catalog_text.specs.Scripts.{scripts_of};

use crate::items::{PlanFunction, SystemState};
use klp_types::{CALLBACK_KINDS, ObjId, ObjectText, Script, Which};
use smallvec::SmallVec;
use std::alloc::{AllocError, Global};
use std::marker::Model;
use std::mem;

/// A callback of a patch for an object (callbacks). A plan has only the callback's script. The catalog's caller makes a
/// callback of this script.
#[derive(Drop)]
pub struct PlanCallback {
    pub which: Which,
    pub script: Script,
    /// The number of the callback's line in the text, from 1. Contracts don't see it.
    pub line: u64,
}

impl Model for PlanCallback {
    ghost use Rattle.klp_types.specs.Setting.{Callback as PlanCallback};

    ghost Value = { PlanCallback };

    ghost view = { λ c. record { which = c.which; script = c.script } };
}

/// The new functions of a target. Most targets have one function. The list takes no memory for one function.
pub type PlanFunctions = SmallVec<PlanFunction, 1>;

/// The system states of a patch. Most patches name at most one state. The list takes no memory for one state.
pub type PlanStates = SmallVec<SystemState, 1>;

/// An object that a patch changes, with the new functions in the object and the callbacks for it. The object is stored
/// as a number, so that no later look-up of its name can fail (docs/DECISIONS.md, "Objects of targets by number").
#[derive(Drop)]
pub struct PlanTarget {
    pub object: ObjId,
    pub functions: PlanFunctions,
    /// The callbacks in the order of the text. Each kind occurs at most once, as in the kernel's `klp_object`.
    pub callbacks: Vec<PlanCallback>,
    /// The number of the target's line in the text, from 1. Contracts don't see it.
    pub line: u64,
}

impl Model for PlanTarget {
    ghost use Rattle.klp_catalog_text.specs.Plan.{PlanTarget};

    ghost Value = { PlanTarget };

    ghost view = { λ t. record { object = t.object; functions = t.functions.items; callbacks = t.callbacks.items } };
}

impl PlanTarget {
    /// Appends a function, so that functions are numbered in the order of the text.
    pub(crate) fn push(&mut self, function: PlanFunction) -> Result<(), AllocError>
        ensures ok { OnOk result (self.new ≡ with_function function self.old) }
        ensures err { OnErr result (self.new ≡ self.old) }
    {
        self.functions.push(function)?;
        Ok(())
    }

    /// Appends a callback. Callbacks are handed to a catalog in the order of the text, which is the order in which they
    /// are appended.
    pub(crate) fn push_callback(&mut self, callback: PlanCallback) -> Result<(), AllocError>
        ensures ok { OnOk result (self.new ≡ with_callback callback self.old) }
        ensures err { OnErr result (self.new ≡ self.old) }
    {
        if self.callbacks.is_empty() {
            // allocates room for one callback of each kind at once, since growing the list later would move its
            // scripts, which are large
            self.callbacks.reserve(CALLBACK_KINDS)?;
        }
        self.callbacks.push(callback)?;
        Ok(())
    }
}

/// A patch, with the content of its lines. Its number isn't stored, since the number is the patch's index in the plan.
#[derive(Drop)]
pub struct PlanPatch {
    pub name: String,
    /// Whether the patch is cumulative. A cumulative patch replaces all older patches when its transition completes.
    pub replace: bool,
    pub targets: Vec<PlanTarget>,
    /// The system states that the patch names, in the order of the text. Each id occurs once.
    pub states: PlanStates,
    /// The number of the patch's line in the text, from 1. Contracts don't see it.
    pub line: u64,
}

impl Model for PlanPatch {
    ghost use Rattle.std.specs.Prelude.{string_bytes};
    ghost use Rattle.klp_catalog_text.specs.Plan.{PlanPatch};

    ghost Value = { PlanPatch };

    ghost view = { λ p. record {
      name = string_bytes p.name;
      replace = p.replace;
      targets = p.targets.items;
      states = p.states.items;
    } };
}

impl PlanPatch {
    /// Appends an object without functions, as the open target. The target's line has the number `line`.
    pub(crate) fn push_target(
        &mut self,
        alloc: Global,
        object: ObjId,
        line: u64,
    ) -> Result<(), AllocError>
        ensures ok { OnOk result (self.new ≡ with_target (Some object) self.old) }
        ensures err { OnErr result (self.new ≡ self.old) }
    {
        self.targets.push(PlanTarget {
            object,
            functions: SmallVec::new(alloc),
            callbacks: Vec::new(alloc),
            line,
        })?;
        Ok(())
    }

    /// Adds a function to the last object, which is the open target.
    pub(crate) fn push_function(&mut self, function: PlanFunction) -> Result<(), AllocError>
        requires { 0 < length self.old.targets }
        ensures ok { OnOk result (self.new ≡ with_function_in function self.old) }
        ensures err { OnErr result (self.new ≡ self.old) }
    {
        let last = self.targets.len() - 1;
        self.targets[last].push(function)
    }

    /// Adds a callback to the last object, which is the open target.
    pub(crate) fn push_callback(&mut self, callback: PlanCallback) -> Result<(), AllocError>
        requires { 0 < length self.old.targets }
        ensures ok { OnOk result (self.new ≡ with_callback_in callback self.old) }
        ensures err { OnErr result (self.new ≡ self.old) }
    {
        let last = self.targets.len() - 1;
        self.targets[last].push_callback(callback)
    }

    /// Appends a system state. The state belongs to the patch, and to no target.
    pub(crate) fn push_state(&mut self, state: SystemState) -> Result<(), AllocError>
        ensures ok { OnOk result (self.new ≡ with_state state self.old) }
        ensures err { OnErr result (self.new ≡ self.old) }
    {
        self.states.push(state)?;
        Ok(())
    }
}

/// The content of a catalog's text: the handler, the objects with their symbols, and the patches, in the order of the
/// text. [`read`](crate::read) makes a plan.
#[derive(Drop)]
pub struct Plan {
    pub(crate) handler: u64,
    pub(crate) objects: Vec<ObjectText>,
    pub(crate) patches: Vec<PlanPatch>,
}

impl Model for Plan {
    ghost use Rattle.klp_catalog_text.specs.Plan.{Plan};

    ghost Value = { Plan };

    ghost view = { λ p. record { handler = p.handler; objects = p.objects.items; patches = p.patches.items } };

    ghost use Rattle.klp_catalog_text.specs.Limits.{AreFew};

    ghost invariant = { λ p. AreFew p.patches.items };
}

impl Plan {
    /// Returns the address that a hooked entry site calls. A call from each symbol must be able to reach this address.
    pub fn handler(&self) -> u64
        ensures { result ≡ self.now.handler }
    {
        self.handler
    }

    /// Returns the script of a callback. `number` counts the callbacks of all patches from 0, in the order of the text.
    /// So a caller can make one callback after another. Returns `None` if there are fewer callbacks. The cost is one
    /// step for each object of a patch that precedes the callback's object.
    pub fn script(&self, number: usize) -> Option<&Script>
        ensures { option_map (λ script. script.now) result ≡ slice_get (scripts_of self.now.patches) number }
    {
        let mut left = number;
        for patch in &self.patches {
            for target in &patch.targets {
                if let Some(callback) = target.callbacks.get(left) {
                    return Some(&callback.script);
                }
                left -= target.callbacks.len();
            }
        }
        None
    }

    /// Moves the objects with their symbols out of the plan. So no body is copied when the image is made. The plan has
    /// no objects afterwards.
    pub fn take_objects(&mut self) -> Vec<ObjectText>
        ensures objects { result.items ≡ self.old.objects }
        ensures rest { self.new ≡ record self.old { objects = [] } }
    {
        let alloc = *self.objects.allocator();
        mem::replace(&mut self.objects, Vec::new(alloc))
    }

    /// Returns the patches, and drops the rest of the plan.
    pub fn into_patches(self) -> Vec<PlanPatch>
        ensures patches { result.items ≡ self.patches }
        ensures few { AreFew self.patches }
    {
        self.patches
    }
}
