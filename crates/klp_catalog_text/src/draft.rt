//! The plan while its text is being read. For each kind of line there is a function. It checks whether such a line may
//! occur at this place.

ghost use Rattle.std.specs.Prelude.{◌≡◌, ◌<◌, ◌==◌, vec_len, length, IsTrue, Ok, Err, OnOk, OnErr, MatchOption};
ghost use Rattle.std.specs.Prelude.{option_copied};
ghost use Rattle.std.specs.List.{list_any};
ghost use Rattle.klp_types.specs.Image.{Symbol};
ghost use Rattle.klp_catalog_text.specs.Gives.{Gives, Becomes};
ghost use Rattle.klp_catalog_text.specs.PlanParts.{last_of, targets_of, states_of, callbacks_of, has_which};
ghost use Rattle.klp_catalog_text.specs.PlanParts.{names_state, on_last, has_some, with_symbol, with_target};
ghost use Rattle.klp_catalog_text.specs.PlanParts.{with_function_in, with_callback_in, with_state};
ghost use Rattle.klp_catalog_text.specs.Plan.{PlanTarget as TargetValue};
ghost use Rattle.klp_catalog_text.specs.Within.{AreTargetsWithin};
ghost use Rattle.klp_catalog_text.specs.Draft.{empty_draft, open_object, placed, names_of, patch_names_of, number_of};
ghost use Rattle.klp_catalog_text.specs.Text.{with_line, finished};

use crate::edit::ScriptText;
use crate::fault::TextFaultKind;
use crate::items::{Name, NameWord, PlanFunction, SystemState};
use crate::line::CatalogLine;
use crate::lines::words_of;
use crate::plan::{Plan, PlanCallback, PlanPatch, PlanTarget};
use klp_types::{
    MAX_BODY, MAX_FUNCTIONS, MAX_OBJECTS, MAX_PATCHES, MAX_SITES, MAX_STATES, MAX_TARGETS, ObjId,
    ObjectText, SymbolText, Which,
};
use smallvec::SmallVec;
use std::alloc::{AllocError, Global};
use std::marker::Model;

/// The part of a plan that the lines read so far have made.
///
/// The open target is the last target of the last patch. `func` lines add functions to the open target. It needs no
/// separate field. A `patch` line closes it.
#[derive(Drop)]
pub(crate) struct Draft {
    handler: Option<u64>,
    objects: Vec<ObjectText>,
    /// How many symbols all objects have together. One limit holds for all of these symbols.
    symbols: usize,
    patches: Vec<PlanPatch>,
    /// How many functions the last patch has, for all of its targets together. One limit holds for all of these
    /// functions.
    functions: usize,
    /// The number of the line that is being read, from 1. What the line adds keeps this number.
    line: u64,
}

impl Model for Draft {
    ghost use Rattle.klp_catalog_text.specs.Within.{AreTargetsWithin};
    ghost use Rattle.klp_catalog_text.specs.Draft.{Draft};
    ghost use Rattle.klp_catalog_text.specs.Kept.{IsKept};

    ghost Value = { Draft };

    ghost view = { λ d. record { handler = d.handler; objects = d.objects.items; patches = d.patches.items } };

    ghost invariant = { λ d. IsKept d.objects.items d.symbols d.patches.items d.functions };
}

/// Adds a symbol to the last object, which the last `object` line added.
fn push_symbol(objects: &mut Vec<ObjectText>, symbol: SymbolText) -> Result<(), AllocError>
    requires { 0 < vec_len objects.old }
    ensures ok { OnOk result (objects.new.items ≡ on_last (with_symbol symbol) objects.old.items) }
    ensures err { OnErr result (objects.new.items ≡ objects.old.items) }
{
    let last = objects.len() - 1;
    let object = &mut objects[last];
    object.symbols.push(symbol)?;
    Ok(())
}

/// Adds an object to the last patch, as its open target. If memory runs out, nothing changes.
fn push_target(
    alloc: Global,
    patches: &mut Vec<PlanPatch>,
    object: ObjId,
    line: u64,
) -> Result<(), AllocError>
    requires { 0 < vec_len patches.old }
    ensures ok { OnOk result (patches.new.items ≡ on_last (with_target (Some object)) patches.old.items) }
    ensures err { OnErr result (patches.new.items ≡ patches.old.items) }
{
    let last = patches.len() - 1;
    patches[last].push_target(alloc, object, line)
}

/// Adds a function to the last target of the last patch. If memory runs out, nothing changes.
fn push_function(patches: &mut Vec<PlanPatch>, function: PlanFunction) -> Result<(), AllocError>
    requires { 0 < length (targets_of (last_of patches.old.items)) }
    ensures ok { OnOk result (patches.new.items ≡ on_last (with_function_in function) patches.old.items) }
    ensures err { OnErr result (patches.new.items ≡ patches.old.items) }
{
    let last = patches.len() - 1;
    patches[last].push_function(function)
}

/// Adds a callback to the last target of the last patch. If memory runs out, nothing changes.
fn push_callback(patches: &mut Vec<PlanPatch>, callback: PlanCallback) -> Result<(), AllocError>
    requires { 0 < length (targets_of (last_of patches.old.items)) }
    ensures ok { OnOk result (patches.new.items ≡ on_last (with_callback_in callback) patches.old.items) }
    ensures err { OnErr result (patches.new.items ≡ patches.old.items) }
{
    let last = patches.len() - 1;
    patches[last].push_callback(callback)
}

/// Adds a system state to the last patch, whichever target is open.
fn push_state(patches: &mut Vec<PlanPatch>, state: SystemState) -> Result<(), AllocError>
    requires { 0 < vec_len patches.old }
    ensures ok { OnOk result (patches.new.items ≡ on_last (with_state state) patches.old.items) }
    ensures err { OnErr result (patches.new.items ≡ patches.old.items) }
{
    let last = patches.len() - 1;
    patches[last].push_state(state)
}

/// Returns the index of the object with this name. Returns `None` if there is no such object. There are few objects, so
/// the name is compared with the name of each (docs/DECISIONS.md, "Names by comparison").
fn object_number(objects: &[ObjectText], name: &str) -> Option<usize>
    ensures { result ≡ number_of name.now (names_of objects.now) }
{
    objects
        .iter()
        .position(|object| name == object.name.as_str())
}

/// Returns the index of the patch with this name. Returns `None` if there is no such patch.
fn patch_number(patches: &[PlanPatch], name: &str) -> Option<usize>
    ensures { result ≡ number_of name.now (patch_names_of patches.now) }
{
    patches.iter().position(|patch| name == patch.name.as_str())
}

/// Whether one of the targets is this object.
fn has_target(targets: &[PlanTarget], object: ObjId) -> bool
    ensures { result ≡ list_any (λ (t : TargetValue). t.object == object) targets.now }
{
    targets.iter().any(|target| target.object == object)
}

/// Whether one of the callbacks is of this kind.
fn has_which(callbacks: &[PlanCallback], which: Which) -> bool
    ensures { result ≡ has_which which callbacks.now }
{
    callbacks.iter().any(|callback| callback.which == which)
}

/// Whether one of the states has this id.
fn names_state(states: &[SystemState], id: u64) -> bool
    ensures { result ≡ names_state id states.now }
{
    states.iter().any(|state| state.id == id)
}

/// Returns the callbacks of the last target, which is the open one. The slice is empty if there is no target. A target
/// may have one callback of each kind.
fn last_callbacks(targets: &[PlanTarget]) -> &[PlanCallback]
    ensures { result.now ≡ callbacks_of (last_of targets.now) }
{
    match targets.last() {
        Some(target) => target.callbacks.as_slice(),
        None => &[],
    }
}

/// Returns the system states of the last patch. The slice is empty if there is no patch, so that callers need no
/// special case.
fn open_states(patches: &[PlanPatch]) -> &[SystemState]
    ensures { result.now ≡ states_of (last_of patches.now) }
{
    match patches.last() {
        Some(patch) => patch.states.as_slice(),
        None => &[],
    }
}

/// Returns the targets of the last patch. The slice is empty if there is no patch. A target is open exactly when the
/// slice isn't empty.
fn open_targets(patches: &[PlanPatch]) -> &[PlanTarget]
    ensures { result.now ≡ targets_of (last_of patches.now) }
{
    match patches.last() {
        Some(patch) => patch.targets.as_slice(),
        None => &[],
    }
}

impl Draft {
    pub(crate) fn new(alloc: Global) -> Draft
        ensures { result ≡ empty_draft }
    {
        Draft {
            handler: None,
            objects: Vec::new(alloc),
            symbols: 0,
            patches: Vec::new(alloc),
            functions: 0,
            line: 0,
        }
    }

    /// Returns the name of the open target's object. Returns `None` if no target is open. To read a `func` line this
    /// name is needed, since the spelling of a symbol has the object's name too (docs/DECISIONS.md, "The open target").
    pub(crate) fn open_object(&self) -> Option<&str>
        ensures { option_copied result ≡ open_object self.now }
    {
        let target = open_targets(&self.patches).last()?;
        let object = self.objects.get(target.object.0 as usize)?;
        Some(object.name.as_str())
    }

    /// Sets the handler. Returns `Err` if a patch or a handler was read before.
    fn place_handler(&mut self, address: u64) -> Result<(), TextFaultKind>
        ensures { Becomes result self.new (placed self.old (CatalogLine.Handler address)) }
    {
        if !self.patches.is_empty() {
            return Err(TextFaultKind::OutOfPlace);
        }
        if self.handler.is_some() {
            return Err(TextFaultKind::Twice);
        }
        self.handler = Some(address);
        Ok(())
    }

    /// Adds an object. Returns `Err` if a patch was read before, if an object has this name already, or if there are
    /// too many objects.
    fn place_object(&mut self, alloc: Global, name: Name) -> Result<(), TextFaultKind>
        ensures { Becomes result self.new (placed self.old (CatalogLine.Object name)) }
    {
        let Name(name) = name;
        if !self.patches.is_empty() {
            return Err(TextFaultKind::OutOfPlace);
        }
        // The image that is made of a plan mustn't have two objects with the same name. A name that is given twice is
        // reported before too many objects are (docs/DECISIONS.md, "Names given twice").
        if object_number(&self.objects, name.as_str()).is_some() {
            return Err(TextFaultKind::Twice);
        }
        if self.objects.len() >= MAX_OBJECTS {
            return Err(TextFaultKind::TooMany);
        }
        self.objects.push(ObjectText {
            name,
            symbols: Vec::new(alloc),
        })?;
        Ok(())
    }

    /// Adds a symbol to the last object. Returns `Err` if a patch was read before, if no object was read, if there are
    /// too many symbols, or if the body is too long.
    fn place_symbol(&mut self, symbol: SymbolText) -> Result<(), TextFaultKind>
        ensures { Becomes result self.new (placed self.old (CatalogLine.Symbol symbol)) }
    {
        if !self.patches.is_empty() || self.objects.is_empty() {
            return Err(TextFaultKind::OutOfPlace);
        }
        if self.symbols >= MAX_SITES || symbol.body.len() > MAX_BODY {
            return Err(TextFaultKind::TooMany);
        }
        push_symbol(&mut self.objects, symbol)?;
        self.symbols += 1;
        Ok(())
    }

    /// Adds a patch, and so closes the open target. Returns `Err` if a patch has this name already, or if there are too
    /// many patches.
    fn place_patch(&mut self, alloc: Global, name: Name, replace: bool) -> Result<(), TextFaultKind>
        ensures { Becomes result self.new (placed self.old (CatalogLine.Patch name replace)) }
    {
        let Name(name) = name;
        if patch_number(&self.patches, name.as_str()).is_some() {
            return Err(TextFaultKind::Twice);
        }
        if self.patches.len() >= MAX_PATCHES {
            return Err(TextFaultKind::TooMany);
        }
        self.patches.push(PlanPatch {
            name,
            replace,
            targets: Vec::new(alloc),
            states: SmallVec::new(alloc),
            line: self.line,
        })?;
        self.functions = 0;
        Ok(())
    }

    /// Adds an object to the last patch, as its open target. Returns `Err` if there is no patch, if no object has this
    /// name, if the patch has the object already, or if the patch has too many objects.
    fn place_target(&mut self, alloc: Global, name: &str) -> Result<(), TextFaultKind>
        ensures { Becomes result self.new (placed self.old (CatalogLine.Target name.now)) }
    {
        if self.patches.is_empty() {
            return Err(TextFaultKind::OutOfPlace);
        }
        let Some(number) = object_number(&self.objects, name) else {
            return Err(TextFaultKind::UnknownObject);
        };
        let object = ObjId(number as u8);
        let targets = open_targets(&self.patches);
        if has_target(targets, object) {
            return Err(TextFaultKind::Twice);
        }
        if targets.len() >= MAX_TARGETS {
            return Err(TextFaultKind::TooMany);
        }
        push_target(alloc, &mut self.patches, object, self.line)?;
        Ok(())
    }

    /// Adds a function to the open target. Returns `Err` if no target is open, or if the patch has too many functions.
    fn place_function(&mut self, function: PlanFunction) -> Result<(), TextFaultKind>
        ensures { Becomes result self.new (placed self.old (CatalogLine.Function function)) }
    {
        if open_targets(&self.patches).is_empty() {
            return Err(TextFaultKind::OutOfPlace);
        }
        if self.functions >= MAX_FUNCTIONS {
            return Err(TextFaultKind::TooMany);
        }
        push_function(&mut self.patches, function)?;
        self.functions += 1;
        Ok(())
    }

    /// Adds a callback to the open target. Returns `Err` if no target is open, if the target already has a callback of
    /// this kind, or if the script has too many edits.
    fn place_callback(&mut self, which: Which, script: ScriptText) -> Result<(), TextFaultKind>
        ensures { Becomes result self.new (placed self.old (CatalogLine.Callback which script)) }
    {
        let targets = open_targets(&self.patches);
        if targets.is_empty() {
            return Err(TextFaultKind::OutOfPlace);
        }
        if has_which(last_callbacks(targets), which) {
            return Err(TextFaultKind::Twice);
        }
        let Some(script) = script.into_script() else {
            return Err(TextFaultKind::TooMany);
        };
        let line = self.line;
        push_callback(
            &mut self.patches,
            PlanCallback {
                which,
                script,
                line,
            },
        )?;
        Ok(())
    }

    /// Adds a system state to the last patch. The state belongs to the patch, so its line may follow any of the patch's
    /// targets. The open target stays open (docs/DECISIONS.md, "`state` lines"). Returns `Err` if there is no patch, if
    /// the patch names the id already, or if the patch has too many states.
    fn place_state(&mut self, state: SystemState) -> Result<(), TextFaultKind>
        ensures { Becomes result self.new (placed self.old (CatalogLine.State state)) }
    {
        if self.patches.is_empty() {
            return Err(TextFaultKind::OutOfPlace);
        }
        let states = open_states(&self.patches);
        if names_state(states, state.id) {
            return Err(TextFaultKind::Twice);
        }
        if states.len() >= MAX_STATES {
            return Err(TextFaultKind::TooMany);
        }
        push_state(&mut self.patches, state)?;
        Ok(())
    }

    /// Counts the line that is read next, and returns its number.
    fn begin_line(&mut self) -> u64
        ensures { self.new ≡ self.old }
    {
        self.line = self.line.saturating_add(1);
        self.line
    }

    /// Reads one line of the text, and adds what the line says. `text` doesn't have the bytes that end the line. An
    /// empty line adds nothing.
    pub(crate) fn read_line(&mut self, alloc: Global, text: &[u8]) -> Result<(), TextFaultKind>
        ensures { Becomes result self.new (with_line self.old text.now) }
    {
        let number = self.begin_line();
        // A line is a comment only if its very first byte is `#`. So a word may begin with `#` (docs/DECISIONS.md,
        // "Comments").
        if let [b'#', ..] = text {
            return Ok(());
        }
        let mut words = words_of(text);
        let Some(first) = words.next() else {
            return Ok(());
        };
        // The words are checked before the place of the line. So a misspelled line is reported as misspelled at any
        // place (docs/DECISIONS.md, "Words before the place of a line").
        let line = CatalogLine::read(alloc, self.open_object(), number, text, first, &mut words)?;
        self.place(alloc, line)
    }

    /// Adds what a line says. Returns a fault if the line may not occur at this place. The function for each kind of
    /// line checks the place.
    pub(crate) fn place(
        &mut self,
        alloc: Global,
        line: CatalogLine<'_>,
    ) -> Result<(), TextFaultKind>
        ensures { Becomes result self.new (placed self.old line.entry) }
    {
        match line {
            CatalogLine::Handler(address) => self.place_handler(address),
            CatalogLine::Object(name) => self.place_object(alloc, name),
            CatalogLine::Symbol(symbol) => self.place_symbol(symbol),
            CatalogLine::Patch(name, replace) => self.place_patch(alloc, name, replace),
            CatalogLine::Target(NameWord(name)) => self.place_target(alloc, name),
            CatalogLine::Function(function) => self.place_function(function),
            CatalogLine::Callback(which, script) => self.place_callback(which, script),
            // A whole `SystemState` can't be moved out of a line that borrows, so its fields are copied.
            CatalogLine::State(SystemState { id, version, line }) => self.place_state(SystemState {
                id,
                version,
                line,
            }),
        }
    }

    /// Returns the handler, if the text had both a handler and an object. Returns `None` if one of them is missing.
    /// This is known only at the end of the text, so no line is at fault.
    pub(crate) fn whole_handler(&self) -> Option<u64>
        ensures { MatchOption result (finished self.now ≡ Err (record { line = 0; kind = TextFaultKind.Missing }))
            (λ handler. finished self.now
            ≡ Ok (record { handler = handler; objects = self.now.objects; patches = self.now.patches })) }
    {
        if self.objects.is_empty() {
            return None;
        }
        self.handler
    }

    /// Makes the plan of the whole text, with this handler.
    pub(crate) fn into_plan(self, handler: u64) -> Plan
        ensures plan { result ≡ record { handler = handler; objects = self.objects; patches = self.patches } }
        ensures targets { AreTargetsWithin (length result.objects) result.patches }
    {
        Plan {
            handler,
            objects: self.objects,
            patches: self.patches,
        }
    }
}
