//! The names in a log: its patches, the functions that they change, and the versions of these functions that tasks are
//! inside of.
ghost use Rattle.std.specs.Prelude.{◌≡◌, ◌||◌, not, option_map};
ghost use Rattle.std.specs.List.{find};
ghost use Rattle.klp_capture.specs.Shown.{is_there_as};
ghost use Rattle.klp_capture_catalog.specs.Rows.{files_of, is_moving, target_of};

use crate::changed_functions::{FoundFunction, found_in, is_shared};
use crate::cumulative::{Otherwise, is_cumulative, is_read_cumulative};
use crate::known::KnownPatches;
use crate::stack_order::in_stack_order;
use klp_capture::{Capture, FrameLine, PatchName, PatchRow, Span, SymbolLine, patch_in};
use klp_types::{MAX_PATCHES, MAX_SITES, MAX_SYMBOL_NAME};
use klp_words::is_name;
use std::alloc::{AllocError, Global};

/// The object of functions that are in no module.
const KERNEL: &[u8] = b"vmlinux";

/// The index of that object.
const KERNEL_NUMBER: usize = 0;

/// The function that patched functions call. Its address is `HANDLER_ADDRESS` if the log doesn't have it.
const HANDLER: &[u8] = b"klp_ftrace_handler";

const HANDLER_ADDRESS: u64 = 0xffff_ffff_8100_0000;

/// The address before the made-up addresses. If the log doesn't have an address, a made-up address is used. Made-up
/// addresses are `ADDRESS_STEP` apart.
const FIRST_ADDRESS: u64 = 0xffff_ffff_cf00_0000;

const ADDRESS_STEP: u64 = 16;

/// The prefixes that a new function's name may have. The name of the replaced function follows the prefix. The prefix
/// is empty (kpatch), `livepatch_` (the kernel's samples), or `klpp_` (klp-convert).
const PREFIXES: [&[u8]; 3] = [b"", b"livepatch_", b"klpp_"];

/// What the files `enabled` and `transition` of a patch read. `None` if the patch isn't installed.
pub type Files = Option<(bool, bool)>;

/// A patch that the log names.
#[derive(Clone, Copy)]
pub struct SeenPatch<'a> {
    /// The patch's name.
    pub name: &'a [u8],
    /// Whether the patch is cumulative. If the log doesn't show whether it is, the value is a guess.
    pub is_cumulative: bool,
    /// Whether the log says itself whether it is, by the patch's file `replace`.
    pub is_read: bool,
}

impl SeenPatch<'_> {
    /// Whether the log doesn't deny that the patch is cumulative.
    pub fn may_be_cumulative(&self) -> bool
        ensures { result ≡ (self.now.is_cumulative || not self.now.is_read) }
    {
        self.is_cumulative || !self.is_read
    }
}

/// A function that a patch changes, or that `klpcap` was asked to look for.
#[derive(Clone, Copy)]
pub struct SeenFunction<'a> {
    /// The index of the function's patch. `None` for a function that no patch changes.
    pub patch: Option<usize>,
    /// The index of the function's object.
    pub object: usize,
    /// The function's name.
    pub name: &'a [u8],
    /// The function's position among the symbols of this name, from 1.
    pub position: u32,
    /// The number of the new function among those of its patch. `None` for a function that a cumulative patch gives
    /// back, or that no patch changes.
    pub index: Option<u16>,
    /// The name of the new function, or `None` if the log doesn't have it.
    pub new_name: Option<&'a [u8]>,
    /// The address of the new function. If the log doesn't have the address, it is made up. For a function that no patch
    /// changes it is that of the function itself.
    pub new_address: u64,
}

/// A symbol of an object.
#[derive(Clone, Copy)]
pub(crate) struct SeenSymbol<'a> {
    pub object: usize,
    pub name: &'a [u8],
    pub(crate) address: u64,
}

/// A function that a task is inside of: the original, or the new one.
#[derive(Clone, Copy, PartialEq, Eq)]
pub struct SeenVersion {
    /// The index of the function.
    pub function: usize,
    pub is_new: bool,
}

/// The names in a log: patches, oldest first, objects, and functions.
#[derive(Drop)]
pub struct Functions<'a> {
    /// The patches, by their numbers in the catalog.
    pub patches: Vec<SeenPatch<'a>>,
    /// The objects, by their numbers in the catalog; the first is `vmlinux`.
    pub objects: Vec<&'a [u8]>,
    /// The functions that the patches change, patch by patch, and then those that `klpcap` was asked to look for.
    pub functions: Vec<SeenFunction<'a>>,
    /// The number of the site of each function's original. `None` if the catalog has no such symbol.
    pub(crate) sites: Vec<Option<u16>>,
    pub(crate) symbols: Vec<SeenSymbol<'a>>,
    pub(crate) handler: u64,
    /// The functions whose names have more than `MAX_SYMBOL_NAME` bytes. The catalog has the beginnings of these names.
    pub cut: Vec<&'a [u8]>,
    /// How many functions the catalog has no room for. At most 4,096 are counted.
    pub left_out: usize,
    /// The next made-up address, for a function whose address the log doesn't have.
    spare: u64,
    /// What a catalog says of the patches.
    pub(crate) known: &'a KnownPatches,
}

/// Returns what the files of a patch read, by these rows. Returns `None` if the rows don't have the patch.
pub fn files_in(rows: &[PatchRow<'_>], name: &[u8]) -> Files
    ensures { result ≡ files_of (find (is_there_as name.now) rows.now) }
{
    match patch_in(rows, name) {
        Some(
            PatchRow::Patch {
                is_enabled,
                is_moving,
                ..
            },
        ) => Some((is_enabled, is_moving)),
        _ => None,
    }
}

/// Returns the patch that is in transition by these rows, with its target.
pub fn moving_in<'a>(rows: &[PatchRow<'a>]) -> Option<(&'a [u8], bool)>
    ensures { option_map (λ moving. moving.1) result ≡ target_of (find is_moving rows.now) }
{
    for row in rows {
        if let PatchRow::Patch {
            name,
            is_enabled,
            is_moving: true,
            ..
        } = row
        {
            return Some((*name, *is_enabled));
        }
    }
    None
}

/// Whether a symbol belongs to an object: to a module of this name, or to the kernel itself.
fn is_of(symbol: &SymbolLine<'_>, object: &[u8]) -> bool {
    match symbol.module {
        Some(module) => module == object,
        None => object == KERNEL,
    }
}

fn is_named_after(new: &[u8], prefix: &[u8], old: &[u8]) -> bool {
    match new.strip_prefix(prefix) {
        Some(rest) => rest == old,
        None => false,
    }
}

/// Returns the place of a module in a list that has the newest module first. So an older module has a higher number.
fn age_of(modules: &[&[u8]], name: &[u8]) -> usize {
    modules
        .iter()
        .position(|module| *module == name)
        .unwrap_or(modules.len())
}

/// Returns the index of this name, after adding the name if the list doesn't have it. Returns `None` if there is no
/// room.
pub(crate) fn index_of<'a>(
    names: &mut Vec<&'a [u8]>,
    name: &'a [u8],
    most: usize,
) -> Result<Option<usize>, AllocError> {
    if let Some(index) = names.iter().position(|own| *own == name) {
        return Ok(Some(index));
    }
    if names.len() >= most {
        return Ok(None);
    }
    names.push(name)?;
    Ok(Some(names.len().saturating_sub(1)))
}

/// Returns the rows about patches of the first sample.
fn first_rows<'c, 'a>(capture: &'c Capture<'a>) -> &'c [PatchRow<'a>] {
    let span = match capture.samples.first() {
        Some(sample) => sample.patches,
        None => Span::EMPTY,
    };
    span.of(&capture.rows)
}

/// Returns the names of the patches, the oldest first. The patches of the first sample are ordered by the age of their
/// modules, and all by what the file `stack_order` reads, if the log has it.
fn patches_of<'a>(alloc: Global, capture: &Capture<'a>) -> Result<Vec<&'a [u8]>, AllocError> {
    let mut names: Vec<&'a [u8]> = Vec::new(alloc);
    for row in first_rows(capture) {
        if let PatchRow::Patch { name, .. } = row {
            let age = age_of(&capture.modules, *name);
            let place = names
                .iter()
                .position(|other| age_of(&capture.modules, *other) < age)
                .unwrap_or(names.len());
            if names.len() < MAX_PATCHES && !names.contains(name) {
                names.insert(place, *name)?;
            }
        }
    }
    for row in &capture.rows {
        if let PatchRow::Patch { name, .. } = row {
            let _ = index_of(&mut names, *name, MAX_PATCHES)?;
        }
    }
    in_stack_order(alloc, capture, &names)
}

/// Returns the symbol of this name in the kernel itself, if there is exactly one.
fn kernel_symbol<'a>(symbols: &[SymbolLine<'a>], name: &[u8]) -> Option<SymbolLine<'a>> {
    let mut found = None;
    for symbol in symbols {
        if symbol.name == name && symbol.module.is_none() {
            if found.is_some() {
                return None;
            }
            found = Some(*symbol);
        }
    }
    found
}

/// Whether the symbols of a patch's module are known. A log that was cut off may lack the symbols.
fn has_symbols(capture: &Capture<'_>, patch: &[u8]) -> bool {
    capture.is_whole
        || capture
            .symbols
            .iter()
            .any(|symbol| symbol.module == Some(patch))
}

/// Returns the symbol of this name in the module of a patch.
fn module_symbol<'a>(
    symbols: &[SymbolLine<'a>],
    patch: &[u8],
    name: &[u8],
) -> Option<SymbolLine<'a>> {
    let found = symbols.iter().find(|symbol| symbol.module == Some(patch) && symbol.name == name)?;
    Some(*found)
}

/// Returns the symbol of the new function that replaces a function of this name. Returns `None` if the patch's module
/// has no such symbol.
pub(crate) fn new_symbol_of<'a>(
    symbols: &[SymbolLine<'a>],
    patch: &[u8],
    name: &[u8],
) -> Option<SymbolLine<'a>> {
    for prefix in PREFIXES {
        let found = symbols.iter().find(|symbol| {
            symbol.module == Some(patch) && is_named_after(symbol.name, prefix, name)
        });
        if let Some(symbol) = found {
            return Some(*symbol);
        }
    }
    None
}

impl<'a> Functions<'a> {
    /// Returns the names in a log. With `guesses`, a patch counts as cumulative if it may be, though neither the log nor
    /// the known patches say whether it is.
    pub fn of(
        alloc: Global,
        capture: &Capture<'a>,
        known: &'a KnownPatches,
        guesses: bool,
    ) -> Result<Functions<'a>, AllocError> {
        let names = patches_of(alloc, capture)?;
        let mut objects: Vec<&'a [u8]> = Vec::new(alloc);
        objects.push(KERNEL)?;
        let found = found_in(alloc, &capture.rows, &names, &mut objects)?;
        let mut functions = Functions {
            patches: Vec::new(alloc),
            objects,
            functions: Vec::new(alloc),
            sites: Vec::new(alloc),
            symbols: Vec::new(alloc),
            handler: handler_in(&capture.symbols),
            cut: Vec::new(alloc),
            left_out: found.left_out.len(),
            spare: FIRST_ADDRESS,
            known,
        };
        for name in &names {
            let patch = functions.patches.len();
            let otherwise = Otherwise {
                known: known.is_cumulative(name),
                guesses,
            };
            functions.patches.push(SeenPatch {
                name: *name,
                is_cumulative: is_cumulative(capture, &found.functions, patch, name, otherwise),
                is_read: is_read_cumulative(&capture.rows, name).is_some(),
            })?;
        }
        functions.add_all(capture, &found.functions)?;
        functions.add_symbols(capture)?;
        functions.add_asked(capture)?;
        functions.number_sites()?;
        Ok(functions)
    }

    /// Returns the names of the patches in the log and in the trace.
    pub fn names(&self, alloc: Global) -> Result<Vec<PatchName<'a>>, AllocError> {
        let mut names = Vec::new(alloc);
        for patch in &self.patches {
            names.push(PatchName { name: patch.name })?;
        }
        Ok(names)
    }

    /// Returns a made-up address, for a function whose address the log doesn't have.
    fn spare_address(&mut self) -> u64 {
        self.spare = self.spare.saturating_add(ADDRESS_STEP);
        self.spare
    }

    /// Adds the functions of each patch, object by object.
    fn add_all(
        &mut self,
        capture: &Capture<'a>,
        found: &[FoundFunction<'a>],
    ) -> Result<(), AllocError> {
        for patch in 0..self.patches.len() {
            let mut index: u16 = 0;
            for object in 0..self.objects.len() {
                for function in found {
                    if function.patch == patch && function.object == object {
                        self.add(capture, found, function, &mut index)?;
                    }
                }
            }
        }
        Ok(())
    }

    fn add(
        &mut self,
        capture: &Capture<'a>,
        found: &[FoundFunction<'a>],
        function: &FoundFunction<'a>,
        index: &mut u16,
    ) -> Result<(), AllocError> {
        let Some(patch) = self.patches.get(function.patch).copied() else {
            return Ok(());
        };
        if function.name.len() > MAX_SYMBOL_NAME && !self.cut.contains(&function.name) {
            self.cut.push(function.name)?;
        }
        let object = self.objects.get(function.object).copied().unwrap_or(b"");
        let catalog = self.known;
        let known = catalog.new_name(patch.name, object, function);
        let symbol = match known {
            Some(name) => module_symbol(&capture.symbols, patch.name, name),
            None => new_symbol_of(&capture.symbols, patch.name, function.name),
        };
        let is_nop = patch.is_cumulative
            && is_shared(found, function)
            && symbol.is_none()
            && known.is_none()
            && has_symbols(capture, patch.name);
        let (new_name, new_address) = match symbol {
            Some(symbol) => (Some(symbol.name), symbol.address),
            None => (known, self.spare_address()),
        };
        self.functions.push(SeenFunction {
            patch: Some(function.patch),
            object: function.object,
            name: function.name,
            position: function.position.max(1),
            index: if is_nop { None } else { Some(*index) },
            new_name,
            new_address,
        })?;
        if !is_nop {
            *index = index.saturating_add(1);
        }
        Ok(())
    }

    /// Adds to each object the symbols with the names of its functions. The log's symbols are added first. If the log
    /// has too few symbols of a name, further symbols are made up.
    fn add_symbols(&mut self, capture: &Capture<'a>) -> Result<(), AllocError> {
        for place in 0..self.functions.len() {
            let Some(function) = self.functions.get(place).copied() else {
                return Ok(());
            };
            let has = self.count(function.object, function.name);
            if has == 0 {
                self.add_known(capture, &function)?;
            }
            let has = self.count(function.object, function.name);
            let wanted = (function.position as usize).min(MAX_SITES);
            for _missing in has..wanted {
                let address = self.spare_address();
                self.symbols.push(SeenSymbol {
                    object: function.object,
                    name: function.name,
                    address,
                })?;
            }
        }
        Ok(())
    }

    /// Adds the functions that `klpcap` was asked to look for and that no patch changes, so that the run says who sleeps
    /// in them. Leaves out a name that doesn't mean exactly one function of the kernel itself, and what the catalog has
    /// no room for.
    fn add_asked(&mut self, capture: &Capture<'a>) -> Result<(), AllocError> {
        for name in &capture.asked {
            let Some(symbol) = kernel_symbol(&capture.symbols, *name) else {
                continue;
            };
            if self.count(KERNEL_NUMBER, symbol.name) > 0 || !self.has_room_for(&symbol) {
                continue;
            }
            self.functions.push(SeenFunction {
                patch: None,
                object: KERNEL_NUMBER,
                name: symbol.name,
                position: 1,
                index: None,
                new_name: None,
                new_address: symbol.address,
            })?;
            self.symbols.push(SeenSymbol {
                object: KERNEL_NUMBER,
                name: symbol.name,
                address: symbol.address,
            })?;
        }
        Ok(())
    }

    /// Whether the catalog takes one more symbol: its name can be read back, and its first instruction is its own.
    fn has_room_for(&self, symbol: &SymbolLine<'_>) -> bool {
        let is_apart = |address: u64| address.abs_diff(symbol.address) >= ADDRESS_STEP;
        self.symbols.len() < MAX_SITES
            && symbol.name.len() <= MAX_SYMBOL_NAME
            && is_name(symbol.name)
            && is_apart(self.handler)
            && self.symbols.iter().all(|own| is_apart(own.address))
    }

    fn count(&self, object: usize, name: &[u8]) -> usize {
        self.symbols
            .iter()
            .filter(|symbol| symbol.object == object && symbol.name == name)
            .count()
    }

    fn add_known(
        &mut self,
        capture: &Capture<'a>,
        function: &SeenFunction<'a>,
    ) -> Result<(), AllocError> {
        let Some(object) = self.objects.get(function.object).copied() else {
            return Ok(());
        };
        for symbol in &capture.symbols {
            if symbol.name == function.name && is_of(symbol, object) {
                self.symbols.push(SeenSymbol {
                    object: function.object,
                    name: symbol.name,
                    address: symbol.address,
                })?;
            }
        }
        Ok(())
    }

    /// Returns the version of a function that a frame is in. Returns `None` if the list doesn't have the function, and no
    /// patch has it as a new function.
    pub fn seen_version(&self, frame: FrameLine<'_>) -> Option<SeenVersion> {
        let function = self
            .functions
            .iter()
            .position(|function| self.is_new(function, frame));
        if let Some(function) = function {
            return Some(SeenVersion {
                function,
                is_new: true,
            });
        }
        let function = self
            .functions
            .iter()
            .position(|function| self.is_original(function, frame))?;
        Some(SeenVersion {
            function,
            is_new: false,
        })
    }

    /// Returns the innermost of these frames that is in a patch's module, if none of them is a new function of that
    /// patch that the log shows. So the task is inside of a function of the patch, and it isn't known of which.
    pub fn unplaced_in(&self, frames: &[FrameLine<'a>]) -> Option<FrameLine<'a>> {
        let unplaced = frames.iter().find(|frame| {
            let is_of_a_patch = self
                .patches
                .iter()
                .any(|patch| frame.module == Some(patch.name));
            is_of_a_patch
                && !frames.iter().any(|other| {
                    other.module == frame.module
                        && self
                            .seen_version(*other)
                            .is_some_and(|version| version.is_new)
                })
        })?;
        Some(*unplaced)
    }

    /// Whether one of these frames is in a function of the list, or in a patch's module.
    pub fn is_inside(&self, frames: &[FrameLine<'a>]) -> bool {
        frames
            .iter()
            .any(|frame| self.seen_version(*frame).is_some())
            || self.unplaced_in(frames).is_some()
    }

    /// Whether an object is loaded by these rows. Returns `None` if no patch has the object there.
    pub fn is_loaded_in(&self, rows: &[PatchRow<'a>], object: usize) -> Option<bool> {
        let wanted = self.objects.get(object)?;
        let mut is_loaded = None;
        let mut is_wanted = false;
        for row in rows {
            match row {
                PatchRow::Object { name, .. } => {
                    is_wanted = name == wanted;
                    if is_wanted && is_loaded.is_none() {
                        is_loaded = Some(false);
                    }
                }
                PatchRow::Loaded if is_wanted => is_loaded = Some(true),
                _ => {}
            }
        }
        is_loaded
    }

    /// Whether a frame is in the new function that replaces this function.
    fn is_new(&self, function: &SeenFunction<'a>, frame: FrameLine<'_>) -> bool {
        let Some(number) = function.patch else {
            return false;
        };
        let Some(patch) = self.patches.get(number) else {
            return false;
        };
        if function.index.is_none() || frame.module != Some(patch.name) {
            return false;
        }
        match function.new_name {
            Some(name) => name == frame.function,
            // A log that was cut off may lack the symbols of the patch's module.
            None => PREFIXES.iter().any(|prefix| is_named_after(
                frame.function,
                prefix,
                function.name,
            )),
        }
    }

    /// Returns the module that has the original of a function. `None` if it is in the kernel itself.
    pub fn module_of(&self, function: &SeenFunction<'a>) -> Option<&'a [u8]> {
        let object = self.objects.get(function.object).copied()?;
        if object == KERNEL { None } else { Some(object) }
    }

    /// Whether a frame is in the original of this function.
    fn is_original(&self, function: &SeenFunction<'a>, frame: FrameLine<'_>) -> bool {
        let Some(object) = self.objects.get(function.object) else {
            return false;
        };
        let is_there = match frame.module {
            Some(module) => module == *object,
            None => *object == KERNEL,
        };
        is_there && function.name == frame.function
    }
}

/// Returns the address of the function that patched functions call, by the log's symbols.
fn handler_in(symbols: &[SymbolLine<'_>]) -> u64 {
    let found = symbols
        .iter()
        .find(|symbol| symbol.name == HANDLER && symbol.module.is_none());
    match found {
        Some(symbol) => symbol.address,
        None => HANDLER_ADDRESS,
    }
}
