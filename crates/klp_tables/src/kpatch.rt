//! The tables of kpatch-build.
ghost use Rattle.std.specs.Prelude.{◌≡◌, ◌⊎◌, ◌≤◌, [], map, bytes_eq, option_map, Some, Ok, Err, IfOk, MatchResult};
ghost use Rattle.std.specs.List.{fold, list_any};
ghost use Rattle.klp_tables.specs.Counted.{rows_below, target_meaning};
ghost use Rattle.klp_tables.specs.Kpatch.{callback_behind, callback_count, callback_sections, callbacks_for, callbacks_in, file_meaning, function_count, functions_for, has_name, kpatch_callback_at, kpatch_callback_by, kpatch_callback_row, kpatch_callbacks, kpatch_file, kpatch_function_at, kpatch_function_by, kpatch_function_row, kpatch_functions, kpatch_meaning, kpatch_names, kpatch_target, kpatch_targets, name_of_object, with_name, with_object};
ghost use Rattle.klp_tables.specs.Rows.{function_meaning};
ghost use Rattle.klp_tables.specs.declared.fault.TableFault.TheVariants.{NoMemory};

use crate::counted::{
    at_most, function_by, function_name_at, name_at, rows_in, section_place, section_size,
};
use crate::fault::TableFault;
use crate::limits::{MAX_FUNCTIONS, MAX_OBJECTS};
use crate::patch::{Callbacks, Function, Object, ObjectRow};
use crate::place::{moved, row_place};
use klp_elf::{Elf, Place};
use std::alloc::{AllocError, Global};

/// The bytes of a row of functions and of a row of callbacks.
const FUNCTION: u64 = 56;

const CALLBACK: u64 = 16;

/// The name of the kernel's image.
const IMAGE: &[u8] = b"vmlinux";

/// A function, and the name of its object.
#[derive(Clone, Copy)]
pub(crate) struct KpatchRow<'a> {
    pub(crate) object: &'a [u8],
    pub(crate) function: Function<'a>,
}

/// All rows of a file: functions, and of each kind of callbacks the names of the objects that have one.
#[derive(Drop)]
pub(crate) struct KpatchTables<'a> {
    pub(crate) functions: Vec<KpatchRow<'a>>,
    pub(crate) pre_patch: Vec<&'a [u8]>,
    pub(crate) post_patch: Vec<&'a [u8]>,
    pub(crate) pre_unpatch: Vec<&'a [u8]>,
    pub(crate) post_unpatch: Vec<&'a [u8]>,
}

/// Where the callbacks of each kind begin.
#[derive(Clone, Copy)]
pub(crate) struct CallbackSections {
    pub(crate) pre_patch: Option<Place>,
    pub(crate) post_patch: Option<Place>,
    pub(crate) pre_unpatch: Option<Place>,
    pub(crate) post_unpatch: Option<Place>,
}

/// Reads a function by where its object's name is pointed to, its old name and its new version, and where its position is.
fn kpatch_function_by<'a>(
    elf: &Elf<'a>,
    object: Place,
    old: Place,
    new: Place,
    position: Place,
) -> Result<KpatchRow<'a>, TableFault>
    ensures { MatchResult result (λ row. kpatch_function_by elf.now object old new position ≡ Ok (kpatch_meaning row))
        (λ fault. kpatch_function_by elf.now object old new position ≡ Err fault) }
{
    let object = name_at(elf, object)?;
    let function = function_by(elf, old, new, position)?;
    Ok(KpatchRow { object, function })
}

/// Reads the row of a function.
fn kpatch_function_at<'a>(elf: &Elf<'a>, place: Place) -> Result<KpatchRow<'a>, TableFault>
    ensures { MatchResult result (λ row. kpatch_function_at elf.now place ≡ Ok (kpatch_meaning row))
        (λ fault. kpatch_function_at elf.now place ≡ Err fault) }
{
    kpatch_function_by(
        elf,
        moved(place, 48),
        moved(place, 40),
        place,
        moved(place, 32),
    )
}

/// Reads so many functions.
fn kpatch_function_rows<'a>(
    alloc: Global,
    elf: &Elf<'a>,
    table: Place,
    count: usize,
) -> Result<Vec<KpatchRow<'a>>, TableFault>
    requires { count ≤ MAX_FUNCTIONS }
    ensures { MatchResult result (λ rows. rows_below (kpatch_function_row elf.now table) count ≡ Ok (map kpatch_meaning rows.items))
        (λ fault. (fault ≡ NoMemory) ⊎ (rows_below (kpatch_function_row elf.now table) count ≡ Err fault)) }
{
    let mut rows = Vec::new(alloc);
    for k in 0..count {
        match kpatch_function_at(elf, row_place(table, FUNCTION, k as u64)) {
            Ok(row) => rows.push(row)?,
            Err(fault) => return Err(fault),
        }
    }
    Ok(rows)
}

/// Returns how many functions there are.
fn function_count(elf: &Elf<'_>, table: Place) -> Result<usize, TableFault>
    ensures is { result ≡ function_count elf.now table }
    ensures within { IfOk result (λ n. n ≤ MAX_FUNCTIONS) }
{
    let count = rows_in(table, FUNCTION, section_size(elf, table))?;
    at_most(MAX_FUNCTIONS, TableFault::TooManyFunctions, count)
}

/// Reads the functions of the section that begins here.
fn kpatch_functions<'a>(
    alloc: Global,
    elf: &Elf<'a>,
    table: Place,
) -> Result<Vec<KpatchRow<'a>>, TableFault>
    ensures { MatchResult result (λ rows. kpatch_functions elf.now table ≡ Ok (map kpatch_meaning rows.items))
        (λ fault. (fault ≡ NoMemory) ⊎ (kpatch_functions elf.now table ≡ Err fault)) }
{
    match function_count(elf, table) {
        Ok(count) => kpatch_function_rows(alloc, elf, table, count),
        Err(fault) => Err(fault),
    }
}

/// Whether a name is among some.
fn is_named(names: &[&[u8]], name: &[u8]) -> bool
    ensures { result ≡ list_any (λ n. bytes_eq name.now n.now) names.now }
{
    names.iter().any(|other| name == *other)
}

fn has_name(names: &[&[u8]], name: &[u8]) -> bool
    ensures { result ≡ has_name (map (λ n. n.now) names.now) name.now }
{
    is_named(names, name)
}

/// Returns the name of a callback's object, by where the function and the name are pointed to.
fn kpatch_callback_by<'a>(
    elf: &Elf<'a>,
    function: Place,
    object: Place,
) -> Result<&'a [u8], TableFault>
    ensures { MatchResult result (λ name. kpatch_callback_by elf.now function object ≡ Ok name.now)
        (λ fault. kpatch_callback_by elf.now function object ≡ Err fault) }
{
    let _callback = function_name_at(elf, function)?;
    let name = name_at(elf, object)?;
    Ok(name)
}

/// Reads the row of a callback. Returns the name of its object.
fn kpatch_callback_at<'a>(elf: &Elf<'a>, place: Place) -> Result<&'a [u8], TableFault>
    ensures { MatchResult result (λ name. kpatch_callback_at elf.now place ≡ Ok name.now)
        (λ fault. kpatch_callback_at elf.now place ≡ Err fault) }
{
    kpatch_callback_by(elf, place, moved(place, 8))
}

/// Reads the row of a callback. Returns the name of its object, if that isn't among the names of the rows before.
fn callback_behind<'a>(elf: &Elf<'a>, place: Place, names: &[&[u8]]) -> Result<&'a [u8], TableFault>
    ensures { MatchResult result
        (λ name. callback_behind elf.now place (map (λ n. n.now) names.now) ≡ Ok name.now)
        (λ fault. callback_behind elf.now place (map (λ n. n.now) names.now) ≡ Err fault) }
{
    let name = kpatch_callback_at(elf, place)?;
    if has_name(names, name) {
        Err(TableFault::ExtraCallback(place))
    } else {
        Ok(name)
    }
}

/// Reads so many callbacks. Returns the names of their objects.
fn kpatch_callback_rows<'a>(
    alloc: Global,
    elf: &Elf<'a>,
    table: Place,
    count: usize,
) -> Result<Vec<&'a [u8]>, TableFault>
    requires { count ≤ MAX_OBJECTS }
    ensures { MatchResult result (λ names. rows_below (kpatch_callback_row elf.now table) count ≡ Ok (map (λ n. n.now) names.items))
        (λ fault. (fault ≡ NoMemory) ⊎ (rows_below (kpatch_callback_row elf.now table) count ≡ Err fault)) }
{
    let mut names: Vec<&'a [u8]> = Vec::new(alloc);
    for k in 0..count {
        match callback_behind(elf, row_place(table, CALLBACK, k as u64), &names) {
            Ok(name) => names.push(name)?,
            Err(fault) => return Err(fault),
        }
    }
    Ok(names)
}

/// Returns how many callbacks are in a section with so many bytes. Eight more may stand behind them.
fn callbacks_in(table: Place, size: u64) -> Result<u64, TableFault>
    ensures { result ≡ callbacks_in table size }
{
    if size % CALLBACK == 0 || size % CALLBACK == 8 {
        Ok(size / CALLBACK)
    } else {
        Err(TableFault::Ragged {
            table,
            width: CALLBACK,
        })
    }
}

/// Returns how many callbacks there are.
fn callback_count(elf: &Elf<'_>, table: Place) -> Result<usize, TableFault>
    ensures is { result ≡ callback_count elf.now table }
    ensures within { IfOk result (λ n. n ≤ MAX_OBJECTS) }
{
    let count = callbacks_in(table, section_size(elf, table))?;
    at_most(MAX_OBJECTS, TableFault::TooManyCallbacks, count)
}

/// Reads the callbacks of the section that begins here. Returns the names of their objects.
fn callbacks_of_section<'a>(
    alloc: Global,
    elf: &Elf<'a>,
    table: Place,
) -> Result<Vec<&'a [u8]>, TableFault>
    ensures { MatchResult result (λ names. kpatch_callbacks elf.now (Some table) ≡ Ok (map (λ n. n.now) names.items))
        (λ fault. (fault ≡ NoMemory) ⊎ (kpatch_callbacks elf.now (Some table) ≡ Err fault)) }
{
    match callback_count(elf, table) {
        Ok(count) => kpatch_callback_rows(alloc, elf, table, count),
        Err(fault) => Err(fault),
    }
}

/// Reads the callbacks of one kind, if there is a section of them. Returns the names of their objects.
fn kpatch_callbacks<'a>(
    alloc: Global,
    elf: &Elf<'a>,
    section: Option<Place>,
) -> Result<Vec<&'a [u8]>, TableFault>
    ensures { MatchResult result (λ names. kpatch_callbacks elf.now section ≡ Ok (map (λ n. n.now) names.items))
        (λ fault. (fault ≡ NoMemory) ⊎ (kpatch_callbacks elf.now section ≡ Err fault)) }
{
    match section {
        Some(table) => callbacks_of_section(alloc, elf, table),
        None => Ok(Vec::new(alloc)),
    }
}

/// Returns where the callbacks of each kind begin.
fn callback_sections(elf: &Elf<'_>) -> CallbackSections
    ensures { result ≡ callback_sections elf.now }
{
    CallbackSections {
        pre_patch: section_place(elf, b".kpatch.callbacks.pre_patch".as_slice()),
        post_patch: section_place(elf, b".kpatch.callbacks.post_patch".as_slice()),
        pre_unpatch: section_place(elf, b".kpatch.callbacks.pre_unpatch".as_slice()),
        post_unpatch: section_place(elf, b".kpatch.callbacks.post_unpatch".as_slice()),
    }
}

/// Reads all rows of a file, whose functions and callbacks begin here.
fn kpatch_file<'a>(
    alloc: Global,
    elf: &Elf<'a>,
    table: Place,
    sections: CallbackSections,
) -> Result<KpatchTables<'a>, TableFault>
    ensures { MatchResult result (λ tables. kpatch_file elf.now table sections ≡ Ok (file_meaning tables))
        (λ fault. (fault ≡ NoMemory) ⊎ (kpatch_file elf.now table sections ≡ Err fault)) }
{
    let functions = match kpatch_functions(alloc, elf, table) {
        Ok(functions) => functions,
        Err(fault) => return Err(fault),
    };
    let pre_patch = match kpatch_callbacks(alloc, elf, sections.pre_patch) {
        Ok(names) => names,
        Err(fault) => return Err(fault),
    };
    let post_patch = match kpatch_callbacks(alloc, elf, sections.post_patch) {
        Ok(names) => names,
        Err(fault) => return Err(fault),
    };
    let pre_unpatch = match kpatch_callbacks(alloc, elf, sections.pre_unpatch) {
        Ok(names) => names,
        Err(fault) => return Err(fault),
    };
    match kpatch_callbacks(alloc, elf, sections.post_unpatch) {
        Ok(post_unpatch) => Ok(KpatchTables {
            functions,
            pre_patch,
            post_patch,
            pre_unpatch,
            post_unpatch,
        }),
        Err(fault) => Err(fault),
    }
}

/// Adds those names that aren't there yet.
fn add_names<'a>(names: &mut Vec<&'a [u8]>, more: &[&'a [u8]]) -> Result<(), AllocError>
    ensures { IfOk result (λ _. map (λ n. n.now) names.new.items
        ≡ fold with_name (map (λ n. n.now) names.old.items) (map (λ n. n.now) more.now)) }
{
    for name in more {
        if !has_name(names, name) {
            names.push(name)?;
        }
    }
    Ok(())
}

/// Returns the names of the objects of some functions, each once.
fn names_of_rows<'a>(alloc: Global, rows: &[KpatchRow<'a>]) -> Result<Vec<&'a [u8]>, AllocError>
    ensures { IfOk result (λ names. map (λ n. n.now) names.items ≡ fold with_object [] (map kpatch_meaning rows.now)) }
{
    let mut names: Vec<&'a [u8]> = Vec::new(alloc);
    for row in rows {
        if !has_name(&names, row.object) {
            names.push(row.object)?;
        }
    }
    Ok(names)
}

/// Returns the names of all objects, each once.
fn kpatch_names<'a>(alloc: Global, tables: &KpatchTables<'a>) -> Result<Vec<&'a [u8]>, AllocError>
    ensures { IfOk result (λ names. map (λ n. n.now) names.items ≡ kpatch_names (file_meaning tables.now)) }
{
    let mut names = names_of_rows(alloc, &tables.functions)?;
    add_names(&mut names, &tables.pre_patch)?;
    add_names(&mut names, &tables.post_patch)?;
    add_names(&mut names, &tables.pre_unpatch)?;
    add_names(&mut names, &tables.post_unpatch)?;
    Ok(names)
}

/// Returns the functions of an object.
fn functions_for<'a>(
    alloc: Global,
    rows: &[KpatchRow<'a>],
    name: &[u8],
) -> Result<Vec<Function<'a>>, AllocError>
    ensures { IfOk result (λ functions. map function_meaning functions.items ≡ functions_for (map kpatch_meaning rows.now) name.now) }
{
    let mut functions = Vec::new(alloc);
    for row in rows {
        if row.object == name {
            functions.push(row.function)?;
        }
    }
    Ok(functions)
}

/// Returns the name of an object, which the kernel's image doesn't have.
fn name_of_object(name: &[u8]) -> Option<&[u8]>
    ensures { option_map (λ n. n.now) result ≡ name_of_object name.now }
{
    if name == IMAGE { None } else { Some(name) }
}

fn callbacks_for(tables: &KpatchTables<'_>, name: &[u8]) -> Callbacks
    ensures { result ≡ callbacks_for (file_meaning tables.now) name.now }
{
    Callbacks {
        pre_patch: has_name(&tables.pre_patch, name),
        post_patch: has_name(&tables.post_patch, name),
        pre_unpatch: has_name(&tables.pre_unpatch, name),
        post_unpatch: has_name(&tables.post_unpatch, name),
    }
}

/// Returns an object with its functions and callbacks.
fn kpatch_target<'a>(
    alloc: Global,
    tables: &KpatchTables<'a>,
    name: &'a [u8],
) -> Result<Object<'a>, AllocError>
    ensures { IfOk result (λ object. target_meaning object ≡ kpatch_target (file_meaning tables.now) name.now) }
{
    let functions = functions_for(alloc, &tables.functions, name)?;
    let row = ObjectRow {
        name: name_of_object(name),
        functions: None,
        callbacks: callbacks_for(tables, name),
    };
    Ok(Object { row, functions })
}

/// Returns the objects of these names.
fn targets_named<'a>(
    alloc: Global,
    tables: &KpatchTables<'a>,
    names: &[&'a [u8]],
) -> Result<Vec<Object<'a>>, AllocError>
    ensures { IfOk result (λ objects. map target_meaning objects.items ≡ map (kpatch_target (file_meaning tables.now)) (map (λ n. n.now) names.now)) }
{
    let mut objects = Vec::new(alloc);
    for name in names {
        objects.push(kpatch_target(alloc, tables, name)?)?;
    }
    Ok(objects)
}

/// Returns the objects that the rows of a file name.
fn targets_of<'a>(alloc: Global, tables: &KpatchTables<'a>) -> Result<Vec<Object<'a>>, AllocError>
    ensures { IfOk result (λ objects. map target_meaning objects.items
        ≡ map (kpatch_target (file_meaning tables.now)) (kpatch_names (file_meaning tables.now))) }
{
    let names = kpatch_names(alloc, tables)?;
    targets_named(alloc, tables, &names)
}

/// Reads the objects of a patch, whose functions begin here.
pub(crate) fn kpatch_targets<'a>(
    alloc: Global,
    elf: &Elf<'a>,
    table: Place,
) -> Result<Vec<Object<'a>>, TableFault>
    ensures { MatchResult result (λ objects. kpatch_targets elf.now table ≡ Ok (map target_meaning objects.items))
        (λ fault. (fault ≡ NoMemory) ⊎ (kpatch_targets elf.now table ≡ Err fault)) }
{
    let tables = match kpatch_file(alloc, elf, table, callback_sections(elf)) {
        Ok(tables) => tables,
        Err(fault) => return Err(fault),
    };
    let objects = targets_of(alloc, &tables)?;
    if MAX_OBJECTS < objects.len() {
        Err(TableFault::TooManyObjects)
    } else {
        Ok(objects)
    }
}
