//! Making the table of a manager, and the changes that an event makes in the table.
ghost use Rattle.std.specs.Prelude.{◌≡◌, ℕ, ◌<◌, ◌≤◌, ◌++◌, true, false, Some, None, length, slice_index_or, vec_len};
ghost use Rattle.std.specs.Prelude.{vec_capacity, ◌+◌, IfOk, IfSome, Option, Ok};
ghost use Rattle.klp_types.specs.declared.limits.TheConstants.{MAX_SITES, MAX_TASKS};
ghost use Rattle.klp_types.specs.Entries.{patches_site};
ghost use Rattle.klp_types.specs.Setting.{functions_of};
ghost use Rattle.klp_model.specs.Rows.{row_of, moving_patch};
ghost use Rattle.klp_model.specs.Run.{next};
ghost use Rattle.klp_manager_state.specs.Managed.{setting_of};
ghost use Rattle.klp_core.specs.Sites.{sites_in};
ghost use Rattle.klp_live.specs.Dispatch.{IsDispatch, own_state, changed, Makes, LeadsOn, is_of_variables, rows_in};
ghost use Rattle.klp_live.specs.Dispatch.{task_of as task_in};
ghost use Rattle.klp_live.specs.Listed.{AreRowsOf, is_listed, new_row, with_rows};
ghost use Rattle.klp_live.specs.Touched.{is_inside, patch_moved as patch_moved_by, module_moved as module_moved_by};
ghost use Rattle.klp_live.specs.Touched.{rows_touched};

use crate::table::{Change, Moved, NewRow, Table};
use klp_core::Machine;
use klp_model::Event;
use klp_model::laws::states_stay_allowed;
use klp_types::{MAX_SITES, MAX_TASKS, ObjId, PatchId, Site, SiteRow, TaskId};
use std::alloc::{AllocError, Global};

/// Replaces a row. Mostly both are rows of loaded objects: then one is copied over the other as a whole.
#[inline(always)]
fn put_row(own: &mut Option<SiteRow>, row: &Option<SiteRow>)
    ensures { own.new ≡ row.now }
{
    match own {
        Some(whole) => match row {
            Some(row) => *whole = *row,
            None => *own = None,
        },
        None => *own = *row,
    }
}

/// Sets these rows in the table, one row after the other.
fn put_rows(table: &mut [Option<SiteRow>; MAX_SITES], rows: &[NewRow])
    ensures { table.new ≡ with_rows table.old rows.now }
{
    for place in 0..rows.len() {
        let (site, row) = &rows[place];
        let site = usize::from(site.0);
        if site < MAX_SITES {
            put_row(&mut table[site], row);
        }
    }
}

impl Change {
    /// Applies the change to a table.
    pub fn make(&self, table: &mut Table)
        ensures { table.new ≡ changed table.old self.now }
    {
        match self {
            Change::Same => {}
            Change::Task(task, state) => {
                let own = usize::from(task.0);
                if own < MAX_TASKS {
                    table.states[own] = *state;
                }
            }
            Change::Moved(moved) => {
                put_rows(&mut table.rows, &moved.rows);
                table.states = moved.states;
            }
            Change::All(all) => *table = **all,
        }
    }
}

/// Sets each of these rows to the row that the machine has for the row's site.
fn fill_rows<M: Machine>(rows: &mut [Option<SiteRow>; MAX_SITES], machine: &M)
    ensures count { length rows.new ≡ MAX_SITES }
    ensures rows { let managed = (M.journaled machine.now).managed in
        (site : ℕ) → site < MAX_SITES
        → slice_index_or rows.new site None ≡ row_of (setting_of managed) managed.state site }
{
    for site in 0..MAX_SITES {
        rows[site] = machine.row(Site(site as u16));
    }
}

/// Sets each of these states to the machine's patch state of the task with that number.
fn fill_states<M: Machine>(states: &mut [Option<i8>; MAX_TASKS], machine: &M)
    ensures count { length states.new ≡ MAX_TASKS }
    ensures states { (task : ℕ) → task < MAX_TASKS
        → slice_index_or states.new task None ≡ own_state (M.journaled machine.now).managed.state task }
{
    for task in 0..MAX_TASKS {
        states[task] = machine.patch_state(TaskId(task as u8));
    }
}

impl Table {
    /// Makes a table without sites and tasks.
    pub fn empty() -> Table {
        Table {
            rows: [None; MAX_SITES],
            states: [None; MAX_TASKS],
        }
    }

    /// Fills the table with the rows and patch states of the machine's present state. The call reads the row of every
    /// site.
    pub fn fill<M: Machine>(&mut self, machine: &M)
        ensures { let managed = (M.journaled machine.now).managed in
            IsDispatch (setting_of managed) managed.state self.new }
    {
        states_stay_allowed();
        let _for_its_clause = machine.mark();
        let _sites = machine.sites();
        fill_rows(&mut self.rows, machine);
        fill_states(&mut self.states, machine);
    }
}

/// Returns a change that sets the whole table to that of the machine's present state. The call reads the row of every
/// site. An error means that memory ran out.
pub fn change_of<M: Machine>(alloc: Global, machine: &M) -> Result<Change, AllocError>
    ensures made { let managed = (M.journaled machine.now).managed in
        IfOk result (λ change. Makes (setting_of managed) managed.state change) }
    ensures rows { IfOk result (λ change. rows_in change ≡ MAX_SITES) }
{
    let mut all = Box::new(alloc, Table::empty())?;
    all.fill(machine);
    Ok(Change::All(all))
}

/// Returns the task whose state an event may change, if this state is all that the event may change in a table. Returns
/// `None` for other events.
fn task_of(event: &Event) -> Option<TaskId>
    ensures { result ≡ task_in event.now }
{
    match event {
        Event::NewTask(task)
        | Event::EndTask(task)
        | Event::EnterKernel(task)
        | Event::ExitToUser(task)
        | Event::Sleep(task, _)
        | Event::Wake(task) => Some(*task),
        Event::Fork(_, child) => Some(*child),
        _ => None,
    }
}

/// Whether an event is about shadow variables. A table shows no shadow variables.
fn is_of_variables(event: &Event) -> bool
    ensures { result ≡ is_of_variables event.now }
{
    match event {
        Event::ShadowAlloc(..)
        | Event::ShadowGetOrAlloc(..)
        | Event::ShadowFree(_)
        | Event::ShadowFreeAll(_) => true,
        _ => false,
    }
}

/// Returns the patch whose entries or transition an event changes. `moving` is the patch that was in transition before
/// the event.
fn patch_moved(event: &Event, moving: Option<PatchId>) -> Option<PatchId>
    ensures { result ≡ patch_moved_by moving event.now }
{
    match event {
        Event::Enable(patch) | Event::SetEnabled(patch, _) => Some(*patch),
        Event::Poll => moving,
        _ => None,
    }
}

/// Returns the module that an event loads or unloads. Such an event changes no patch's transition.
fn module_moved(event: &Event) -> Option<ObjId>
    ensures module { result ≡ module_moved_by event.now }
    ensures patch { IfSome result (λ _. (moving : Option ℕ) → patch_moved_by moving event.now ≡ None) }
{
    match event {
        Event::Coming(object) | Event::Going(object) => Some(*object),
        _ => None,
    }
}

/// Appends the present row of a site to the list, which must have room. Does nothing if `site` is `None`. It isn't inlined,
/// so that the processor's registers serve one row.
#[inline(never)]
fn add_row<M: Machine>(machine: &M, site: Option<Site>, rows: &mut Vec<NewRow>)
    requires room { vec_len rows.old < vec_capacity rows.old }
    ensures rows { let managed = (M.journaled machine.now).managed in
        rows.new.items ≡ rows.old.items ++ new_row (setting_of managed) managed.state site }
    ensures one { vec_len rows.new ≤ vec_len rows.old + 1 }
    ensures room { vec_capacity rows.new ≡ vec_capacity rows.old }
{
    if let Some(site) = site {
        match machine.row(site) {
            Some(row) => rows.push_reserved((site, Some(row))),
            None => rows.push_reserved((site, None)),
        }
    }
}

/// Returns the present rows of the sites for which a patch has functions.
fn rows_of<M: Machine>(
    alloc: Global,
    machine: &M,
    patch: PatchId,
) -> Result<Vec<NewRow>, AllocError>
    ensures rows { let managed = (M.journaled machine.now).managed in
        IfOk result (λ rows. AreRowsOf (setting_of managed) managed.state rows.items) }
    ensures all { IfOk result (λ rows. (site : ℕ)
        → patches_site (setting_of (M.journaled machine.now).managed) site patch ≡ true
        → is_listed site rows.items ≡ true) }
    ensures few { IfOk result (λ rows. length rows.items
        ≤ length (functions_of (setting_of (M.journaled machine.now).managed) patch)) }
{
    let functions = machine.functions(patch);
    let mut rows = Vec::with_capacity(alloc, functions)?;
    for number in 0..functions {
        add_row(machine, machine.site_of(patch, number), &mut rows);
    }
    Ok(rows)
}

/// Returns the present rows of the sites of an object.
fn rows_inside<M: Machine>(
    alloc: Global,
    machine: &M,
    object: ObjId,
) -> Result<Vec<NewRow>, AllocError>
    ensures rows { let managed = (M.journaled machine.now).managed in
        IfOk result (λ rows. AreRowsOf (setting_of managed) managed.state rows.items) }
    ensures all { IfOk result (λ rows. (site : ℕ)
        → is_inside (setting_of (M.journaled machine.now).managed) (Some object) site ≡ true
        → is_listed site rows.items ≡ true) }
    ensures few { IfOk result (λ rows. length rows.items
        ≤ sites_in (M.journaled machine.now).managed.image.objects object) }
{
    let first = machine.first_site(object);
    let sites = machine.sites_in(object);
    let mut rows = Vec::with_capacity(alloc, sites)?;
    for place in 0..sites {
        let site = Site((first + place) as u16);
        add_row(machine, Some(site), &mut rows);
    }
    Ok(rows)
}

/// Returns these rows together with the present patch states of all tasks, as one change.
fn moved<M: Machine>(
    alloc: Global,
    machine: &M,
    rows: Vec<NewRow>,
) -> Result<Box<Moved>, AllocError>
    ensures rows { IfOk result (λ moved. moved.value.rows ≡ rows) }
    ensures count { IfOk result (λ moved. length moved.value.states ≡ MAX_TASKS) }
    ensures states { IfOk result (λ moved. (task : ℕ) → slice_index_or moved.value.states task None
        ≡ own_state (M.journaled machine.now).managed.state task) }
{
    states_stay_allowed();
    let _for_its_clause = machine.mark();
    let states = [None; MAX_TASKS];
    let mut moved = Box::new(alloc, Moved { rows, states })?;
    fill_states(&mut moved.states, machine);
    Ok(moved)
}

/// Returns the changes that an event that was just accepted made in the table. The event must be about patches or
/// modules, and not about one task or about variables. `moving` is the patch that was in transition before the event.
fn change_of_patches<M: Machine>(
    alloc: Global,
    machine: &M,
    event: &Event,
    moving: Option<PatchId>,
) -> Result<Change, AllocError>
    ensures leads { let managed = (M.journaled machine.now).managed in
        IfOk result (λ change. LeadsOn (setting_of managed) managed.state moving event.now change) }
    ensures few { IfOk result (λ change. rows_in change
        ≤ rows_touched (setting_of (M.journaled machine.now).managed) moving event.now) }
{
    let _sites = machine.sites();
    if let Some(object) = module_moved(event) {
        let own = rows_inside(alloc, machine, object)?;
        return Ok(Change::Moved(moved(alloc, machine, own)?));
    }
    match patch_moved(event, moving) {
        None => Ok(Change::Moved(moved(alloc, machine, Vec::new(alloc))?)),
        Some(patch) if machine.is_cumulative(patch) => change_of(alloc, machine),
        Some(patch) => {
            let rows = rows_of(alloc, machine, patch)?;
            Ok(Change::Moved(moved(alloc, machine, rows)?))
        }
    }
}

/// Returns the changes that an event that was just accepted made in the table. `moving` is the patch that was in
/// transition before the event. The cost grows with the number of the event's own sites. For a cumulative patch, it
/// grows with the number of all sites. If the event may change all tasks, the cost also grows with the number of tasks.
pub fn change_after<M: Machine>(
    alloc: Global,
    machine: &M,
    event: &Event,
    moving: Option<PatchId>,
) -> Result<Change, AllocError>
    ensures leads { let managed = (M.journaled machine.now).managed in
        IfOk result (λ change. LeadsOn (setting_of managed) managed.state moving event.now change) }
    ensures few { IfOk result (λ change. rows_in change
        ≤ rows_touched (setting_of (M.journaled machine.now).managed) moving event.now) }
{
    if is_of_variables(event) {
        return Ok(Change::Same);
    }
    match task_of(event) {
        Some(task) if usize::from(task.0) < MAX_TASKS => {
            Ok(Change::Task(task, machine.patch_state(task)))
        }
        _ => change_of_patches(alloc, machine, event, moving),
    }
}
