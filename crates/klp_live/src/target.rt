//! The version that a call runs, looked up in the table alone.
ghost use Rattle.std.specs.Prelude.{◌≡◌, ℕ, slice_index_or, MatchResult, Ok, Err, Some, None};
ghost use Rattle.std.specs.Result.{result_ok};
ghost use Rattle.klp_types.specs.Setting.{Setting};
ghost use Rattle.klp_model.specs.Pick.{pick};
ghost use Rattle.klp_model.specs.State.{State};
ghost use Rattle.klp_live.specs.Entering.{found, target_by};
ghost use Rattle.klp_live.specs.Found.{entered};
ghost use Rattle.klp_live.specs.Dispatch.{IsDispatch};
ghost use Rattle.klp_live.specs.declared.table.Table.{Table as AnyTable};

use crate::table::Table;
use klp_types::{Site, SiteRow, Target, TaskId, Version};

/// Why a call finds no version. `NoSite` is checked before `NoTask`.
#[derive(Clone, Copy, Debug)]
pub enum EnterFault {
    /// There is no such site, or its object isn't loaded.
    NoSite,
    /// There is no such task.
    NoTask,
    /// The book has ended, or the table's history was shorter than that of the seat. No proof excludes that the table
    /// is older.
    NoTable,
}

/// Returns the version that a task of this patch state runs, with its address.
#[inline(always)]
fn chosen(site: Site, row: &SiteRow, state: i8) -> Target
    ensures { result ≡ target_by site row.now state }
{
    let lower = row.word.moves && state == 0;
    Target {
        version: klp_stack::pick(site, row.word, state),
        address: if lower { row.below } else { row.top },
    }
}

/// Returns the version that a task runs at a site, by the table. The cost is two look-ups, whatever is installed.
#[inline(always)]
pub fn target_of(table: &Table, task: TaskId, site: Site) -> Result<Target, EnterFault>
    ensures { result ≡ found table.now task site }
{
    let row = match table.rows.get(usize::from(site.0)) {
        Some(Some(row)) => row,
        _ => return Err(EnterFault::NoSite),
    };
    let state = match table.states.get(usize::from(task.0)) {
        Some(Some(state)) => *state,
        _ => return Err(EnterFault::NoTask),
    };
    Ok(chosen(site, row, state))
}

/// A call finds the same version in the table of a state as in the state itself.
pub fn tables_answer_what_the_machine_picks()
    ensures { (setting : Setting) (state : State) (table : AnyTable) (task site : ℕ)
        → IsDispatch setting state table → found table task site ≡ entered setting state task site }
{}

/// A call finds a version exactly if the machine picks one. The version that it finds is the one that the machine
/// picks.
pub fn what_is_entered_is_what_is_picked()
    ensures { (setting : Setting) (state : State) (task site : ℕ)
        → result_ok (entered setting state task site) ≡ pick setting state task site }
{}
