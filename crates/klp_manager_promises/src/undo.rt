//! Taking events back, and what a manager shows of its journal and of system states.
ghost use Rattle.std.specs.Prelude.{◌≡◌, ◌<◌, ◌≤◌, ◌==◌, ◌&&◌, [], length, is_some, IfOk, IfErr, OnErr};
ghost use Rattle.std.specs.List.{list_any};
ghost use Rattle.klp_types.specs.declared.limits.TheConstants.{MAX_JOURNAL_RECORDS};
ghost use Rattle.klp_types.specs.Setting.{state_ids};
ghost use Rattle.klp_types.specs.World.{state_value};
ghost use Rattle.klp_model.specs.State.{is_installed};
ghost use Rattle.klp_journal.specs.Journal.{records_free, records_in};
ghost use Rattle.klp_manager_state.specs.Managed.{setting_of};
ghost use Rattle.klp_core.specs.Journaled.{IsWellFormed, with_room};
ghost use Rattle.klp_core.specs.Rewinding.{IsRewound};

use klp_core::{BadMark, Manager};
use klp_types::PatchId;

/// Takes back all events but the first `mark`, as [`Manager::rewind`] does.
pub fn rewind(manager: &mut Manager, mark: u32) -> Result<(), BadMark>
    requires { IsWellFormed manager.old }
    ensures rewound { IfOk result (λ _. (mark ≤ length manager.old.groups) × IsRewound manager.old manager.new mark) }
    ensures bad_mark { IfErr result (λ _. length manager.old.groups < mark) }
    ensures refused { OnErr result (manager.new ≡ manager.old) }
    ensures setting { setting_of manager.new.managed ≡ setting_of manager.old.managed }
    ensures well_formed { IsWellFormed manager.new }
{
    manager.rewind(mark)
}

/// Empties the journal, as [`Manager::seal`] does.
pub fn seal(manager: &mut Manager)
    requires { IsWellFormed manager.old }
    ensures sealed { manager.new
        ≡ record { managed = manager.old.managed; base = manager.old.managed.state; groups = [] } }
    ensures well_formed { IsWellFormed manager.new }
{
    manager.seal();
}

/// Seals the journal if it has no room for one more event, as [`Manager::make_room`] does.
pub fn make_room(manager: &mut Manager)
    requires { IsWellFormed manager.old }
    ensures made { manager.new ≡ with_room manager.old }
    ensures well_formed { IsWellFormed manager.new }
{
    manager.make_room();
}

/// Returns how many more records the journal has room for, as [`Manager::records_free`] does.
pub fn records_free(manager: &Manager) -> u32
    ensures value { result ≡ records_free manager.now.groups }
    ensures limit { records_in manager.now.groups ≤ MAX_JOURNAL_RECORDS }
{
    manager.records_free()
}

/// Returns the value of a system state of an installed patch, as [`Manager::state_of`] does.
pub fn state_of(manager: &Manager, patch: PatchId, id: u64) -> Option<u64>
    ensures value { result ≡ state_value manager.now.managed.state.world patch id }
    ensures there { is_some result
        ≡ (is_installed manager.now.managed.state patch
        && list_any (λ own. own == id) (state_ids (setting_of manager.now.managed) patch)) }
{
    manager.state_of(patch, id)
}
