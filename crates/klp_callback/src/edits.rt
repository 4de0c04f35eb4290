ghost use Rattle.std.specs.Prelude.{◌≡◌, ◌≤◌, [], ◌∷◌, length, count_by, IsTrue};
ghost use Rattle.klp_types.specs.Records.{spare_of};
ghost use Rattle.klp_types.specs.Script.{alloc_count, is_alloc, edited, edited_by, effect};
ghost use Rattle.klp_world.specs.StoredEvent.{noting, rows_of_edit, rows_of_edits, rows_of_script};
ghost use Rattle.klp_world.specs.Changes.{Changes, HasRoom};

use klp_journal::Records;
use klp_types::{Edit, PatchId};
use klp_world::{MAX_EDITS, Script, World};

/// Makes one edit for the patch. An edit can't fail. If it adds a variable that exists, or sets a state that the patch
/// doesn't name, it changes nothing.
fn make_edit(edit: &Edit, patch: PatchId, world: &mut World, log: &mut Records)
    requires room { HasRoom world.old log.old (alloc_count (edit.now ∷ [])) (rows_of_edit patch world.old edit.now) }
    ensures changes { Changes world.old world.new log.old log.new (edited patch world.old edit.now)
        (rows_of_edit patch world.old edit.now) }
{
    match *edit {
        Edit::Alloc(key, value) => {
            world.alloc(key, value, log);
        }
        Edit::Free(key) => {
            world.free(key, log);
        }
        Edit::FreeAll(id) => {
            world.free_all(id, log);
        }
        Edit::SetData(id, value) => world.set_value(patch, id, value, log),
        Edit::TakePrev(id) => take_previous(patch, id, world, log),
    }
}

/// Sets the patch's state to the value that the state has in the newest older patch which names it. If no older patch
/// names the state, it keeps its value.
fn take_previous(patch: PatchId, id: u64, world: &mut World, log: &mut Records)
    requires { length (rows_of_edit patch world.old (Edit.TakePrev id)) ≤ spare_of log.old }
    ensures changes { Changes world.old world.new log.old log.new (edited patch world.old (Edit.TakePrev id))
        (rows_of_edit patch world.old (Edit.TakePrev id)) }
{
    if let Some(older) = world.previous(patch, id) {
        if let Some(value) = world.value(older, id) {
            world.set_value(patch, id, value, log);
        }
    }
}

/// Makes edits one after another. Each edit is made on the world that the earlier edits left.
fn make_edits(edits: &[Edit], patch: PatchId, world: &mut World, log: &mut Records)
    requires room { HasRoom world.old log.old (alloc_count edits.now) (rows_of_edits patch world.old edits.now) }
    ensures world { world.new ≡ edited_by patch world.old edits.now }
    ensures logged { log.new ≡ noting log.old (rows_of_edits patch world.old edits.now) }
{
    klp_types::laws::edits_keep_to_their_room();
    for edit in edits {
        make_edit(edit, patch, world, log);
    }
}

/// Runs a script for the patch, and returns its status, as [`crate::Callback::run`] does. A script whose status
/// isn't 0 makes no edit.
pub fn run_script(script: &Script, patch: PatchId, world: &mut World, log: &mut Records) -> i32
    requires room { HasRoom world.old log.old (alloc_count script.now.edits)
        (rows_of_script patch world.old script.now) }
    ensures status { result ≡ script.now.status }
    ensures changes { Changes world.old world.new log.old log.new (effect patch world.old script.now)
        (rows_of_script patch world.old script.now) }
{
    klp_world::laws::scripts_are_undone();
    klp_world::laws::scripts_tell_what_they_change();
    if script.status == 0 {
        make_edits(&script.edits, patch, world, log);
    }
    script.status
}

/// Returns how many edits of the script add a shadow variable. Edits that remove a variable aren't subtracted, since
/// the room must be there before any edit is made.
pub fn allocs_of(script: &Script) -> u16
    ensures value { result ≡ alloc_count script.now.edits }
    ensures limit { length script.now.edits ≤ MAX_EDITS }
{
    count_allocs(&script.edits) as u16
}

/// Counts the `Alloc` edits.
fn count_allocs(edits: &[Edit]) -> usize
    ensures { result ≡ count_by is_alloc edits.now }
{
    edits
        .iter()
        .filter(|edit| matches!(edit, Edit::Alloc(..)))
        .count()
}

/// Whether two scripts have the same edits and status. The unused elements of their arrays don't count.
pub(crate) fn is_same(a: &Script, b: &Script) -> bool
    ensures same { IsTrue result → a.now ≡ b.now }
    ensures whole { a.now ≡ b.now → IsTrue result }
{
    a.status == b.status && a.edits.as_slice() == b.edits.as_slice()
}
