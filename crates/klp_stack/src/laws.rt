//! What is proved of the definitions themselves. A function of this module does nothing: its contract is the law.
ghost use Rattle.std.specs.Prelude.{◌≡◌, ℕ, ◌+◌, ◌*◌, ℤ, [], replicate, List, Option};
ghost use Rattle.klp_types.specs.declared.version.Entry.{Entry};
ghost use Rattle.klp_types.specs.declared.version.Transition.{Transition};
ghost use Rattle.klp_types.specs.Pick.{entries_for, newest_version};
ghost use Rattle.klp_model.specs.Rows.{moving_patch, word_of};
ghost use Rattle.klp_stack.specs.Pick.{picked};
ghost use Rattle.klp_stack.specs.Spare.{spare_in};

/// A site's two newest entries decide which version a task runs there, whatever older entries there are. Only the
/// newest entry's patch can be in transition, so a task skips at most the newest entry.
pub fn two_newest_entries_decide()
    ensures { (site : ℕ) (moving : Option Transition) (task : ℤ) (entries : List Entry)
        → picked site (word_of (moving_patch moving) entries) task ≡ newest_version site
        (entries_for moving task entries) }
{}

/// While no site has an entry, the pool has 15 * 64 + 256 free slots. These suffice for 64 functions of each of 15
/// patches, and one entry on each of 256 sites. There can't be more entries, since only the newest patch may have nops
/// in addition to its functions.
pub fn the_pool_has_room_for_all_patches()
    ensures { (sites : ℕ) → spare_in (replicate sites []) ≡ 15 * 64 + 256 }
{}
