//! How many entries fit into all function stacks together. There must be room for 15 patches with 64 functions each,
//! and for one more patch with an entry on each of 256 sites. The script `pool` of the examples does the same events,
//! but no line shows the room.
ghost use Rattle.std.specs.Prelude.{◌≡◌, ◌≢◌, ◌⊎◌, ◌<◌, ℕ, false, [], ◌∷◌, length, replicate, slice_set};
ghost use Rattle.klp_types.specs.declared.version.Entry.{Entry as AnyEntry};
ghost use Rattle.klp_stack.specs.Stack.{entries_at, has_entry};

use klp_stack::Stacks;
use klp_types::{Entry, PatchId, Record, Site};
use std::alloc::{AllocError, Global};

const SITES: u16 = 256;

/// The patch that replaces all others, and has one function.
const NEWEST: u8 = 15;

/// How many successive sites a patch has functions for. The first patch begins at the first site. Each further one
/// begins behind the sites of the patch before it. Behind the last site, the next patch begins at the first again.
const FUNCTIONS: u16 = 64;

/// Whether the patch has an entry on the site. The newest patch has an entry on each site.
fn is_on(patch: u8, site: Site) -> bool {
    patch == NEWEST || u16::from(patch % 4) == site.0 / FUNCTIONS
}

/// Pushes an entry of a patch if there is room for it. Returns whether there was room.
fn push(stacks: &mut Stacks, site: Site, patch: u8) -> bool
    requires there { site < length stacks.old }
    requires fresh { has_entry patch (entries_at stacks.old site) ≡ false }
    requires number { patch < 16 }
    ensures { (stacks.new ≡ stacks.old) ⊎ ((entry : AnyEntry) × (entry.patch ≡ patch)
        × (stacks.new ≡ slice_set stacks.old site (entry ∷ entries_at stacks.old site))) }
{
    if stacks.spare() == 0 {
        return false;
    }
    let func = if patch < NEWEST {
        Some(site.0 % FUNCTIONS)
    } else {
        None
    };
    let entry = Entry {
        patch: PatchId(patch),
        func,
    };
    let _row = stacks.push(site, entry);
    true
}

/// Pushes all entries of a site, oldest first. Returns whether there was room for all entries.
fn push_all(stacks: &mut Stacks, site: Site) -> bool
    requires there { site < length stacks.old }
    requires empty { entries_at stacks.old site ≡ [] }
    ensures sites { length stacks.new ≡ length stacks.old }
    ensures others { (other : ℕ) → other ≢ site → entries_at stacks.new other ≡ entries_at stacks.old other }
{
    let mut has_room = true;
    for patch in 0..16u8 {
        if is_on(patch, site) {
            has_room = push(stacks, site, patch) && has_room;
        }
    }
    has_room
}

/// Pushes the entries of all sites. Returns whether there was room for all entries.
fn fill(stacks: &mut Stacks) -> bool
    requires { stacks.old ≡ replicate 256 [] }
    ensures { length stacks.new ≡ 256 }
{
    let mut has_room = true;
    for site in 0..SITES {
        has_room = push_all(stacks, Site(site)) && has_room;
    }
    has_room
}

/// Removes the entries of the newest patch, by putting back their records.
fn take_newest(stacks: &mut Stacks) {
    for site in 0..SITES {
        stacks.put_back(Record::StackEntry {
            site: Site(site),
            patch: PatchId(NEWEST),
            was: None,
        });
    }
}

/// How many entries fit at first, how many still fit beside all entries, and how many fit after the newest patch's
/// entries are removed. Also has whether there was room for all entries.
fn spares(alloc: Global) -> Result<([u16; 3], bool), AllocError> {
    let mut stacks = Stacks::new(alloc, 256)?;
    let at_first = stacks.spare();
    let has_room = fill(&mut stacks);
    let filled = stacks.spare();
    take_newest(&mut stacks);
    Ok(([at_first, filled, stacks.spare()], has_room))
}

#[test]
fn the_pool_is_just_large_enough(rt: HostRuntime) -> Result<(), AllocError> {
    let (spares, has_room) = spares(rt.alloc())?;
    assert!(rt; has_room && spares == [15 * 64 + 256, 0, 256]);
    Ok(())
}
