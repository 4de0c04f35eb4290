//! Which version a call at a site runs (the kernel's `klp_ftrace_handler`). A version is picked at every call, so only
//! the two newest entries are read.

ghost use Rattle.std.specs.Prelude.{◌≡◌};
ghost use Rattle.std.specs.Option.{option_to_list};
ghost use Rattle.klp_types.specs.Pick.{newest_version};
ghost use Rattle.klp_stack.specs.Pick.{picked};

use klp_types::{Entry, Site, SiteWord, Version};

/// Returns the version that a task with this patch state (-1, 0 or 1) runs at a site, at a constant cost. State -1
/// means that there is no transition. Only a task with state 0 skips the entry of the patch in transition. A nop runs
/// the original.
pub fn pick(site: Site, word: SiteWord, state: i8) -> Version
    ensures { result ≡ picked site word state }
{
    let entry = if word.moves && state == 0 {
        word.below
    } else {
        word.top
    };
    version_of(site, entry)
}

/// Returns the version that an entry runs: the entry's new function, or the original if there is no entry. A nop runs
/// the original too, since a cumulative patch uses nops to restore originals.
pub fn version_of(site: Site, entry: Option<Entry>) -> Version
    ensures { result ≡ newest_version site (option_to_list entry) }
{
    let Some(Entry { patch, func }) = entry else {
        return Version::Original(site);
    };
    match func {
        Some(func) => Version::New(patch, func),
        None => Version::Original(site),
    }
}
