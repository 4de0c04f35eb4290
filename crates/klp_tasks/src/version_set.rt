ghost use Rattle.std.specs.Prelude.{◌≡◌, ℕ, ◌<◌, ◌==◌, ◌||◌, false, List, [], ◌∷◌, ◌++◌, length, slice_index_or};
ghost use Rattle.std.specs.Prelude.{IfSome};
ghost use Rattle.std.specs.List.{list_any};
ghost use Rattle.klp_types.specs.declared.version.Version.{Version as AnyVersion};
ghost use Rattle.klp_types.specs.declared.version.Version.TheVariants.{Original};
ghost use Rattle.klp_model.specs.Blocked.{is_version};
ghost use Rattle.klp_tasks.specs.Members.{has, IsSetOf, IsWithin};

use klp_types::{Frames, MAX_FUNCTIONS, MAX_PATCHES, MAX_SITES, Version};
use std::marker::Model;

/// A set of versions, for example of the versions that block a sleeping task. The set has a flag for each possible
/// version, and no list. So the time of a look-up doesn't depend on the number of versions in the set. No call takes
/// memory: the flags are 1,280 bytes, which `new` and `clear` write.
#[derive(Drop)]
pub struct VersionSet {
    /// By site, whether the site's original is in the set. Every possible site has a flag, so no look-up is needed.
    originals: [bool; MAX_SITES],
    /// By patch and function, whether the new function is in the set. Every possible function has a flag, even if the
    /// catalog doesn't have the function.
    functions: [[bool; MAX_FUNCTIONS]; MAX_PATCHES],
}

impl Model for VersionSet {
    ghost use Rattle.klp_tasks.specs.Members.{VersionFlags};

    ghost Value = { VersionFlags };

    ghost view = { λ s. record { originals = s.originals; functions = s.functions } };
}

/// Returns the flag of a number, or false if the number is out of range. So frames with any numbers can be looked up.
fn is_set(flags: &[bool], number: u16) -> bool
    ensures { result ≡ slice_index_or flags.now number false }
{
    flags.get(usize::from(number)).copied().unwrap_or(false)
}

/// Sets the flag of a number. The number must be in range. Every number from the catalog is in range.
fn set(flags: &mut [bool], number: u16)
    requires { number < length flags.old }
    ensures { (other : ℕ) → slice_index_or flags.new other false ≡ (slice_index_or flags.old other false
        || other == number) }
{
    flags[usize::from(number)] = true;
}

/// Returns the number of the version's site or function, and whether the version is a new function. Every version has
/// its number in the same place. So reading the number takes no branch.
#[inline(always)]
fn number_of(version: Version) -> (u16, bool)
    ensures original { result.1 ≡ false → version ≡ Original result.0 }
{
    match version {
        Version::Original(site) => (site.0, false),
        Version::New(_patch, function) => (function, true),
    }
}

impl VersionSet {
    /// Creates the empty set, which blocks no task.
    pub fn new() -> Self
        ensures { IsSetOf result [] }
    {
        Self {
            originals: [false; MAX_SITES],
            functions: [[false; MAX_FUNCTIONS]; MAX_PATCHES],
        }
    }

    /// Puts a version into the set. The version may be in the set already, so callers needn't check this first.
    pub fn insert(&mut self, version: Version)
        requires { IsWithin version }
        ensures version { (other : AnyVersion) → has self.new other ≡ (has self.old other || is_version other version) }
        ensures list { (versions : List AnyVersion) → IsSetOf self.old versions
            → IsSetOf self.new (versions ++ version ∷ []) }
    {
        match version {
            Version::Original(site) => set(&mut self.originals, site.0),
            Version::New(patch, function) => {
                set(&mut self.functions[usize::from(patch.0)], function);
            }
        }
    }

    /// Removes all versions. All flags are written, since the set doesn't know which flags are set.
    pub fn clear(&mut self)
        ensures { IsSetOf self.new [] }
    {
        *self = Self::new();
    }

    /// Whether a version is in the set. False for a site, patch or function that can't exist. So frames needn't be
    /// checked before they are looked up.
    pub fn contains(&self, version: Version) -> bool
        ensures { result ≡ has self.now version }
    {
        match version {
            Version::Original(site) => is_set(&self.originals, site.0),
            Version::New(patch, function) => {
                let Some(functions) = self.functions.get(usize::from(patch.0)) else {
                    return false;
                };
                is_set(functions, function)
            }
        }
    }

    /// Whether one of the frames is in the set. The innermost frame is checked first, since a sleeper mostly waits in a
    /// function that it called last. The cost is at most two look-ups for each frame.
    pub(crate) fn holds(&self, frames: &Frames) -> bool
        ensures { result ≡ list_any (has self.now) frames.now }
    {
        let frames = frames.as_slice();
        let Some(innermost) = frames.last() else {
            return false;
        };
        if self.contains(*innermost) {
            return true;
        }
        match self.holds_originals(frames) {
            Some(held) => held,
            None => self.holds_any(frames),
        }
    }

    /// Whether one of the frames is in the set, if all frames are originals. Returns `None` if a frame is a new
    /// function, or is at a site that can't exist. Most sleepers are inside of originals alone. So no branch depends on
    /// a frame, which lets the processor look up several frames at once.
    #[inline(always)]
    fn holds_originals(&self, frames: &[Version]) -> Option<bool>
        ensures { IfSome result (λ held. held ≡ list_any (has self.now) frames.now) }
    {
        let mut held = false;
        let mut others = false;
        for frame in frames {
            let (number, is_new) = number_of(*frame);
            let number = usize::from(number);
            held |= self.originals[number % MAX_SITES];
            others |= is_new | (number >= MAX_SITES);
        }
        if others { None } else { Some(held) }
    }

    /// Whether one of the frames is in the set, whatever the frames are. The cost is one look-up for each frame, up to
    /// the first frame that is in the set.
    fn holds_any(&self, frames: &[Version]) -> bool
        ensures { result ≡ list_any (has self.now) frames.now }
    {
        frames.iter().any(|version| self.contains(*version))
    }
}
