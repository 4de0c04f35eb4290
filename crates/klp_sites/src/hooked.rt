ghost use Rattle.std.specs.Prelude.{◌≡◌, ℕ, ◌<◌, ◌≤◌, ◌==◌, IfSome, IfNone, if◌then◌else◌};
ghost use Rattle.std.specs.Int.{bit_at};
ghost use Rattle.klp_types.specs.declared.limits.TheConstants.{MAX_SITES};
ghost use Rattle.klp_sites.specs.Hooked.{bit_of, IsLowestFrom, IsNextSet};

use klp_types::{MAX_SITES, Site};

/// How many bits a word has. Each bit stands for one site.
const WORD: usize = u64::BITS as usize;

/// The hooked sites, one bit for each site (the sites of the kernel's list `klp_ops`). A walk over the set visits no
/// site that isn't hooked.
#[derive(Clone, Copy)]
pub(crate) struct HookedSites {
    words: [u64; MAX_SITES / WORD],
}

impl HookedSites {
    /// Creates the empty set.
    pub(crate) fn new() -> Self
        ensures { (site : ℕ) → bit_of result.words site ≡ 0 }
    {
        Self {
            words: [0; MAX_SITES / WORD],
        }
    }

    /// Adds a site.
    #[inline(always)]
    pub(crate) fn insert(&mut self, site: Site)
        requires { site < MAX_SITES }
        ensures { (other : ℕ) → bit_of self.new.words other ≡ if other == site then 1 else bit_of self.old.words other }
    {
        let number = usize::from(site.0);
        self.words[number / WORD] |= 1u64 << (number % WORD);
    }

    /// Removes a site.
    #[inline(always)]
    pub(crate) fn remove(&mut self, site: Site)
        requires { site < MAX_SITES }
        ensures { (other : ℕ) → bit_of self.new.words other ≡ if other == site then 0 else bit_of self.old.words other }
    {
        let number = usize::from(site.0);
        self.words[number / WORD] &= !(1u64 << (number % WORD));
    }

    /// Returns the lowest hooked site whose number is at least `from`. The cost is one step for each word of 64 bits
    /// that the search skips.
    pub(crate) fn next(&self, from: usize) -> Option<Site>
        ensures some { IfSome result (λ site. IsNextSet self.now.words from site) }
        ensures none { IfNone result ((other : ℕ) → from ≤ other → bit_of self.now.words other ≡ 0) }
    {
        let mut from = from;
        while from < MAX_SITES {
            let word = from / WORD;
            if let Some(number) = lowest_from(self.words[word], from % WORD) {
                return Some(Site((word * WORD + number) as u16));
            }
            from = (word + 1) * WORD;
        }
        None
    }
}

/// Returns the number of the lowest set bit of a word whose number is at least `from`. Returns `None` if there is no
/// such bit.
#[inline(always)]
fn lowest_from(word: u64, from: usize) -> Option<usize>
    requires { from < 64 }
    ensures some { IfSome result (λ number. IsLowestFrom word from number) }
    ensures none { IfNone result ((other : ℕ) → from ≤ other → bit_at word other ≡ 0) }
{
    let left = word >> from;
    if left == 0 {
        return None;
    }
    Some(from + left.trailing_zeros() as usize)
}
