//! The facts that a call at a hooked site needs, and which version a task runs there (the kernel's
//! `klp_ftrace_handler`).
ghost use Rattle.std.specs.Prelude.{◌≡◌, ◌≤◌, option_map, option_and_then, length, slice_get, unwrap_or};
ghost use Rattle.std.specs.Option.{option_to_list};
ghost use Rattle.klp_types.specs.declared.limits.TheConstants.{MAX_SITES};
ghost use Rattle.klp_types.specs.Pick.{address_of, newest_version};
ghost use Rattle.klp_types.specs.Image.{first_site};
ghost use Rattle.klp_types.specs.Setting.{Function, functions_of};
ghost use Rattle.klp_text.specs.TextImage.{site_count};
ghost use Rattle.klp_model.specs.Entries.{is_site_loaded};
ghost use Rattle.klp_model.specs.Pick.{pick};
ghost use Rattle.klp_model.specs.Rows.{row_of, word_of, moving_patch};
ghost use Rattle.klp_model.specs.Entries.{entries_of};
ghost use Rattle.klp_manager_state.specs.Managed.{setting_of};
ghost use Rattle.klp_core.specs.Sites.{sites_in};

use crate::manager::Manager;
use klp_stack::version_of;
use klp_text::Image;
use klp_types::{
    ENTRY_SITE_LEN, Entry, ObjId, PatchId, Site, SiteRow, SiteWord, Target, TaskId, Transition,
    Version,
};

/// Returns the patch in transition without its target. A call needs only the patch, since the task's patch state
/// decides whether the call skips the patch's entry.
fn patch_of(moving: Option<Transition>) -> Option<PatchId>
    ensures { result ≡ moving_patch moving }
{
    match moving {
        Some(moving) => Some(moving.patch),
        None => None,
    }
}

/// Returns how many symbols an object of an image has. Returns 0 if there is no such object.
fn symbols_of(image: &Image, object: ObjId) -> usize
    ensures count { result ≡ sites_in image.now.image.objects object }
    ensures limit { result ≤ MAX_SITES }
{
    let _objects = image.objects();
    usize::from(image.symbols(object).unwrap_or(0))
}

/// Returns the site of an object's first symbol. Its number is the number of sites of all objects before the object.
fn first_site_of(image: &Image, object: ObjId) -> usize
    ensures site { result ≡ first_site image.now.image.objects object }
    ensures limit { result ≤ MAX_SITES }
{
    let _objects = image.objects();
    let mut site = 0;
    for before in 0..object.0 {
        site += symbols_of(image, ObjId(before));
    }
    site
}

impl Manager {
    /// Returns how many sites the image has, whether their objects are loaded or not. There is one site for each
    /// symbol.
    pub fn sites(&self) -> usize
        ensures count { result ≡ site_count self.now.managed.image }
        ensures limit { result ≤ MAX_SITES }
    {
        self.state.sites.sites()
    }

    /// Returns the two newest entries of a site with their addresses. A handler needs only these, so a call doesn't
    /// walk the stack. Returns `None` if there is no such site, or if its object isn't loaded.
    #[inline(always)]
    pub fn row(&self, site: Site) -> Option<SiteRow>
        ensures { result ≡ row_of (setting_of self.now.managed) self.now.managed.state site }
    {
        if !self.is_site_loaded(site) {
            return None;
        }
        let word = self.word(site);
        Some(SiteRow {
            word,
            original: self.address(Version::Original(site)),
            top: self.address(version_of(site, word.top)),
            below: self.address(version_of(site, word.below)),
        })
    }

    /// Returns the patch in transition. Returns `None` if there is no transition.
    pub fn in_transition(&self) -> Option<PatchId>
        ensures { result ≡ moving_patch self.now.managed.state.moving }
    {
        patch_of(self.state.moving)
    }

    /// Returns how many functions a patch has, for all of its objects together. Returns 0 if there is no such patch.
    pub fn functions(&self, patch: PatchId) -> usize
        ensures { result ≡ length (functions_of (setting_of self.now.managed) patch) }
    {
        self.catalog.functions(patch).len()
    }

    /// Returns the site that a patch's function replaces. `number` counts the patch's functions over all of its
    /// objects. Returns `None` if the patch has no such function, or if the function names no symbol of its object.
    #[inline(always)]
    pub fn site_of(&self, patch: PatchId, number: usize) -> Option<Site>
        ensures { result ≡ option_and_then (λ (f : Function). f.site) (slice_get
            (functions_of (setting_of self.now.managed) patch) number) }
    {
        self.catalog.functions(patch).get(number)?.site()
    }

    /// Returns the site of an object's first symbol. The sites of the object's other symbols follow in order. The cost
    /// grows with the number of objects before the object.
    pub fn first_site(&self, object: ObjId) -> usize
        ensures site { result ≡ first_site self.now.managed.image.objects object }
        ensures limit { result ≤ MAX_SITES }
    {
        first_site_of(self.state.sites.image(), object)
    }

    /// Returns how many sites an object has, loaded or not. There is one site for each symbol. Returns 0 if there is no
    /// such object.
    pub fn sites_in(&self, object: ObjId) -> usize
        ensures count { result ≡ sites_in self.now.managed.image.objects object }
        ensures limit { result ≤ MAX_SITES }
    {
        symbols_of(self.state.sites.image(), object)
    }

    /// Returns the version that a task runs when it calls a site's function, and the address at which the version
    /// begins. Returns `None` if there is no such task or no such site. If the site's object isn't loaded, nothing can
    /// be called there, so the result is `None` too.
    pub fn pick(&self, task: TaskId, site: Site) -> Option<Target>
        ensures { result ≡ pick (setting_of self.now.managed) self.now.managed.state task site }
    {
        klp_stack::laws::two_newest_entries_decide();
        let state = self.patch_state(task)?;
        if !self.is_site_loaded(site) {
            return None;
        }
        let version = klp_stack::pick(site, self.word(site), state);
        let address = self.begins_at(&version)?;
        Some(Target { version, address })
    }

    /// Whether a site belongs to a loaded object. False for a site that doesn't exist.
    #[inline(always)]
    fn is_site_loaded(&self, site: Site) -> bool
        ensures { result ≡ is_site_loaded (setting_of self.now.managed) self.now.managed.state site }
    {
        match self.state.object_of(&self.catalog, Version::Original(site)) {
            Some(object) => self.state.sites.is_loaded(object),
            None => false,
        }
    }

    /// Returns the two newest entries of a site, and whether the newest entry's patch is in transition.
    #[inline(always)]
    fn word(&self, site: Site) -> SiteWord
        ensures { result ≡ word_of (moving_patch self.now.managed.state.moving) (entries_of
            (setting_of self.now.managed) self.now.managed.state site) }
    {
        let moving = patch_of(self.state.moving);
        self.state.sites.stacks().word(site, moving)
    }

    /// Returns the address at which a version begins. Returns `None` if there is no such version. An original begins
    /// after its entry site, so that running the original doesn't call the handler again.
    #[inline(always)]
    fn begins_at(&self, version: &Version) -> Option<u64>
        ensures { result ≡ address_of (setting_of self.now.managed) version.now }
    {
        match *version {
            Version::Original(site) => {
                if usize::from(site.0) >= self.state.sites.sites() {
                    return None;
                }
                Some(self.state.sites.image().address(site) + ENTRY_SITE_LEN as u64)
            }
            Version::New(patch, function) => {
                let function = self.catalog.functions(patch).get(usize::from(function))?;
                Some(function.address())
            }
        }
    }

    /// Returns the address at which a version begins, or 0 if there is no such version. The row of a loaded site has
    /// only versions that exist.
    #[inline(always)]
    fn address(&self, version: Version) -> u64
        ensures { result ≡ unwrap_or (address_of (setting_of self.now.managed) version) 0 }
    {
        self.begins_at(&version).unwrap_or(0)
    }
}
