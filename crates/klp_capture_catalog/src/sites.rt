//! The numbers that a log's functions have in its catalog.
use crate::named::{Functions, SeenFunction, SeenVersion};
use klp_types::{PatchId, Site, Version};
use std::alloc::AllocError;

impl<'a> Functions<'a> {
    /// Returns the number of a function's site. Sites are numbered over all objects, in the order of their symbols.
    fn site_in_catalog(&self, function: &SeenFunction<'a>) -> Option<u16> {
        let (mut site, mut position): (u16, u32) = (0, 0);
        for object in 0..self.objects.len() {
            for symbol in &self.symbols {
                if symbol.object != object {
                    continue;
                }
                if object == function.object && symbol.name == function.name {
                    position = position.saturating_add(1);
                    if position == function.position {
                        return Some(site);
                    }
                }
                site = site.saturating_add(1);
            }
        }
        None
    }

    /// Notes the site of each function, once all symbols are there.
    pub(crate) fn number_sites(&mut self) -> Result<(), AllocError> {
        for place in 0..self.functions.len() {
            let site = match self.functions.get(place) {
                Some(function) => self.site_in_catalog(function),
                None => None,
            };
            self.sites.push(site)?;
        }
        Ok(())
    }

    /// Returns a function whose original is at this site.
    pub fn function_at(&self, site: Site) -> Option<&SeenFunction<'a>> {
        let place = self.sites.iter().position(|own| *own == Some(site.0))?;
        self.functions.get(place)
    }

    /// Returns the site at which a task called the function that it is inside of.
    pub fn site_of(&self, place: SeenVersion) -> Option<Site> {
        match self.sites.get(place.function) {
            Some(Some(site)) => Some(Site(*site)),
            _ => None,
        }
    }

    /// Returns the version that a task is inside of, by its number in the catalog.
    pub fn version_of(&self, place: SeenVersion) -> Option<Version> {
        if !place.is_new {
            return Some(Version::Original(self.site_of(place)?));
        }
        let function = self.functions.get(place.function)?;
        let patch = u8::try_from(function.patch?).ok()?;
        Some(Version::New(PatchId(patch), function.index?))
    }

    /// Returns the name of a version's function. The new function has the name of the function that it replaces if the
    /// log doesn't show its own. Returns `None` if the log names no such function.
    pub fn name_of(&self, version: Version) -> Option<&'a [u8]> {
        match version {
            Version::Original(site) => Some(self.function_at(site)?.name),
            Version::New(patch, index) => {
                let function = self.functions.iter().find(|function| {
                    function.patch == Some(usize::from(patch.0)) && function.index == Some(index)
                })?;
                Some(function.new_name.unwrap_or(function.name))
            }
        }
    }
}
