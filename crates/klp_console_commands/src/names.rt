//! Looks up the names of a line. A line that matches no form has no names, so the form is checked before names are
//! looked up.

ghost use Rattle.std.specs.Prelude.{◌≡◌, true, false, MatchOption};
ghost use Rattle.std.specs.Str.{is_utf8};
ghost use Rattle.klp_console_commands.specs.Names.{patch_of, object_of, task_of, site_of, new_function_of, version_of};
ghost use Rattle.klp_console_commands.specs.Names.{symbol_found};

use crate::fault::LineFault;
use crate::words::{is_console_name, number_to};
use klp_catalog::Catalog;
use klp_model::Refusal;
use klp_modules::Modules;
use klp_types::{MAX_INDEX, MAX_TASKS, ObjId, PatchId, Site, TaskId, Version};
use klp_words::{Spelling, cut, is_ascii, spelling_of, text};
use std::marker::Model;
use std::str;

/// The names that a line may use. A line may name the patches of a catalog, and the objects and symbols of a kernel.
/// The manager isn't used here, so a line means the same whatever the manager's state is (docs/DECISIONS.md, "Names
/// outside of the manager").
#[derive(Drop)]
pub(crate) struct NameResolver<'a> {
    pub(crate) catalog: &'a Catalog,
    pub(crate) modules: &'a Modules,
}

impl<'a> Model for NameResolver<'a> {
    ghost use Rattle.klp_console_commands.specs.Names.{NameResolver, names_of};

    ghost Value = { NameResolver };

    ghost view = { λ k. names_of k.catalog.now k.modules.now };
}

/// Returns the word as text. Names are UTF-8, so a word that isn't UTF-8 is no name, and the result is `None`. Most
/// words are ASCII. Whether a word is ASCII is checked sixteen bytes at a time.
#[tactic(auto, using(crate::proofs::WordLemmas::is_text, crate::proofs::WordLemmas::no_text, crate::proofs::WordLemmas::ascii, crate::proofs::WordLemmas::ascii_text))]
fn text_of(word: &[u8]) -> Option<&str>
    ensures { MatchOption result (is_utf8 word.now ≡ false)
        (λ text. (is_utf8 word.now ≡ true) × (text.now ≡ word.now)) }
{
    if is_ascii(word) {
        return Some(text(word));
    }
    str::from_utf8(word).ok()
}

impl<'a> NameResolver<'a> {
    /// Returns the patch with this name, or `NoPatch` if there is no such patch.
    pub(crate) fn patch(&self, word: &[u8]) -> Result<PatchId, LineFault>
        ensures { result ≡ patch_of self.now word.now }
    {
        match text_of(word) {
            Some(name) => self
                .catalog
                .patch(name)
                .ok_or(LineFault::Refused(Refusal::NoPatch)),
            None => Err(LineFault::Refused(Refusal::NoPatch)),
        }
    }

    /// Returns the object with this name, loaded or not, or `NoModule` if there is no such object.
    pub(crate) fn object(&self, word: &[u8]) -> Result<ObjId, LineFault>
        ensures { result ≡ object_of self.now word.now }
    {
        match text_of(word) {
            Some(name) => self
                .modules
                .object(name)
                .ok_or(LineFault::Refused(Refusal::NoModule)),
            None => Err(LineFault::Refused(Refusal::NoModule)),
        }
    }

    /// Returns the site of the symbol that is spelled, or else `NoModule` or `NoSymbol`. The symbol's object needn't be
    /// loaded, since sites keep their numbers while modules are loaded and unloaded.
    pub(crate) fn site(&self, spelling: &Spelling<'_>) -> Result<Site, LineFault>
        ensures { result ≡ site_of self.now spelling.now }
    {
        let object = self
            .modules
            .object(spelling.object)
            .ok_or(LineFault::Refused(Refusal::NoModule))?;
        match self
            .modules
            .resolve(object, spelling.symbol, spelling.sympos)
        {
            Ok(site) => Ok(site),
            Err(_) => Err(LineFault::Refused(Refusal::NoSymbol)),
        }
    }

    /// Returns the new function that `PATCH:INDEX` spells, even if the patch has no such function. The line isn't at
    /// fault if the function doesn't exist. The manager then refuses the event with `BadFrame`.
    fn new_function(&self, word: &[u8]) -> Result<Version, LineFault>
        ensures { result ≡ new_function_of self.now word.now }
    {
        let (patch, index) = cut(word, b':');
        if !is_console_name(patch) {
            return Err(LineFault::BadLine);
        }
        let index = number_to(MAX_INDEX, index)? as u16;
        Ok(Version::New(self.patch(patch)?, index))
    }

    /// Returns the function that a word of `task sleep` spells. A symbol spells its original function, and
    /// `PATCH:INDEX` spells a new function. A symbol has no `:`, so no word spells both.
    pub(crate) fn version(&self, word: &[u8]) -> Result<Version, LineFault>
        ensures { result ≡ version_of self.now word.now }
    {
        match spelling_of(word) {
            Some(spelling) => Ok(Version::Original(self.site(&spelling)?)),
            None => self.new_function(word),
        }
    }
}

/// Returns the task with a number, even if the task doesn't exist. Returns `NoTask` if no task can have the number. A
/// number above 65,535 makes the line bad, so it is never passed to this function.
pub(crate) fn task(number: u64) -> Result<TaskId, LineFault>
    ensures { result ≡ task_of number }
{
    if number < MAX_TASKS as u64 {
        Ok(TaskId(number as u8))
    } else {
        Err(LineFault::Refused(Refusal::NoTask))
    }
}
