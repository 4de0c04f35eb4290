//! What a page is made of.
ghost use Rattle.std.specs.Prelude.{◌≡◌, ℕ, List, [], IfOk, IfErr};
ghost use Rattle.klp_core.specs.Journaled.{Journaled};
ghost use Rattle.klp_page.specs.declared.unshown.Unshown.{Unshown as Why};

use crate::layout::Layout;
use crate::unshown::Unshown;
use klp_core::Manager;
use std::alloc::Global;

/// A run that a page shows: a script that is served, or a trace that is played.
pub trait PageSource {
    /// What the page of a booted manager shows.
    ghost shows: { Self → Journaled → List ℕ → Type 0 };

    /// Why a booted manager shows no page.
    ghost lacks: { Self → Journaled → Why → Type 0 };

    /// Does the run with a manager that was just booted, and returns the text of its page.
    fn page(
        &self,
        alloc: Global,
        manager: &mut Manager,
        layout: &mut Layout<'_>,
    ) -> Result<Vec<u8>, Unshown>
        requires unused { manager.old.groups ≡ [] }
        ensures page { IfOk result (λ page. shows self.now manager.old page.items) }
        ensures fault { IfErr result (λ why. lacks self.now manager.old why) };
}
