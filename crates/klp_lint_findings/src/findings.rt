//! The list of findings. What is so in both judged worlds is in the list twice, and written once.
ghost use Rattle.std.specs.Prelude.{◌≡◌, Bool, true, Some, IfOk};
ghost use Rattle.klp_lint_findings.specs.declared.finding.Finding.{Finding as AnyFinding};
ghost use Rattle.klp_lint_findings.specs.Deciding.{decides};
ghost use Rattle.klp_lint_findings.specs.Saying.{is_said_of, Says, Adds};
ghost use Rattle.klp_lint_findings.specs.Sound.{one_decides, Grows};

use crate::about::{About, about_of};
use crate::finding::{
    CountFinding, ErrorText, Finding, FindingKind, IdleReason, Judged, JudgedWorlds, LoadFinding,
    Orders, PartFinding, RefusedLine, ReplaceFinding, StateConflict, Tally, Together, TraceFinding,
    WhyNotLoaded, WhyStays,
};
use crate::linted::Linted;
use crate::lists::{FunctionSet, PatchList};
use crate::marks::{Mark, MarkWord};
use klp_lint::Pair;
use klp_modules::SymbolFault;
use klp_types::{ObjId, PatchId, ShadowKey, ShadowValue};
use std::alloc::{AllocError, Global};

/// Where a finding holds. Without a script, patches are judged with no module loaded, and with all modules of the
/// catalog loaded.
#[derive(Clone, Copy, PartialEq, Eq)]
pub enum World {
    /// Wherever it was judged.
    Each,
    WithoutModules,
    WithModules,
}

/// The parts of the list, in the order in which they are written.
#[derive(Clone, Copy, PartialEq, Eq)]
pub enum Part {
    Script,
    Alone,
    Loading,
    OverTwo,
    Counts,
}

/// The parts, in order.
pub const PARTS: [Part; 5] = [
    Part::Script,
    Part::Alone,
    Part::Loading,
    Part::OverTwo,
    Part::Counts,
];

/// A finding of the list.
#[derive(Clone, Copy)]
pub struct Said {
    pub finding: Finding,
    pub about: About,
    pub world: World,
}

impl Said {
    /// The part of the list in which the finding is.
    pub fn part(&self) -> Part {
        match self.finding {
            Finding::Line(_) => Part::Script,
            Finding::Trace(_, _) | Finding::Part(_, _) => Part::Alone,
            Finding::Load(_, _) | Finding::Replace(_, _) => {
                if self.is_over_two() {
                    Part::OverTwo
                } else {
                    Part::Loading
                }
            }
            Finding::Count(_) => Part::Counts,
        }
    }

    /// Whether the finding is about a patch that is loaded over two others.
    fn is_over_two(&self) -> bool {
        let about = self.about;
        about.kind == FindingKind::NotOver && about.others.as_slice().len() == 2
    }
}

/// The types that are parts of a finding. The borrow checker covers a function that adds to a list of findings only if the
/// function names all these types.
type Parts = (
    (RefusedLine, ErrorText, TraceFinding, Mark, MarkWord),
    (Pair, ShadowKey, ShadowValue, PartFinding, IdleReason),
    (
        SymbolFault,
        LoadFinding,
        WhyNotLoaded,
        StateConflict,
        WhyStays,
    ),
    (
        PatchList,
        FunctionSet,
        ReplaceFinding,
        CountFinding,
        Together,
    ),
    (Tally, Orders, Judged, JudgedWorlds, FindingKind),
    (About, World, ObjId, PatchId),
);

/// The list, and the world that is judged now. What is found in two worlds is in the list twice.
#[derive(Drop)]
pub struct Findings<'a> {
    pub linted: Linted<'a>,
    pub world: World,
    pub said: Vec<Said>,
}

impl<'a> Findings<'a> {
    /// An empty list for findings about this catalog.
    pub fn new(alloc: Global, linted: Linted<'a>) -> Findings<'a> {
        Findings {
            linted,
            world: World::Each,
            said: Vec::new(alloc),
        }
    }

    /// Adds a finding about the world that is judged now.
    pub fn add(&mut self, finding: Finding) -> Result<(), AllocError>
        ensures added { IfOk result (λ done. decides finding ≡ true → one_decides self.new.said.items ≡ true) }
        ensures grows { IfOk result (λ done. Grows self.old self.new) }
        ensures says { IfOk result (λ done. (full : Bool) → is_said_of self.old.world full ≡ true
            → Says self.new.said.items full finding) }
        ensures adds { IfOk result (λ done. Adds (λ (other : AnyFinding). other ≡ finding) self.old self.new) }
    {
        // For the borrow checker only: names the types that are parts of a finding.
        let _parts: Option<Parts> = None;
        let about = about_of(&self.linted, &finding);
        let world = self.world;
        self.said.push(Said {
            finding,
            about,
            world,
        })?;
        Ok(())
    }

    /// Adds a finding about the world that is judged now, if there is one.
    pub fn add_some(&mut self, finding: Option<Finding>) -> Result<(), AllocError>
        ensures { IfOk result (λ done. Adds (λ (other : AnyFinding). finding ≡ Some other) self.old self.new) }
    {
        match finding {
            Some(finding) => self.add(finding),
            None => Ok(()),
        }
    }

    /// Whether an equal finding of this world is in the list.
    fn has_equal(&self, finding: &Finding, world: World) -> bool {
        self.said
            .iter()
            .any(|it| it.world == world && it.finding == *finding)
    }

    /// A finding of the list as it is written: what is equal in both worlds is written once, for each world. `None` if it
    /// isn't written, since it was found without modules too. Of two that differ, even in a value, each is written with its
    /// world.
    pub fn shown(&self, said: &Said) -> Option<Said> {
        match said.world {
            World::WithModules if self.has_equal(&said.finding, World::WithoutModules) => None,
            World::WithoutModules if self.has_equal(&said.finding, World::WithModules) => Some(
                Said {
                    world: World::Each,
                    ..*said
                },
            ),
            _ => Some(*said),
        }
    }
}
