//! The sentence of a finding.

use crate::alone_words::{PartWords, TraceWords};
use crate::count_words::{CountWords, LineWords};
use crate::load_words::{LoadWords, ReplaceWords};
use crate::shown::ModuleNames;
use klp_lint_findings::{Finding, FindingKind, Linted, PatchList, Said, World};
use std::fmt;

/// A finding as a sentence, with the world in which it holds.
#[derive(Clone, Copy)]
pub(crate) struct Sentence<'a> {
    pub(crate) linted: Linted<'a>,
    pub(crate) said: Said,
}

impl fmt::Display for Sentence<'_> {
    fn fmt<W: fmt::Write>(&self, f: &mut fmt::Formatter<W>) -> fmt::Result {
        let (linted, said) = (self.linted, self.said);
        let about = said.about;
        let (world, finding) = (said.world, said.finding);
        let words = FindingWords {
            linted,
            world,
            finding,
        };
        let place = WorldWords {
            linted,
            world,
            is_clean: about.kind == FindingKind::Clean,
            patches: patches_of(&said),
        };
        match about.patch {
            Some(_) => write!(f, "{words}{place}"),
            None => write!(f, "{words}"),
        }
    }
}

/// A finding as a sentence. `world` is where it holds.
#[derive(Clone, Copy)]
struct FindingWords<'a> {
    linted: Linted<'a>,
    world: World,
    finding: Finding,
}

impl fmt::Display for FindingWords<'_> {
    fn fmt<W: fmt::Write>(&self, f: &mut fmt::Formatter<W>) -> fmt::Result {
        let (linted, world) = (self.linted, self.world);
        match self.finding {
            Finding::Line(line) => write!(f, "{}", LineWords { linted, line }),
            Finding::Trace(patch, finding) => {
                let words = TraceWords {
                    linted,
                    patch,
                    finding,
                };
                write!(f, "{words}")
            }
            Finding::Part(patch, finding) => {
                let words = PartWords {
                    linted,
                    patch,
                    finding,
                };
                write!(f, "{words}")
            }
            Finding::Load(patch, finding) => {
                let words = LoadWords {
                    linted,
                    patch,
                    finding,
                };
                write!(f, "{words}")
            }
            Finding::Replace(_, finding) => write!(f, "{}", ReplaceWords { linted, finding }),
            Finding::Count(finding) => {
                let words = CountWords {
                    linted,
                    world,
                    finding,
                };
                write!(f, "{words}")
            }
        }
    }
}

/// The patches that a finding is about.
fn patches_of(said: &Said) -> PatchList {
    let about = said.about;
    let mut patches = about.others;
    if let Some(patch) = about.patch {
        patches.push(patch);
    }
    patches
}

/// In which of two worlds a finding about a patch holds: `, while m isn't loaded`. The modules are those of the patches
/// that the finding is about, or all if these have none. Empty if it holds in both worlds, except for a patch that
/// leaves no trace in either.
#[derive(Clone, Copy)]
struct WorldWords<'a> {
    linted: Linted<'a>,
    world: World,
    is_clean: bool,
    patches: PatchList,
}

impl fmt::Display for WorldWords<'_> {
    fn fmt<W: fmt::Write>(&self, f: &mut fmt::Formatter<W>) -> fmt::Result {
        let (linted, patches) = (self.linted, self.patches);
        let own = ModuleNames { linted, patches };
        let names = ModuleNames {
            linted,
            patches: if own.count() == 0 {
                PatchList::new()
            } else {
                patches
            },
        };
        let (is, not) = if names.count() == 1 {
            ("is", "isn't")
        } else {
            ("are", "aren't")
        };
        match self.world {
            World::WithoutModules => write!(f, ", while {names} {not} loaded"),
            World::WithModules => write!(f, ", while {names} {is} loaded"),
            World::Each => {
                let input = linted.input;
                if input.script.is_none() && self.is_clean && own.count() != 0 {
                    return write!(f, ", whether {names} {is} loaded or not");
                }
                Ok(())
            }
        }
    }
}
