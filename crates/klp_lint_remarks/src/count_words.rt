//! The words about the script's lines, and about all patches together.

use crate::shown::{ModuleNames, PatchNames};
use klp_lint_findings::{
    CountFinding, Judged, JudgedWorlds, Linted, Orders, PatchList, RefusedLine, Tally, Together,
    World,
};
use klp_lint_together::MAX_LOADINGS;
use klp_messages::{Escaped, Quoted, line_at};
use std::fmt;

/// A line of the script that was refused, as a sentence.
#[derive(Clone, Copy)]
pub(crate) struct LineWords<'a> {
    pub(crate) linted: Linted<'a>,
    pub(crate) line: RefusedLine,
}

impl fmt::Display for LineWords<'_> {
    fn fmt<W: fmt::Write>(&self, f: &mut fmt::Formatter<W>) -> fmt::Result {
        let RefusedLine { number, error } = self.line;
        let linted = self.linted;
        let input = linted.input;
        let Some(script) = input.script else {
            return Ok(());
        };
        let name = Escaped(script.name.as_bytes());
        let line = Quoted(line_at(script.bytes, number));
        let error = Escaped(error.bytes.get(..error.len).unwrap_or(&[]));
        write!(f, "line {number} of {name} is refused: {line}: {error}")
    }
}

/// What is said about all patches, as a sentence. `world` is where the patches were loaded.
#[derive(Clone, Copy)]
pub(crate) struct CountWords<'a> {
    pub(crate) linted: Linted<'a>,
    pub(crate) world: World,
    pub(crate) finding: CountFinding,
}

impl fmt::Display for CountWords<'_> {
    fn fmt<W: fmt::Write>(&self, f: &mut fmt::Formatter<W>) -> fmt::Result {
        let linted = self.linted;
        match self.finding {
            CountFinding::Moving => write!(
                f,
                "the patches aren't loaded over each other: one is in transition"
            ),
            CountFinding::Judged(judged) => write!(f, "{}", JudgedWords { linted, judged }),
            CountFinding::Together(together) => {
                let patches = PatchList::new();
                match self.world {
                    World::Each => {}
                    World::WithoutModules => write!(f, "without modules: ")?,
                    World::WithModules => write!(f, "with {}: ", ModuleNames { linted, patches })?,
                }
                write!(f, "{}", TogetherWords { linted, together })
            }
        }
    }
}

/// How many patches were loaded, and in how many orders.
#[derive(Clone, Copy)]
struct TogetherWords<'a> {
    linted: Linted<'a>,
    together: Together,
}

/// A tally: `2 of 3`.
#[derive(Clone, Copy)]
struct Of(Tally);

impl fmt::Display for Of {
    fn fmt<W: fmt::Write>(&self, f: &mut fmt::Formatter<W>) -> fmt::Result {
        let Tally { tried, started } = self.0;
        write!(f, "{started} of {tried}")
    }
}

impl fmt::Display for TogetherWords<'_> {
    fn fmt<W: fmt::Write>(&self, f: &mut fmt::Formatter<W>) -> fmt::Result {
        let Together {
            alone,
            over_one,
            over_two,
            orders,
        } = self.together;
        let (alone, one, two) = (Of(alone), Of(over_one), Of(over_two));
        write!(
            f,
            "{alone} patches are loaded alone, {one} over another one"
        )?;
        if over_two.tried != 0 {
            write!(f, ", {two} over two others")?;
        }
        let linted = self.linted;
        match orders {
            Some(orders) => write!(f, "; {}", OrdersWords { linted, orders }),
            None => Ok(()),
        }
    }
}

/// In how many orders all patches are loaded.
#[derive(Clone, Copy)]
struct OrdersWords<'a> {
    linted: Linted<'a>,
    orders: Orders,
}

impl fmt::Display for OrdersWords<'_> {
    fn fmt<W: fmt::Write>(&self, f: &mut fmt::Formatter<W>) -> fmt::Result {
        let Orders {
            standing,
            found,
            first,
            is_cut_off,
        } = self.orders;
        let orders = if found == 1 { "order" } else { "orders" };
        let more = if is_cut_off { " or more" } else { "" };
        write!(
            f,
            "all {standing} that stand alone are loaded in {found} {orders}{more}"
        )?;
        let (linted, patches) = (self.linted, first);
        if found != 0 {
            write!(f, ", such as {}", PatchNames { linted, patches })?;
        }
        if is_cut_off {
            write!(f, ": the search was cut off after {MAX_LOADINGS} loadings")?;
        }
        Ok(())
    }
}

/// What was judged, and what was left out.
#[derive(Clone, Copy)]
struct JudgedWords<'a> {
    linted: Linted<'a>,
    judged: Judged,
}

/// A number of things: `1 patch`, `2 patches`.
#[derive(Clone, Copy)]
struct Counted {
    count: u64,
    one: &'static str,
    many: &'static str,
}

impl fmt::Display for Counted {
    fn fmt<W: fmt::Write>(&self, f: &mut fmt::Formatter<W>) -> fmt::Result {
        let Counted { count, one, many } = *self;
        let name = if count == 1 { one } else { many };
        write!(f, "{count} {name}")
    }
}

impl fmt::Display for JudgedWords<'_> {
    fn fmt<W: fmt::Write>(&self, f: &mut fmt::Formatter<W>) -> fmt::Result {
        let judged = self.judged;
        let patches = Counted {
            count: judged.patches.saturating_sub(judged.installed) as u64,
            one: "patch",
            many: "patches",
        };
        write!(f, "judged: {patches}{}", WorldsWords(*self))?;
        if judged.installed != 0 {
            write!(f, "; not judged: {} installed", judged.installed)?;
        }
        if judged.functions != 0 || judged.targets != 0 {
            let functions = Counted {
                count: judged.functions,
                one: "function",
                many: "functions",
            };
            let targets = Counted {
                count: judged.targets,
                one: "target",
                many: "targets",
            };
            write!(f, "; not in the catalog: {functions} and {targets}")?;
        }
        Ok(())
    }
}

/// The worlds in which patches were judged.
#[derive(Clone, Copy)]
struct WorldsWords<'a>(JudgedWords<'a>);

impl fmt::Display for WorldsWords<'_> {
    fn fmt<W: fmt::Write>(&self, f: &mut fmt::Formatter<W>) -> fmt::Result {
        let JudgedWords { linted, judged } = self.0;
        let patches = PatchList::new();
        match judged.worlds {
            JudgedWorlds::Script => write!(f, " in one world, which the script left"),
            JudgedWorlds::NoModules => write!(f, " in one world, with vmlinux alone"),
            JudgedWorlds::Both => write!(
                f,
                " in two worlds, without modules and with {}",
                ModuleNames { linted, patches }
            ),
        }
    }
}
