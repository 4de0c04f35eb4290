//! Boots a manager over a catalog, and judges the patches: behind a script, or without one in two worlds.
ghost use Rattle.std.specs.Prelude.{◌≡◌, ℕ, ◌+◌, ◌-◌, ◌<◌, ◌≤◌, Bool, [], length, true, IfOk};
ghost use Rattle.klp_model.specs.declared.event.Event.{Event as AnyEvent};
ghost use Rattle.klp_model.specs.Run.{next};
ghost use Rattle.klp_core.specs.Journaled.{IsWellFormed};
ghost use Rattle.klp_manager_state.specs.Managed.{setting_of};
ghost use Rattle.klp_lint_findings.specs.Claims.{AddsTrue};
ghost use Rattle.klp_lint_findings.specs.Deciding.{is_clean};
ghost use Rattle.klp_lint_findings.specs.declared.findings.World.TheVariants as AnyWorld;
ghost use Rattle.klp_lint_findings.specs.Listed.{Lists};
ghost use Rattle.klp_lint_findings.specs.Saying.{is_said_of};
ghost use Rattle.klp_lint_findings.specs.Standing.{Standing, sealed};
ghost use Rattle.klp_lint_worlds.specs.Worlds.{with_modules, world_state, Assures, AssuresAll};
ghost use Rattle.klp_lint_worlds.specs.Worlds.{AddsIn, AreTrue, AreAllTrue, AllListed};
ghost use Rattle.klp_lint_worlds.specs.Whole.{IsReadFrom, AreSoOfText, AreListedOfText, IsCleanText};

use crate::lint_plan::LintPlan;
use crate::script::do_lines;
use klp_boot::{Fault, ManagerUse, over_text};
use klp_core::Manager;
use klp_lint_alone::judge_alone;
use klp_lint_findings::{
    CountFinding, Finding, Findings, Judged, JudgedWorlds, LintInput, World, left_out_by,
};
use klp_lint_together::{judge_together, not_installed};
use klp_model::Event;
use klp_text::ImageFault;
use klp_types::ObjId;
use std::alloc::{AllocError, Global};

/// Loads a module. Its number follows that of the last one that was loaded. The journal is emptied if it is full, so the
/// rules alone decide.
fn load_module(manager: &mut Manager, last: u8)
    requires well_formed { IsWellFormed manager.old }
    requires number { last + 1 ≤ 255 }
    ensures setting { setting_of manager.new.managed ≡ setting_of manager.old.managed }
    ensures state { manager.new.managed.state
        ≡ next (setting_of manager.old.managed) manager.old.managed.state (AnyEvent.Coming (last + 1)) }
{
    manager.make_room();
    let _ = manager.apply(Event::Coming(ObjId(last + 1)));
}

/// Loads this many modules, one after another. The kernel is the object 0, so the first module has the number 1.
fn load_modules(manager: &mut Manager, modules: u8)
    ensures setting { setting_of manager.new.managed ≡ setting_of manager.old.managed }
    ensures state { manager.new.managed.state
        ≡ with_modules (setting_of manager.old.managed) manager.old.managed.state modules }
{
    for last in 0..modules {
        let _for_its_clause = manager.mark();
        load_module(manager, last);
    }
}

/// Makes room in the journal for the events that are tried. The events so far can't be taken back any more.
fn seal(manager: &mut Manager)
    requires { IsWellFormed manager.old }
    ensures same { manager.new.managed ≡ manager.old.managed }
    ensures empty { manager.new.groups ≡ [] }
{
    manager.seal();
}

/// Judges the patches in the state of the manager. What is added is true of it. If the list makes the status 0, each patch is
/// ready in this state.
fn judge_now(
    alloc: Global,
    found: &mut Findings<'_>,
    manager: &mut Manager,
) -> Result<(), AllocError>
    requires { IsWellFormed manager.old }
    ensures assures { IfOk result (λ done. length found.old.linted.patches.now ≤ 256
        → Assures (setting_of manager.old.managed) manager.old.managed.state
        (length found.old.linted.patches.now) found.new) }
    ensures listed { IfOk result (λ done. length found.old.linted.patches.now ≤ 256
        → (full : Bool) → is_said_of found.old.world full ≡ true
        → (patch : ℕ) → patch < length found.old.linted.patches.now
        → Lists (setting_of manager.old.managed) manager.old.managed.state patch full found.new) }
    ensures adds { IfOk result (λ done. AddsTrue
        (sealed (setting_of manager.old.managed) manager.old.managed.state) found.old found.new) }
    ensures setting { IfOk result (λ done. setting_of manager.new.managed ≡ setting_of manager.old.managed) }
    ensures state { IfOk result (λ done. manager.new.managed.state ≡ manager.old.managed.state) }
{
    seal(manager);
    judge_alone(found, manager)?;
    judge_together(alloc, found, manager)?;
    Ok(())
}

/// Judges the patches in the state of the manager, which is that of this world.
fn judge_world(
    alloc: Global,
    found: &mut Findings<'_>,
    manager: &mut Manager,
    world: World,
) -> Result<(), AllocError>
    ensures assures { IfOk result (λ done. length found.old.linted.patches.now ≤ 256
        → Assures (setting_of manager.old.managed) manager.old.managed.state
        (length found.old.linted.patches.now) found.new) }
    ensures listed { IfOk result (λ done. length found.old.linted.patches.now ≤ 256
        → (full : Bool) → is_said_of world full ≡ true
        → (patch : ℕ) → patch < length found.old.linted.patches.now
        → Lists (setting_of manager.old.managed) manager.old.managed.state patch full found.new) }
    ensures adds { IfOk result (λ done. AddsIn world
        (sealed (setting_of manager.old.managed) manager.old.managed.state) found.old found.new) }
    ensures setting { IfOk result (λ done. setting_of manager.new.managed ≡ setting_of manager.old.managed) }
    ensures state { IfOk result (λ done. manager.new.managed.state ≡ manager.old.managed.state) }
{
    found.world = world;
    let _for_its_clause = manager.mark();
    judge_now(alloc, found, manager)?;
    found.world = World::Each;
    Ok(())
}

/// Judges the patches with no module loaded, and then with all modules loaded. If the list makes the status 0, each
/// patch is ready in both worlds.
fn judge_in_both(
    alloc: Global,
    found: &mut Findings<'_>,
    manager: &mut Manager,
    modules: u8,
) -> Result<JudgedWorlds, AllocError>
    ensures bare { IfOk result (λ worlds. length found.old.linted.patches.now ≤ 256
        → Assures (setting_of manager.old.managed) manager.old.managed.state
        (length found.old.linted.patches.now) found.new) }
    ensures full { IfOk result (λ worlds. length found.old.linted.patches.now ≤ 256
        → Assures (setting_of manager.old.managed)
        (with_modules (setting_of manager.old.managed) manager.old.managed.state modules)
        (length found.old.linted.patches.now) found.new) }
    ensures listed { IfOk result (λ worlds. found.old.world ≡ AnyWorld.Each
        → length found.old.linted.patches.now ≤ 256
        → (full : Bool) (patch : ℕ) → patch < length found.old.linted.patches.now
        → Lists (setting_of manager.old.managed)
        (world_state (setting_of manager.old.managed) manager.old.managed.state modules full) patch full found.new) }
    ensures truth { IfOk result (λ worlds. AreTrue (λ full. sealed (setting_of manager.old.managed)
        (world_state (setting_of manager.old.managed) manager.old.managed.state modules full)) found.old
        → AreTrue (λ full. sealed (setting_of manager.old.managed)
        (world_state (setting_of manager.old.managed) manager.old.managed.state modules full)) found.new) }
    ensures linted { IfOk result (λ worlds. found.new.linted ≡ found.old.linted) }
{
    if modules == 0 {
        let _for_its_clause = manager.mark();
        judge_now(alloc, found, manager)?;
        return Ok(JudgedWorlds::NoModules);
    }
    judge_world(alloc, found, manager, World::WithoutModules)?;
    load_modules(manager, modules);
    judge_world(alloc, found, manager, World::WithModules)?;
    Ok(JudgedWorlds::Both)
}

/// Does the script, if there is one, and judges the patches. Returns the worlds in which they were judged. If the list
/// makes the status 0, each patch is ready in these worlds.
fn judge(
    alloc: Global,
    found: &mut Findings<'_>,
    manager: &mut Manager,
    modules: u8,
) -> Result<JudgedWorlds, Fault>
    ensures assures { IfOk result (λ worlds. length found.old.linted.patches.now ≤ 256
        → AssuresAll manager.old found.old.linted.input.script modules
        (length found.old.linted.patches.now) found.new) }
    ensures listed { IfOk result (λ worlds. found.old.world ≡ AnyWorld.Each
        → length found.old.linted.patches.now ≤ 256
        → AllListed manager.old found.old.linted.input.script modules
        (length found.old.linted.patches.now) found.new) }
    ensures truth { IfOk result (λ worlds. found.old.said.items ≡ []
        → AreAllTrue manager.old found.old.linted.input.script modules found.new) }
    ensures linted { IfOk result (λ worlds. found.new.linted ≡ found.old.linted) }
{
    match found.linted.input.script {
        Some(script) => {
            do_lines(alloc, found, manager, script.bytes)?;
            let _for_its_clause = manager.mark();
            judge_now(alloc, found, manager)?;
            Ok(JudgedWorlds::Script)
        }
        None => Ok(judge_in_both(alloc, found, manager, modules)?),
    }
}

/// Adds one finding: how many patches were judged, in which worlds, and what was left out.
fn find_judged_count(
    found: &mut Findings<'_>,
    manager: &Manager,
    worlds: JudgedWorlds,
) -> Result<(), AllocError>
    ensures { IfOk result (λ done. (here : Standing) → AddsTrue here found.old found.new) }
{
    let patches = found.linted.patches.len();
    let free = not_installed(manager, patches);
    let (functions, targets) = left_out_by(found.linted.marks);
    let judged = Judged {
        worlds,
        patches,
        installed: patches.saturating_sub(free.as_slice().len()),
        functions,
        targets,
    };
    found.add(Finding::Count(CountFinding::Judged(judged)))
}

/// Judges the patches of a catalog with a manager that was just booted over it. `found` is the list to which the findings
/// are added. `modules` is how many modules the catalog has.
#[derive(Drop)]
struct Linting<'a> {
    found: Findings<'a>,
    modules: u8,
}

impl ManagerUse for Linting<'_> {
    type Done = Result<(), Fault>;

    ghost comes_to = { λ before after booted ended. IfOk ended
        (λ done. (after.found.linted ≡ before.found.linted)
        × (before.found.said.items ≡ []
        → AreAllTrue booted before.found.linted.input.script before.modules after.found)
        × (before.found.world ≡ AnyWorld.Each → length before.found.linted.patches.now ≤ 256
        → AllListed booted before.found.linted.input.script before.modules
        (length before.found.linted.patches.now) after.found)
        × (length before.found.linted.patches.now ≤ 256
        → AssuresAll booted before.found.linted.input.script before.modules
        (length before.found.linted.patches.now) after.found)) };

    /// Judges the patches, and then adds how many were judged.
    fn run(&mut self, alloc: Global, manager: &mut Manager) -> Result<(), Fault> {
        let worlds = judge(alloc, &mut self.found, manager, self.modules)?;
        find_judged_count(&mut self.found, manager, worlds)?;
        Ok(())
    }
}

/// The list of what is found about the patches of a catalog, behind the script if there is one. If `plan` was read from
/// the same catalog, each finding claims what is so of the world that it names, and each patch leaves no trace, or is
/// installed, or the list says that a premise fails. If the list makes the status 0, each patch is ready in the worlds that
/// are judged.
pub fn find_all<'a>(
    alloc: Global,
    input: LintInput<'a>,
    plan: &'a LintPlan,
) -> Result<Findings<'a>, Fault>
    ensures so { IfOk result (λ found. IsReadFrom input.entry.catalog.bytes.now plan.now
        → AreSoOfText input.entry.catalog.bytes.now input.entry.script found) }
    ensures listed { IfOk result (λ found. IsReadFrom input.entry.catalog.bytes.now plan.now
        → AreListedOfText input.entry.catalog.bytes.now input.entry.script found) }
    ensures clean { IfOk result (λ found. IsReadFrom input.entry.catalog.bytes.now plan.now
        → is_clean found.said.items found.linted.marks.now ≡ true
        → IsCleanText input.entry.catalog.bytes.now input.entry.script) }
{
    klp_lint::laws::a_booted_manager_has_the_patches_of_its_plan();
    let Ok(modules) = u8::try_from(plan.modules()) else {
        return Err(Fault::Image(ImageFault::TooMany));
    };
    let mut linting = Linting {
        found: Findings {
            linted: plan.linted(input),
            world: World::Each,
            said: Vec::new(alloc),
        },
        modules,
    };
    over_text(alloc, input.catalog.bytes, &mut linting)??;
    Ok(linting.found)
}
