//! Reading the trace of a kernel, and comparing it with the rules.
ghost use Rattle.std.specs.Prelude.{◌≡◌, List, IfOk, IfErr};
ghost use Rattle.std.specs.Str.Lines.{lines};
ghost use Rattle.klp_model.specs.declared.seen.Seen.{Seen as AnyItem};
ghost use Rattle.klp_model.specs.Observed.{IsHonestRun};
ghost use Rattle.klp_manager_state.specs.Managed.{setting_of};
ghost use Rattle.klp_core.specs.Journaled.{IsWellFormed};
ghost use Rattle.klp_watch.specs.Compared.{taken_from};
ghost use Rattle.klp_watch.specs.ComparedWhole.{AreAllSo, IsDifferenceOfWhole};
ghost use Rattle.klp_watch.specs.Refused.{refused_in};
ghost use Rattle.klp_watch.specs.Watching.{AreWatched, IsConsistent, IsFault};
ghost use Rattle.klp_trace.specs.Traces.{IsTraceOf, IsTraceFault};

use klp_core::Manager;
use klp_model::Seen;
use klp_trace::{Trace, TraceFault};
use klp_watch::{Differs, NotHonest, Observed, RefusedEvents};
use std::alloc::Global;

/// Reads a trace, as [`Trace::read`] does.
pub fn read(alloc: Global, text: &[u8], manager: &Manager) -> Result<Trace, TraceFault>
    ensures read { IfOk result (λ trace. IsTraceOf manager.now text.now trace.items.items trace.times.items) }
    ensures fault { IfErr result (λ fault. IsTraceFault manager.now (lines text.now) fault.line fault.kind) }
{
    Trace::read(alloc, text, manager)
}

/// Does the items of a trace, as [`klp_watch::watch`] does.
pub fn watch(manager: &mut Manager, items: &[Seen]) -> Result<(), NotHonest>
    requires { IsWellFormed manager.old }
    ensures watched { IfOk result (λ _. AreWatched manager.old manager.new items.now) }
    ensures consistent { (run : List AnyItem)
        → IsHonestRun (setting_of manager.old.managed) manager.old.managed.state run
        → IsConsistent (setting_of manager.old.managed) manager.old.managed.state run }
    ensures fault { IfErr result (λ fault. IsFault manager.old manager.new items.now fault.item fault.cause) }
    ensures setting { setting_of manager.new.managed ≡ setting_of manager.old.managed }
    ensures well_formed { IsWellFormed manager.new }
{
    klp_watch::watch(manager, items)
}

/// Does the items of a trace and compares them with the rules, as [`klp_watch::compare_whole`] does.
pub fn compare_whole(manager: &mut Manager, items: &[Observed]) -> Result<RefusedEvents, Differs>
    requires { IsWellFormed manager.old }
    ensures compared { IfOk result (λ _. AreAllSo manager.old.managed manager.new.managed items.now) }
    ensures consistent { IfOk result
        (λ _. IsConsistent (setting_of manager.old.managed) manager.old.managed.state (taken_from items.now)) }
    ensures differs { IfErr result (λ differs.
        IsDifferenceOfWhole manager.old.managed manager.new.managed items.now differs.item differs.cause) }
    ensures refused { IfOk result (λ refused. refused
        ≡ refused_in (setting_of manager.old.managed) manager.old.managed.state items.now) }
    ensures setting { setting_of manager.new.managed ≡ setting_of manager.old.managed }
    ensures well_formed { IsWellFormed manager.new }
{
    klp_watch::compare_whole(manager, items)
}
