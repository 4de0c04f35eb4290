ghost use Rattle.std.specs.Prelude.{◌≡◌, true, false, length, IfOk};
ghost use Rattle.klp_manager_state.specs.Invariant.{Invariant};
ghost use Rattle.klp_manager_state.specs.Managed.{refused_in};
ghost use Rattle.klp_manager_state.specs.Events.{TakesEvent};
ghost use Rattle.klp_manager_state.specs.Rows.{IsLogged};
ghost use Rattle.klp_core.specs.Journaled.{is_of_a_task};
ghost use Rattle.klp_core.specs.Taking.{is_brief};

use klp_catalog::Catalog;
use klp_manager_state::{BriefReply, ManagerState};
use klp_model::{Event, Refusal, Reply};
use klp_patch_events::{
    coming, coming_refusal, enable, enable_refusal, force, force_refusal, going, going_refusal,
    poll, poll_refusal, set_enabled, set_enabled_refusal,
};
use klp_task_shadow_events::{shadow, tasks};

/// Whether the reply to an event has neither the frames of a task nor the value of a variable. Most replies have
/// neither.
#[inline(always)]
pub(crate) fn is_brief(event: &Event) -> bool
    ensures { result ≡ is_brief event.now }
{
    match event {
        Event::Wake(_) | Event::ShadowGetOrAlloc(_, _) => false,
        _ => true,
    }
}

/// Does an event that has a brief reply, by passing the event to the function of its step. The event is borrowed, since
/// it is large: it has room for the frames of a sleeper.
pub(crate) fn take_brief(
    state: &mut ManagerState,
    catalog: &mut Catalog,
    event: &Event,
) -> Result<BriefReply, Refusal>
    requires brief { is_brief event.now ≡ true }
    requires kept { Invariant state.old catalog.old }
    ensures taken { TakesEvent state.old state.new catalog.old catalog.new event.now result }
    ensures logged { IsLogged state.old state.new result }
    ensures one { is_of_a_task event.now ≡ true → IfOk result (λ reply. length state.new.log.logged ≡ 1) }
{
    match event {
        Event::Enable(patch) => enable(state, catalog, *patch),
        Event::SetEnabled(patch, value) => set_enabled(state, catalog, *patch, *value),
        Event::Force(patch) => force(state, catalog, *patch),
        Event::Poll => poll(state, catalog),
        Event::Coming(object) => coming(state, catalog, *object),
        Event::Going(object) => going(state, catalog, *object),
        Event::NewTask(task) => tasks::new_task(state, *task),
        Event::Fork(parent, child) => tasks::fork(state, *parent, *child),
        Event::EndTask(task) => tasks::end_task(state, *task),
        Event::EnterKernel(task) => tasks::enter_kernel(state, *task),
        Event::ExitToUser(task) => tasks::exit_to_user(state, *task),
        Event::Sleep(task, frames) => tasks::sleep(state, catalog, *task, frames),
        Event::ShadowAlloc(key, value) => shadow::shadow_alloc(state, catalog, *key, value),
        Event::ShadowFree(key) => shadow::shadow_free(state, catalog, *key),
        Event::ShadowFreeAll(id) => shadow::shadow_free_all(state, catalog, *id),
        Event::Wake(_) | Event::ShadowGetOrAlloc(_, _) => unreachable!(),
    }
}

/// Does an event whose reply has frames or a value, by passing the event to the function of its step.
pub(crate) fn take_long(
    state: &mut ManagerState,
    catalog: &mut Catalog,
    event: &Event,
) -> Result<Reply, Refusal>
    requires long { is_brief event.now ≡ false }
    requires kept { Invariant state.old catalog.old }
    ensures taken { TakesEvent state.old state.new catalog.old catalog.new event.now result }
    ensures logged { IsLogged state.old state.new result }
    ensures one { is_of_a_task event.now ≡ true → IfOk result (λ reply. length state.new.log.logged ≡ 1) }
{
    match event {
        Event::Wake(task) => tasks::wake(state, *task),
        Event::ShadowGetOrAlloc(key, value) => {
            shadow::shadow_get_or_alloc(state, catalog, *key, *value)
        }
        _ => unreachable!(),
    }
}

/// Returns why an event would be refused. Returns `None` if nothing refuses it. The call doesn't do the event, and
/// ignores the journal. Removals of shadow variables are never refused.
pub(crate) fn refused(state: &ManagerState, catalog: &Catalog, event: &Event) -> Option<Refusal>
    requires { Invariant state.now catalog.now }
    ensures { result ≡ refused_in state.now catalog.now event.now }
{
    match *event {
        Event::Enable(patch) => enable_refusal(state, catalog, patch),
        Event::SetEnabled(patch, value) => set_enabled_refusal(state, catalog, patch, value),
        Event::Force(patch) => force_refusal(state, catalog, patch),
        Event::Poll => poll_refusal(state, catalog),
        Event::Coming(object) => coming_refusal(state, catalog, object),
        Event::Going(object) => going_refusal(state, catalog, object),
        Event::NewTask(task) => tasks::new_task_refusal(state, task),
        Event::Fork(parent, child) => tasks::fork_refusal(state, parent, child),
        Event::EndTask(task) => tasks::end_task_refusal(state, task),
        Event::EnterKernel(task) => tasks::enter_kernel_refusal(state, task),
        Event::ExitToUser(task) => tasks::exit_to_user_refusal(state, task),
        Event::Sleep(task, frames) => tasks::sleep_refusal(state, catalog, task, &frames),
        Event::Wake(task) => tasks::wake_refusal(state, task),
        Event::ShadowAlloc(key, _) => shadow::shadow_alloc_refusal(state, key),
        Event::ShadowGetOrAlloc(key, _) => shadow::shadow_get_or_alloc_refusal(state, key),
        Event::ShadowFree(_) | Event::ShadowFreeAll(_) => None,
    }
}
