//! Tests which item of a list `watch` finds, and why. Programs watch traces by `compare_whole`, so no example shows `watch`.
use klp_boot::{Fault, ManagerUse, over_text};
use klp_core::Manager;
use klp_model::{Event, Seen};
use klp_program::CATALOG;
use klp_types::{Frames, MAX_FRAMES, PatchId, Site, TaskId, Version};
use klp_watch::{Cause, NotHonest, watch};
use std::alloc::Global;

const TASK: TaskId = TaskId(1);

const SITE: Site = Site(0);

const PATCH: PatchId = PatchId(0);

/// How many items the list has. Without the last ones the list is honest, too.
const ITEMS: usize = 7;

/// Watches a list of items with a manager. If `has_begun`, the manager has a task before that.
#[derive(Drop)]
struct Watching<'a> {
    items: &'a [Seen],
    has_begun: bool,
}

impl ManagerUse for Watching<'_> {
    type Done = Result<(), NotHonest>;

    ghost comes_to = { λ _ _ _ _. Unit {0} };

    fn run(&mut self, _alloc: Global, manager: &mut Manager) -> Result<(), NotHonest> {
        if self.has_begun {
            let _ = manager.apply(Event::NewTask(TASK));
        }
        watch(manager, self.items)
    }
}

/// A task that calls a function, and sleeps inside of what `frames` names.
fn items(frames: Frames) -> [Seen; ITEMS] {
    [
        Seen::Event(Event::NewTask(TASK)),
        Seen::Event(Event::EnterKernel(TASK)),
        Seen::Call(TASK, SITE),
        Seen::Event(Event::Sleep(TASK, frames)),
        Seen::Event(Event::Wake(TASK)),
        Seen::Return(TASK),
        Seen::Event(Event::ExitToUser(TASK)),
    ]
}

/// Returns what `watch` finds of these items.
fn found_in(alloc: Global, items: &[Seen]) -> Result<Result<(), NotHonest>, Fault> {
    let mut watching = Watching {
        items,
        has_begun: false,
    };
    over_text(alloc, CATALOG, &mut watching)
}

/// Returns what `watch` finds of the items of a task that sleeps in these frames.
fn found(alloc: Global, frames: Frames) -> Result<Result<(), NotHonest>, Fault> {
    found_in(alloc, &items(frames))
}

/// Whether `watch` finds that this item breaks a premise, for this cause.
fn is_found(alloc: Global, items: &[Seen], item: usize, cause: Cause) -> bool {
    let missed = NotHonest { item, cause };
    matches!(found_in(alloc, items), Ok(Err(found)) if found == missed)
}

/// A task that enters the kernel, and these two items of it.
fn entered(first: Seen, second: Seen) -> [Seen; 4] {
    [
        Seen::Event(Event::NewTask(TASK)),
        Seen::Event(Event::EnterKernel(TASK)),
        first,
        second,
    ]
}

#[test]
fn a_task_may_sleep_where_it_is(rt: HostRuntime) {
    let mut frames = Frames::new();
    frames.push(Version::Original(SITE));
    assert!(rt; matches!(found(rt.alloc(), frames), Ok(Ok(()))));
}

#[test]
fn a_task_that_sleeps_elsewhere_is_found(rt: HostRuntime) {
    let missed = NotHonest {
        item: 4,
        cause: Cause::Frames,
    };
    assert!(rt; matches!(found(rt.alloc(), Frames::new()), Ok(Err(found)) if found == missed));
}

#[test]
fn a_task_that_leaves_or_ends_inside_of_a_function_is_found(rt: HostRuntime) {
    let leaves = entered(Seen::Call(TASK, SITE), Seen::Event(Event::ExitToUser(TASK)));
    assert!(rt; is_found(rt.alloc(), &leaves, 4, Cause::FramesLeft));
    let ends = entered(Seen::Call(TASK, SITE), Seen::Event(Event::EndTask(TASK)));
    assert!(rt; is_found(rt.alloc(), &ends, 4, Cause::FramesLeft));
}

#[test]
fn a_call_or_a_return_that_cannot_be_is_found(rt: HostRuntime) {
    let user = [Seen::Event(Event::NewTask(TASK)), Seen::Call(TASK, SITE)];
    assert!(rt; is_found(rt.alloc(), &user, 2, Cause::NoCall));
    let nothing = entered(Seen::Call(TASK, SITE), Seen::Return(TASK));
    assert!(rt; matches!(found_in(rt.alloc(), &nothing), Ok(Ok(()))));
    let twice = entered(Seen::Return(TASK), Seen::Return(TASK));
    assert!(rt; is_found(rt.alloc(), &twice, 3, Cause::NoReturn));
}

#[test]
fn a_force_is_found_and_a_refused_one_is_not(rt: HostRuntime) {
    let forced = [
        Seen::Event(Event::Enable(PATCH)),
        Seen::Event(Event::Force(PATCH)),
    ];
    assert!(rt; is_found(rt.alloc(), &forced, 2, Cause::Forced));
    let refused = [Seen::Event(Event::Force(PATCH))];
    assert!(rt; matches!(found_in(rt.alloc(), &refused), Ok(Ok(()))));
}

#[test]
fn the_thirty_third_call_has_no_room(rt: HostRuntime) {
    let mut items = [Seen::Call(TASK, SITE); 2 + MAX_FRAMES + 1];
    items[0] = Seen::Event(Event::NewTask(TASK));
    items[1] = Seen::Event(Event::EnterKernel(TASK));
    assert!(rt; is_found(rt.alloc(), &items, items.len(), Cause::Deep));
    assert!(rt; matches!(found_in(rt.alloc(), &items[..2 + MAX_FRAMES]), Ok(Ok(()))));
}

#[test]
fn a_manager_with_a_task_cannot_be_watched(rt: HostRuntime) {
    let mut watching = Watching {
        items: &[],
        has_begun: true,
    };
    let missed = NotHonest {
        item: 0,
        cause: Cause::NotOpening,
    };
    assert!(rt;
        matches!(over_text(rt.alloc(), CATALOG, &mut watching), Ok(Err(found)) if found == missed)
    );
}
