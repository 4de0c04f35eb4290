use klp_model::{Event, Refusal, Reply, Seen};
use klp_types::{PatchId, PatchState, Site, TaskId, Version};

/// An item that was observed of a kernel: something that happened to the kernel, or something that the kernel showed in
/// between. Which questions a kernel is asked, and the form of its answers, are this project's own.
#[derive(Clone, Copy)]
pub enum Observed {
    /// An event, a call or a return, as for [`watch`](crate::watch). The kernel's answer isn't known.
    Seen(Seen),
    /// An event, and the kernel's answer: its reply, or why it refused the event.
    Answered(Event, Result<Reply, Refusal>),
    /// A fact that the kernel showed at this moment. The item changes nothing.
    Saw(Sight),
}

/// A fact that a kernel shows of its state at one moment.
#[derive(Clone, Copy)]
pub enum Sight {
    /// The state of a task, as `/proc/<pid>/patch_state` reads. `None` if there is no such task.
    State(TaskId, Option<PatchState>),
    /// The values that the files of a patch read. `None` if the files don't exist, because the patch isn't installed.
    Files(PatchId, Option<PatchFiles>),
    /// The task ran this version when it called the site's function.
    Version(TaskId, Site, Version),
    /// Whether the site is hooked. If the site is hooked, its five bytes are a call of the handler. Otherwise they are
    /// the NOP.
    Text(Site, bool),
}

/// The values, 1 or 0, that the files in `/sys/kernel/livepatch/<patch>` read.
#[derive(Clone, Copy)]
pub struct PatchFiles {
    pub enabled: bool,
    pub transition: bool,
}
