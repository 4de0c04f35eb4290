use klp_watch::{Differs, NotHonest, RefusedEvents};

/// How many items of each kind a trace has. Accepted and refused events both count.
#[derive(Clone, Copy)]
pub struct Counts {
    pub events: usize,
    pub calls: usize,
    pub returns: usize,
    /// How many answers and sights were compared with the rules. An event with an answer is counted both here and as an
    /// event.
    pub compared: usize,
    /// The events that the rules refuse, and whose answer the trace doesn't have.
    pub refused: RefusedEvents,
}

/// The verdict on a trace. Each line is an item, so the number of an item is that of its line.
#[derive(Clone, Copy)]
pub enum Verdict {
    /// All items keep the premises, and the kernel nowhere differs from the rules.
    Honest(Counts),
    /// The first item that breaks a premise. The kernel's answer to it isn't compared with the rules.
    Dishonest(NotHonest),
    /// The first item at which the kernel differs from the rules. The item breaks no premise.
    Differs(Differs),
}
