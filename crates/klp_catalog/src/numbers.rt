ghost use Rattle.std.specs.Prelude.{◌≡◌, ◌+◌, ◌<◌, ◌≤◌, ◌^◌, OnOk, IfOk, IfErr};
ghost use Rattle.klp_catalog.specs.Assembled.{IsShort};

use crate::assemble::AssembleFault;

/// The callback numbers that aren't assigned yet. The callbacks themselves aren't moved, since contracts know nothing
/// of a box after it was moved.
#[derive(Drop)]
pub(crate) struct Numbers {
    pub(crate) next: usize,
    /// One more than the last number. If the caller passed too few callbacks, the numbers run out. If the caller passed
    /// too many, some numbers are left.
    pub(crate) end: usize,
}

impl Numbers {
    /// Assigns the next `wanted` numbers, and returns the first of them. The callbacks of an object have consecutive
    /// numbers, so the first number is enough. Returns `Err` if fewer than `wanted` numbers are left.
    pub(crate) fn take(&mut self, wanted: usize) -> Result<usize, AssembleFault>
        requires { self.old.next ≤ self.old.end }
        ensures first { IfOk result (λ first. first ≡ self.old.next) }
        ensures rest { OnOk result (self.new ≡ record self.old { next = self.old.next + wanted }) }
        ensures fits { IfOk result (λ first. first + wanted < 2 ^ 64) }
        ensures within { OnOk result (self.new.next ≤ self.new.end) }
        ensures fault { IfErr result (IsShort (self.old.next + wanted) self.old.end) }
    {
        if self.end - self.next < wanted {
            return Err(AssembleFault::WrongCallbacks);
        }
        let first = self.next;
        self.next += wanted;
        Ok(first)
    }
}
