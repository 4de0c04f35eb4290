ghost use Rattle.std.specs.Prelude.{◌≡◌, ℕ, ◌<◌, ◌==◌, IfSome, IfNone, if◌then◌else◌};
ghost use Rattle.std.specs.Int.{bit_at};
ghost use Rattle.klp_types.specs.declared.limits.TheConstants.{MAX_TASKS};
ghost use Rattle.klp_tasks.specs.Numbers.{IsLowest};

/// The task numbers in use, one bit for each number. A walk over the numbers visits no row without a task.
#[derive(Clone, Copy)]
pub(crate) struct TaskNumbers {
    bits: u64,
}

impl TaskNumbers {
    /// Creates the empty set.
    pub(crate) fn new() -> Self
        ensures { result.bits ≡ 0 }
    {
        Self { bits: 0 }
    }

    /// Marks a number as in use, or as free.
    #[inline(always)]
    pub(crate) fn set(&mut self, number: u8, is_taken: bool)
        requires { number < MAX_TASKS }
        ensures { (other : ℕ) → bit_at self.new.bits other
            ≡ if other == number then if is_taken then 1 else 0 else bit_at self.old.bits other }
    {
        let bit = 1u64 << number;
        if is_taken {
            self.bits |= bit;
        } else {
            self.bits &= !bit;
        }
    }

    /// Removes the lowest number from the set, and returns it. Returns `None` if the set is empty.
    #[inline(always)]
    pub(crate) fn take_lowest(&mut self) -> Option<u8>
        ensures some { IfSome result (λ number. IsLowest number self.old.bits self.new.bits) }
        ensures none { IfNone result (self.old.bits ≡ 0) }
    {
        if self.bits == 0 {
            return None;
        }
        let lowest = self.bits.trailing_zeros();
        self.bits &= !(1u64 << lowest);
        Some(lowest as u8)
    }
}
