ghost use Rattle.std.specs.Prelude.{◌≡◌, nat_lt};

use std::marker::Model;

/// When something was seen, in microseconds since the log's clock began.
#[derive(Clone, Copy, Debug, PartialEq, Eq)]
pub struct Microseconds(pub u64);

impl Model for Microseconds {
    ghost use Rattle.std.specs.Prelude.{ℕ};

    ghost Value = { ℕ };

    ghost view = { λ t. t.0 };

    ghost inverse = { λ n. record { 0 = n } };
}

impl Microseconds {
    /// Whether this time is earlier than the other.
    pub(crate) fn is_before(self, other: Microseconds) -> bool
        ensures { result ≡ nat_lt self other }
    {
        self.0 < other.0
    }
}
