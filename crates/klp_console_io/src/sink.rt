//! A sink for answers. It is a separate trait and not std's `Write`, since its contract counts failures.
ghost use Rattle.std.specs.Prelude.{◌≡◌, ◌+◌, ◌<◌, ◌≤◌, length, take, IfOk, OnErr};
ghost use Rattle.std.specs.Io.KnownBytes.{Appends, Keeps};
ghost use Rattle.klp_console_io.specs.Written.{Written};

/// The error that a read or a write failed. The console can only stop, so the error has no reason.
#[derive(Clone, Copy)]
pub struct Failed;

/// Takes bytes, perhaps fewer than it is given, as a pipe does.
pub trait Sink {
    /// The bytes written to it so far, if they are known, and what went wrong.
    ghost written: { Self → Written };

    /// Writes some of the first bytes of `bytes`, and returns how many. Taking no byte is a stall, unless `bytes` is
    /// empty. An `Err` is a failure, which takes no byte.
    fn write(&mut self, bytes: &[u8]) -> Result<usize, Failed>
        ensures bound { IfOk result (λ n. n ≤ length bytes.now) }
        ensures ok { IfOk result (λ n. Appends (written self.old).taken (written self.new).taken (take n bytes.now)
            × ((written self.new).failures ≡ (written self.old).failures)) }
        ensures stall { IfOk result
            (λ n. n ≡ 0 → 0 < length bytes.now → (written self.new).stalls ≡ (written self.old).stalls + 1) }
        ensures no_bytes { IfOk result
            (λ n. length bytes.now ≡ 0 → (written self.new).stalls ≡ (written self.old).stalls) }
        ensures moved { IfOk result (λ n. 0 < n → (written self.new).stalls ≡ (written self.old).stalls) }
        ensures err { OnErr result (Keeps (written self.old).taken (written self.new).taken
            × ((written self.new).failures ≡ (written self.old).failures + 1)
            × ((written self.new).stalls ≡ (written self.old).stalls)) };
}
