//! A source of lines. It is a separate trait and not std's `Read`, since its contract counts failures.
ghost use Rattle.std.specs.Prelude.{IfOk, OnErr};
ghost use Rattle.klp_console_io.specs.Supply.{Supply, Gives, Fails};

use crate::sink::Failed;

/// Returns bytes, perhaps fewer than there is room for. For example, a terminal returns one line.
pub trait Source {
    /// The bytes still to be read, if they are known, and what went wrong.
    ghost supply: { Self → Supply };

    /// Reads some bytes into the front of `buf`, and returns how many. If no byte is read into a non-empty `buf`, the
    /// end is reached. If the result is `Err`, the read failed and took no byte. A read into an empty `buf` can't find
    /// the end, so such a read is counted only if it fails. Contracts also add up the lengths of `buf` over all reads,
    /// to say how many bytes were asked for.
    fn read(&mut self, buf: &mut [u8]) -> Result<usize, Failed>
        ensures ok { IfOk result (λ n. Gives (supply self.old) (supply self.new) buf.new n) }
        ensures err { OnErr result (Fails (supply self.old) (supply self.new) buf.new) };
}
