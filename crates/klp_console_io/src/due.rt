//! Chooses the one call that fails. Streams in memory use this function, so that tests can let each call fail in turn.
ghost use Rattle.std.specs.Prelude.{◌≡◌, IsTrue, ◌↔◌, Some};
ghost use Rattle.klp_console_io.specs.Due.{one_sooner};

/// Whether this call is the one that fails. `fails_in` is how many calls are made before the failing call, and each
/// call reduces `fails_in` by one. After the failure no call fails.
pub fn is_due(fails_in: &mut Option<u32>) -> bool
    ensures due { IsTrue result ↔ (fails_in.old ≡ Some 0) }
    ensures sooner { fails_in.new ≡ one_sooner fails_in.old }
{
    match *fails_in {
        None => false,
        Some(0) => {
            *fails_in = None;
            true
        }
        Some(before) => {
            *fails_in = Some(before - 1);
            false
        }
    }
}
