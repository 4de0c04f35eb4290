//! Whether the system states of two patches fit.
ghost use Rattle.std.specs.Prelude.{◌≡◌, not, option_map};
ghost use Rattle.std.specs.List.{find};
ghost use Rattle.std.specs.Option.{option_copied};
ghost use Rattle.klp_module_matrix.specs.Matrix.{fits, has_id, refusal_of, refused_by, refuses};

use klp_tables::State;

/// Why a patch is refused over another one, by a state of the older one.
#[derive(Clone, Copy)]
pub enum Refusal {
    /// The newer patch replaces the older one, and lacks the state.
    Lacks(State),
    /// The newer patch has an older version of the state.
    Older { own: State, installed: State },
}

fn has_id(state: &State, id: u64) -> bool
    ensures { result ≡ has_id id state.now }
{
    state.id == id
}

/// Returns the state with this number.
fn state_in(states: &[State], id: u64) -> Option<&State>
    ensures { option_copied result ≡ find (has_id id) states.now }
{
    states.iter().find(|state| has_id(state, id))
}

/// Whether a patch with these states may be loaded over an installed state.
fn fits(newer: &[State], replaces: bool, installed: &State) -> bool
    ensures { result ≡ fits newer.now replaces installed.now }
{
    match state_in(newer, installed.id) {
        Some(own) => installed.version <= own.version,
        None => !replaces,
    }
}

/// Returns the first of the older patch's states that doesn't fit.
fn first_unfit<'b>(older: &'b [State], newer: &[State], replaces: bool) -> Option<&'b State>
    ensures { option_copied result ≡ find (refuses newer.now replaces) older.now }
{
    older
        .iter()
        .find(|installed| !fits(newer, replaces, installed))
}

/// Returns why a patch is refused that has or lacks this installed state.
fn refused_by(newer: &[State], installed: State) -> Refusal
    ensures { result ≡ refused_by newer.now installed }
{
    match state_in(newer, installed.id) {
        Some(own) => Refusal::Older {
            own: *own,
            installed,
        },
        None => Refusal::Lacks(installed),
    }
}

/// Returns why the kernel refuses to load a patch with the newer states over one with the older ones, if it does.
/// `replaces` says whether the newer patch replaces those before it.
pub(crate) fn refusal_over(older: &[State], newer: &[State], replaces: bool) -> Option<Refusal>
    ensures { result ≡ refusal_of older.now newer.now replaces }
{
    match first_unfit(older, newer, replaces) {
        Some(installed) => Some(refused_by(newer, *installed)),
        None => None,
    }
}
