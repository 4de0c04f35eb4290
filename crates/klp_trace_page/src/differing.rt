//! Counts the rows at which a kernel differs from the rules.
ghost use Rattle.std.specs.Prelude.{◌≡◌, count_by};
ghost use Rattle.klp_trace_page.specs.Pages.{differs, first_from, differing_in};

use klp_page::{Differing, Row};

/// Returns at how many rows the kernel differs from the rules.
fn count(rows: &[Row]) -> u64
    ensures { result ≡ count_by differs rows.now }
{
    let mut count = 0usize;
    for row in rows {
        if row.differs {
            count += 1;
        }
    }
    count as u64
}

/// Returns the number, from 1, of the first row at which the kernel differs from the rules. Returns 0 if there is no
/// such row.
fn first(rows: &[Row]) -> u64
    ensures { result ≡ first_from 1 rows.now }
{
    for index in 0..rows.len() {
        if rows[index].differs {
            return index as u64 + 1;
        }
    }
    0
}

/// Returns what the head of a trace's page tells: at how many rows the kernel differs from the rules, and the number of
/// the first of them, or 0 if there is none. `set_up` is passed on: it says how many lines at the trace's beginning were
/// made up.
pub(crate) fn differing_in(set_up: u64, rows: &[Row]) -> Differing
    ensures { result ≡ differing_in set_up rows.now }
{
    Differing {
        rows: count(rows),
        first: first(rows),
        set_up,
    }
}
