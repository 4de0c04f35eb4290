//! Places of rows.
ghost use Rattle.std.specs.Prelude.{◌≡◌, ◌+◌, ◌*◌, ◌<◌, ◌≤◌, ◌^◌};
ghost use Rattle.klp_tables.specs.Rows.{moved, row_place};

use klp_elf::Place;

/// Returns the place so many bytes further on.
pub(crate) fn moved(place: Place, by: u64) -> Place
    ensures { result ≡ moved place by }
{
    Place {
        section: place.section,
        offset: place.offset.wrapping_add(by),
    }
}

/// Returns the place of a row with this number, in a table whose rows have so many bytes.
pub(crate) fn row_place(table: Place, width: u64, number: u64) -> Place
    requires few { number < 2 ^ 32 }
    requires narrow { width < 2 ^ 16 }
    ensures { result ≡ row_place table width number }
{
    moved(table, width * number)
}

/// Returns the bytes of so many rows and the empty one, if each has so many bytes.
pub(crate) fn bytes_of_rows(width: u16, count: usize) -> u64
    requires few { count < 2 ^ 32 }
    ensures { result ≡ width * (count + 1) }
{
    width as u64 * (count as u64 + 1)
}
