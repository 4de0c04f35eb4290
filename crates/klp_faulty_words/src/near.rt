//! Names that are spelled nearly alike.

/// Returns the rests of two names after the bytes with which both begin.
fn without_common_start<'a, 'b>(one: &'a [u8], other: &'b [u8]) -> (&'a [u8], &'b [u8]) {
    // At most the length of the shorter name, so both rests exist.
    let alike = one.iter().zip(other).take_while(|(a, b)| a == b).count();
    (
        one.get(alike..).unwrap_or(&[]),
        other.get(alike..).unwrap_or(&[]),
    )
}

/// Returns a name without its first byte. An empty name stays empty.
fn without_first(name: &[u8]) -> &[u8] {
    name.get(1..).unwrap_or(&[])
}

/// Whether two names differ by at most one byte. The byte may be added, left out or replaced.
fn differ_by_one(one: &[u8], other: &[u8]) -> bool {
    let (one, other) = without_common_start(one, other);
    // The first byte that differs is left out of one name, of the other, or of both.
    without_first(one) == other
        || one == without_first(other)
        || without_first(one) == without_first(other)
}

/// Whether two names differ by at most two bytes. Each of these bytes may be added, left out or replaced.
fn differ_by_two(one: &[u8], other: &[u8]) -> bool {
    let (one, other) = without_common_start(one, other);
    // The first byte that differs is left out of one name, of the other, or of both.
    differ_by_one(without_first(one), other)
        || differ_by_one(one, without_first(other))
        || differ_by_one(without_first(one), without_first(other))
}

/// Does one step of a search for the name that is spelled most like `name`. `first` is the best name so far, if there
/// is one, and `second` is the next name. Returns the best name after the step. A name that differs from `name` by more
/// than two bytes doesn't count, one byte is better than two, and of equally good names the earlier stays.
pub(crate) fn nearer<'a>(
    first: Option<&'a [u8]>,
    second: &'a [u8],
    name: &[u8],
) -> Option<&'a [u8]> {
    match first {
        Some(near) if differ_by_one(near, name) || !differ_by_one(second, name) => first,
        None if !differ_by_two(second, name) => None,
        _ => Some(second),
    }
}
