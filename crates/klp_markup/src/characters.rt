//! Which bytes of a text of a run a page shows as they are.
ghost use Rattle.std.specs.Prelude.{◌≡◌};
ghost use Rattle.klp_markup.specs.Characters.{is_within, byte_at, goes_on_at, may_follow, acts_by_two, acts_by_three};
ghost use Rattle.klp_markup.specs.Characters.{shown_bytes, shown_behind, shown_by_three};

/// Whether a byte is one of these.
fn is_within(low: u8, high: u8, byte: u8) -> bool
    ensures { result ≡ is_within low high byte }
{
    low <= byte && byte <= high
}

/// Returns the byte at a place of a text. Behind the text the result is 0, which goes on with no character.
fn byte_at(text: &[u8], place: usize) -> u8
    ensures { result ≡ byte_at text.now place }
{
    match text.get(place) {
        Some(byte) => *byte,
        None => 0,
    }
}

/// Whether the byte at a place goes on with a character of UTF-8.
fn goes_on_at(text: &[u8], place: usize) -> bool
    ensures { result ≡ goes_on_at text.now place }
{
    is_within(128, 191, byte_at(text, place))
}

/// Whether the second byte may follow the first one of a character of two bytes or more.
fn may_follow(first: u8, second: u8) -> bool
    ensures { result ≡ may_follow first second }
{
    if first == 224 {
        is_within(160, 191, second)
    } else if first == 237 {
        is_within(128, 159, second)
    } else if first == 240 {
        is_within(144, 191, second)
    } else if first == 244 {
        is_within(128, 143, second)
    } else {
        is_within(128, 191, second)
    }
}

/// Whether a character of two bytes acts on what is around it.
fn acts_by_two(first: u8, second: u8) -> bool
    ensures { result ≡ acts_by_two first second }
{
    (first == 194 && is_within(128, 159, second)) || (first == 216 && second == 156)
}

/// Whether a character of three bytes acts on what is around it, as the marks of direction do.
fn acts_by_three(first: u8, second: u8, third: u8) -> bool
    ensures { result ≡ acts_by_three first second third }
{
    first == 226
        && ((second == 128 && (is_within(142, 143, third) || is_within(168, 174, third)))
            || (second == 129 && is_within(166, 169, third)))
}

/// Returns how many bytes the character has with which a text begins. Returns 0 if the text begins with no character of
/// UTF-8, or with one that acts on what is around it.
pub(crate) fn shown_bytes(text: &[u8]) -> usize
    ensures { result ≡ shown_bytes text.now }
{
    let (first, second) = (byte_at(text, 0), byte_at(text, 1));
    if first < 128 {
        1
    } else if is_within(194, 244, first) && may_follow(first, second) {
        shown_behind(text, first, second)
    } else {
        0
    }
}

/// Returns how many bytes the character has that begins with these two, which may follow each other, as [`shown_bytes`]
/// does.
fn shown_behind(text: &[u8], first: u8, second: u8) -> usize
    ensures { result ≡ shown_behind text.now first second }
{
    if first < 224 {
        if acts_by_two(first, second) { 0 } else { 2 }
    } else if goes_on_at(text, 2) {
        shown_by_three(text, first, second)
    } else {
        0
    }
}

/// Returns how many bytes the character has that begins with three bytes, the first two of which are given.
fn shown_by_three(text: &[u8], first: u8, second: u8) -> usize
    ensures { result ≡ shown_by_three text.now first second }
{
    if first < 240 {
        if acts_by_three(first, second, byte_at(text, 2)) {
            0
        } else {
            3
        }
    } else if goes_on_at(text, 3) {
        4
    } else {
        0
    }
}
