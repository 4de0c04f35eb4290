//! The addresses of an image's symbols: four bytes for each, in one of the forms that kernels have had.
use crate::loaded::Loaded;
use crate::names::Names;
use crate::number::{u32_at, u64_at};

/// What the kernel's banner begins with, behind which its release stands.
pub(crate) const BANNER: &[u8] = b"Linux version ";

/// The number of an address below the kernel's.
const HALF: u32 = 0x8000_0000;

/// What the number of a symbol says of its address.
#[derive(Clone, Copy)]
enum Form {
    /// How far it is behind a base.
    Base(u64),
    /// The address itself, of a variable that each processor has, if it is below 2^31. Else a base and the bits that are not
    /// set in the number make the address.
    BaseOrItself(u64),
    /// How far it is behind the number's own place, whose table begins at this address, or before it.
    Place(u64),
}

/// Where the numbers begin in the file, and their form.
#[derive(Clone, Copy)]
pub(crate) struct Addresses {
    at: usize,
    form: Form,
}

/// Returns a number of four bytes as one of eight, whose highest bit is its sign.
fn with_sign(number: u32) -> u64 {
    if number < HALF {
        u64::from(number)
    } else {
        u64::from(number) | 0xffff_ffff_0000_0000
    }
}

impl Addresses {
    /// Returns the address of the symbol with this number.
    pub(crate) fn address(&self, bytes: &[u8], symbol: usize) -> Option<u64> {
        let place = symbol.saturating_mul(4);
        let number = u32_at(bytes, self.at.saturating_add(place))?;
        Some(match self.form {
            Form::Base(base) => base.wrapping_add(u64::from(number)),
            Form::BaseOrItself(_) if number < HALF => u64::from(number),
            Form::BaseOrItself(base) => base.wrapping_add(u64::from(!number)),
            Form::Place(start) => start
                .wrapping_add(place as u64)
                .wrapping_add(with_sign(number)),
        })
    }
}

/// Where numbers may be in the file, and a base that may be theirs.
#[derive(Clone, Copy)]
struct Based {
    at: usize,
    base: u64,
}

/// Returns the numbers before the names, where Linux has them up to 6.3: the numbers, their base, and the count of names.
fn before_names(bytes: &[u8], names: Names) -> Option<Based> {
    let base_at = names.count_at.checked_sub(8)?;
    Some(Based {
        at: base_at.checked_sub(names.table(4))?,
        base: u64_at(bytes, base_at)?,
    })
}

/// Returns the numbers behind the tokens, where Linux has them since 6.4, and the base behind them, which newer ones haven't.
fn behind_tokens(bytes: &[u8], names: Names, behind: usize) -> Based {
    let base_at = behind.saturating_add(names.table(4));
    Based {
        at: behind,
        base: u64_at(bytes, base_at).unwrap_or(0),
    }
}

/// Whether the banner is at the address that it has by these numbers.
fn has_banner(image: &Loaded<'_>, addresses: Addresses, banner: usize) -> bool {
    match addresses.address(image.bytes, banner) {
        Some(address) => image
            .from_address(address)
            .is_some_and(|bytes| bytes.starts_with(BANNER)),
        None => false,
    }
}

/// Returns the first of these numbers by whose form the banner is at its address.
fn with_base(image: &Loaded<'_>, numbers: Based, banner: usize) -> Option<Addresses> {
    let Based { at, base } = numbers;
    for form in [Form::Base(base), Form::BaseOrItself(base)] {
        let addresses = Addresses { at, form };
        if has_banner(image, addresses, banner) {
            return Some(addresses);
        }
    }
    None
}

/// Returns the numbers that have no base, if the banner is at its address by them.
fn without_base(image: &Loaded<'_>, at: usize, banner: usize) -> Option<Addresses> {
    let addresses = Addresses {
        at,
        form: Form::Place(image.address_of(at)?),
    };
    if has_banner(image, addresses, banner) {
        Some(addresses)
    } else {
        None
    }
}

/// Finds the symbols' addresses, before the names or behind the tokens, by the symbol of the banner, which has this number.
pub(crate) fn addresses_of(
    image: &Loaded<'_>,
    names: Names,
    behind: usize,
    banner: usize,
) -> Option<Addresses> {
    if let Some(numbers) = before_names(image.bytes, names)
        && let Some(addresses) = with_base(image, numbers, banner)
    {
        return Some(addresses);
    }
    let numbers = behind_tokens(image.bytes, names, behind);
    match with_base(image, numbers, banner) {
        Some(addresses) => Some(addresses),
        None => without_base(image, behind, banner),
    }
}
