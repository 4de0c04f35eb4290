ghost use Rattle.std.specs.Prelude.{◌≡◌, ◌+◌, ◌≤◌, ◌<◌, ◌^◌, length, FitsSigned, IfOk, false, if◌then◌else◌};
ghost use Rattle.std.specs.Int.{w32};
ghost use Rattle.klp_types.specs.Bytes.{entry_offset, entry_end, entry_address, nop, with_entry, displacement};
ghost use Rattle.klp_types.specs.Bytes as bytes;
ghost use Rattle.klp_text.specs.Kept.{with_entry_at};

use crate::entry_site::{NOP, call, entry_offset};
use klp_types::{ENTRY_SITE_LEN, SymbolText};
use smallvec::SmallVec;
use std::alloc::{AllocError, Global};

/// The greatest length of a body that is stored inside of its symbol. A longer body is stored in a separate piece of
/// memory.
const SHORT_BODY: usize = 32;

/// A symbol with its present bytes. The offset of the entry site and the bytes of the call are computed only once. To
/// hook the site, the bytes of the call are written at this offset.
#[derive(Drop)]
pub struct StoredSymbol {
    /// The address of the entry site.
    pub address: u64,
    /// The offset in the body at which the entry site begins.
    pub offset: usize,
    pub hooked: bool,
    /// The bytes of a call from the entry site to the handler.
    pub call: [u8; ENTRY_SITE_LEN],
    pub body: SmallVec<u8, SHORT_BODY>,
}

impl StoredSymbol {
    /// Copies the symbol, with a NOP at its entry site. The given symbol doesn't change. Returns `Err` if memory is
    /// refused.
    pub fn new(alloc: Global, symbol: &SymbolText, handler: u64) -> Result<StoredSymbol, AllocError>
        requires long { entry_end symbol.now.body ≤ length symbol.now.body }
        requires near { FitsSigned w32 (displacement handler (entry_address symbol.now)) }
        requires range { symbol.now.address + length symbol.now.body < 2 ^ 64 }
        ensures address { IfOk result (λ s. s.address ≡ entry_address symbol.now) }
        ensures offset { IfOk result (λ s. s.offset ≡ entry_offset symbol.now.body) }
        ensures call { IfOk result (λ s. s.call ≡ bytes.call handler (entry_address symbol.now)) }
        ensures resting { IfOk result (λ s. s.hooked ≡ false) }
        ensures body { IfOk result (λ s. s.body.items ≡ with_entry nop symbol.now.body) }
    {
        let offset = entry_offset(symbol.body.as_slice());
        let mut body = SmallVec::from_slice(alloc, symbol.body.as_slice())?;
        write_entry(&mut body, offset, &NOP);
        let address = symbol.address + offset as u64;
        Ok(StoredSymbol {
            address,
            offset,
            hooked: false,
            call: call(handler, address),
            body,
        })
    }

    /// Writes either a call of the handler or the NOP to the entry site, and sets the flag to `hooked`. So the bytes
    /// and the flag always agree.
    pub fn set_hooked(&mut self, hooked: bool)
        requires { self.old.offset + 5 ≤ length self.old.body.items }
        ensures address { self.new.address ≡ self.old.address }
        ensures offset { self.new.offset ≡ self.old.offset }
        ensures call { self.new.call ≡ self.old.call }
        ensures flag { self.new.hooked ≡ hooked }
        ensures body { self.new.body.items
            ≡ with_entry_at self.old.offset (if hooked then self.old.call else nop) self.old.body.items }
    {
        let entry = if hooked { self.call } else { NOP };
        write_entry(&mut self.body, self.offset, &entry);
        self.hooked = hooked;
    }
}

/// Writes these five bytes to the entry site that begins at `offset` in a body.
fn write_entry(body: &mut [u8], offset: usize, entry: &[u8; ENTRY_SITE_LEN])
    requires { offset + 5 ≤ length body.old }
    ensures { body.new ≡ with_entry_at offset entry.now body.old }
{
    write_site(&mut body[offset..offset + ENTRY_SITE_LEN], entry);
}

/// Writes all five bytes of an entry site in one step, so that no task runs bytes of which only some are written. The
/// bytes are assigned as one array, since a copy from slice to slice would write them one by one.
fn write_site(site: &mut [u8], entry: &[u8; ENTRY_SITE_LEN])
    requires { length site.old ≡ 5 }
    ensures { site.new ≡ entry.now }
{
    if let Some(site) = site.as_mut_array() {
        *site = *entry;
    }
}
