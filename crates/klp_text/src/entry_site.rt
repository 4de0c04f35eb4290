ghost use Rattle.std.specs.Prelude.{◌≡◌, ◌≤◌, ◌<◌, ◌^◌, FitsSigned, option_map};
ghost use Rattle.std.specs.Int.{w32};
ghost use Rattle.klp_types.specs.Bytes as bytes;
ghost use Rattle.klp_types.specs.Bytes.{can_reach};
ghost use Rattle.klp_text.specs.EntrySite.{entry_bytes};

use klp_types::ENTRY_SITE_LEN;

/// The bytes of an entry site that isn't hooked: `nopl 0x0(%rax,%rax,1)`. The five bytes are one instruction. So no
/// task can be in the middle of the bytes that a call overwrites.
pub const NOP: [u8; ENTRY_SITE_LEN] = [0x0f, 0x1f, 0x44, 0x00, 0x00];

/// The opcode of a near call. The call's displacement follows the opcode.
const CALL: u8 = 0xe8;

/// ENDBR64, the first instruction of a function that may be called through a pointer while the processor tracks such
/// calls. ENDBR64 has to stay the first instruction, so a hook is written after it.
const ENDBR64: [u8; 4] = [0xf3, 0x0f, 0x1e, 0xfa];

/// Returns the offset in a body at which its entry site begins.
pub fn entry_offset(body: &[u8]) -> usize
    ensures value { result ≡ bytes.entry_offset body.now }
    ensures limit { result ≤ 4 }
{
    if body.starts_with(&ENDBR64) {
        ENDBR64.len()
    } else {
        0
    }
}

/// Returns the bytes of the entry site in a body. Returns `None` if the body ends before its entry site does.
pub fn entry_bytes(body: &[u8]) -> Option<&[u8]>
    ensures { option_map (λ site. site.now) result ≡ entry_bytes body.now }
{
    let offset = entry_offset(body);
    body.get(offset..offset + ENTRY_SITE_LEN)
}

/// Returns the displacement of a call at this address. The displacement is the distance to the handler, counted from
/// the instruction after the call, as the processor does. 128 bits are enough for any two addresses.
pub fn displacement(handler: u64, address: u128) -> i128
    requires { address < 2 ^ 65 }
    ensures { result ≡ bytes.displacement handler address }
{
    i128::from(handler) - (address as i128 + ENTRY_SITE_LEN as i128)
}

/// Whether a call at this address reaches the handler. The displacement of a near call has 32 bits with a sign.
pub fn can_reach(handler: u64, address: u128) -> bool
    requires { address < 2 ^ 65 }
    ensures { result ≡ can_reach handler address }
{
    i32::try_from(displacement(handler, address)).is_ok()
}

/// Returns the bytes of a call from this address to the handler: the opcode and the displacement, lowest byte
/// first.
pub fn call(handler: u64, address: u64) -> [u8; ENTRY_SITE_LEN]
    requires { FitsSigned w32 (bytes.displacement handler address) }
    ensures { result ≡ bytes.call handler address }
{
    let displacement = displacement(handler, u128::from(address)) as i32;
    let [first, second, third, fourth] = displacement.to_le_bytes();
    [CALL, first, second, third, fourth]
}
