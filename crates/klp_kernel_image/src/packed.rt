//! Images that aren't unpacked.

/// Where the word stands by which an image is known that boots by itself, `vmlinuz`, and the word.
const BOOT_WORD: usize = 0x202;

const BOOT: &[u8] = b"HdrS";

/// How files begin that a kernel's build can pack an image into: gzip, xz, zstd, lz4, bzip2, lzma and lzo.
const PACKED: [&[u8]; 7] = [
    b"\x1f\x8b",
    b"\xfd7zXZ",
    b"\x28\xb5\x2f\xfd",
    b"\x02\x21\x4c\x18",
    b"BZh",
    b"\x5d\x00\x00",
    b"\x89LZO",
];

fn boots(bytes: &[u8]) -> bool {
    bytes
        .get(BOOT_WORD..)
        .is_some_and(|rest| rest.starts_with(BOOT))
}

/// Whether a file is an image that is packed, by its first bytes.
pub(crate) fn is_packed(bytes: &[u8]) -> bool {
    for begin in PACKED {
        if bytes.starts_with(begin) {
            return true;
        }
    }
    boots(bytes)
}
