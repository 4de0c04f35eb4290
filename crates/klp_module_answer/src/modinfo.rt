//! What a module says of itself.
use klp_elf::Elf;

/// What a module says of itself, in its section `.modinfo`.
#[derive(Clone, Copy)]
pub(crate) struct ModuleInfo<'a> {
    /// The name under which a kernel lists the module.
    pub(crate) name: Option<&'a [u8]>,
    /// What makes a livepatch of the module, whatever it is.
    pub(crate) livepatch: Option<&'a [u8]>,
    /// The release of the kernel for which it is built, and how that kernel is configured.
    pub(crate) version_magic: Option<&'a [u8]>,
}

fn has_key(entry: &[u8], key: &[u8]) -> bool {
    entry.starts_with(key)
}

/// Returns the first entry that begins with a key.
fn entry_in<'a>(entries: &'a [u8], key: &[u8]) -> Option<&'a [u8]> {
    entries.split(|b| *b == 0).find(|entry| has_key(entry, key))
}

/// Returns the value of the first entry that begins with a key, which ends with the `=`.
fn value_in<'a>(entries: &'a [u8], key: &[u8]) -> Option<&'a [u8]> {
    match entry_in(entries, key) {
        Some(entry) => entry.get(key.len()..),
        None => None,
    }
}

fn entries_of<'a>(elf: &Elf<'a>) -> &'a [u8] {
    match elf.section_named(b".modinfo".as_slice()) {
        Some(number) => elf.section_bytes(number),
        None => &[],
    }
}

/// Reads what a module says of itself.
pub(crate) fn info_of<'a>(elf: &Elf<'a>) -> ModuleInfo<'a> {
    let entries = entries_of(elf);
    ModuleInfo {
        name: value_in(entries, b"name=".as_slice()),
        livepatch: value_in(entries, b"livepatch=".as_slice()),
        version_magic: value_in(entries, b"vermagic=".as_slice()),
    }
}
