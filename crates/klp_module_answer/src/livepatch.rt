//! A livepatch with the module whose file it was read from.
use crate::faults::{FileWords, ModuleFault, ModuleFaultWords};
use crate::modinfo::info_of;
use klp_elf::Elf;
use klp_messages::Escaped;
use klp_module_matrix::{Changed, Side, changed_by};
use klp_tables::{Layout, MAX_FILE, Patch};
use std::alloc::Global;
use std::io::Write;

/// The layout of the kernel's structs, and the file that it is from. Without one it is the known layout.
#[derive(Clone, Copy)]
pub struct LayoutSource<'s> {
    pub layout: Layout,
    pub file: Option<&'s str>,
}

/// A livepatch, and what its module says of itself.
#[derive(Drop)]
pub struct Livepatch<'a> {
    /// The path of the file.
    pub file: &'a str,
    /// The name under which a kernel lists the patch.
    pub name: &'a [u8],
    /// The release of the kernel for which the module is built.
    pub release: &'a [u8],
    pub patch: Patch<'a>,
    /// All functions that the patch changes.
    pub changed: Vec<Changed<'a>>,
}

impl<'a> Livepatch<'a> {
    /// Returns what is compared of the patch.
    pub(crate) fn side<'p>(&'p self) -> Side<'p, 'a> {
        Side {
            states: &self.patch.states,
            changed: &self.changed,
        }
    }
}

/// Returns what stands before the first space.
fn first_word(text: &[u8]) -> &[u8] {
    text.split(|b| *b == b' ').next().unwrap_or(&[])
}

fn livepatch_of<'a>(
    alloc: Global,
    file: &'a str,
    elf: &Elf<'a>,
    layout: Layout,
) -> Result<Livepatch<'a>, ModuleFault> {
    let info = info_of(elf);
    if info.livepatch.is_none() {
        return Err(ModuleFault::NoLivepatch);
    }
    let Some(name) = info.name else {
        return Err(ModuleFault::NoName);
    };
    let patch = klp_tables::read(alloc, elf, layout)?;
    let changed = changed_by(alloc, &patch.objects)?;
    Ok(Livepatch {
        file,
        name,
        release: first_word(info.version_magic.unwrap_or(&[])),
        patch,
        changed,
    })
}

/// Reads a module's file. If it can't be read, writes to `err` why, as a line of the program.
fn read_elf<'a, E: Write>(
    alloc: Global,
    program: &str,
    file: &str,
    bytes: &'a [u8],
    err: &mut E,
) -> Option<Elf<'a>> {
    let name = Escaped(file.as_bytes());
    if MAX_FILE < bytes.len() {
        let _ = writeln!(err, "{program}: {name}: it has over {MAX_FILE} bytes");
        return None;
    }
    match Elf::read(alloc, bytes) {
        Ok(elf) => Some(elf),
        Err(fault) => {
            let words = FileWords { bytes, fault };
            let _ = writeln!(err, "{program}: {name}: {words}");
            None
        }
    }
}

/// A module whose functions livepatches may change, by its file.
#[derive(Drop)]
pub struct TargetModule<'a> {
    /// The name under which a kernel lists the module.
    pub name: &'a [u8],
    pub elf: Elf<'a>,
}

/// Reads a module that livepatches may change. If it can't be read, writes to `err` why, as a line of the program.
pub fn read_target<'a, E: Write>(
    alloc: Global,
    program: &str,
    file: &str,
    bytes: &'a [u8],
    err: &mut E,
) -> Option<TargetModule<'a>> {
    let elf = read_elf(alloc, program, file, bytes, err)?;
    let Some(name) = info_of(&elf).name else {
        let fault = ModuleFault::NoName;
        let words = ModuleFaultWords {
            elf: &elf,
            fault,
            layout_file: None,
        };
        let name = Escaped(file.as_bytes());
        let _ = writeln!(err, "{program}: {name}: {words}");
        return None;
    };
    Some(TargetModule { name, elf })
}

/// Reads the livepatch of a module's file. If it can't be read, writes to `err` why, as a line of the program.
pub fn read_livepatch<'a, E: Write>(
    alloc: Global,
    program: &str,
    source: LayoutSource<'_>,
    file: &'a str,
    bytes: &'a [u8],
    err: &mut E,
) -> Option<Livepatch<'a>> {
    let elf = read_elf(alloc, program, file, bytes, err)?;
    let name = Escaped(file.as_bytes());
    match livepatch_of(alloc, file, &elf, source.layout) {
        Ok(livepatch) => Some(livepatch),
        Err(fault) => {
            let words = ModuleFaultWords {
                elf: &elf,
                fault,
                layout_file: source.file,
            };
            let _ = writeln!(err, "{program}: {name}: {words}");
            None
        }
    }
}
