//! What is wrong with a module's file, in words.
use klp_elf::{Elf, ElfFault, LookFault, Place};
use klp_messages::Escaped;
use klp_tables::{MAX_FUNCTIONS, MAX_OBJECTS, MAX_STATES, TableFault};
use std::alloc::AllocError;
use std::fmt;

/// The first bytes of compressed files, each with the tool that unpacks them.
const PACKERS: [(&[u8], &str); 3] = [
    (b"\xfd7zXZ", "xz -dk"),
    (b"\x28\xb5\x2f\xfd", "zstd -d"),
    (b"\x1f\x8b", "gzip -dk"),
];

/// Where the word stands by which an image of a kernel is known, and the word.
const IMAGE_WORD: usize = 0x202;

const IMAGE: &[u8] = b"HdrS";

/// What is wrong with a file that isn't an ELF file as a module is one.
#[derive(Clone, Copy)]
pub(crate) struct FileWords<'b> {
    pub(crate) bytes: &'b [u8],
    pub(crate) fault: ElfFault,
}

fn is_image(bytes: &[u8]) -> bool {
    bytes
        .get(IMAGE_WORD..)
        .is_some_and(|rest| rest.starts_with(IMAGE))
}

impl FileWords<'_> {
    /// Writes what else a file is that isn't an ELF file.
    fn write_other<W: fmt::Write>(&self, f: &mut fmt::Formatter<W>) -> fmt::Result {
        for (begin, tool) in PACKERS {
            if self.bytes.starts_with(begin) {
                return write!(f, "it is compressed: unpack it by {tool}");
            }
        }
        if is_image(self.bytes) {
            return f.write_str("it is a kernel's image: wanted is a module, .ko");
        }
        let fault = self.fault;
        write!(f, "{fault}: wanted is a module, .ko")
    }
}

impl fmt::Display for FileWords<'_> {
    fn fmt<W: fmt::Write>(&self, f: &mut fmt::Formatter<W>) -> fmt::Result {
        let length = self.bytes.len();
        match self.fault {
            ElfFault::NotElf => self.write_other(f),
            ElfFault::HeadersOutside | ElfFault::SectionOutside(_) => {
                write!(f, "{}, which has {length} bytes: it is cut off", self.fault)
            }
            ElfFault::NoMemory => f.write_str("memory ran out"),
            fault => write!(f, "{fault}"),
        }
    }
}

/// What is wrong with a module that isn't a livepatch which can be read.
#[derive(Clone, Copy)]
pub(crate) enum ModuleFault {
    /// Its section `.modinfo` doesn't make a livepatch of it.
    NoLivepatch,
    /// Its section `.modinfo` doesn't have its name.
    NoName,
    Table(TableFault),
}

impl From<TableFault> for ModuleFault {
    fn from(fault: TableFault) -> ModuleFault {
        ModuleFault::Table(fault)
    }
}

impl From<AllocError> for ModuleFault {
    fn from(_: AllocError) -> ModuleFault {
        ModuleFault::Table(TableFault::NoMemory)
    }
}

/// What is wrong with a module.
#[derive(Clone, Copy)]
pub(crate) struct ModuleFaultWords<'e, 'a> {
    pub(crate) elf: &'e Elf<'a>,
    pub(crate) fault: ModuleFault,
    /// The file from which the layout of the structs is, if it isn't the known one.
    pub(crate) layout_file: Option<&'e str>,
}

/// A place in a file, by its section and the offset into it.
#[derive(Clone, Copy)]
struct PlaceWords<'e, 'a> {
    elf: &'e Elf<'a>,
    place: Place,
}

impl fmt::Display for PlaceWords<'_, '_> {
    fn fmt<W: fmt::Write>(&self, f: &mut fmt::Formatter<W>) -> fmt::Result {
        let Place { section, offset } = self.place;
        write!(f, "section {section}")?;
        if let Some(header) = self.elf.sections.get(section as usize) {
            write!(f, " ({})", Escaped(self.elf.section_name(header)))?;
        }
        write!(f, ", offset {offset}")
    }
}

impl<'e, 'a> ModuleFaultWords<'e, 'a> {
    fn place(&self, place: Place) -> PlaceWords<'e, 'a> {
        PlaceWords {
            elf: self.elf,
            place,
        }
    }

    fn write_look<W: fmt::Write>(
        &self,
        f: &mut fmt::Formatter<W>,
        fault: LookFault,
    ) -> fmt::Result {
        match fault {
            LookFault::Outside(at) => {
                write!(f, "{}: the section ends within the row", self.place(at))
            }
            LookFault::NoEnd(at) => { write!(f, "{}: a name's end is wanted, a 0", self.place(at)) }
            LookFault::Several(at) => write!(
                f,
                "{}: a pointer is wanted, and several relocations are there",
                self.place(at)
            ),
            LookFault::NoAddress(at) => write!(
                f,
                "{}: a pointer is wanted, and the relocation makes none",
                self.place(at)
            ),
            LookFault::Number(at) => write!(
                f,
                "{}: a pointer is wanted, and a number is there",
                self.place(at)
            ),
        }
    }

    /// Writes that the variable of a table has another size than its rows.
    fn write_layout<W: fmt::Write>(
        &self,
        f: &mut fmt::Formatter<W>,
        table: Place,
        wanted: u64,
    ) -> fmt::Result {
        write!(f, "{}: ", self.place(table))?;
        if let Some(symbol) = self.elf.object_at(table) {
            let (name, size) = (self.elf.symbol_name(symbol), symbol.size);
            write!(f, "{} has {size} bytes, and ", Escaped(name))?;
        }
        write!(f, "its rows have {wanted} bytes by the layout of ")?;
        match self.layout_file {
            Some(file) => write!(f, "{}", Escaped(file.as_bytes())),
            None => f.write_str("Linux 5.5 to 7.3: --btf gives another one"),
        }
    }

    /// Writes that rows of so many bytes don't fill the section that begins at a place.
    fn write_ragged<W: fmt::Write>(
        &self,
        f: &mut fmt::Formatter<W>,
        table: Place,
        width: u64,
    ) -> fmt::Result {
        write!(f, "{}: rows of {width} bytes are wanted", self.place(table))?;
        match self.elf.sections.get(table.section as usize) {
            Some(section) => write!(f, ", and the section has {} bytes", section.size),
            None => Ok(()),
        }
    }

    fn write_table<W: fmt::Write>(
        &self,
        f: &mut fmt::Formatter<W>,
        fault: TableFault,
    ) -> fmt::Result {
        match fault {
            TableFault::Look(look) => self.write_look(f, look),
            TableFault::NoName(at) => {
                write!(f, "{}: a pointer to a name is wanted", self.place(at))
            }
            TableFault::NoFunction(at) => write!(
                f,
                "{}: a pointer to a function of the module is wanted",
                self.place(at)
            ),
            TableFault::NoRows(at) => write!(
                f,
                "{}: a pointer to a table of the module is wanted",
                self.place(at)
            ),
            TableFault::Layout { table, wanted } => self.write_layout(f, table, wanted),
            TableFault::NoPatch => f.write_str(
                "a struct klp_patch is wanted: no variable of its size begins with a pointer to the module, and there is no section .kpatch.funcs or .init.klp_objects",
            ),
            TableFault::SeveralPatches => f.write_str(
                "one struct klp_patch is wanted: several variables of its size begin with a pointer to the module",
            ),
            TableFault::Ragged { table, width } => self.write_ragged(f, table, width),
            TableFault::ExtraCallback(at) => write!(
                f,
                "{}: its object has a callback of this kind already",
                self.place(at)
            ),
            TableFault::TooManyCallbacks => {
                write!(f, "it has over {MAX_OBJECTS} callbacks of a kind")
            }
            TableFault::TooManyFunctions => write!(f, "it has over {MAX_FUNCTIONS} functions"),
            TableFault::TooManyObjects => write!(f, "it has over {MAX_OBJECTS} objects"),
            TableFault::TooManyStates => write!(f, "it has over {MAX_STATES} states"),
            TableFault::NoMemory => f.write_str("memory ran out"),
        }
    }
}

impl fmt::Display for ModuleFaultWords<'_, '_> {
    fn fmt<W: fmt::Write>(&self, f: &mut fmt::Formatter<W>) -> fmt::Result {
        match self.fault {
            ModuleFault::NoLivepatch => {
                f.write_str("it isn't a livepatch: livepatch=Y is wanted in its section .modinfo")
            }
            ModuleFault::NoName => f.write_str("its name is wanted in its section .modinfo: name="),
            ModuleFault::Table(fault) => self.write_table(f, fault),
        }
    }
}
