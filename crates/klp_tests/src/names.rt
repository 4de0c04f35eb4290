//! The numbers of faults and refusals, and the names that faults print. No example has most of them.
use klp_catalog::AssembleFault;
use klp_catalog_text::TextFaultKind;
use klp_core::BootFault;
use klp_model::Refusal;
use klp_modules::SymbolFault;
use klp_text::ImageFault;
use std::alloc::Global;
use std::fmt;
use std::fmt::{Display, Write};

const TEXT: [TextFaultKind; 15] = [
    TextFaultKind::NotAscii,
    TextFaultKind::LineTooLong,
    TextFaultKind::UnknownWord,
    TextFaultKind::WrongCount,
    TextFaultKind::BadNumber,
    TextFaultKind::BadHex,
    TextFaultKind::BadName,
    TextFaultKind::BadSymbol,
    TextFaultKind::BadEdit,
    TextFaultKind::OutOfPlace,
    TextFaultKind::Twice,
    TextFaultKind::UnknownObject,
    TextFaultKind::TooMany,
    TextFaultKind::Missing,
    TextFaultKind::NoMemory,
];

const IMAGE: [ImageFault; 7] = [
    ImageFault::Overlap,
    ImageFault::ShortSymbol,
    ImageFault::Displacement,
    ImageFault::DuplicateObject,
    ImageFault::TooMany,
    ImageFault::NoMemory,
    ImageFault::NoKernel,
];

const SYMBOL: [SymbolFault; 3] = [
    SymbolFault::Missing,
    SymbolFault::Ambiguous,
    SymbolFault::NoPosition,
];

const ASSEMBLE: [AssembleFault; 3] = [
    AssembleFault::WrongCallbacks,
    AssembleFault::SameSite,
    AssembleFault::NoMemory,
];

const NAMES: &str =
    " NotAscii LineTooLong UnknownWord WrongCount BadNumber BadHex BadName BadSymbol \
BadEdit OutOfPlace Twice UnknownObject TooMany Missing NoMemory \
Overlap ShortSymbol Displacement DuplicateObject TooMany NoMemory NoKernel \
Missing Ambiguous NoPosition WrongCallbacks SameSite NoMemory";

/// Writes a space and the name of each of these faults.
fn put<T: Display>(out: &mut String, faults: &[T]) -> Result<(), fmt::Error> {
    for fault in faults {
        write!(out, " {fault}")?;
    }
    Ok(())
}

fn put_all(out: &mut String) -> Result<(), fmt::Error> {
    put(out, &TEXT)?;
    put(out, &IMAGE)?;
    put(out, &SYMBOL)?;
    put(out, &ASSEMBLE)
}

fn is_printed(alloc: Global) -> bool {
    let mut out = String::new(alloc);
    put_all(&mut out).is_ok() && out.as_str() == NAMES
}

/// The numbers of faults and refusals. The numbers of each type count from 1.
const NUMBERS: [&[u8]; 6] = [
    &[
        TextFaultKind::NotAscii as u8,
        TextFaultKind::LineTooLong as u8,
        TextFaultKind::UnknownWord as u8,
        TextFaultKind::WrongCount as u8,
        TextFaultKind::BadNumber as u8,
        TextFaultKind::BadHex as u8,
        TextFaultKind::BadName as u8,
        TextFaultKind::BadSymbol as u8,
        TextFaultKind::BadEdit as u8,
        TextFaultKind::OutOfPlace as u8,
        TextFaultKind::Twice as u8,
        TextFaultKind::UnknownObject as u8,
        TextFaultKind::TooMany as u8,
        TextFaultKind::Missing as u8,
        TextFaultKind::NoMemory as u8,
    ],
    &[
        ImageFault::Overlap as u8,
        ImageFault::ShortSymbol as u8,
        ImageFault::Displacement as u8,
        ImageFault::DuplicateObject as u8,
        ImageFault::TooMany as u8,
        ImageFault::NoMemory as u8,
        ImageFault::NoKernel as u8,
    ],
    &[
        SymbolFault::Missing as u8,
        SymbolFault::Ambiguous as u8,
        SymbolFault::NoPosition as u8,
    ],
    &[
        AssembleFault::WrongCallbacks as u8,
        AssembleFault::SameSite as u8,
        AssembleFault::NoMemory as u8,
    ],
    &[BootFault::Mismatch as u8, BootFault::NoMemory as u8],
    &[
        Refusal::NoPatch as u8,
        Refusal::Busy as u8,
        Refusal::AlreadyThere as u8,
        Refusal::Pinned as u8,
        Refusal::Incompatible as u8,
        Refusal::NoSymbol as u8,
        Refusal::NoModule as u8,
        Refusal::InUse as u8,
        Refusal::NoTask as u8,
        Refusal::TaskThere as u8,
        Refusal::WrongMode as u8,
        Refusal::BadFrame as u8,
        Refusal::Full as u8,
        Refusal::JournalFull as u8,
        Refusal::NotMoving as u8,
        Refusal::Exists as u8,
        Refusal::NotFound as u8,
        Refusal::SameValue as u8,
    ],
];

fn are_numbered() -> bool {
    let mut right = true;
    for numbers in NUMBERS {
        for (before, number) in numbers.iter().enumerate() {
            right = right && usize::from(*number) == before.saturating_add(1);
        }
    }
    right
}

#[test]
fn faults_and_refusals_keep_their_names_and_numbers(rt: HostRuntime) {
    let printed = is_printed(rt.alloc());
    let numbered = are_numbered();
    assert!(rt; printed && numbered);
}
