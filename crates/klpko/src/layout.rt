//! The layout of the kernel's structs.
use crate::files::{File, tell_fault};
use klp_btf::layout_of;
use klp_module_answer::LayoutSource;
use klp_tables::Layout;
use std::io::Write;

/// Returns the layout that a file has, or the known one if none is given. Returns the exit status as `Err` if the file is
/// faulty.
pub(crate) fn layout_in<'f, E: Write>(
    file: Option<&'f File<'_>>,
    err: &mut E,
) -> Result<LayoutSource<'f>, u8> {
    let Some(file) = file else {
        return Ok(LayoutSource {
            layout: Layout::KNOWN,
            file: None,
        });
    };
    match layout_of(&file.bytes) {
        Ok(layout) => Ok(LayoutSource {
            layout,
            file: Some(file.path),
        }),
        Err(fault) => Err(tell_fault(file.path, fault, err)),
    }
}
