//! The entry sites of an image: the calls at which functions are traced and patched.
use crate::fault::ImageFault;
use crate::loaded::Loaded;
use crate::number::{part, u64_at};
use std::alloc::Global;

/// From this address on, and before that one.
#[derive(Clone, Copy)]
pub(crate) struct Span {
    pub(crate) start: u64,
    pub(crate) stop: u64,
}

impl Span {
    fn has(self, address: u64) -> bool {
        self.start <= address && address < self.stop
    }
}

/// Returns the list of entry sites, which is at these addresses.
fn list_at<'a>(image: &Loaded<'a>, list: Span) -> Option<&'a [u8]> {
    let size = list.stop.checked_sub(list.start)?;
    part(image.from_address(list.start)?, 0, size as usize)
}

/// Returns the entry sites of an image, sorted. Those of functions for its boot are left out, whose memory is given back, and
/// so are those that the linker has dropped, which are 0.
pub(crate) fn sites_in(
    alloc: Global,
    image: &Loaded<'_>,
    list: Span,
    for_boot: Span,
) -> Result<Vec<u64>, ImageFault> {
    let Some(bytes) = list_at(image, list) else {
        let Span { start, stop } = list;
        return Err(ImageFault::SitesOutside { start, stop });
    };
    let mut sites = Vec::new(alloc);
    for number in 0..bytes.len() / 8 {
        if let Some(site) = u64_at(bytes, number.saturating_mul(8))
            && site != 0
            && !for_boot.has(site)
        {
            sites.push(site)?;
        }
    }
    sites.sort_unstable();
    Ok(sites)
}
