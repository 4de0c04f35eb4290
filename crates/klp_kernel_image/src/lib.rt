//! A kernel's image, unpacked: its symbols, the functions that it can trace, and its release.
//!
//! [`KernelImage::read`] answers any bytes: with what the image has, or with a fault. An image has no symbol table. It has
//! the tables by which the kernel itself lists its symbols (kallsyms), in the order in which positions are counted, and the
//! list of its entry sites (`__start_mcount_loc`). These tables are found by their shape: the tokens of which names are made
//! by those of the ten digits, the names by their number and by the place of each 256th one, and the addresses by the banner,
//! `linux_banner`, at whose address `Linux version` has to stand. So a kernel with another form of these tables is refused,
//! and not misread.
//!
//! A name is spelled by its tokens (`specs/Names`), [`KernelImage::rows`] returns the symbols as a kernel lists them, and
//! [`KernelImage::traceable`] the functions with an entry site (`specs/Rows`). That the tables are found is only tested.
#![tactic(auto)]

mod addresses;
mod fault;
mod image;
mod loaded;
mod names;
mod number;
mod packed;
mod rows;
mod sites;
mod spelling;
mod tokens;

pub use fault::ImageFault;
pub use image::{ImageSymbol, KernelImage, MAX_IMAGE};
