//! The text of the kernel and its modules: the bytes of every function, and the entry sites, where calls of the handler
//! are written and removed.
//!
//! A hook needs five bytes of a function: the first five, or the five after an ENDBR64. While no patch changes the
//! function, these bytes are a NOP. Otherwise they are a call of the handler (livepatch, Hooks). The image and its
//! numbers are this project's own model (`specs/TextImage`).
//!
//! [`Image::new`] returns an image or a fault. The fault is the first in a fixed order (`specs/Faults`), or `NoMemory`.
//! The model of a new image is the given objects, with object 0 loaded and no site hooked. `hook` and `unhook` change
//! only the flag of one site. `load` and `unload` change only the flag of one object. `is_loaded` is false if there is
//! no such object. `bytes` always returns what the definition says: a body as it was built, except that its entry site
//! has the NOP or the call. `address`, `objects`, `symbols`, `object_name` and `symbol` return facts about the given
//! objects, loaded or not. Only `new` takes memory.
#![tactic(auto)]

mod check;
mod entry_site;
mod fault;
mod image;
mod stored;

pub use check::{end_of, share_address};
pub use entry_site::{can_reach, displacement, entry_bytes, entry_offset};
pub use fault::ImageFault;
pub use image::Image;
