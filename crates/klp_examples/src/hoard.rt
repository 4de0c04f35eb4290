//! Allocates all memory that the process can have. Until this memory is freed, each further allocation is refused.

use std::alloc::{AllocError, Global};
use std::ops::Range;

/// The largest block that is tried: half of all that a process can address.
const LARGEST: usize = 1 << 46;

/// The most blocks that a hoard can have. No block is larger than all memory of the machine, so there may be tens of
/// thousands of blocks.
const MOST: usize = 60_000;

/// How many bytes a siege leaves free. A manager needs less.
const SPARE: usize = 1 << 26;

/// The size of a block that is allocated and freed once. After the block is freed, an allocator keeps freed blocks of
/// up to this size, and returns parts of them for later allocations.
const KEPT: usize = 1 << 24;

/// Blocks of memory that nothing else can use.
#[derive(Drop)]
pub(crate) struct Hoard {
    blocks: Vec<Vec<u8>>,
}

impl Hoard {
    /// Returns a hoard without blocks, with room for `most` blocks.
    fn new(alloc: Global, most: usize) -> Result<Hoard, AllocError> {
        let blocks = Vec::with_capacity(alloc, most)?;
        Ok(Hoard { blocks })
    }

    /// Returns a hoard without blocks. It has room for as many blocks as a siege may leave.
    pub(crate) fn small(alloc: Global) -> Result<Hoard, AllocError> {
        Hoard::new(alloc, MOST / 4)
    }

    /// Allocates all memory except some 64 megabytes. So these 64 megabytes can be allocated and freed again and again.
    pub(crate) fn siege(alloc: Global) -> Result<Hoard, AllocError> {
        let mut hoard = Hoard::new(alloc, MOST)?;
        let spare: Result<Vec<u8>, AllocError> = Vec::with_capacity(alloc, SPARE);
        hoard.take_halves(alloc, LARGEST, SPARE.ilog2()..LARGEST.ilog2());
        drop(spare);
        let kept: Result<Vec<u8>, AllocError> = Vec::with_capacity(alloc, KEPT);
        drop(kept);
        Ok(hoard)
    }

    /// Allocates blocks of this size until a block is refused.
    fn take(&mut self, alloc: Global, size: usize) {
        for _ in self.blocks.len()..self.blocks.capacity() {
            match Vec::with_capacity(alloc, size) {
                Ok(block) => {
                    let _ = self.blocks.push(block);
                }
                Err(_) => return,
            }
        }
    }

    /// Allocates blocks of the size `largest` until a block is refused, then blocks of half that size, and so on. There
    /// is one size for each of `powers`.
    fn take_halves(&mut self, alloc: Global, largest: usize, powers: Range<u32>) {
        let mut size = largest;
        for _ in powers {
            self.take(alloc, size);
            size /= 2;
        }
    }

    /// Allocates all memory that there is. Large blocks are allocated first. At the end, blocks of each size are
    /// allocated that an allocator stores separately.
    pub(crate) fn take_all(&mut self, alloc: Global) {
        self.take_halves(alloc, SPARE, 0..SPARE.ilog2());
        for words in (1..=u8::MAX).rev() {
            self.take(alloc, 8 * usize::from(words));
        }
    }

    /// Whether all memory is allocated. It is if the smallest block is refused, and the hoard had room for more blocks.
    pub(crate) fn is_all(&self, alloc: Global) -> bool {
        self.blocks.len() < self.blocks.capacity() && Box::new(alloc, 0u8).is_err()
    }

    /// Allocates a few blocks of each size that an allocator stores separately.
    pub(crate) fn take_few(&mut self, alloc: Global) {
        for words in 1..=u8::MAX {
            for _ in 0..4 {
                if let Ok(block) = Vec::with_capacity(alloc, 8 * usize::from(words)) {
                    let _ = self.blocks.push(block);
                }
            }
        }
    }

    /// Frees all blocks.
    pub(crate) fn clear(&mut self) {
        self.blocks.clear();
    }
}
