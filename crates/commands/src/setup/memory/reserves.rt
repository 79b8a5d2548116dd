use crate::setup::memory::Memory;
use std::alloc::{AllocError, Global};
use stops::blank::Blank;

impl Memory {
    // Memory for the longest sheet; it fails only where there is none.
    pub fn reserve(heap: Global) -> Result<Memory, AllocError> {
        Ok(Memory {
            slots: Blank::reserve(heap)?,
            vans: Blank::reserve(heap)?,
        })
    }
}
