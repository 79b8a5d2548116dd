use crate::workspace::Workspace;
use commands::setup::memory::Memory;
use std::alloc::{AllocError, Global};
use text::buffer::Buffer;

// Enough bytes for any output.
pub const OUTPUT_BYTES: usize = 5_000_000;

impl Workspace {
    // Memory for any input; it fails only where there is none.
    pub fn reserve(heap: Global) -> Result<Workspace, AllocError> {
        Ok(Workspace {
            setup: Memory::reserve(heap)?,
            text: Buffer::reserve(heap, OUTPUT_BYTES)?,
        })
    }
}
