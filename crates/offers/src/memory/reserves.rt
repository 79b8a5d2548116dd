use crate::agenda::Agenda;
use crate::memory::Memory;
use std::alloc::{AllocError, Global};
use stops::blank::Blank;

impl Memory {
    // Memory for every number; it fails only where there is none.
    pub fn reserve(heap: Global) -> Result<Memory, AllocError> {
        let records = Blank::reserve(heap)?;
        let agenda = Agenda::reserve(heap)?;
        Ok(Memory { records, agenda })
    }
}
