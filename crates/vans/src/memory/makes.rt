use crate::limits::VANS;
use crate::memory::Memory;
use std::alloc::{AllocError, Global};
use stops::blank::Blank;

impl Memory {
    // Memory for as many vans as a fleet can have; it fails only where there is none.
    pub fn reserve(heap: Global) -> Result<Memory, AllocError> {
        let rounds = Blank::reserve(heap)?;
        let mut visits = Vec::with_capacity(heap, VANS)?;
        // a step so many times, with no index
        for _ in 0..VANS {
            visits.push_reserved(Blank::reserve(heap)?);
        }
        Ok(Memory { rounds, visits })
    }
}
