ghost use Rattle.std.specs.Prelude.{◌≡◌, ◌≤◌, [], IfOk, vec_len, vec_capacity};

use crate::blank::Blank;
use std::alloc::{AllocError, Global};

impl<T, const ROOM: usize> Blank<T, ROOM> {
    // Memory for ROOM items; it fails only where there is none.
    pub fn reserve(heap: Global) -> Result<Blank<T, ROOM>, AllocError>
        ensures { IfOk result (λ b. b.items.items ≡ []) }
    {
        let items = Vec::with_capacity(heap, ROOM)?;
        Ok(Blank { items })
    }

    // The memory itself, as an empty list.
    pub fn into_list(self) -> Vec<T>
        ensures items { result.items ≡ [] }
        ensures len { vec_len result ≡ 0 }
        ensures room { ROOM ≤ vec_capacity result }
    {
        self.items
    }
}
