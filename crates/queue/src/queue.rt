ghost use Rattle.std.specs.Prelude.{◌≤◌};
ghost use Rattle.std.specs.BinaryHeap.{heap_capacity, heap_len};

use std::cmp::Reverse;
use std::collections::BinaryHeap;

// A queue that gives its least entry first, in memory reserved for as many entries as its room.
#[derive(Drop)]
pub struct Queue<T: Ord> {
    heap: BinaryHeap<Reverse<T>>,
    room: usize,
    ghost within: { heap_len heap ≤ room },
    ghost reserved: { room ≤ heap_capacity heap },
}

pub mod calls;
