ghost use Rattle.std.specs.Prelude.{◌≡◌, ◌<◌, ◌≤◌, length, IfSome};
ghost use Rattle.std.specs.Option.{option_map};
ghost use Rattle.queue.specs.Queues.{entries, front, Added, Drained, Empty, OneMore, Reserved, Taken};
ghost use Rattle.queue.specs.Orders.{FirstOf};

use crate::queue::Queue;
use std::alloc::{AllocError, Global};
use std::cmp::Reverse;
use std::collections::BinaryHeap;
use stops::refusal::Refusal;

impl<T: Ord> Queue<T> {
    // An empty queue with memory for as many entries as its room.
    pub fn reserve(heap: Global, room: usize) -> Result<Queue<T>, AllocError>
        ensures { Reserved T.cmp room result }
    {
        let heap = BinaryHeap::with_capacity(heap, room)?;
        Ok(Queue { heap, room })
    }

    // How many entries it holds.
    pub fn len(&self) -> usize
        ensures count { result ≡ length (entries self.now) }
        ensures bound { result ≤ self.now.room }
    {
        self.heap.len()
    }

    // Adds an entry, or nothing if the queue is full.
    pub fn add(&mut self, entry: T) -> Result<(), Refusal>
    where
        T: Drop,
        ensures { Added T.cmp entry self.old result self.new }
    {
        if self.len() >= self.room {
            return Err(Refusal::TooShort);
        }
        self.push(entry);
        Ok(())
    }

    // The least entry, which stays.
    pub fn peek(&self) -> Option<&T>
        ensures value { option_map (λ x. x.now) result ≡ front self.now }
        ensures least { IfSome result (λ x. FirstOf T.cmp x.now (entries self.now)) }
    {
        self.heap.peek().map(|entry| &entry.0)
    }

    // Takes the least entry off.
    pub fn take(&mut self) -> Option<T>
        ensures value { result ≡ front self.old }
        ensures left { Taken T.cmp self.old result self.new }
    {
        self.heap.pop().map(|entry| entry.0)
    }

    // Takes all entries off, in order, and puts them at the front of the caller's list.
    pub fn drain_into(&mut self, list: &mut [T]) -> Result<usize, Refusal>
    where
        T: Drop,
        ensures { Drained T.cmp self.old list.old result self.new list.new }
    {
        let count = self.len();
        if list.len() < count {
            return Err(Refusal::TooShort);
        }
        // There are as many places as entries.
        for place in &mut list[..count] {
            if let Some(entry) = self.take() {
                *place = entry;
            }
        }
        Ok(count)
    }

    // Takes all entries off.
    pub fn clear(&mut self)
    where
        T: Drop,
        ensures { Empty T.cmp self.old.room self.new }
    {
        self.heap.clear();
    }

    // There is memory for one more entry, so the heap never refuses it.
    fn push(&mut self, entry: T)
    where
        T: Drop,
        requires { length (entries self.old) < self.old.room }
        ensures { OneMore T.cmp entry self.old self.new }
    {
        let _ = self.heap.push(Reverse(entry));
    }
}
