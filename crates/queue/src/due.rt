ghost use Rattle.std.specs.Prelude.{◌≡◌, Decides};
ghost use Rattle.queue.specs.Entries.{by_due, DueNoLater};
ghost use Rattle.queue.specs.Orders.{Heaped};
ghost use Rattle.queue.specs.Queues.{entries, front};
ghost use Rattle.queue.specs.Deadlines.{if_due, Left, FirstDue};

use crate::queue::Queue;

// A number that lapses at its deadline: the earlier deadline comes first, then the lower number.
#[derive(Clone, Copy, PartialEq, Eq, PartialOrd, Ord, Debug)]
pub struct Due {
    pub deadline: u32,
    pub number: u16,
}

impl Due {
    // Whether this entry is in order before the other, or the same. Not generic: it says which order was derived.
    pub fn no_later(&self, other: &Due) -> bool
        ensures { Decides result (DueNoLater self.now other.now) }
    {
        *self <= *other
    }
}

impl Queue<Due> {
    // Takes the first entry off if its deadline has come; where none has, this is one look.
    pub fn take_due(&mut self, clock: u32) -> Option<Due>
        ensures value { result ≡ if_due clock (front self.old) }
        ensures left { Left self.old result self.new }
        ensures first { Heaped by_due (entries self.old) → FirstDue clock (entries self.old) result }
    {
        let first = self.peek()?;
        if first.deadline > clock {
            return None;
        }
        self.take()
    }
}
