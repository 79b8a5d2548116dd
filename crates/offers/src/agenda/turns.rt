ghost use Rattle.std.specs.Prelude.{◌≡◌, ◌<◌, [], ◌∷◌, length, IfOk};
ghost use mathlib.Core.List.{Perm};
ghost use Rattle.queue.specs.Deadlines.{if_due, FirstDue};
ghost use Rattle.offers.specs.Agendas.{awaited, next, Skipped};
ghost use Rattle.calls.specs.Limits.{number_limit};

use crate::agenda::Agenda;
use calls::limits::NUMBERS;
use queue::due::Due;
use queue::queue::Queue;
use std::alloc::{AllocError, Global};

impl Agenda {
    // An empty agenda; it fails only where there is no memory.
    pub(crate) fn reserve(heap: Global) -> Result<Agenda, AllocError>
        ensures { IfOk result (λ a. awaited a ≡ []) }
    {
        let due = Queue::reserve(heap, NUMBERS)?;
        Ok(Agenda { due })
    }

    // The first entry, if its deadline has come. It stays.
    pub(crate) fn first_due(&self, minute: u32) -> Option<Due>
        ensures value { result ≡ if_due minute (next self.now) }
        ensures first { FirstDue minute (awaited self.now) result }
    {
        self.due
            .peek()
            .copied()
            .filter(|first| first.deadline <= minute)
    }

    // Takes the first entry off.
    pub(crate) fn skip_first(&mut self)
        ensures { Skipped (awaited self.old) (next self.old) (awaited self.new) }
    {
        let _ = self.due.take();
    }

    // Adds an entry.
    pub(crate) fn add(&mut self, entry: Due)
        requires { length (awaited self.old) < number_limit }
        ensures { Perm (entry ∷ awaited self.old) (awaited self.new) }
    {
        // There is room, so this is never refused.
        let _ = self.due.add(entry);
    }

    // Takes all entries off.
    pub(crate) fn clear(&mut self)
        ensures { awaited self.new ≡ [] }
    {
        self.due.clear();
    }
}
