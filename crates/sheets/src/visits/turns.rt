ghost use Rattle.std.specs.Prelude.{◌≡◌, ◌<◌, [], ◌∷◌, length, IfOk};
ghost use mathlib.Core.List.{Perm};
ghost use Rattle.calls.specs.Limits.{number_limit};
ghost use Rattle.sheets.specs.Plans.{in_order, Ordered};
ghost use Rattle.sheets.specs.Queued.{queued};

use crate::visits::Visits;
use calls::limits::NUMBERS;
use queue::queue::Queue;
use queue::visit::PlannedVisit;
use std::alloc::{AllocError, Global};

impl Visits {
    // Memory for a visit of every number; it fails only where there is none.
    pub fn reserve(heap: Global) -> Result<Visits, AllocError>
        ensures { IfOk result (λ v. queued v ≡ []) }
    {
        let queue = Queue::reserve(heap, NUMBERS)?;
        let none = PlannedVisit {
            minute: 0,
            van: 0,
            number: 0,
        };
        let list = vec![in heap; none; NUMBERS]?;
        Ok(Visits { queue, list })
    }

    pub(crate) fn clear(&mut self)
        ensures { queued self.new ≡ [] }
    {
        self.queue.clear();
    }

    pub(crate) fn add(&mut self, visit: PlannedVisit)
        requires { length (queued self.old) < number_limit }
        ensures { Perm (visit ∷ queued self.old) (queued self.new) }
    {
        // there is room for every number, so this is never refused
        let _ = self.queue.add(visit);
    }

    // Takes all visits off the queue, in order.
    pub(crate) fn take_all(&mut self) -> &[PlannedVisit]
        ensures value { result.now ≡ in_order (queued self.old) }
        ensures order { Ordered (queued self.old) }
    {
        let count = self.queue.plan_into(&mut self.list).unwrap_or(0);
        &self.list[0..count]
    }
}
