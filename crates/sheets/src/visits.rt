ghost use Rattle.std.specs.Prelude.{◌≡◌, vec_len};
ghost use Rattle.queue.specs.Entries.{by_visit};
ghost use Rattle.queue.specs.Orders.{Heaped};
ghost use Rattle.queue.specs.Queues.{entries};
ghost use Rattle.calls.specs.Limits.{number_limit};

use queue::queue::Queue;
use queue::visit::PlannedVisit;

// Memory for a plan: a queue of visits, and the list into which they are taken off.
#[derive(Drop)]
pub struct Visits {
    queue: Queue<PlannedVisit>,
    list: Vec<PlannedVisit>,
    ghost heaped: { Heaped by_visit (entries queue) },
    ghost sized: { queue.room ≡ number_limit },
    ghost long: { vec_len list ≡ number_limit },
}

pub mod turns;
