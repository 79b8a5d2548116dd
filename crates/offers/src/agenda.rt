ghost use Rattle.std.specs.Prelude.{◌≡◌};
ghost use Rattle.queue.specs.Entries.{by_due};
ghost use Rattle.queue.specs.Orders.{Heaped};
ghost use Rattle.queue.specs.Queues.{entries};
ghost use Rattle.calls.specs.Limits.{number_limit};

use queue::due::Due;
use queue::queue::Queue;

// The due entries of a book: the first in order is in front, and there is room for every number.
#[derive(Drop)]
pub(crate) struct Agenda {
    due: Queue<Due>,
    ghost heaped: { Heaped by_due (entries due) },
    ghost sized: { due.room ≡ number_limit },
}

pub(crate) mod turns;
