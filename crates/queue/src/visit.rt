ghost use Rattle.std.specs.Prelude.{Decides};
ghost use Rattle.queue.specs.Entries.{VisitNoLater};
ghost use Rattle.queue.specs.Plans.{Planned};

use crate::queue::Queue;
use stops::refusal::Refusal;

// A van's visit of a number: the earlier minute comes first, then the lower van, then the lower number.
#[derive(Clone, Copy, PartialEq, Eq, PartialOrd, Ord, Debug)]
pub struct PlannedVisit {
    pub minute: u16,
    pub van: u8,
    pub number: u16,
}

impl PlannedVisit {
    // Whether this visit is in order before the other, or the same. Not generic: it says which order was derived.
    pub fn no_later(&self, other: &PlannedVisit) -> bool
        ensures { Decides result (VisitNoLater self.now other.now) }
    {
        *self <= *other
    }
}

impl Queue<PlannedVisit> {
    // Takes all visits off and puts them at the front of the caller's list, as a plan lists them.
    #[tactic(auto, using(crate::proofs::Numbers::planned))]
    pub fn plan_into(&mut self, list: &mut [PlannedVisit]) -> Result<usize, Refusal>
        ensures { Planned self.old list.old result self.new list.new }
    {
        self.drain_into(list)
    }
}
