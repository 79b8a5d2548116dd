ghost use Rattle.std.specs.Prelude.{◌≡◌, []};
ghost use Rattle.areas.specs.HeldLoads.{HoldingTheorem};

use crate::admission::Admission;
use crate::holding::Holding;
use crate::memory::Memory;

impl<Q: Admission> Holding<Q> {
    // A fleet under this rule, with nothing held.
    pub fn new(memory: Memory, rule: Q) -> Holding<Q>
        ensures rule { result.rule ≡ rule }
        ensures held { result.held.items ≡ [] }
        ensures theorem { HoldingTheorem Q.Admission.own }
    {
        Holding {
            rule,
            held: memory.into_list(),
        }
    }
}
