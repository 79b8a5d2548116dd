ghost use Rattle.vans.specs.Fleets.{Made};
ghost use Rattle.vans.specs.Theorem.{VanTheorem};
ghost use Rattle.vans.specs.Examples.{Examples};

use crate::limits::VANS;
use crate::memory::Memory;
use crate::round::Round;
use crate::van::Van;
use crate::vanfleet::VanFleet;
use stops::refusal::Refusal;

impl VanFleet {
    // The fleet of these vans with nothing held, if they are not too many. A refusal frees the memory.
    #[tactic(auto, using(crate::proofs::Theorems::van_theorem, crate::proofs::Theorems::examples))]
    pub fn new(memory: Memory, vans: &[Van]) -> Result<VanFleet, Refusal>
        ensures made { Made vans.now result }
        ensures theorem { VanTheorem }
        ensures examples { Examples }
    {
        if vans.len() > VANS {
            return Err(Refusal::OutOfRange);
        }
        let mut rounds = memory.rounds.into_list();
        for (van, visits) in vans.iter().zip(memory.visits) {
            rounds.push_reserved(Round::new(*van, visits));
        }
        Ok(VanFleet { rounds })
    }
}
