ghost use Rattle.std.specs.Prelude.{◌≡◌, false, MatchOption};
ghost use Rattle.fleet.specs.Loads.{held};
ghost use Rattle.vans.specs.Rule.{load_of};
ghost use Rattle.vans.specs.Cheapest.{Cheapest};
ghost use Rattle.vans.specs.Chosen.{chosen};
ghost use Rattle.vans.specs.Fleets.{vans_of, rounds_of};
ghost use Rattle.vans.specs.Locations.{HeldAt};

use crate::choice::{Insertion, Location};
use crate::vanfleet::VanFleet;
use stops::stop::Stop;

impl VanFleet {
    // The cheapest lawful position for a stop over all vans.
    pub(crate) fn cheapest(&self, stop: &Stop) -> Option<Insertion<Location>>
        ensures value { result ≡ chosen (vans_of self.now) (rounds_of self.now) stop.now }
        ensures cheapest { Cheapest (vans_of self.now) (rounds_of self.now) stop.now result }
    {
        let mut best = None;
        for (van, round) in self.rounds.iter().enumerate() {
            best = Insertion::better(best, round.cheapest(stop).map(|found| found.of_van(van)));
        }
        best
    }

    // Where a number is held.
    pub(crate) fn find(&self, number: u16) -> Option<Location>
        ensures { MatchOption result (held number (load_of (rounds_of self.now)) ≡ false) (HeldAt number (vans_of self.now) (rounds_of self.now)) }
    {
        for (van, round) in self.rounds.iter().enumerate() {
            if let Some(position) = round.find(number) {
                return Some(Location { van, position });
            }
        }
        None
    }
}
