ghost use Rattle.std.specs.Prelude.{◌≡◌, ◌<◌, false, vec_len, MatchOption, slice_index};
ghost use Rattle.stops.specs.Places.{depot};
ghost use Rattle.fleet.specs.Loads.{held, First};
ghost use Rattle.fleet.specs.Tallies.{tallied};
ghost use Rattle.vans.specs.Rounds.{total_units, begins};
ghost use Rattle.vans.specs.Fleets.{stops_in};

use crate::round::Round;
use fleet::load::{position, tally_of};
use fleet::tally::Tally;

impl Round {
    // The units on board.
    pub(crate) fn units(&self) -> u16
        ensures { result ≡ total_units (stops_in self.now) }
    {
        self.visits.iter().map(|(_, stop)| stop.units).sum()
    }

    // The position of a number.
    pub(crate) fn find(&self, number: u16) -> Option<usize>
        ensures { MatchOption result (held number self.now.visits.items ≡ false) (First number self.now.visits.items) }
    {
        position(self.visits.as_slice(), number)
    }

    // The begin of the stop at a position.
    pub(crate) fn begin(&self, position: usize) -> u16
        requires { position < vec_len self.now.visits }
        ensures { result ≡ slice_index (begins self.now.van depot self.now.van.start (stops_in self.now)) position }
    {
        let mut leave = self.van.departure();
        for (_, stop) in &self.visits[..position] {
            leave = self.van.after(&leave, stop);
        }
        self.van.begin(&leave, &self.visits[position].1)
    }

    // What the round holds in a slot.
    pub(crate) fn tally(&self, slot: u8) -> Tally
        ensures { result ≡ tallied (stops_in self.now) slot }
    {
        tally_of(self.visits.as_slice(), slot)
    }
}
