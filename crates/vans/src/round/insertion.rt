ghost use Rattle.std.specs.Prelude.{◌≡◌, ℕ, ◌+◌, ◌<◌, ◌≤◌, drop, vec_len, Decides, slice_index};
ghost use Rattle.vans.specs.Limits.{stop_limit};
ghost use Rattle.vans.specs.Rounds.{total_units};
ghost use Rattle.vans.specs.Insertions.{latest, Best};
ghost use Rattle.vans.specs.Fleets.{stops_in};

use crate::choice::Insertion;
use crate::leg::Arrival;
use crate::limits::STOPS;
use crate::round::Round;
use stops::stop::Stop;

impl Round {
    // Whether the round has room for one more stop by its length and its units.
    fn has_room(&self, stop: &Stop) -> bool
        ensures { Decides result ((vec_len self.now.visits < stop_limit) × (total_units (stops_in self.now) + stop.now.units ≤ self.now.van.limit)) }
    {
        self.visits.len() < STOPS && self.units() + stop.units <= self.van.limit
    }

    // The backward pass: for each stop the latest begin that leaves the rest on time.
    fn latest_begins(&self) -> [u16; STOPS]
        ensures { (k : ℕ) → k < vec_len self.now.visits → slice_index result k ≡ latest self.now.van (drop k (stops_in self.now)) }
    {
        let mut next = self.van.arrival();
        let mut latest = [0; STOPS];
        for (i, (_, stop)) in self.visits.iter().enumerate().rev() {
            next = self.van.before(stop, &next);
            latest[i] = next.by;
        }
        latest
    }

    // The cheapest lawful position for a stop. The forward pass tests each in constant time.
    pub(crate) fn cheapest(&self, stop: &Stop) -> Option<Insertion<usize>>
        ensures { Best self.now.van (stops_in self.now) stop.now result }
    {
        if !self.has_room(stop) {
            return None;
        }
        let latest = self.latest_begins();
        let mut leave = self.van.departure();
        let mut best = None;
        for (i, visit) in self.visits.iter().enumerate() {
            let next = Arrival {
                to: visit.1.place,
                by: latest[i],
            };
            // this comes first, so that the drive to the next stop is computed once
            let left = self.van.after(&leave, &visit.1);
            best = Insertion::better(best, self.van.insertion(i, &leave, stop, &next));
            leave = left;
        }
        let end = self.visits.len();
        Insertion::better(
            best,
            self.van.insertion(end, &leave, stop, &self.van.arrival()),
        )
    }
}
