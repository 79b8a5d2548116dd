ghost use Rattle.std.specs.Prelude.{◌≡◌, ◌<◌, ◌≤◌, [], vec_len};
ghost use Rattle.std.specs.List.{insert, remove};
ghost use Rattle.vans.specs.Rounds.{Lawful};
ghost use Rattle.vans.specs.Fleets.{stops_in};

use crate::limits::STOPS;
use crate::round::Round;
use crate::van::Van;
use stops::blank::Blank;
use stops::stop::Stop;

impl Round {
    // A van's empty round.
    pub(crate) fn new(van: Van, visits: Blank<(u16, Stop), STOPS>) -> Round
        ensures van { result.van ≡ van }
        ensures visits { result.visits.items ≡ [] }
    {
        Round {
            van,
            visits: visits.into_list(),
        }
    }

    // Puts a numbered stop at a position where the round stays lawful.
    pub(crate) fn insert(&mut self, position: usize, visit: (u16, Stop))
        requires within { position ≤ vec_len self.old.visits }
        requires lawful { Lawful self.old.van (insert (stops_in self.old) position visit.1) }
        ensures van { self.new.van ≡ self.old.van }
        ensures visits { self.new.visits.items ≡ insert self.old.visits.items position visit }
    {
        // there is memory, so this never fails
        let _ = self.visits.insert(position, visit);
    }

    // Takes out the stop at a position; the rest stays in order.
    pub(crate) fn remove(&mut self, position: usize)
        requires { position < vec_len self.old.visits }
        ensures van { self.new.van ≡ self.old.van }
        ensures visits { self.new.visits.items ≡ remove self.old.visits.items position }
    {
        self.visits.remove(position);
    }

    // Empties the round.
    pub(crate) fn clear(&mut self)
        ensures van { self.new.van ≡ self.old.van }
        ensures visits { self.new.visits.items ≡ [] }
    {
        self.visits.clear();
    }
}
