ghost use Rattle.std.specs.Prelude.{◌≡◌, ◌*◌, ◌≤◌, false, length, MatchOption};
ghost use Rattle.stops.specs.Limits.{unit_limit};
ghost use Rattle.fleet.specs.Loads.{held, stops_of, First};
ghost use Rattle.fleet.specs.Tallies.{tallied, shown};

use crate::tally::Tally;
use stops::stop::Stop;

// The position of the first stop under a number, if the number is held.
pub fn position(load: &[(u16, Stop)], number: u16) -> Option<usize>
    ensures { MatchOption result (held number load.now ≡ false) (First number load.now) }
{
    load.iter().position(|entry| entry.0 == number)
}

// The tally of a slot. No count of a load of up to 65,536 stops passes the greatest number.
pub fn tally_of(load: &[(u16, Stop)], slot: u8) -> Tally
    ensures value { result ≡ shown (tallied (stops_of load.now) slot) }
    ensures counts { length load.now ≤ 65536 → result ≡ tallied (stops_of load.now) slot }
    ensures few { (result.privates ≤ length load.now) × (result.trades ≤ length load.now) × (result.units ≤ unit_limit * length load.now) }
{
    let mut tally = Tally::none();
    for (_, stop) in load {
        tally = tally.saturating_add(Tally::one(slot, stop));
    }
    tally
}
