ghost use Rattle.std.specs.Prelude.{◌≡◌, ◌+◌, min};
ghost use Rattle.fleet.specs.Tallies.{count_limit, nothing_held, one_private, one_trade, slot_units};

use stops::class::Class;
use stops::stop::Stop;

// What is held in one slot.
#[derive(Clone, Copy, PartialEq, Eq, Debug)]
pub struct Tally {
    pub privates: u32,
    pub trades: u32,
    pub units: u32,
}

impl Tally {
    // The tally of no stops.
    pub const fn none() -> Tally
        ensures { result ≡ nothing_held }
    {
        Tally {
            privates: 0,
            trades: 0,
            units: 0,
        }
    }

    // What one stop adds to the tally of a slot.
    pub const fn one(slot: u8, stop: &Stop) -> Tally
        ensures privates { result.privates ≡ one_private slot stop.now }
        ensures trades { result.trades ≡ one_trade slot stop.now }
        ensures units { result.units ≡ slot_units slot stop.now }
    {
        if stop.slot != slot {
            return Tally::none();
        }
        let (privates, trades) = match stop.class {
            Class::Private => (1, 0),
            Class::Trade => (0, 1),
        };
        Tally {
            privates,
            trades,
            units: stop.units as u32,
        }
    }

    // The counts of two tallies together; one that does not fit stays at the greatest number.
    pub const fn saturating_add(self, more: Tally) -> Tally
        ensures privates { result.privates ≡ min (self.privates + more.privates) count_limit }
        ensures trades { result.trades ≡ min (self.trades + more.trades) count_limit }
        ensures units { result.units ≡ min (self.units + more.units) count_limit }
    {
        Tally {
            privates: self.privates.saturating_add(more.privates),
            trades: self.trades.saturating_add(more.trades),
            units: self.units.saturating_add(more.units),
        }
    }
}
