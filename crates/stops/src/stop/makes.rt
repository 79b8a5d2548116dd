ghost use Rattle.std.specs.Prelude.{◌≡◌};
ghost use Rattle.stops.specs.Refusals.{coded, unless};
ghost use Rattle.stops.specs.Stops.{stop_of};

use crate::class::Class;
use crate::limits::{SLOTS, UNITS};
use crate::place::Place;
use crate::refusal::Refusal;
use crate::slot::Slot;
use crate::stop::Stop;

impl Stop {
    // The stop in the slot of that number and those minutes, if number and units are in range.
    pub const fn new(
        slot: u32,
        hours: Slot,
        place: Place,
        units: u32,
        class: Class,
    ) -> Result<Stop, Refusal>
        ensures { coded result ≡ unless 17 (stop_of slot hours place units class) }
    {
        if slot >= SLOTS as u32 || units < 1 || units > UNITS {
            return Err(Refusal::OutOfRange);
        }
        // in range, and `try_from` is not const
        Ok(Stop {
            slot: slot as u8,
            hours,
            place,
            units: units as u16,
            class,
        })
    }
}
