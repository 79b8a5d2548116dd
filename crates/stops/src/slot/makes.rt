ghost use Rattle.std.specs.Prelude.{◌≡◌};
ghost use Rattle.stops.specs.Refusals.{coded, unless};
ghost use Rattle.stops.specs.Slots.{slot_of};

use crate::limits::LAST_MINUTE;
use crate::refusal::Refusal;
use crate::slot::Slot;

impl Slot {
    // The slot from one minute to a later one of the same day.
    pub const fn new(opens: u32, closes: u32) -> Result<Slot, Refusal>
        ensures { coded result ≡ unless 17 (slot_of opens closes) }
    {
        if opens >= closes || closes > LAST_MINUTE {
            return Err(Refusal::OutOfRange);
        }
        // in range, and `try_from` is not const
        Ok(Slot {
            opens: opens as u16,
            closes: closes as u16,
        })
    }
}
