ghost use Rattle.std.specs.Prelude.{◌≡◌};
ghost use Rattle.stops.specs.Counts.{at_most};
ghost use Rattle.stops.specs.Refusals.{coded, unless};

use crate::atmost::AtMost;
use crate::refusal::Refusal;

impl<const MOST: u16> AtMost<MOST> {
    // The count, if it is within the limit.
    pub const fn new(count: u32) -> Result<AtMost<MOST>, Refusal>
        ensures { coded result ≡ unless 17 (at_most MOST count) }
    {
        if count > MOST as u32 {
            return Err(Refusal::OutOfRange);
        }
        // in range, and `try_from` is not const
        Ok(AtMost {
            count: count as u16,
        })
    }
}
