ghost use Rattle.std.specs.Prelude.{◌≡◌};
ghost use Rattle.stops.specs.Refusals.{coded, unless};
ghost use Rattle.vans.specs.Vans.{van_of};

use crate::limits::LOAD;
use crate::van::Van;
use stops::limits::LAST_MINUTE;
use stops::refusal::Refusal;

impl Van {
    // The van with that load limit and those minutes, if all are in range and in order.
    pub const fn new(limit: u32, start: u32, end: u32) -> Result<Van, Refusal>
        ensures { coded result ≡ unless 17 (van_of limit start end) }
    {
        if limit < 1 || limit > LOAD || start > end || end > LAST_MINUTE {
            return Err(Refusal::OutOfRange);
        }
        // in range, and `try_from` is not const
        Ok(Van {
            limit: limit as u16,
            start: start as u16,
            end: end as u16,
        })
    }
}
