ghost use Rattle.std.specs.Prelude.{◌≡◌};
ghost use Rattle.stops.specs.Refusals.{coded, unless};
ghost use Rattle.layers.specs.Figures.{share_of};

use crate::limits::PLACES;
use crate::share::Share;
use stops::refusal::Refusal;

impl Share {
    // The share of a slot with so many places, if no more are kept than there are.
    pub const fn new(places: u32, kept: u32) -> Result<Share, Refusal>
        ensures { coded result ≡ unless 17 (share_of places kept) }
    {
        if kept > places || places > PLACES {
            return Err(Refusal::OutOfRange);
        }
        // in range, and `try_from` is not const
        Ok(Share {
            places: places as u16,
            kept: kept as u16,
        })
    }
}
