ghost use Rattle.std.specs.Prelude.{◌≡◌};

use crate::areaquotas::AreaQuotas;
use crate::quota::Quota;
use stops::limits::SLOTS;

impl AreaQuotas {
    // The quotas of these slots, that of slot 0 first.
    pub const fn new(slots: [Quota; SLOTS]) -> AreaQuotas
        ensures { result.slots ≡ slots }
    {
        AreaQuotas { slots }
    }
}
