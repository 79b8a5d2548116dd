ghost use Rattle.std.specs.Prelude.{◌≡◌};

use crate::areaquotas::AreaQuotas;
use crate::limits::AREAS;
use crate::quotas::Quotas;

impl Quotas {
    // The quotas of these areas, those of area 0 first.
    pub const fn new(areas: [AreaQuotas; AREAS]) -> Quotas
        ensures { result.areas ≡ areas }
    {
        Quotas { areas }
    }
}
