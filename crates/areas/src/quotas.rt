ghost use Rattle.std.specs.Prelude.{◌≡◌, length};
ghost use Rattle.areas.specs.Limits.{area_limit};

use crate::areaquotas::AreaQuotas;
use crate::holding::Holding;
use crate::limits::AREAS;

// The rule of an area fleet: each area and slot has at most its quota of stops, and the load at most 256.
#[derive(Drop)]
pub struct Quotas {
    areas: [AreaQuotas; AREAS],
    ghost whole: { length areas ≡ area_limit },
}

// A fleet without vans, that counts stops in areas.
pub type AreaFleet = Holding<Quotas>;

pub mod admits;
pub mod makes;
