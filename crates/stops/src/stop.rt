ghost use Rattle.std.specs.Prelude.{◌≤◌};
ghost use Rattle.stops.specs.Limits.{last_slot, unit_limit};

use crate::class::Class;
use crate::place::Place;
use crate::slot::Slot;

// A delivery stop. Its ranges are part of the type: no value outside them exists.
#[derive(Clone, Copy, PartialEq, Eq, Debug)]
pub struct Stop {
    pub slot: u8,
    pub hours: Slot,
    pub place: Place,
    pub units: u16,
    pub class: Class,
    ghost known: { slot ≤ last_slot },
    ghost some: { 1 ≤ units },
    ghost few: { units ≤ unit_limit },
}

pub mod makes;
