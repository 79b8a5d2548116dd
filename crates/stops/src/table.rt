ghost use Rattle.std.specs.Prelude.{◌≤◌, vec_len};
ghost use Rattle.stops.specs.Limits.{slot_limit};

use crate::slot::Slot;

// The slots of a day, numbered from 0.
#[derive(Drop)]
pub struct SlotTable {
    slots: Vec<Slot>,
    ghost some: { 1 ≤ vec_len slots },
    ghost few: { vec_len slots ≤ slot_limit },
}

pub mod reads;
