use layers::share::Share;
use layers::weight::WeightLimit;
use stops::slot::Slot;

// What an S line says of a slot: its minutes, its places and its weight limit.
#[derive(Clone, Copy, PartialEq, Eq, Debug)]
pub struct SlotEntry {
    pub slot: Slot,
    pub share: Share,
    pub weight: WeightLimit,
}

pub mod reads;
