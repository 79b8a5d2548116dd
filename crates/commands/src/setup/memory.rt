use crate::limits::{SLOT_LINES, VAN_LINES};
use crate::setup::entry::SlotEntry;
use stops::blank::Blank;
use vans::van::Van;

// The memory of a set-up sheet, reserved before one is read.
#[derive(Drop)]
pub struct Memory {
    pub(crate) slots: Blank<SlotEntry, SLOT_LINES>,
    pub(crate) vans: Blank<Van, VAN_LINES>,
}

pub mod reserves;
