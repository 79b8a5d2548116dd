ghost use Rattle.std.specs.Prelude.{◌≤◌, vec_len};
ghost use Rattle.commands.specs.Limits.{slot_lines, van_lines};

use crate::setup::entry::SlotEntry;
use vans::van::Van;

// A set-up sheet: the slots with their figures and the vans, both numbered from 0.
#[derive(Drop)]
pub struct Setup {
    slots: Vec<SlotEntry>,
    vans: Vec<Van>,
    ghost slotted: { 1 ≤ vec_len slots },
    ghost fewslots: { vec_len slots ≤ slot_lines },
    ghost manned: { 1 ≤ vec_len vans },
    ghost fewvans: { vec_len vans ≤ van_lines },
}

pub mod reads;
