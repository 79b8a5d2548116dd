ghost use Rattle.std.specs.Prelude.{◌≡◌};
ghost use Rattle.std.specs.List.{slice_get};
ghost use Rattle.stops.specs.Refusals.{coded, unless};
ghost use Rattle.stops.specs.Slots.{table_of, slots_of};

use crate::limits::SLOTS;
use crate::refusal::Refusal;
use crate::slot::Slot;
use crate::table::SlotTable;

impl SlotTable {
    // The table of these slots, if there are 1 to 12.
    pub fn new(slots: Vec<Slot>) -> Result<SlotTable, Refusal>
        ensures { coded result ≡ unless 17 (table_of slots) }
    {
        let count = slots.len();
        if count < 1 || count > SLOTS {
            return Err(Refusal::OutOfRange);
        }
        Ok(SlotTable { slots })
    }

    // The slots in order.
    pub fn slots(&self) -> &[Slot]
        ensures { result.now ≡ slots_of self.now }
    {
        self.slots.as_slice()
    }

    // The slot of a number, if it is in the table.
    pub fn slot(&self, number: u32) -> Option<Slot>
        ensures { result ≡ slice_get (slots_of self.now) number }
    {
        self.slots.get(number as usize).copied()
    }
}
