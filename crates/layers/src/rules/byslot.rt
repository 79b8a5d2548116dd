ghost use Rattle.std.specs.Prelude.{◌≡◌, nat_le};
ghost use Rattle.fleet.specs.Slotwise.{slotwise};
ghost use Rattle.layers.specs.SlotRules.{SlotRule, SlotLaws};
ghost use Rattle.layers.specs.BySlots.{by_slot};
ghost use Rattle.layers.specs.Tested.{by_slot_laws};

use fleet::interface::Fleet;
use fleet::rule::OwnRule;
use fleet::tally::Tally;
use stops::limits::SLOTS;
use stops::stop::Stop;

// The figures of one slot, and what they allow to be held there.
pub trait SlotFigures: Copy {
    // How much of the slot a tally uses up, and how much there is.
    ghost rule: { SlotRule Self };

    // Whether the slot has room for what a tally shows.
    fn allows(self, tally: Tally) -> bool
        ensures { result ≡ nat_le (rule.used self tally) (rule.room self) };

    // Each kind of figures proves the laws.
    ghost lawful: { SlotLaws rule };
}

// An own rule that is kept in each slot, by the slot's figures.
#[derive(Drop)]
pub struct BySlot<T> {
    figures: [T; SLOTS],
}

impl<T: SlotFigures> BySlot<T> {
    // The rule with these figures, those of slot 0 first.
    pub const fn new(figures: [T; SLOTS]) -> BySlot<T>
        ensures { result.figures ≡ figures }
    {
        BySlot { figures }
    }
}

impl<T: SlotFigures> OwnRule for BySlot<T> {
    ghost own = { slotwise (by_slot T.SlotFigures.rule) };

    ghost lawful = { by_slot_laws T.SlotFigures.rule T.SlotFigures.lawful };

    fn admits<F: Fleet>(&self, below: &F, stop: &Stop) -> bool {
        let held = below.tally(stop.slot);
        // an unknown fleet's counts may fill 32 bits; a sum that stays at the greatest number is past every figure
        let tally = held.saturating_add(Tally::one(stop.slot, stop));
        self.figures[usize::from(stop.slot)].allows(tally)
    }
}
