ghost use Rattle.layers.specs.OwnRules.{share_rule};
ghost use Rattle.layers.specs.Tested.{share_laws};

use crate::rules::byslot::{BySlot, SlotFigures};
use crate::share::Share;
use fleet::layer::Layer;
use fleet::tally::Tally;

// The own rule of a reserve: private stops and the greater of kept and trade stops are within the places, in each slot.
pub type Reserve = BySlot<Share>;

// A fleet under a reserve.
pub type Reserved<F> = Layer<Reserve, F>;

impl SlotFigures for Share {
    ghost rule = { share_rule };

    ghost lawful = { share_laws };

    fn allows(self, tally: Tally) -> bool {
        let taken = tally.trades.max(u32::from(self.kept));
        tally.privates.saturating_add(taken) <= u32::from(self.places)
    }
}
