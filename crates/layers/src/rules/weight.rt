ghost use Rattle.layers.specs.OwnRules.{weight_rule};
ghost use Rattle.layers.specs.Tested.{limit_laws};

use crate::rules::byslot::{BySlot, SlotFigures};
use crate::weight::WeightLimit;
use fleet::layer::Layer;
use fleet::tally::Tally;

// The own rule of a weight: units are within the limit, in each slot.
pub type Weight = BySlot<WeightLimit>;

// A fleet under a weight.
pub type Weighed<F> = Layer<Weight, F>;

impl SlotFigures for WeightLimit {
    ghost rule = { weight_rule };

    ghost lawful = { limit_laws };

    fn allows(self, tally: Tally) -> bool {
        tally.units <= u32::from(self.count)
    }
}
