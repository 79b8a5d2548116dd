ghost use Rattle.std.specs.Prelude.{◌≡◌};
ghost use Rattle.fleet.specs.Layers.{LayerTheorem};

use crate::interface::Fleet;
use crate::layer::Layer;
use crate::rule::OwnRule;

// The fleet with nothing held.
pub fn cleared<F: Fleet>(mut fleet: F) -> F
    ensures setup { F.Fleet.setup result ≡ F.Fleet.setup fleet }
    ensures standing { F.Fleet.standing result ≡ F.Fleet.meaning.cleared (F.Fleet.setup fleet) }
{
    fleet.clear();
    fleet
}

impl<R: OwnRule, F: Fleet> Layer<R, F> {
    // A layer over a fleet, which is cleared. Its figures were checked when its own rule was made.
    pub fn new(own: R, below: F) -> Layer<R, F>
        ensures own { result.own ≡ own }
        ensures setup { F.Fleet.setup result.below ≡ F.Fleet.setup below }
        ensures standing { F.Fleet.standing result.below ≡ F.Fleet.meaning.cleared (F.Fleet.setup below) }
        ensures theorem { LayerTheorem R.OwnRule.own F.Fleet.meaning }
    {
        Layer {
            own,
            below: cleared(below),
        }
    }
}
