ghost use Rattle.std.specs.Prelude.{◌≡◌};
ghost use Rattle.fleet.specs.Layers.{layered, up};
ghost use Rattle.fleet.specs.Layering.{layered_laws};

use crate::interface::{Fleet, Routed};
use crate::layer::Layer;
use crate::rule::OwnRule;
use crate::tally::Tally;
use crate::visit::Visit;
use stops::refusal::Refusal;
use stops::stop::Stop;

// A depth from below: greater by one, but 255 unchanged.
const fn one_up(depth: u8) -> u8
    ensures { result ≡ up depth }
{
    depth.saturating_add(1)
}

impl<R: OwnRule, F: Fleet> Fleet for Layer<R, F> {
    ghost Setup = { R × F.Fleet.Setup };

    ghost Standing = { F.Fleet.Standing };

    ghost meaning = { layered R.OwnRule.own F.Fleet.meaning };

    ghost setup = { λ s. (s.own, F.Fleet.setup s.below) };

    ghost standing = { λ s. F.Fleet.standing s.below };

    ghost lawful = { layered_laws R.OwnRule.own F.Fleet.meaning R.OwnRule.lawful F.Fleet.lawful };

    fn clear(&mut self) {
        self.below.clear();
    }

    fn check(&self, stop: &Stop) -> Option<u8> {
        if !self.own.admits(&self.below, stop) {
            return Some(0);
        }
        self.below.check(stop).map(one_up)
    }

    fn holds(&self, number: u16) -> bool {
        self.below.holds(number)
    }

    fn place(&mut self, number: u16, stop: &Stop) -> Result<(), Refusal> {
        if self.own.admits(&self.below, stop) {
            // map_err would hold the same match in a closure
            return match self.below.place(number, stop) {
                Err(Refusal::NoRoom(depth)) => Err(Refusal::NoRoom(one_up(depth))),
                answer => answer,
            };
        }
        // a held number is refused first; above, the fleet below looks for it
        if self.holds(number) {
            Err(Refusal::NumberHeld)
        } else {
            Err(Refusal::NoRoom(0))
        }
    }

    fn remove(&mut self, number: u16) -> Result<(), Refusal> {
        self.below.remove(number)
    }

    fn tally(&self, slot: u8) -> Tally {
        self.below.tally(slot)
    }
}

// On a routed fleet a layer is routed, with the visits from below.
impl<R: OwnRule, F: Routed> Routed for Layer<R, F> {
    ghost always = { F.Routed.always };

    fn visit(&self, number: u16) -> Option<Visit> {
        self.below.visit(number)
    }
}
