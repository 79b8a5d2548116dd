ghost use Rattle.std.specs.Prelude.{List, refl};
ghost use Rattle.fleet.specs.Loads.{Load};
ghost use Rattle.vans.specs.declared.van.Van.{Van};
ghost use Rattle.vans.specs.Fleets.{vans_of, rounds_of};
ghost use Rattle.vans.specs.Meaning.{van_meaning};
ghost use Rattle.vans.specs.VanLaws.{van_laws};

use crate::vanfleet::VanFleet;
use fleet::interface::{Fleet, Routed};
use fleet::tally::Tally;
use fleet::visit::Visit;
use stops::refusal::Refusal;
use stops::stop::Stop;

// A stop goes to the cheapest lawful position of all rounds; where there is none, the objection has depth 0.
impl Fleet for VanFleet {
    ghost Setup = { List Van };

    ghost Standing = { List Load };

    ghost meaning = { van_meaning };

    ghost setup = { λ f. vans_of f };

    ghost standing = { λ f. rounds_of f };

    ghost lawful = { van_laws };

    fn clear(&mut self) {
        for round in self.rounds.iter_mut() {
            round.clear();
        }
    }

    fn check(&self, stop: &Stop) -> Option<u8> {
        self.cheapest(stop).is_none().then_some(0)
    }

    fn holds(&self, number: u16) -> bool {
        self.find(number).is_some()
    }

    fn place(&mut self, number: u16, stop: &Stop) -> Result<(), Refusal> {
        if self.holds(number) {
            return Err(Refusal::NumberHeld);
        }
        let best = self.cheapest(stop).ok_or(Refusal::NoRoom(0))?;
        self.rounds[best.at.van].insert(best.at.position, (number, *stop));
        Ok(())
    }

    fn remove(&mut self, number: u16) -> Result<(), Refusal> {
        let found = self.find(number).ok_or(Refusal::NumberNotHeld)?;
        self.rounds[found.van].remove(found.position);
        Ok(())
    }

    fn tally(&self, slot: u8) -> Tally {
        let mut sum = Tally::none();
        for round in &self.rounds {
            sum = sum.saturating_add(round.tally(slot));
        }
        sum
    }
}

// The minute of a visit is the begin at that stop.
impl Routed for VanFleet {
    ghost always = { refl };

    fn visit(&self, number: u16) -> Option<Visit> {
        let found = self.find(number)?;
        Some(Visit {
            van: found.van as u8,
            minute: self.rounds[found.van].begin(found.position),
        })
    }
}
