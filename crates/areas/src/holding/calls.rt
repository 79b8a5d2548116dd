ghost use Rattle.std.specs.Prelude.{◌≡◌, ◌<◌, true, vec_len};
ghost use Rattle.fleet.specs.Loads.{Load, stops_of};
ghost use Rattle.areas.specs.HeldLoads.{load_holding};
ghost use Rattle.areas.specs.Limits.{stop_limit};
ghost use Rattle.areas.specs.Held.{holding_laws};

use crate::admission::Admission;
use crate::holding::Holding;
use fleet::interface::Fleet;
use fleet::load::{position, tally_of};
use fleet::tally::Tally;
use stops::refusal::Refusal;
use stops::stop::Stop;

impl<Q: Admission> Holding<Q> {
    // Whether the rule admits a stop; if so, there is memory for it.
    fn admits(&self, stop: &Stop) -> bool
        ensures answer { result ≡ Q.Admission.own.admits self.now.rule (stops_of self.now.held.items) stop.now }
        ensures room { result ≡ true → vec_len self.now.held < stop_limit }
    {
        self.rule.admits(self.held.as_slice(), stop)
    }
}

impl<Q: Admission> Fleet for Holding<Q> {
    ghost Setup = { Q };

    ghost Standing = { Load };

    ghost meaning = { load_holding Q.Admission.own };

    ghost setup = { λ s. s.rule };

    ghost standing = { λ s. s.held.items };

    ghost lawful = { holding_laws Q.Admission.own Q.Admission.lawful };

    fn clear(&mut self) {
        self.held.clear();
    }

    fn check(&self, stop: &Stop) -> Option<u8> {
        (!self.admits(stop)).then_some(0)
    }

    fn holds(&self, number: u16) -> bool {
        position(self.held.as_slice(), number).is_some()
    }

    fn place(&mut self, number: u16, stop: &Stop) -> Result<(), Refusal> {
        if self.holds(number) {
            return Err(Refusal::NumberHeld);
        }
        if !self.admits(stop) {
            return Err(Refusal::NoRoom(0));
        }
        self.held.push_reserved((number, *stop));
        Ok(())
    }

    fn remove(&mut self, number: u16) -> Result<(), Refusal> {
        let place = position(self.held.as_slice(), number).ok_or(Refusal::NumberNotHeld)?;
        self.held.remove(place);
        Ok(())
    }

    #[tactic(auto, using(fleet::proofs::Counts::tally_above))]
    fn tally(&self, slot: u8) -> Tally {
        tally_of(self.held.as_slice(), slot)
    }
}
