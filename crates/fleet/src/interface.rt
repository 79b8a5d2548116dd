ghost use Rattle.std.specs.Prelude.{◌≡◌, ◌<◌, true};
ghost use Rattle.stops.specs.Limits.{last_slot};
ghost use Rattle.stops.specs.Refusals.{coded};
ghost use Rattle.fleet.specs.Loads.{held, stops_of};
ghost use Rattle.fleet.specs.Tallies.{tallied, nothing_held};
ghost use Rattle.fleet.specs.Meaning.{Meaning, place_answer, remove_answer, after};
ghost use Rattle.fleet.specs.Laws.{Laws};

use crate::tally::Tally;
use crate::visit::Visit;
use stops::refusal::Refusal;
use stops::stop::Stop;

// Whatever holds numbered stops under a rule. Its set-up, its standing and the arguments fix every answer and the next standing.
pub trait Fleet: Drop {
    // What fixes the rule; no call changes it.
    ghost Setup: { Type 0 };

    // What a fleet of this kind means at a moment.
    ghost Standing: { Type 0 };

    // What its calls answer and leave, and its rule.
    ghost meaning: { Meaning Setup Standing };

    // The set-up and the standing of a fleet.
    ghost setup: { Self → Setup };

    ghost standing: { Self → Standing };

    // Leaves nothing held.
    fn clear(&mut self)
        ensures setup { setup self.new ≡ setup self.old }
        ensures standing { standing self.new ≡ meaning.cleared (setup self.old) };

    // The depth of the objection to a stop; nothing, if it is admitted.
    fn check(&self, stop: &Stop) -> Option<u8>
        ensures { result ≡ meaning.objection (setup self.now) (standing self.now) stop.now };

    // Whether a number is held.
    fn holds(&self, number: u16) -> bool
        ensures { result ≡ held number (meaning.load (standing self.now)) };

    // Takes in a stop under a number. Refused with 19 if the number is held, else with 7 and the depth of the objection.
    fn place(&mut self, number: u16, stop: &Stop) -> Result<(), Refusal>
        ensures setup { setup self.new ≡ setup self.old }
        ensures answer { coded result ≡ place_answer meaning (setup self.old) (standing self.old) number stop.now }
        ensures standing { standing self.new ≡ after result (meaning.placed (setup self.old) (standing self.old) number stop.now) (standing self.old) };

    // Lets go of the stop under a number. Refused with 20 if the number is not held.
    fn remove(&mut self, number: u16) -> Result<(), Refusal>
        ensures setup { setup self.new ≡ setup self.old }
        ensures answer { coded result ≡ remove_answer meaning (standing self.old) number }
        ensures standing { standing self.new ≡ after result (meaning.removed (setup self.old) (standing self.old) number) (standing self.old) };

    // What is held in a slot; zeros for a slot above 11.
    fn tally(&self, slot: u8) -> Tally
        ensures counts { result ≡ tallied (stops_of (meaning.load (standing self.now))) slot }
        ensures above { last_slot < slot → result ≡ nothing_held };

    // Each kind of fleet proves the laws.
    ghost lawful: { Laws meaning };
}

// A fleet that also names van and minute for each number that is held, and nothing for others.
pub trait Routed: Fleet {
    // The visit of a number.
    fn visit(&self, number: u16) -> Option<Visit>
        ensures { result ≡ Self.Fleet.meaning.visit (Self.Fleet.setup self.now) (Self.Fleet.standing self.now) number };

    // So the laws of visits hold of it.
    ghost always: { Self.Fleet.meaning.routed ≡ true };
}
