ghost use Rattle.std.specs.Prelude.{◌≡◌};
ghost use Rattle.stops.specs.Refusals.{coded};
ghost use Rattle.fleet.specs.Meaning.{place_answer};
ghost use Rattle.checks.specs.Trials.{Trial, two_layers, two_setups};

use fleet::interface::Fleet;
use layers::rules::reserve::Reserved;
use layers::rules::weight::Weighed;
use stops::refusal::Refusal;
use stops::stop::Stop;

// Places a stop and takes it out again, on any fleet that its calls led to: afterwards the same stops are held as before.
pub fn try_out<F: Fleet>(fleet: &mut F, number: u16, stop: &Stop) -> Result<(), Refusal>
    ensures answer { coded result ≡ place_answer F.Fleet.meaning (F.Fleet.setup fleet.old) (F.Fleet.standing fleet.old) number stop.now }
    ensures setup { F.Fleet.setup fleet.new ≡ F.Fleet.setup fleet.old }
    ensures trial { Trial F.Fleet.meaning (F.Fleet.setup fleet.old) (F.Fleet.standing fleet.old) number stop.now result (F.Fleet.setup fleet.new) (F.Fleet.standing fleet.new) }
{
    fleet.place(number, stop)?;
    let _ = fleet.remove(number);
    Ok(())
}

// The same through two layers over any fleet.
pub fn try_layered<F: Fleet>(
    pile: &mut Reserved<Weighed<F>>,
    number: u16,
    stop: &Stop,
) -> Result<(), Refusal>
    ensures answer { coded result ≡ place_answer (two_layers F.Fleet.meaning) (two_setups F.Fleet.setup pile.old) (F.Fleet.standing pile.old.below.below) number stop.now }
    ensures setup { two_setups F.Fleet.setup pile.new ≡ two_setups F.Fleet.setup pile.old }
    ensures trial { Trial (two_layers F.Fleet.meaning) (two_setups F.Fleet.setup pile.old) (F.Fleet.standing pile.old.below.below) number stop.now result (two_setups F.Fleet.setup pile.new) (F.Fleet.standing pile.new.below.below) }
{
    try_out(pile, number, stop)
}
