ghost use Rattle.std.specs.Prelude.{◌≡◌};
ghost use Rattle.fleet.specs.Loads.{stops_of};
ghost use Rattle.fleet.specs.Layers.{Own, OwnLaws};

use crate::interface::Fleet;
use stops::stop::Stop;

// The own rule of a layer, with its figures.
pub trait OwnRule: Drop {
    // Which stops may be held together, and the test of one more.
    ghost own: { Own Self };

    // Whether the load below keeps the own rule with this stop too.
    fn admits<F: Fleet>(&self, below: &F, stop: &Stop) -> bool
        ensures { result ≡ own.admits self.now (stops_of (F.Fleet.meaning.load (F.Fleet.standing below.now))) stop.now };

    // Each own rule proves its laws.
    ghost lawful: { OwnLaws own };
}
