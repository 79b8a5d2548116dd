ghost use Rattle.std.specs.Prelude.{◌≡◌, ◌<◌, true, List, length};
ghost use Rattle.stops.specs.declared.stop.Stop.{Stop};
ghost use Rattle.fleet.specs.Layers.{Own, OwnLaws};
ghost use Rattle.fleet.specs.Loads.{stops_of};
ghost use Rattle.areas.specs.Limits.{stop_limit};

use stops::stop::Stop;

// The rule of a fleet that holds its load in a list, with its figures. It tests the list, where a layer's own rule tests a fleet.
pub trait Admission: Drop {
    // Which stops may be held together, and the test of one more.
    ghost own: { Own Self };

    // Whether the stops held keep the rule with this one too.
    fn admits(&self, held: &[(u16, Stop)], stop: &Stop) -> bool
        ensures { result ≡ own.admits self.now (stops_of held.now) stop.now };

    // Each rule proves the laws of an own rule,
    ghost lawful: { OwnLaws own };

    // and admits no stop for which no memory is reserved.
    ghost bounded: { (f : Self) (l : List Stop) (s : Stop) → own.admits f l s ≡ true → length l < stop_limit };
}
