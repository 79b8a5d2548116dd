ghost use Rattle.std.specs.Prelude.{◌≤◌};
ghost use Rattle.stops.specs.Limits.{last_minute};

use stops::place::Place;

// Where a van leaves, and the minute of the day when it does.
#[derive(Clone, Copy)]
pub struct Departure {
    pub from: Place,
    pub minute: u16,
    ghost day: { minute ≤ last_minute },
}

// Where a van drives next, and the minute by which it must be there.
#[derive(Clone, Copy)]
pub struct Arrival {
    pub to: Place,
    pub by: u16,
}
