ghost use Rattle.std.specs.Prelude.{◌<◌, ◌≤◌};
ghost use Rattle.stops.specs.Limits.{last_minute};

// The opening and the closing minute of a slot.
#[derive(Clone, Copy, PartialEq, Eq, Debug)]
pub struct Slot {
    pub opens: u16,
    pub closes: u16,
    ghost apart: { opens < closes },
    ghost day: { closes ≤ last_minute },
}

pub mod makes;
