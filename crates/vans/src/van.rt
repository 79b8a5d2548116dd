ghost use Rattle.std.specs.Prelude.{◌≤◌};
ghost use Rattle.stops.specs.Limits.{last_minute};
ghost use Rattle.vans.specs.Limits.{load_limit};

// A van: the most units that it takes, the minute at which it leaves the depot and the one by which it is back.
#[derive(Clone, Copy, PartialEq, Eq, Debug)]
pub struct Van {
    pub limit: u16,
    pub start: u16,
    pub end: u16,
    ghost some: { 1 ≤ limit },
    ghost most: { limit ≤ load_limit },
    ghost ordered: { start ≤ end },
    ghost day: { end ≤ last_minute },
}

pub mod makes;
mod minutes;
