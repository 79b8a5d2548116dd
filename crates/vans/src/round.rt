ghost use Rattle.std.specs.Prelude.{◌≤◌, vec_len, vec_capacity};
ghost use Rattle.stops.specs.Places.{depot};
ghost use Rattle.fleet.specs.Loads.{stops_of};
ghost use Rattle.vans.specs.Limits.{stop_limit};
ghost use Rattle.vans.specs.Rounds.{OnTime, total_units};

use crate::van::Van;
use stops::stop::Stop;

// A van and its round, which is lawful. There is memory for the longest round.
#[derive(Drop)]
pub struct Round {
    van: Van,
    visits: Vec<(u16, Stop)>,
    ghost short: { vec_len visits ≤ stop_limit },
    ghost light: { total_units (stops_of visits.items) ≤ van.limit },
    ghost timely: { ∥ OnTime van depot van.start (stops_of visits.items) ∥₁ },
    ghost room: { stop_limit ≤ vec_capacity visits },
}

mod edits;
mod insertion;
mod reads;
