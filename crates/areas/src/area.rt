ghost use Rattle.std.specs.Prelude.{◌≡◌, ◌≤◌};
ghost use Rattle.areas.specs.Areas.{area};
ghost use Rattle.areas.specs.Limits.{last_area};

use crate::limits::{ROW, SIDE};
use stops::limits::GRID_LEAST;
use stops::place::Place;

// The area of a place, counted along x and then along y from the corner where both are least.
#[tactic(auto, using(crate::proofs::Cells::area_bound), unfolding(crate::specs::Areas::area))]
pub const fn area_of(place: &Place) -> u8
    ensures value { result ≡ area place.now }
    ensures bound { result ≤ last_area }
{
    let edge = GRID_LEAST as i8;
    place.y.abs_diff(edge) / SIDE * ROW + place.x.abs_diff(edge) / SIDE
}
