ghost use Rattle.std.specs.Prelude.{◌≡◌, ◌≤◌};
ghost use Rattle.stops.specs.Refusals.{coded, unless};
ghost use Rattle.stops.specs.Places.{depot, distance, place_of, Metric};

use crate::limits::{GRID_LEAST, GRID_MOST};
use crate::place::Place;
use crate::refusal::Refusal;

impl Place {
    // The place at x and y, if both are on the grid.
    pub const fn new(x: i32, y: i32) -> Result<Place, Refusal>
        ensures { coded result ≡ unless 17 (place_of x y) }
    {
        if x < GRID_LEAST || x > GRID_MOST || y < GRID_LEAST || y > GRID_MOST {
            return Err(Refusal::OutOfRange);
        }
        // in range, and `try_from` is not const
        Ok(Place {
            x: x as i8,
            y: y as i8,
        })
    }

    // Where the vans start and end.
    pub const fn depot() -> Place
        ensures { result ≡ depot }
    {
        Place { x: 0, y: 0 }
    }

    // The grid cells between two places, along x and along y.
    pub const fn distance(&self, to: &Place) -> u16
        ensures value { result ≡ distance self.now to.now }
        ensures metric { Metric self.now to.now result }
    {
        self.x.abs_diff(to.x) as u16 + self.y.abs_diff(to.y) as u16
    }
}
