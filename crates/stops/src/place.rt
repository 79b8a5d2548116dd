ghost use Rattle.std.specs.Prelude.{◌≤ℤ◌};
ghost use Rattle.stops.specs.Limits.{grid_least, grid_most};

// A place on the grid, in cells from the depot.
#[derive(Clone, Copy, PartialEq, Eq, Debug)]
pub struct Place {
    pub x: i8,
    pub y: i8,
    ghost west: { grid_least ≤ℤ x },
    ghost east: { x ≤ℤ grid_most },
    ghost south: { grid_least ≤ℤ y },
    ghost north: { y ≤ℤ grid_most },
}

pub mod grid;
