// The ranges of the values, each named once.

// The least and the greatest x and y of a place, in grid cells from the depot.
pub const GRID_LEAST: i32 = -100;

pub const GRID_MOST: i32 = 99;

// The last minute of the delivery day, counted from 0.
pub const LAST_MINUTE: u32 = 1439;

// The most slots of a table; they are numbered from 0.
pub const SLOTS: usize = 12;

// The most units of a stop.
pub const UNITS: u32 = 200;
