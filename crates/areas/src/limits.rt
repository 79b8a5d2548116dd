// The limits of the area fleet, each named once.

// The most stops of a load.
pub const STOPS: usize = 256;

// The areas, numbered from 0.
pub const AREAS: usize = 16;

// How many areas lie side by side.
pub const ROW: u8 = 4;

// How many cells an area is wide and high.
pub const SIDE: u8 = 50;

// The most stops of a quota.
pub const QUOTA: u16 = 40;
