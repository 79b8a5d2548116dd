// The ranges of the layers' figures, each named once.

// The most places of a slot.
pub const PLACES: u32 = 256;

// The most units of a slot's weight limit.
pub const WEIGHT: u16 = 9999;
