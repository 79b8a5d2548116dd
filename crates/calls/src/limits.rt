// The figures of a book, each named once.

// The most numbers that a book gives out.
pub const NUMBERS: usize = 512;

// The last booking minute, counted from 0.
pub const LAST_BOOKING_MINUTE: u32 = 100_000;

// How many minutes an offer is held.
pub const PRIVATE_HOLD: u32 = 10;

pub const TRADE_HOLD: u32 = 30;
