// The ranges of a van's figures and of a van fleet, each named once.

// The greatest load limit, in units.
pub const LOAD: u32 = 1000;

// The most vans of a fleet; they are numbered from 0.
pub const VANS: usize = 8;

// The most stops of a round.
pub const STOPS: usize = 24;

// The positions of the longest round and, behind them, the return to the depot.
pub const POSITIONS: usize = STOPS + 1;

// The minutes of service at a stop.
pub const SERVICE: u16 = 6;
