// The limits of lines, each named once.
use stops::limits::SLOTS;
use vans::limits::VANS;

// The most bytes of a line, not counting byte 10.
pub const LINE_BYTES: usize = 80;

// The most S lines and V lines of a set-up.
pub const SLOT_LINES: usize = SLOTS;

pub const VAN_LINES: usize = VANS;

// The fields of an S line and of a V line.
pub const SLOT_FIELDS: usize = 6;

pub const VAN_FIELDS: usize = 4;
