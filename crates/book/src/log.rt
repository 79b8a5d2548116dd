ghost use Rattle.std.specs.Prelude.{◌≤◌, vec_len, vec_capacity};

use calls::entry::Entry;

// The calls of a run with their answers, in memory whose room is given when it is reserved.
#[derive(Drop)]
pub struct Log {
    entries: Vec<Entry>,
    room: usize,
    ghost within: { vec_len entries ≤ room },
    ghost reserved: { room ≤ vec_capacity entries },
}

pub mod entries;
