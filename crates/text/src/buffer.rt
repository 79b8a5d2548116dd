ghost use Rattle.std.specs.Prelude.{◌≤◌, vec_len, vec_capacity};

// A text that grows in memory reserved for it, up to its room.
#[derive(Drop)]
pub struct Buffer {
    bytes: Vec<u8>,
    room: usize,
    ghost within: { vec_len bytes ≤ room },
    ghost reserved: { room ≤ vec_capacity bytes },
}

pub mod writes;
