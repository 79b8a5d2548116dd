ghost use Rattle.std.specs.Prelude.{◌≡◌, ◌≤◌, vec_len, vec_capacity};

// Memory for a list of so many items, with nothing in it.
#[derive(Drop)]
pub struct Blank<T, const ROOM: usize> {
    items: Vec<T>,
    ghost empty: { vec_len items ≡ 0 },
    ghost room: { ROOM ≤ vec_capacity items },
}

pub mod memory;
