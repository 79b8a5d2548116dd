ghost use Rattle.std.specs.Prelude.{◌≤◌, vec_len};
ghost use Rattle.vans.specs.Limits.{van_limit};

use crate::round::Round;

// The vans of one day with their rounds, in their order.
#[derive(Drop)]
pub struct VanFleet {
    rounds: Vec<Round>,
    ghost few: { vec_len rounds ≤ van_limit },
}

pub mod calls;
pub mod makes;
mod searches;
