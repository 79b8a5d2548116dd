ghost use Rattle.std.specs.Prelude.{◌≤◌, vec_len, vec_capacity};
ghost use Rattle.areas.specs.Limits.{stop_limit};

use stops::stop::Stop;

// A fleet that holds its load in a list, under an admission rule. All its memory was reserved before: a map would ask for more at each place.
#[derive(Drop)]
pub struct Holding<Q> {
    rule: Q,
    held: Vec<(u16, Stop)>,
    ghost few: { vec_len held ≤ stop_limit },
    ghost room: { stop_limit ≤ vec_capacity held },
}

pub mod calls;
pub mod makes;
