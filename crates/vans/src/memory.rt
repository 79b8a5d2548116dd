ghost use Rattle.std.specs.Prelude.{◌≤◌, vec_len};
ghost use Rattle.vans.specs.Limits.{van_limit};

use crate::limits::{STOPS, VANS};
use crate::round::Round;
use stops::blank::Blank;
use stops::stop::Stop;

// Memory for a fleet of any vans: for the list of rounds and for the visits of each.
#[derive(Drop)]
pub struct Memory {
    pub(crate) rounds: Blank<Round, VANS>,
    pub(crate) visits: Vec<Blank<(u16, Stop), STOPS>>,
    ghost enough: { van_limit ≤ vec_len visits },
}

pub mod makes;
