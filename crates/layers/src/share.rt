ghost use Rattle.std.specs.Prelude.{◌≤◌};
ghost use Rattle.layers.specs.Limits.{place_limit};

// The places of a slot, and how many of them are kept for trade.
#[derive(Clone, Copy, PartialEq, Eq, Debug)]
pub struct Share {
    pub places: u16,
    pub kept: u16,
    ghost within: { kept ≤ places },
    ghost few: { places ≤ place_limit },
}

pub mod makes;
