ghost use Rattle.std.specs.Prelude.{◌≤◌};

// A count of at most so many.
#[derive(Clone, Copy, PartialEq, Eq, Debug)]
pub struct AtMost<const MOST: u16> {
    pub count: u16,
    ghost few: { count ≤ MOST },
}

pub mod makes;
