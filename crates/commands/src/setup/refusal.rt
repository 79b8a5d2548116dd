use stops::refusal::Refusal;

// Why a set-up was refused, and at which line, counted from 1; 0 for the length of the input.
#[derive(Clone, Copy, PartialEq, Eq, Debug)]
pub struct SetupRefusal {
    pub refusal: Refusal,
    pub line: u32,
}
