use crate::limits::STOPS;
use stops::blank::Blank;
use stops::stop::Stop;

// Memory for a whole load, reserved before a fleet is made.
pub type Memory = Blank<(u16, Stop), STOPS>;
