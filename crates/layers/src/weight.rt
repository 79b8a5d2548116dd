use crate::limits::WEIGHT;
use stops::atmost::AtMost;

// The most units that a slot may hold.
pub type WeightLimit = AtMost<WEIGHT>;
