use crate::limits::QUOTA;
use stops::atmost::AtMost;

// The most stops of an area in one slot.
pub type Quota = AtMost<QUOTA>;
