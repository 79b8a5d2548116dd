ghost use Rattle.std.specs.Prelude.{◌≡◌, length};
ghost use Rattle.stops.specs.Limits.{slot_limit};

use crate::quota::Quota;
use stops::limits::SLOTS;

// The quotas of one area, slot by slot. A type of its own, since the checker has no rule for arrays of arrays of such values.
#[derive(Clone, Copy)]
pub struct AreaQuotas {
    pub(crate) slots: [Quota; SLOTS],
    ghost whole: { length slots ≡ slot_limit },
}

pub mod makes;
