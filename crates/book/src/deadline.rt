ghost use Rattle.std.specs.Prelude.{◌≡◌, ◌<◌, ◌≤◌};
ghost use Rattle.calls.specs.Deadlines.{hold, deadline};
ghost use Rattle.calls.specs.Limits.{last_booking_minute};

use calls::limits::{PRIVATE_HOLD, TRADE_HOLD};
use stops::class::Class;
use stops::table::SlotTable;

// How many minutes an offer is held.
const fn hold_for(class: Class) -> u32
    ensures value { result ≡ hold class }
    ensures some { (0 < result) × (result ≤ last_booking_minute) }
{
    match class {
        Class::Private => PRIVATE_HOLD,
        Class::Trade => TRADE_HOLD,
    }
}

// The deadline of an offer that is made at a minute, in a book with this slot table.
#[tactic(auto, unfolding(calls::specs::Deadlines::deadline_from))]
pub(crate) fn deadline_of(table: &SlotTable, minute: u32, class: Class) -> u32
    requires { minute ≤ last_booking_minute }
    ensures value { result ≡ deadline table.now minute class }
    ensures later { minute < result }
{
    minute + hold_for(class)
}
