ghost use Rattle.stops.specs.Slots.{slots_of};
ghost use Rattle.book.specs.Requests.{Wanted};

use calls::call::Request;
use stops::limits::UNITS;
use stops::place::Place;
use stops::refusal::Refusal;
use stops::stop::Stop;
use stops::table::SlotTable;

// The stop that a request asks for.
pub(crate) fn stop_for(table: &SlotTable, request: Request) -> Result<Stop, Refusal>
    ensures { Wanted (slots_of table.now) request result }
{
    let place = Place::new(request.x, request.y).map_err(|_| Refusal::OffTheGrid)?;
    if request.units < 1 || request.units > UNITS {
        return Err(Refusal::UnitsOutOfRange);
    }
    let hours = table.slot(request.slot).ok_or(Refusal::UnknownSlot)?;
    // slot and units are in range, so this is never refused
    Stop::new(request.slot, hours, place, request.units, request.class)
}
