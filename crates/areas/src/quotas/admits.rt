ghost use Rattle.std.specs.Prelude.{◌≡◌, ◌≤◌, length, nat_lt};
ghost use Rattle.stops.specs.Limits.{last_slot};
ghost use Rattle.fleet.specs.Loads.{stops_of};
ghost use Rattle.areas.specs.Limits.{last_area, stop_limit};
ghost use Rattle.areas.specs.Quotas.{quota_at, inside, count, quotas};
ghost use Rattle.areas.specs.Counted.{quotas_laws, quotas_bounded};

use crate::admission::Admission;
use crate::area::area_of;
use crate::limits::STOPS;
use crate::quotas::Quotas;
use stops::stop::Stop;

impl Quotas {
    // The quota of an area and a slot.
    fn quota(&self, area: u8, slot: u8) -> usize
        requires { (area ≤ last_area) × (slot ≤ last_slot) }
        ensures { result ≡ quota_at self.now area slot }
    {
        let quotas = self.areas[usize::from(area)];
        usize::from(quotas.slots[usize::from(slot)].count)
    }
}

// Whether a load has fewer stops than it may have.
const fn has_room(load: &[(u16, Stop)]) -> bool
    ensures { result ≡ nat_lt (length (stops_of load.now)) stop_limit }
{
    load.len() < STOPS
}

// Whether a stop is in this area and slot.
const fn is_inside(stop: &Stop, area: u8, slot: u8) -> bool
    ensures { result ≡ inside area slot stop.now }
{
    area_of(&stop.place) == area && stop.slot == slot
}

// How many stops are in an area and a slot.
fn count_inside(load: &[(u16, Stop)], area: u8, slot: u8) -> usize
    ensures { result ≡ count area slot (stops_of load.now) }
{
    load.iter()
        .filter(|entry| is_inside(&entry.1, area, slot))
        .count()
}

impl Admission for Quotas {
    ghost own = { quotas };

    ghost lawful = { quotas_laws };

    ghost bounded = { quotas_bounded };

    fn admits(&self, held: &[(u16, Stop)], stop: &Stop) -> bool {
        let area = area_of(&stop.place);
        has_room(held) && count_inside(held, area, stop.slot) < self.quota(area, stop.slot)
    }
}
