use offers::offers::Offers;
use stops::table::SlotTable;

// A book over a fleet: the slot table that it was opened with, the numbers that it gave out, and the fleet that holds their stops.
#[derive(Drop)]
pub struct Book<F> {
    table: SlotTable,
    offers: Offers,
    fleet: F,
}

mod actions;
pub mod direct;
pub mod dispatch;
pub mod opens;
pub mod reads;
mod steps;
