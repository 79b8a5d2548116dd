ghost use Rattle.std.specs.Prelude.{◌≡◌, []};
ghost use Rattle.stops.specs.Slots.{slots_of};
ghost use Rattle.calls.specs.Theorem.{Theorem};
ghost use Rattle.calls.specs.Views.{opened};
ghost use Rattle.book.specs.Books.{view};

use crate::book::Book;
use fleet::interface::Fleet;
use fleet::layer::makes::cleared;
use offers::memory::Memory;
use offers::offers::Offers;
use stops::table::SlotTable;

impl<F: Fleet> Book<F> {
    // A book with no number, at minute 0, over a fleet that is cleared.
    pub fn open(memory: Memory, table: SlotTable, fleet: F) -> Book<F>
        ensures view { view F.Fleet result ≡ opened F.Fleet.meaning (slots_of table) (F.Fleet.setup fleet) }
        ensures table { result.table ≡ table }
        ensures theorem { Theorem F.Fleet.meaning (slots_of table) (F.Fleet.setup fleet) [] (view F.Fleet result) }
    {
        Book {
            table,
            offers: Offers::new(memory),
            fleet: cleared(fleet),
        }
    }
}
