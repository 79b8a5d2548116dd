ghost use Rattle.std.specs.Prelude.{◌≡◌, ◌≤◌, length};
ghost use Rattle.calls.specs.Limits.{number_limit};
ghost use Rattle.calls.specs.Records.{record_of};
ghost use Rattle.offers.specs.Tables.{rows};

use crate::book::Book;
use calls::record::Record;
use stops::table::SlotTable;

// What a book shows; nothing here lets it be changed.
impl<F> Book<F> {
    pub fn clock(&self) -> u32
        ensures { result ≡ self.now.offers.clock }
    {
        self.offers.clock()
    }

    // The slot table that it was opened with.
    pub fn table(&self) -> &SlotTable
        ensures { result.now ≡ self.now.table }
    {
        &self.table
    }

    // How many numbers were given: they are 1 to this one.
    pub fn count(&self) -> usize
        ensures value { result ≡ length (rows self.now.offers) }
        ensures few { result ≤ number_limit }
    {
        self.offers.count()
    }

    // The record of a number, if it was given.
    pub fn record(&self, number: u32) -> Option<Record>
        ensures { result ≡ record_of (rows self.now.offers) number }
    {
        self.offers.record(number)
    }

    pub fn fleet(&self) -> &F
        ensures { result.now ≡ self.now.fleet }
    {
        &self.fleet
    }
}
