ghost use Rattle.std.specs.Prelude.{◌≡◌, ◌≤◌, length};
ghost use Rattle.stops.specs.Refusals.{coded};
ghost use Rattle.calls.specs.Limits.{number_limit};
ghost use Rattle.calls.specs.Records.{record_of};
ghost use Rattle.offers.specs.Additions.{number_answer};
ghost use Rattle.offers.specs.Tables.{rows};

use crate::offers::Offers;
use calls::limits::NUMBERS;
use calls::record::Record;
use stops::refusal::Refusal;

impl Offers {
    pub fn clock(&self) -> u32
        ensures { result ≡ self.now.clock }
    {
        self.clock
    }

    // How many numbers were given: they are 1 to this one.
    pub fn count(&self) -> usize
        ensures value { result ≡ length (rows self.now) }
        ensures few { result ≤ number_limit }
    {
        self.records.len()
    }

    // The record of a number, if it was given.
    pub fn record(&self, number: u32) -> Option<Record>
        ensures { result ≡ record_of (rows self.now) number }
    {
        let place = (number as usize).checked_sub(1)?;
        self.records.get(place).copied()
    }

    // The number that the next record gets.
    pub fn next_number(&self) -> Result<u16, Refusal>
        ensures { coded result ≡ number_answer (rows self.now) }
    {
        let given = self.count();
        if given >= NUMBERS {
            return Err(Refusal::NumbersExhausted);
        }
        Ok(given as u16 + 1)
    }
}
