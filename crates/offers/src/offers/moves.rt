ghost use Rattle.std.specs.Prelude.{◌≡◌, []};
ghost use Rattle.stops.specs.Refusals.{coded};
ghost use Rattle.offers.specs.Laws.{LapseLaws, Lapsing};
ghost use Rattle.calls.specs.Records.{state_of};
ghost use Rattle.offers.specs.Additions.{overdue, add_answer, added_to};
ghost use Rattle.offers.specs.Changes.{asked, numbered, put};
ghost use Rattle.offers.specs.Tables.{rows};

use crate::change::{Change, state_after};
use crate::memory::Memory;
use crate::offers::Offers;
use calls::record::Record;
use calls::state::State;
use queue::due::Due;
use stops::refusal::Refusal;

// Whether the deadline of an open number is not after the clock.
fn is_overdue(state: State, clock: u32) -> bool
    ensures { result ≡ overdue clock state }
{
    matches!(state, State::Open(deadline) if deadline <= clock)
}

impl Offers {
    // A table with no number, at minute 0.
    pub fn new(memory: Memory) -> Offers
        ensures records { rows result ≡ [] }
        ensures time { result.clock ≡ 0 }
    {
        let Memory {
            records,
            mut agenda,
        } = memory;
        agenda.clear();
        Offers {
            records: records.into_list(),
            agenda,
            clock: 0,
        }
    }

    // Gives the next number to a record, unless that is due already.
    pub fn give(&mut self, record: Record) -> Result<u16, Refusal>
        ensures answer { coded result ≡ add_answer (rows self.old) self.old.clock «record» }
        ensures records { rows self.new ≡ added_to (rows self.old) «record» (add_answer (rows self.old) self.old.clock «record») }
        ensures time { self.new.clock ≡ self.old.clock }
    {
        let number = self.next_number()?;
        if is_overdue(record.state, self.clock) {
            return Err(Refusal::OutOfRange);
        }
        self.records.push_reserved(record);
        if let State::Open(deadline) = record.state {
            self.agenda.add(Due { deadline, number });
        }
        Ok(number)
    }

    // Changes the state of a number that was given, at the minute of the clock, and no other record; gives the number.
    pub fn change_given(&mut self, number: u32, change: Change) -> Result<u16, Refusal>
        ensures answer { coded result ≡ numbered number (asked change self.old.clock (state_of (rows self.old) number)) }
        ensures records { rows self.new ≡ put (rows self.old) number (asked change self.old.clock (state_of (rows self.old) number)) }
        ensures rest { (self.new.clock ≡ self.old.clock) × (self.new.agenda ≡ self.old.agenda) }
    {
        let record = self.record(number).ok_or(Refusal::UnknownNumber)?;
        let state = state_after(record.state, change, self.clock)?;
        self.records[number as usize - 1].state = state;
        Ok(number as u16)
    }

    // Lets the first number that is due at a minute lapse, and gives it.
    // Where none is left, the clock moves to that minute.
    pub fn lapse_first(&mut self, minute: u32) -> Option<u16>
        ensures step { Lapsing minute (rows self.old) self.old.clock result (rows self.new) self.new.clock }
        ensures laws { LapseLaws minute (rows self.old) }
    {
        while let Some(first) = self.agenda.first_due(minute) {
            let lapsed = self.change_given(u32::from(first.number), Change::Lapse);
            // Its number is not open: it lapses now, or was settled before.
            self.agenda.skip_first();
            if let Ok(number) = lapsed {
                return Some(number);
            }
        }
        self.clock = minute;
        None
    }
}
