ghost use Rattle.std.specs.Prelude.{◌≡◌, false};
ghost use Rattle.calls.specs.Views.{passed_to};
ghost use Rattle.offers.specs.Additions.{overdue};
ghost use Rattle.book.specs.Books.{view};
ghost use Rattle.book.specs.Parts.{Begun, LetGo, Numbered, Timely};

use crate::book::Book;
use crate::request::stop_for;
use calls::call::Request;
use calls::limits::LAST_BOOKING_MINUTE;
use calls::record::Record;
use calls::state::State;
use fleet::interface::Fleet;
use offers::change::Change;
use stops::refusal::Refusal;

// Whether a call may name this minute.
fn timely(clock: u32, minute: u32) -> Result<(), Refusal>
    ensures { Timely clock minute result }
{
    if minute < clock {
        return Err(Refusal::ClockPassed);
    }
    if minute > LAST_BOOKING_MINUTE {
        return Err(Refusal::MinuteTooLate);
    }
    Ok(())
}

impl<F: Fleet> Book<F> {
    // Sets the clock, and lets the due numbers lapse: their stops leave the fleet in order.
    fn lapse_due(&mut self, minute: u32)
        ensures { view F.Fleet self.new ≡ passed_to F.Fleet.meaning minute (view F.Fleet self.old) }
    {
        while let Some(number) = self.offers.lapse_first(minute) {
            let _ = self.fleet.remove(number);
        }
    }

    // What every call begins with.
    pub(crate) fn begin(&mut self, minute: u32) -> Result<(), Refusal>
        ensures { Begun F.Fleet.meaning (view F.Fleet self.old) minute result (view F.Fleet self.new) }
    {
        timely(self.offers.clock(), minute)?;
        self.lapse_due(minute);
        Ok(())
    }

    // Gives the stop of a request the next number, in this state.
    pub(crate) fn give_number(&mut self, request: Request, state: State) -> Result<u16, Refusal>
        requires { overdue self.old.offers.clock state ≡ false }
        ensures { Numbered F.Fleet.meaning (view F.Fleet self.old) request state result (view F.Fleet self.new) }
    {
        let stop = stop_for(&self.table, request)?;
        let number = self.offers.next_number()?;
        self.fleet.place(number, &stop)?;
        // there is a number left and the deadline is to come, so this is never refused
        let _ = self.offers.give(Record { stop, state });
        Ok(number)
    }

    // Changes the state of a number so that its stop leaves the fleet.
    pub(crate) fn let_go(&mut self, number: u32, change: Change) -> Result<(), Refusal>
        ensures { LetGo F.Fleet.meaning (view F.Fleet self.old) change number result (view F.Fleet self.new) }
    {
        let held = self.offers.change_given(number, change)?;
        // an open or a confirmed number is held, so this is never refused
        let _ = self.fleet.remove(held);
        Ok(())
    }
}
