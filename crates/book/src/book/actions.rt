ghost use Rattle.calls.specs.Answers.{booked_or, done_or};
ghost use Rattle.book.specs.Books.{Does, call_at};
ghost use Rattle.book.specs.Slips.{held_or};

use crate::book::Book;
use crate::deadline::deadline_of;
use crate::slip::Held;
use calls::call::{Action, Request};
use calls::state::State;
use fleet::interface::Fleet;
use offers::change::Change;
use stops::refusal::Refusal;

// Each action at a minute: what every call begins with, and then its own part.
impl<F: Fleet> Book<F> {
    pub(crate) fn tick_at(&mut self, minute: u32) -> Result<(), Refusal>
        ensures { Does F.Fleet self.old (call_at minute Action.Tick) (done_or result) self.new }
    {
        self.begin(minute)
    }

    pub(crate) fn hold_at(&mut self, minute: u32, request: Request) -> Result<Held, Refusal>
        ensures { Does F.Fleet self.old (call_at minute (Action.Offer request)) (held_or result) self.new }
    {
        self.begin(minute)?;
        let until = deadline_of(&self.table, minute, request.class);
        let number = self.give_number(request, State::Open(until))?;
        Ok(Held { number, until })
    }

    pub(crate) fn book_at(&mut self, minute: u32, request: Request) -> Result<u16, Refusal>
        ensures { Does F.Fleet self.old (call_at minute (Action.Book request)) (booked_or result) self.new }
    {
        self.begin(minute)?;
        self.give_number(request, State::Confirmed(minute))
    }

    pub(crate) fn confirm_at(&mut self, minute: u32, number: u32) -> Result<(), Refusal>
        ensures { Does F.Fleet self.old (call_at minute (Action.Confirm number)) (done_or result) self.new }
    {
        self.begin(minute)?;
        self.offers.change_given(number, Change::Confirm)?;
        Ok(())
    }

    pub(crate) fn release_at(&mut self, minute: u32, number: u32) -> Result<(), Refusal>
        ensures { Does F.Fleet self.old (call_at minute (Action.Release number)) (done_or result) self.new }
    {
        self.begin(minute)?;
        self.let_go(number, Change::Release)
    }

    pub(crate) fn withdraw_at(&mut self, minute: u32, number: u32) -> Result<(), Refusal>
        ensures { Does F.Fleet self.old (call_at minute (Action.Withdraw number)) (done_or result) self.new }
    {
        self.begin(minute)?;
        self.let_go(number, Change::Withdraw)
    }
}
