ghost use Rattle.std.specs.Prelude.{◌≡◌};
ghost use Rattle.calls.specs.Answers.{booked_or, done_or};
ghost use Rattle.book.specs.Books.{Makes, call_at};
ghost use Rattle.book.specs.Slips.{offered_or, slip_of};

use crate::book::Book;
use crate::slip::Slip;
use calls::call::{Action, Request};
use fleet::interface::Fleet;
use stops::refusal::Refusal;

// The calls one by one. An offer gives a slip, which confirm and release spend, also where they are refused.
impl<F: Fleet> Book<F> {
    // Holds a number until the deadline that is given, with its slip.
    pub fn offer(&mut self, minute: u32, request: Request) -> (Result<u32, Refusal>, Slip)
        ensures call { Makes F.Fleet self.old (call_at minute (Action.Offer request)) (offered_or result.0 result.1) self.new }
        ensures slip { result.1 ≡ slip_of result.0 result.1 }
    {
        match self.hold_at(minute, request) {
            Ok(held) => (Ok(held.until), Slip::live(held.number)),
            Err(refusal) => (Err(refusal), Slip::none()),
        }
    }

    // Offers and confirms in one call; no slip, since the number is confirmed.
    pub fn book(&mut self, minute: u32, request: Request) -> Result<u16, Refusal>
        ensures { Makes F.Fleet self.old (call_at minute (Action.Book request)) (booked_or result) self.new }
    {
        self.book_at(minute, request)
    }

    pub fn confirm(&mut self, minute: u32, slip: Slip) -> Result<(), Refusal>
        ensures { Makes F.Fleet self.old (call_at minute (Action.Confirm slip.number)) (done_or result) self.new }
    {
        self.confirm_number(minute, u32::from(slip.spend()))
    }

    pub fn release(&mut self, minute: u32, slip: Slip) -> Result<(), Refusal>
        ensures { Makes F.Fleet self.old (call_at minute (Action.Release slip.number)) (done_or result) self.new }
    {
        self.release_number(minute, u32::from(slip.spend()))
    }

    pub fn confirm_number(&mut self, minute: u32, number: u32) -> Result<(), Refusal>
        ensures { Makes F.Fleet self.old (call_at minute (Action.Confirm number)) (done_or result) self.new }
    {
        self.confirm_at(minute, number)
    }

    pub fn release_number(&mut self, minute: u32, number: u32) -> Result<(), Refusal>
        ensures { Makes F.Fleet self.old (call_at minute (Action.Release number)) (done_or result) self.new }
    {
        self.release_at(minute, number)
    }

    // Takes a confirmed number back.
    pub fn withdraw(&mut self, minute: u32, number: u32) -> Result<(), Refusal>
        ensures { Makes F.Fleet self.old (call_at minute (Action.Withdraw number)) (done_or result) self.new }
    {
        self.withdraw_at(minute, number)
    }

    // Sets the clock, and lets the due numbers lapse.
    pub fn tick(&mut self, minute: u32) -> Result<(), Refusal>
        ensures { Makes F.Fleet self.old (call_at minute Action.Tick) (done_or result) self.new }
    {
        self.tick_at(minute)
    }
}
