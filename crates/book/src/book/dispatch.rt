ghost use Rattle.book.specs.Books.{Does, Makes};

use crate::book::Book;
use crate::slip::Held;
use calls::answer::Answer;
use calls::call::{Action, Call};
use fleet::interface::Fleet;
use stops::refusal::Refusal;

impl<F: Fleet> Book<F> {
    // Makes any call.
    pub fn call(&mut self, call: Call) -> Result<Answer, Refusal>
        ensures { Makes F.Fleet self.old call result self.new }
    {
        self.answer(call)
    }

    fn answer(&mut self, call: Call) -> Result<Answer, Refusal>
        ensures { Does F.Fleet self.old call result self.new }
    {
        let minute = call.minute;
        match call.action {
            Action::Offer(request) => self
                .hold_at(minute, request)
                .map(|Held { number, until }| Answer::Offered { number, until }),
            Action::Book(request) => self.book_at(minute, request).map(Answer::Booked),
            Action::Confirm(number) => self.confirm_at(minute, number).map(|_| Answer::Done),
            Action::Release(number) => self.release_at(minute, number).map(|_| Answer::Done),
            Action::Withdraw(number) => self.withdraw_at(minute, number).map(|_| Answer::Done),
            Action::Tick => self.tick_at(minute).map(|_| Answer::Done),
        }
    }
}
