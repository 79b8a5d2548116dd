ghost use Rattle.std.specs.Prelude.{Some};
ghost use Rattle.calls.specs.Answers.{answer_text, success_text};

use std::fmt;
use stops::refusal::Refusal;

// What a call is answered that is not refused.
#[derive(Clone, Copy, PartialEq, Eq, Debug)]
pub enum Answer {
    // the number is held until the deadline
    Offered { number: u16, until: u32 },
    // the number is confirmed at once
    Booked(u16),
    Done,
}

impl fmt::Display for Answer {
    ghost output = { λ a. Some (success_text a) };

    fn fmt<W: fmt::Write>(&self, f: &mut fmt::Formatter<W>) -> fmt::Result {
        match *self {
            Answer::Offered { number, until } => write!(f, "offer {number} until {until}"),
            Answer::Booked(number) => write!(f, "booked {number}"),
            Answer::Done => f.write_str("done"),
        }
    }
}

// What came of a call, as it is written: the answer, or the refusal.
#[derive(Clone, Copy, PartialEq, Eq, Debug)]
pub struct Outcome(pub Result<Answer, Refusal>);

impl fmt::Display for Outcome {
    ghost output = { λ a. Some (answer_text a.0) };

    fn fmt<W: fmt::Write>(&self, f: &mut fmt::Formatter<W>) -> fmt::Result {
        match self.0 {
            Ok(answer) => write!(f, "{answer}"),
            Err(refusal) => write!(f, "{refusal}"),
        }
    }
}
