ghost use Rattle.std.specs.Prelude.{◌≡◌, Some};
ghost use Rattle.stops.specs.declared.refusal.Refusal.TheVariants.{NoMemory};
ghost use Rattle.stops.specs.Refusals.{number, text};

use crate::refusal::Refusal;
use std::alloc::AllocError;
use std::error::Error;
use std::fmt;

impl Refusal {
    // Its number in the table of refusals; 0 for want of memory, which is not in it.
    pub const fn number(&self) -> u8
        ensures { result ≡ number self.now }
    {
        match *self {
            Refusal::ClockPassed => 1,
            Refusal::MinuteTooLate => 2,
            Refusal::OffTheGrid => 3,
            Refusal::UnitsOutOfRange => 4,
            Refusal::UnknownSlot => 5,
            Refusal::NumbersExhausted => 6,
            Refusal::NoRoom(_) => 7,
            Refusal::UnknownNumber => 8,
            Refusal::NotOpen => 9,
            Refusal::NotConfirmed => 10,
            Refusal::UnknownCommand => 11,
            Refusal::FieldCount => 12,
            Refusal::BadField(_) => 13,
            Refusal::TooLong => 14,
            Refusal::MissingLine => 15,
            Refusal::TooManyLines => 16,
            Refusal::OutOfRange => 17,
            Refusal::TooShort => 18,
            Refusal::NumberHeld => 19,
            Refusal::NumberNotHeld => 20,
            Refusal::NoMemory => 0,
        }
    }
}

impl fmt::Display for Refusal {
    ghost output = { λ e. Some (text e) };

    fn fmt<W: fmt::Write>(&self, f: &mut fmt::Formatter<W>) -> fmt::Result {
        let number = self.number();
        match *self {
            Refusal::NoRoom(depth) => write!(f, "refused {number} depth {depth}"),
            Refusal::BadField(field) => write!(f, "refused {number} field {field}"),
            Refusal::NoMemory => f.write_str("out of memory"),
            _ => write!(f, "refused {number}"),
        }
    }
}

impl Error for Refusal {}

impl From<AllocError> for Refusal {
    ghost from_gives = { λ _ r. r ≡ NoMemory };

    fn from(_e: AllocError) -> Refusal {
        Self::NoMemory
    }
}
