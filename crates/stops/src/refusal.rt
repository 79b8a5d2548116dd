// Why a call, a maker, a reader or a writer refused: one case for each row of the table of refusals, and want of memory.
#[derive(Clone, Copy, PartialEq, Eq, Debug)]
pub enum Refusal {
    // 1: the minute is below the clock
    ClockPassed,
    // 2: the minute is above 100,000
    MinuteTooLate,
    // 3: x or y is off the grid
    OffTheGrid,
    // 4: no units, or more than 200
    UnitsOutOfRange,
    // 5: the slot is not in the table
    UnknownSlot,
    // 6: every number of the book was given out
    NumbersExhausted,
    // 7: the fleet objects, at this depth
    NoRoom(u8),
    // 8: the number is 0 or was not given out yet
    UnknownNumber,
    // 9: the number is not open
    NotOpen,
    // 10: the number is not confirmed
    NotConfirmed,
    // 11: the first field is no command
    UnknownCommand,
    // 12: the line has another count of fields
    FieldCount,
    // 13: this field is no number or class
    BadField(u8),
    // 14: the line or the input is too long
    TooLong,
    // 15: a line of the set-up is missing
    MissingLine,
    // 16: the set-up has too many lines of a kind
    TooManyLines,
    // 17: a value is out of range
    OutOfRange,
    // 18: a buffer or a list is too short
    TooShort,
    // 19: the number that is placed is held already
    NumberHeld,
    // 20: the number that is removed is not held
    NumberNotHeld,
    // not in the table: there is no memory to reserve
    NoMemory,
}

pub mod reads;
