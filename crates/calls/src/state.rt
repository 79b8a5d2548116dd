ghost use Rattle.std.specs.Prelude.{◌≡◌, Some};
ghost use Rattle.calls.specs.States.{word, state_minute};

use std::fmt;

// What has become of a number, with its deadline or the minute of the call that made it so.
#[derive(Clone, Copy, PartialEq, Eq, Debug)]
pub enum State {
    // until the deadline
    Open(u32),
    Confirmed(u32),
    Released(u32),
    // at the deadline
    Lapsed(u32),
    Withdrawn(u32),
}

impl State {
    // The deadline of a number that is open or lapsed, else the minute of the call.
    pub const fn minute(&self) -> u32
        ensures { result ≡ state_minute self.now }
    {
        match *self {
            State::Open(deadline) | State::Lapsed(deadline) => deadline,
            State::Confirmed(minute) | State::Released(minute) | State::Withdrawn(minute) => minute,
        }
    }

    // The word that is written of it.
    pub const fn word(&self) -> &'static str
        ensures { result.now ≡ word self.now }
    {
        match *self {
            State::Open(_) => "open",
            State::Confirmed(_) => "confirmed",
            State::Released(_) => "released",
            State::Lapsed(_) => "lapsed",
            State::Withdrawn(_) => "withdrawn",
        }
    }
}

impl fmt::Display for State {
    ghost output = { λ s. Some (word s) };

    fn fmt<W: fmt::Write>(&self, f: &mut fmt::Formatter<W>) -> fmt::Result {
        f.write_str(self.word())
    }
}
