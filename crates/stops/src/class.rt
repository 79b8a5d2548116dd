ghost use Rattle.std.specs.Prelude.{◌≡◌, Some};
ghost use Rattle.stops.specs.Classes.{letter};

use std::fmt;

// Whom a stop is for.
#[derive(Clone, Copy, PartialEq, Eq, Debug)]
pub enum Class {
    Private,
    Trade,
}

impl Class {
    // The letter that stands for it in commands and sheets.
    pub const fn letter(&self) -> &'static str
        ensures { result.now ≡ letter self.now }
    {
        match *self {
            Class::Private => "P",
            Class::Trade => "T",
        }
    }
}

impl fmt::Display for Class {
    ghost output = { λ c. Some (letter c) };

    fn fmt<W: fmt::Write>(&self, f: &mut fmt::Formatter<W>) -> fmt::Result {
        f.write_str(self.letter())
    }
}
