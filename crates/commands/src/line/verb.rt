ghost use Rattle.std.specs.Prelude.{◌≡◌, Some};
ghost use Rattle.commands.specs.Verbs.{arity, verb_of};

// What the letter of a command line asks for.
#[derive(Clone, Copy, PartialEq, Eq, Debug)]
pub enum Verb {
    Offer,
    Book,
    Confirm,
    Release,
    Withdraw,
    Tick,
}

impl Verb {
    pub(crate) fn from_letter(letter: char) -> Option<Verb>
        ensures { result ≡ verb_of (Some letter) }
    {
        match letter {
            'O' => Some(Verb::Offer),
            'B' => Some(Verb::Book),
            'C' => Some(Verb::Confirm),
            'G' => Some(Verb::Release),
            'W' => Some(Verb::Withdraw),
            'T' => Some(Verb::Tick),
            _ => None,
        }
    }

    // How many fields a command has, its letter counted.
    pub(crate) fn field_count(self) -> usize
        ensures { result ≡ arity self }
    {
        match self {
            Verb::Offer | Verb::Book => 7,
            Verb::Confirm | Verb::Release | Verb::Withdraw => 3,
            Verb::Tick => 2,
        }
    }
}
