ghost use Rattle.std.specs.Prelude.{◌≡◌, true, false};

// A token for the number of an offer. A live one must be spent, by confirm, release or park; it cannot be copied or let go.
// Number and flag, and no Option, by a rule of the project.
pub struct Slip {
    number: u16,
    live: bool,
}

// A number that is held until a deadline.
#[derive(Clone, Copy)]
pub(crate) struct Held {
    pub(crate) number: u16,
    pub(crate) until: u32,
}

impl Drop for Slip {
    fn drop(self)
        requires { self.live ≡ false }
    {
        let Slip { number: _, live: _ } = self;
    }
}

impl Slip {
    // Only an offer makes a live one.
    pub(crate) fn live(number: u16) -> Slip
        ensures { result ≡ record { number = number; live = true } }
    {
        Slip { number, live: true }
    }

    // The slip of a refused offer owes nothing.
    pub(crate) fn none() -> Slip
        ensures { result ≡ record { number = 0; live = false } }
    {
        Slip {
            number: 0,
            live: false,
        }
    }

    // The number that it stands for; 0 for none.
    pub fn number(&self) -> u16
        ensures { result ≡ self.now.number }
    {
        self.number
    }

    // Spends the slip, and gives its bare number.
    pub(crate) fn spend(self) -> u16
        ensures { result ≡ self.number }
    {
        let Slip { number, live: _ } = self;
        number
    }

    // Spends the slip and touches no book: the number stays as it is. Gives the bare number, by which the book still knows it.
    pub fn park(self) -> u16
        ensures { result ≡ self.number }
    {
        self.spend()
    }
}
