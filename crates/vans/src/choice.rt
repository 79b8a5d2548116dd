ghost use Rattle.std.specs.Prelude.{◌≡◌};
ghost use Rattle.vans.specs.Better.{better, moved};

// Where one more stop may go, and the travel that it adds there.
#[derive(Clone, Copy)]
pub struct Insertion<P> {
    pub at: P,
    pub added: u16,
}

// A van, and a position of its round.
#[derive(Clone, Copy)]
pub struct Location {
    pub van: usize,
    pub position: usize,
}

impl<P: Copy> Insertion<P> {
    // The better of the best so far and a later one, which must add less.
    pub(crate) fn better(
        best: Option<Insertion<P>>,
        later: Option<Insertion<P>>,
    ) -> Option<Insertion<P>>
        ensures { result ≡ better best later }
    {
        match (best, later) {
            (Some(old), Some(new)) => if new.added < old.added { later } else { best },
            _ => best.or(later),
        }
    }
}

impl Insertion<usize> {
    // This position in the round of a van.
    pub(crate) fn of_van(self, van: usize) -> Insertion<Location>
        ensures { result ≡ moved (λ k. record { van = van; position = k }) self }
    {
        Insertion {
            at: Location {
                van,
                position: self.at,
            },
            added: self.added,
        }
    }
}
