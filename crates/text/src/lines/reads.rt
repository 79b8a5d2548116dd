ghost use Rattle.std.specs.Prelude.{◌≡◌, [], ◌∷◌, length, drop, position, MatchOption, ◌==◌};
ghost use Rattle.std.specs.List.{slice_get};
ghost use Rattle.std.specs.Option.{option_map};
ghost use Rattle.text.specs.Parts.{lines};
ghost use Rattle.text.specs.Lines.{lines_left};
ghost use Rattle.std.specs.Iterator.{at_most};

use crate::lines::Lines;

impl<'a> Lines<'a> {
    // All lines of an input.
    pub fn of(input: &'a [u8]) -> Lines<'a>
        ensures { lines_left result ≡ lines input.now }
    {
        Lines { rest: input }
    }

    // The next line, which stays.
    pub fn peek(&self) -> Option<&'a [u8]>
        ensures { option_map (λ x. x.now) result ≡ slice_get (lines_left self.now) 0 }
    {
        self.cut().map(|(line, _)| line)
    }

    // The next line, and what is left behind it.
    #[tactic(auto, using(crate::proofs::Parted::line_cut, crate::proofs::Parted::line_whole))]
    fn cut(&self) -> Option<(&'a [u8], &'a [u8])>
        ensures { MatchOption result (lines_left self.now ≡ []) (λ x. lines_left self.now ≡ x.0.now ∷ lines x.1.now) }
    {
        if self.rest.is_empty() {
            return None;
        }
        match end_of_line(self.rest) {
            Some(end) => Some((&self.rest[..end], &self.rest[end + 1..])),
            None => Some((self.rest, &[])),
        }
    }
}

impl<'a> Iterator for Lines<'a> {
    type Item = &'a [u8];

    // It gives the first line that is left, if any, and leaves the others.
    ghost next_gives = { λ s r t. (option_map (λ x. x.now) r ≡ slice_get (lines_left s) 0) × (lines_left t ≡ drop 1 (lines_left s)) };

    ghost remaining = { λ s. at_most (length (lines_left s)) };

    fn next(&mut self) -> Option<&'a [u8]> {
        let (line, rest) = self.cut()?;
        self.rest = rest;
        Some(line)
    }
}

// Where the first line ends, if byte 10 stands behind it.
fn end_of_line(text: &[u8]) -> Option<usize>
    ensures { result ≡ position (λ b. b == 10) text.now }
{
    text.iter().position(|b| *b == b'\n')
}
