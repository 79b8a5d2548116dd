ghost use Rattle.std.specs.Prelude.{◌≡◌, ◌+◌, ◌<◌, ◌^◌};
ghost use Rattle.std.specs.List.{slice_get};
ghost use Rattle.std.specs.Option.{option_map};
ghost use Rattle.stops.specs.Refusals.{coded};
ghost use Rattle.text.specs.Lines.{lines_left};
ghost use Rattle.text.specs.Parts.{lines};
ghost use Rattle.commands.specs.Setups.{Passed, at_line, faulted, leading};

use crate::fields::Fields;
use crate::setup::refusal::SetupRefusal;
use stops::refusal::Refusal;
use text::lines::Lines;

// The lines that are still to come, and the number of the next one.
#[derive(Drop)]
pub(crate) struct Numbered<'a> {
    lines: Lines<'a>,
    number: u32,
}

impl<'a> Numbered<'a> {
    // All lines of an input, counted from 1.
    pub(crate) fn of(input: &'a [u8]) -> Numbered<'a>
        ensures lines { lines_left result.lines ≡ lines input.now }
        ensures number { result.number ≡ 1 }
    {
        Numbered {
            lines: Lines::of(input),
            number: 1,
        }
    }

    // The next line, if it begins with this letter; it stays.
    pub(crate) fn peek(&self, letter: char) -> Option<&'a [u8]>
        ensures { option_map (λ l. l.now) result ≡ slice_get (leading letter (lines_left self.now.lines)) 0 }
    {
        let line = self.lines.peek()?;
        Fields::of(line).begins(letter).then_some(line)
    }

    pub(crate) fn pass(&mut self)
        requires { self.old.number + 1 < 2 ^ 32 }
        ensures { Passed 1 self.old self.new }
    {
        let _ = self.lines.next();
        self.number += 1;
    }

    // An answer about the next line.
    pub(crate) fn at_line<T>(&self, said: Result<T, Refusal>) -> Result<T, SetupRefusal>
        ensures { faulted result ≡ at_line self.now.number (coded said) }
    {
        let line = self.number;
        said.map_err(|refusal| SetupRefusal { refusal, line })
    }
}
