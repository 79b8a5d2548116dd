ghost use Rattle.std.specs.Prelude.{◌≡◌, [], length, slice_index_or};
ghost use Rattle.stops.specs.Refusals.{coded};
ghost use Rattle.text.specs.Parts.{fields};
ghost use Rattle.commands.specs.Setups.{is_letter};
ghost use Rattle.commands.specs.Values.{class_at, class_letter, letter_of, number_at, only, signed_at};

use std::marker::Model;
use stops::class::Class;
use stops::refusal::Refusal;
use text::fields::{field, field_count};
use text::numbers::{plain_number, signed_number};

// The fields of a line, numbered from 0.
#[derive(Drop)]
pub struct Fields<'a> {
    line: &'a [u8],
}

impl<'a> Model for Fields<'a> {
    ghost use Rattle.std.specs.Prelude.{ℕ, List};
    ghost use Rattle.text.specs.Parts.{fields};

    ghost Value = { List (List ℕ) };

    ghost view = { λ f. fields f.line.now };
}

impl<'a> Fields<'a> {
    // The fields of this line.
    pub fn of(line: &'a [u8]) -> Fields<'a>
        ensures { result ≡ fields line.now }
    {
        Fields { line }
    }

    // How many there are.
    pub fn count(&self) -> usize
        ensures { result ≡ length self.now }
    {
        field_count(self.line)
    }

    // The letter that is the first field, if that is one byte.
    pub fn letter(&self) -> Option<char>
        ensures { result ≡ letter_of self.now }
    {
        self.only(0)
    }

    // Whether the first field is this letter.
    pub fn begins(&self, letter: char) -> bool
        ensures { result ≡ is_letter letter (letter_of self.now) }
    {
        self.letter() == Some(letter)
    }

    // The number in the field with this index.
    pub fn number(&self, index: u8) -> Result<u32, Refusal>
        ensures { coded result ≡ number_at self.now index }
    {
        plain_number(self.field(usize::from(index))).ok_or(Refusal::BadField(index))
    }

    // The same, which may have a minus sign.
    pub fn signed(&self, index: u8) -> Result<i32, Refusal>
        ensures { coded result ≡ signed_at self.now index }
    {
        signed_number(self.field(usize::from(index))).ok_or(Refusal::BadField(index))
    }

    // The class in the field with this index.
    pub fn class(&self, index: u8) -> Result<Class, Refusal>
        ensures { coded result ≡ class_at self.now index }
    {
        self.only(index)
            .and_then(class)
            .ok_or(Refusal::BadField(index))
    }

    // The field with this index, or an empty one.
    pub fn field(&self, index: usize) -> &'a [u8]
        ensures { result.now ≡ slice_index_or self.now index [] }
    {
        field(self.line, index)
    }

    // The field with this index as a character, if it is one byte.
    fn only(&self, index: u8) -> Option<char>
        ensures { result ≡ only (slice_index_or self.now index []) }
    {
        match self.field(usize::from(index)) {
            [b] => Some(char::from(*b)),
            _ => None,
        }
    }
}

fn class(letter: char) -> Option<Class>
    ensures { result ≡ class_letter letter }
{
    match letter {
        'P' => Some(Class::Private),
        'T' => Some(Class::Trade),
        _ => None,
    }
}
