ghost use Rattle.text.specs.Buffers.{Added};
ghost use Rattle.calls.specs.Records.{record_of};
ghost use Rattle.sheets.specs.Accounts.{Joins, account, account_names, row_if, stretch};
ghost use Rattle.sheets.specs.Books.{records};

use crate::row::add_row;
use book::book::Book;
use stops::refusal::Refusal;
use text::buffer::Buffer;
use text::passage::Passage;
use text::piece::Piece;

// Writes the line of names, or nothing.
pub fn write_names(text: &mut Buffer) -> Result<(), Refusal>
    ensures { Added account_names text.old result text.new }
{
    text.add_line(&[Piece::Word("number,class,slot,x,y,units,state,minute")])
}

// Writes the rows from one number to another, that one not counted, or nothing.
pub fn write_rows<F>(book: &Book<F>, from: u32, to: u32, text: &mut Buffer) -> Result<(), Refusal>
    ensures rows { Added (stretch (records book.now) from to) text.old result text.new }
    ensures joins { Joins (records book.now) }
{
    text.add_whole(&Rows { book, from, to })
}

// Writes the whole account, or nothing.
pub fn write_account<F>(book: &Book<F>, text: &mut Buffer) -> Result<(), Refusal>
    ensures { Added (account (records book.now)) text.old result text.new }
{
    text.add_whole(&Account { book })
}

// The rows of a book from one number to another, that one not counted.
#[derive_where(Clone, Copy)]
struct Rows<'a, F> {
    book: &'a Book<F>,
    from: u32,
    to: u32,
}

impl<F> Passage for Rows<'_, F> {
    ghost text = { λ r. stretch (records r.book.now) r.from r.to };

    fn write_to(&self, buffer: &mut Buffer) -> Result<(), Refusal> {
        // over numbers, which the rows name
        for number in self.from..self.to {
            add_number(self.book, number, buffer)?;
        }
        Ok(())
    }
}

// The account of a book: the line of names, and the row of each number.
#[derive_where(Clone, Copy)]
struct Account<'a, F> {
    book: &'a Book<F>,
}

impl<F> Passage for Account<'_, F> {
    ghost text = { λ a. account (records a.book.now) };

    fn write_to(&self, buffer: &mut Buffer) -> Result<(), Refusal> {
        write_names(buffer)?;
        write_rows(self.book, 1, self.book.count() as u32 + 1, buffer)
    }
}

// The row of a number, if it was given.
fn add_number<F>(book: &Book<F>, number: u32, text: &mut Buffer) -> Result<(), Refusal>
    ensures { Added (row_if number (record_of (records book.now) number)) text.old result text.new }
{
    match book.record(number) {
        Some(record) => add_row(number, record, text),
        None => Ok(()),
    }
}
