ghost use Rattle.std.specs.Prelude.{ℕ, ◌≤◌, List, length};
ghost use Rattle.text.specs.Buffers.{Added, Partly};
ghost use Rattle.batch.specs.Listing.{listing, numbered, section, slot_line, van_line};

use commands::setup::entry::SlotEntry;
use commands::setup::sheet::Setup;
use stops::refusal::Refusal;
use text::buffer::Buffer;
use text::piece::Piece;
use vans::van::Van;

// What the set-up lists one by one, each on a line with its number.
trait Listed: Drop {
    ghost line: { ℕ → Self → List ℕ };

    fn list(&self, number: u32, text: &mut Buffer) -> Result<(), Refusal>
        ensures { Added (line number self.now) text.old result text.new };
}

impl Listed for SlotEntry {
    ghost line = { slot_line };

    fn list(&self, number: u32, text: &mut Buffer) -> Result<(), Refusal> {
        text.add_line(&[
            Piece::Word("slot "),
            Piece::Number(number),
            Piece::Word(" "),
            Piece::Number(u32::from(self.slot.opens)),
            Piece::Word(" "),
            Piece::Number(u32::from(self.slot.closes)),
            Piece::Word(" "),
            Piece::Number(u32::from(self.share.places)),
            Piece::Word(" "),
            Piece::Number(u32::from(self.share.kept)),
            Piece::Word(" "),
            Piece::Number(u32::from(self.weight.count)),
        ])
    }
}

impl Listed for Van {
    ghost line = { van_line };

    fn list(&self, number: u32, text: &mut Buffer) -> Result<(), Refusal> {
        text.add_line(&[
            Piece::Word("van "),
            Piece::Number(number),
            Piece::Word(" "),
            Piece::Number(u32::from(self.limit)),
            Piece::Word(" "),
            Piece::Number(u32::from(self.start)),
            Piece::Word(" "),
            Piece::Number(u32::from(self.end)),
        ])
    }
}

// A line for each, numbered from 0.
fn list_all<T: Listed>(items: &[T], text: &mut Buffer) -> Result<(), Refusal>
    requires { length items.now ≤ 100 }
    ensures { Partly (numbered T.Listed.line 0 items.now) text.old result text.new }
{
    for (n, item) in items.iter().enumerate() {
        item.list(n as u32, text)?;
    }
    Ok(())
}

// How many there are of a kind, and each of them.
fn list_section<T: Listed>(
    kind: &'static str,
    items: &[T],
    text: &mut Buffer,
) -> Result<(), Refusal>
    requires { length items.now ≤ 100 }
    ensures { Partly (section kind.now T.Listed.line items.now) text.old result text.new }
{
    text.add_line(&[Piece::Word(kind), Piece::Number(items.len() as u32)])?;
    list_all(items, text)
}

// The slots, then the vans.
pub(crate) fn list_setup(sheet: &Setup, text: &mut Buffer) -> Result<(), Refusal>
    ensures { Partly (listing sheet.now.slots.items sheet.now.vans.items) text.old result text.new }
{
    list_section("slots ", sheet.slots(), text)?;
    list_section("vans ", sheet.vans(), text)
}
