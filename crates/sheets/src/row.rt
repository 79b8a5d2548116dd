ghost use Rattle.text.specs.Buffers.{Added};
ghost use Rattle.sheets.specs.Accounts.{row};
ghost use Rattle.sheets.specs.Plans.{visit_line};

use calls::record::Record;
use queue::visit::PlannedVisit;
use stops::refusal::Refusal;
use text::buffer::Buffer;
use text::piece::Piece;

// The row of a number.
pub(crate) fn add_row(number: u32, record: Record, text: &mut Buffer) -> Result<(), Refusal>
    ensures { Added (row number «record») text.old result text.new }
{
    let stop = record.stop;
    let comma = Piece::Word(",");
    text.add_line(&[
        Piece::Number(number),
        comma,
        Piece::Word(stop.class.letter()),
        comma,
        Piece::Number(u32::from(stop.slot)),
        comma,
        Piece::Signed(i32::from(stop.place.x)),
        comma,
        Piece::Signed(i32::from(stop.place.y)),
        comma,
        Piece::Number(u32::from(stop.units)),
        comma,
        Piece::Word(record.state.word()),
        comma,
        Piece::Number(record.state.minute()),
    ])
}

// The line of a visit.
pub(crate) fn add_visit(visit: PlannedVisit, text: &mut Buffer) -> Result<(), Refusal>
    ensures { Added (visit_line visit) text.old result text.new }
{
    let comma = Piece::Word(",");
    text.add_line(&[
        Piece::Number(u32::from(visit.minute)),
        comma,
        Piece::Number(u32::from(visit.van)),
        comma,
        Piece::Number(u32::from(visit.number)),
    ])
}
