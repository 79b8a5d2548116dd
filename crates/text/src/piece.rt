// A part of a line that is written: a fixed word, as text or as any bytes, or a number by its figures, with a minus sign if it is negative.
// Pieces, and not `write!`, since the project's own writer of numbers writes all figures.
#[derive(Clone, Copy)]
pub enum Piece {
    Word(&'static str),
    Bytes(&'static [u8]),
    Number(u32),
    Signed(i32),
}
