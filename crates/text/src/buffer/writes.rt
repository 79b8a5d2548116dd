ghost use Rattle.std.specs.Prelude.{◌≡◌, take, decimal};
ghost use Rattle.std.specs.Fmt.{signed_decimal};
ghost use Rattle.text.specs.Buffers.{content, Added, Partly, Reserved};
ghost use Rattle.text.specs.Pieces.{line_of, piece};
ghost use Rattle.text.specs.Written.{Wrote};

use crate::buffer::Buffer;
use crate::figures::write_number;
use crate::passage::Passage;
use crate::piece::Piece;
use std::alloc::{AllocError, Global};
use stops::refusal::Refusal;

// The most figures of a 32-bit number.
const FIGURES: usize = 10;

impl Buffer {
    // A buffer that holds nothing, with memory for as many bytes as its room.
    pub fn reserve(heap: Global, room: usize) -> Result<Buffer, AllocError>
        ensures { Reserved room result }
    {
        let bytes = Vec::with_capacity(heap, room)?;
        Ok(Buffer { bytes, room })
    }

    // What it holds.
    pub fn content(&self) -> &[u8]
        ensures { result.now ≡ content self.now }
    {
        self.bytes.as_slice()
    }

    // Adds the whole of a passage, or nothing.
    pub fn add_whole<P: Passage>(&mut self, passage: &P) -> Result<(), Refusal>
        ensures { Added (P.text passage.now) self.old result self.new }
    {
        let held = self.bytes.len();
        let done = passage.write_to(self);
        if done.is_err() {
            self.bytes.truncate(held);
        }
        done
    }

    // Adds a line of these pieces, ended by byte 10, or nothing.
    pub fn add_line(&mut self, pieces: &[Piece]) -> Result<(), Refusal>
        ensures { Added (line_of pieces.now) self.old result self.new }
    {
        self.add_whole(&Line { pieces })
    }

    // Keeps so many bytes at the front.
    pub fn truncate(&mut self, len: usize)
        ensures content { content self.new ≡ take len (content self.old) }
        ensures room { self.new.room ≡ self.old.room }
    {
        self.bytes.truncate(len);
    }

    // Writes what it holds at the front of the caller's buffer.
    pub fn write(&self, out: &mut [u8]) -> Result<usize, Refusal>
        ensures { Wrote (content self.now) out.old result out.new }
    {
        let len = self.bytes.len();
        if out.len() < len {
            return Err(Refusal::TooShort);
        }
        out[..len].copy_from_slice(self.content());
        Ok(len)
    }

    #[tactic(auto, using(crate::proofs::Growing::partly))]
    fn add_piece(&mut self, part: Piece) -> Result<(), Refusal>
        ensures { Partly (piece part) self.old result self.new }
    {
        match part {
            Piece::Word(word) => self.add(word.as_bytes()),
            Piece::Bytes(bytes) => self.add(bytes),
            Piece::Number(n) => self.add_number(n),
            Piece::Signed(z) => self.add_signed(z),
        }
    }

    fn add_signed(&mut self, z: i32) -> Result<(), Refusal>
        ensures { Partly (signed_decimal z) self.old result self.new }
    {
        if z < 0 {
            self.add(b"-")?;
        }
        self.add_number(z.unsigned_abs())
    }

    fn add_number(&mut self, n: u32) -> Result<(), Refusal>
        ensures { Added (decimal n) self.old result self.new }
    {
        let mut figures = [0u8; FIGURES];
        let len = write_number(n, &mut figures)?;
        self.add(&figures[..len])
    }

    fn add(&mut self, text: &[u8]) -> Result<(), Refusal>
        ensures { Added text.now self.old result self.new }
    {
        if text.len() > self.room - self.bytes.len() {
            return Err(Refusal::TooShort);
        }
        let _ = self.bytes.extend_from_slice(text);
        Ok(())
    }
}

// Pieces one behind the other, and byte 10.
#[derive(Clone, Copy)]
struct Line<'a> {
    pieces: &'a [Piece],
}

impl Passage for Line<'_> {
    ghost text = { λ l. line_of l.pieces.now };

    fn write_to(&self, buffer: &mut Buffer) -> Result<(), Refusal> {
        for piece in self.pieces {
            buffer.add_piece(*piece)?;
        }
        buffer.add(b"\n")
    }
}
