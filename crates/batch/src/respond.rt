ghost use Rattle.std.specs.Prelude.{◌≡◌, ◌+◌, ◌≤◌, [], length};
ghost use Rattle.stops.specs.Refusals.{number};
ghost use Rattle.text.specs.Buffers.{content};
ghost use Rattle.text.specs.Parts.{lines};
ghost use Rattle.text.specs.Written.{Wrote};
ghost use Rattle.batch.specs.Response.{Grown, ReadBack, day, fault_line, response};

use crate::hearing::hear_all;
use crate::listing::list_setup;
use crate::workspace::Workspace;
use commands::setup::memory::Memory;
use commands::setup::refusal::SetupRefusal;
use commands::setup::sheet::Setup;
use stops::refusal::Refusal;
use text::buffer::Buffer;
use text::piece::Piece;

// The most bytes of an input.
pub const INPUT_BYTES: usize = 60_000;

// Writes the output for an input at the front of the caller's buffer; 5,000,000 bytes are enough for any.
pub fn respond(work: Workspace, input: &[u8], out: &mut [u8]) -> Result<usize, Refusal>
    ensures written { Wrote (response input.now) out.old result out.new }
    ensures short { length (response input.now) ≤ 5000000 }
    ensures back { ReadBack input.now }
{
    let Workspace { setup, mut text } = work;
    compose(setup, input, &mut text)?;
    text.write(out)
}

// Puts the output for an input into an empty text.
fn compose(memory: Memory, input: &[u8], text: &mut Buffer) -> Result<(), Refusal>
    requires blank { content text.old ≡ [] }
    requires room { text.old.room ≡ 5000000 }
    ensures { Grown (response input.now) text.old result text.new }
{
    if input.len() > INPUT_BYTES {
        let fault = SetupRefusal {
            refusal: Refusal::TooLong,
            line: 0,
        };
        return write_fault(fault, text);
    }
    match Setup::read(memory, input) {
        Ok(sheet) => write_day(&sheet, input, text),
        Err(fault) => write_fault(fault, text),
    }
}

// The set-up that was taken, and what was heard of the lines behind it.
fn write_day(sheet: &Setup, input: &[u8], text: &mut Buffer) -> Result<(), Refusal>
    requires blank { content text.old ≡ [] }
    requires room { text.old.room ≡ 5000000 }
    requires input { length input.now ≤ 60000 }
    ensures { Grown (day sheet.now.slots.items sheet.now.vans.items (lines input.now)) text.old result text.new }
{
    list_setup(sheet, text)?;
    hear_all(input, sheet.slots().len() + sheet.vans().len(), text)
}

// refused R line L
fn write_fault(fault: SetupRefusal, text: &mut Buffer) -> Result<(), Refusal>
    requires { length (content text.old) + 100 ≤ text.old.room }
    ensures { Grown (fault_line (number fault.refusal) fault.line) text.old result text.new }
{
    text.add_line(&[
        Piece::Word("refused "),
        Piece::Number(u32::from(fault.refusal.number())),
        Piece::Word(" line "),
        Piece::Number(fault.line),
    ])
}
