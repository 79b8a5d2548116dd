ghost use Rattle.std.specs.Prelude.{ℕ, List};
ghost use Rattle.text.specs.Buffers.{Partly};

use crate::buffer::Buffer;
use stops::refusal::Refusal;

// A text that is written part by part.
pub trait Passage {
    ghost text: { Self → List ℕ };

    // Writes its parts; where one is refused, those before it stay.
    fn write_to(&self, buffer: &mut Buffer) -> Result<(), Refusal>
        ensures { Partly (text self.now) buffer.old result buffer.new };
}
