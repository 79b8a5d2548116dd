ghost use Rattle.std.specs.Prelude.{◌≡◌, []};
ghost use Rattle.text.specs.Buffers.{content};

use commands::setup::memory::Memory;
use text::buffer::Buffer;

// All memory of one response, reserved before.
#[derive(Drop)]
pub struct Workspace {
    pub(crate) setup: Memory,
    pub(crate) text: Buffer,
    ghost blank: { content text ≡ [] },
    ghost room: { text.room ≡ 5000000 },
}

pub mod reserves;
