ghost use Rattle.std.specs.Prelude.{◌≡◌, ◌<◌, [], ◌∷◌, ◌++◌, length};
ghost use Rattle.book.specs.Logs.{entries_in, Reserved};

use crate::log::Log;
use calls::entry::Entry;
use std::alloc::{AllocError, Global};

impl Log {
    // A log with no entry and this many places; it fails only where there is no memory.
    pub fn reserve(heap: Global, room: usize) -> Result<Log, AllocError>
        ensures { Reserved room result }
    {
        let entries = Vec::with_capacity(heap, room)?;
        Ok(Log { entries, room })
    }

    // How many places it has.
    pub fn room(&self) -> usize
        ensures { result ≡ self.now.room }
    {
        self.room
    }

    // Each call with its answer, in order.
    pub fn entries(&self) -> &[Entry]
        ensures { result.now ≡ entries_in self.now }
    {
        self.entries.as_slice()
    }

    pub(crate) fn clear(&mut self)
        ensures entries { entries_in self.new ≡ [] }
        ensures room { self.new.room ≡ self.old.room }
    {
        self.entries.clear();
    }

    pub(crate) fn add(&mut self, entry: Entry)
        requires { length (entries_in self.old) < self.old.room }
        ensures entries { entries_in self.new ≡ entries_in self.old ++ entry ∷ [] }
        ensures room { self.new.room ≡ self.old.room }
    {
        self.entries.push_reserved(entry);
    }
}
