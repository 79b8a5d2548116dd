ghost use Rattle.book.specs.Runs.{Runs};

use crate::book::Book;
use crate::log::Log;
use calls::call::Call;
use calls::entry::Entry;
use fleet::interface::Fleet;
use offers::memory::Memory;
use stops::refusal::Refusal;
use stops::table::SlotTable;

// What a run that was refused gives back.
#[derive(Drop)]
pub struct Unopened<F> {
    pub refusal: Refusal,
    pub memory: Memory,
    pub table: SlotTable,
    pub fleet: F,
}

// Opens a book over a fleet and makes the calls; the log has each of them with its answer. The contract says what any run comes to.
pub fn run<F: Fleet>(
    memory: Memory,
    table: SlotTable,
    fleet: F,
    calls: &[Call],
    log: &mut Log,
) -> Result<Book<F>, Unopened<F>>
    ensures { Runs F.Fleet memory table fleet calls.now log.old result log.new }
{
    if log.room() < calls.len() {
        return Err(Unopened {
            refusal: Refusal::TooShort,
            memory,
            table,
            fleet,
        });
    }
    log.clear();
    let mut book = Book::open(memory, table, fleet);
    for &call in calls {
        let answer = book.call(call);
        log.add(Entry { call, answer });
    }
    Ok(book)
}
