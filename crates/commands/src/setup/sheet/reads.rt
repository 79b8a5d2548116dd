ghost use Rattle.std.specs.Prelude.{◌≡◌, ◌+◌, ◌<◌, ◌≤◌, [], IfOk, vec_len, OnOk};
ghost use Rattle.stops.specs.Refusals.{coded};
ghost use Rattle.text.specs.Lines.{lines_left};
ghost use Rattle.text.specs.Parts.{lines};
ghost use Rattle.commands.specs.Setups.{Passed, checked, entries, leading, listed, section, setup_of, sheet};

use crate::fields::Fields;
use crate::limits::LINE_BYTES;
use crate::setup::entry::SlotEntry;
use crate::setup::entry::reads::Entry;
use crate::setup::memory::Memory;
use crate::setup::numbered::Numbered;
use crate::setup::refusal::SetupRefusal;
use crate::setup::sheet::Setup;
use stops::blank::Blank;
use stops::refusal::Refusal;
use vans::van::Van;

impl Setup {
    // The set-up at the front of an input, or the first line that is refused.
    pub fn read(memory: Memory, input: &[u8]) -> Result<Setup, SetupRefusal>
        ensures { sheet result ≡ setup_of (lines input.now) }
    {
        let Memory { slots, vans } = memory;
        let mut left = Numbered::of(input);
        let slots = read_section(slots, &mut left)?;
        let vans = read_section(vans, &mut left)?;
        Ok(Setup { slots, vans })
    }

    // The slots, in the order of their numbers.
    pub fn slots(&self) -> &[SlotEntry]
        ensures { result.now ≡ self.now.slots.items }
    {
        self.slots.as_slice()
    }

    // The vans, in the order of their numbers.
    pub fn vans(&self) -> &[Van]
        ensures { result.now ≡ self.now.vans.items }
    {
        self.vans.as_slice()
    }
}

// The entry of a line with so many of its kind before it.
fn read_entry<T: Entry>(line: &[u8], before: usize) -> Result<T, Refusal>
    ensures value { coded result ≡ checked T.Entry.MOST T.Entry.entry before line.now }
    ensures fewer { OnOk result (before < T.Entry.MOST) }
{
    if line.len() > LINE_BYTES {
        return Err(Refusal::TooLong);
    }
    if before >= T::MOST {
        return Err(Refusal::TooManyLines);
    }
    T::read(&Fields::of(line))
}

// Takes the lines at the front that are of one kind; the line behind them stays.
fn read_entries<T: Entry, const ROOM: usize>(
    memory: Blank<T, ROOM>,
    left: &mut Numbered<'_>,
) -> Result<Vec<T>, SetupRefusal>
    requires room { T.Entry.MOST ≤ ROOM }
    requires few { left.old.number + T.Entry.MOST ≤ 100 }
    ensures value { listed result ≡ entries (checked T.Entry.MOST T.Entry.entry) left.old.number [] (leading T.Entry.LETTER (lines_left left.old.lines)) }
    ensures rest { IfOk result (λ v. Passed (vec_len v) left.old left.new × (vec_len v ≤ T.Entry.MOST)) }
{
    let mut taken = memory.into_list();
    while let Some(line) = left.peek(T::LETTER) {
        taken.push_reserved(left.at_line(read_entry(line, taken.len()))?);
        left.pass();
    }
    Ok(taken)
}

// The same of a section, which has one line at least.
fn read_section<T: Entry, const ROOM: usize>(
    memory: Blank<T, ROOM>,
    left: &mut Numbered<'_>,
) -> Result<Vec<T>, SetupRefusal>
    requires room { T.Entry.MOST ≤ ROOM }
    requires few { left.old.number + T.Entry.MOST ≤ 100 }
    ensures value { listed result ≡ section (checked T.Entry.MOST T.Entry.entry) left.old.number (leading T.Entry.LETTER (lines_left left.old.lines)) }
    ensures rest { IfOk result (λ v. Passed (vec_len v) left.old left.new × (1 ≤ vec_len v) × (vec_len v ≤ T.Entry.MOST)) }
{
    let taken = read_entries(memory, left)?;
    if taken.is_empty() {
        return left.at_line(Err(Refusal::MissingLine));
    }
    Ok(taken)
}
