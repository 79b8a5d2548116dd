ghost use Rattle.std.specs.Prelude.{◌≡◌, ℕ, List, Result as Answer};
ghost use Rattle.stops.specs.Refusals.{coded};
ghost use Rattle.commands.specs.Entries.{slot_entry, van_entry};
ghost use Rattle.commands.specs.Limits.{slot_lines, van_lines};

use crate::fields::Fields;
use crate::limits::{SLOT_FIELDS, SLOT_LINES, VAN_FIELDS, VAN_LINES};
use crate::setup::entry::SlotEntry;
use layers::share::Share;
use layers::weight::WeightLimit;
use stops::refusal::Refusal;
use stops::slot::Slot;
use vans::van::Van;

// A kind of set-up line: the letter that it begins with, how many there may be, and what one says.
pub trait Entry: Drop {
    ghost LETTER: { ℕ };

    ghost MOST: { ℕ };

    ghost entry: { List (List ℕ) → Answer Self (ℕ × List ℕ) };

    const LETTER: char;

    const MOST: usize;

    fn read(fields: &Fields<'_>) -> Result<Self, Refusal>
    where
        Self: Sized,
        ensures { coded result ≡ entry fields.now };
}

impl Entry for SlotEntry {
    ghost LETTER = { 83 };

    ghost MOST = { slot_lines };

    ghost entry = { slot_entry };

    const LETTER: char = 'S';

    const MOST: usize = SLOT_LINES;

    fn read(fields: &Fields<'_>) -> Result<SlotEntry, Refusal> {
        if fields.count() != SLOT_FIELDS {
            return Err(Refusal::FieldCount);
        }
        let opens = fields.number(1)?;
        let closes = fields.number(2)?;
        let places = fields.number(3)?;
        let kept = fields.number(4)?;
        let units = fields.number(5)?;
        Ok(SlotEntry {
            slot: Slot::new(opens, closes)?,
            share: Share::new(places, kept)?,
            weight: WeightLimit::new(units)?,
        })
    }
}

impl Entry for Van {
    ghost LETTER = { 86 };

    ghost MOST = { van_lines };

    ghost entry = { van_entry };

    const LETTER: char = 'V';

    const MOST: usize = VAN_LINES;

    fn read(fields: &Fields<'_>) -> Result<Van, Refusal> {
        if fields.count() != VAN_FIELDS {
            return Err(Refusal::FieldCount);
        }
        let limit = fields.number(1)?;
        let start = fields.number(2)?;
        let end = fields.number(3)?;
        Van::new(limit, start, end)
    }
}
