ghost use Rattle.std.specs.Prelude.{◌≤◌, length, vec_len, vec_capacity};
ghost use Rattle.offers.specs.Agendas.{awaited};
ghost use Rattle.calls.specs.Limits.{number_limit};
ghost use Rattle.offers.specs.Queued.{Listed, Known, Undue};

use crate::agenda::Agenda;
use calls::record::Record;

// A record for each number given, an entry for each open one, and the clock.
#[derive(Drop)]
pub struct Offers {
    records: Vec<Record>,
    agenda: Agenda,
    clock: u32,
    ghost few: { vec_len records ≤ number_limit },
    ghost room: { number_limit ≤ vec_capacity records },
    ghost short: { length (awaited agenda) ≤ vec_len records },
    ghost listed: { Listed records.items (awaited agenda) },
    ghost known: { Known records.items (awaited agenda) },
    ghost undue: { Undue clock records.items },
}

pub mod moves;
pub mod reads;
