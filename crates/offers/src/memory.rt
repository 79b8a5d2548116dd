use crate::agenda::Agenda;
use calls::limits::NUMBERS;
use calls::record::Record;
use stops::blank::Blank;

// All memory of an offers table, reserved before.
#[derive(Drop)]
pub struct Memory {
    pub(crate) records: Blank<Record, NUMBERS>,
    pub(crate) agenda: Agenda,
}

pub mod reserves;
