#![tactic(auto)]

pub mod answer;
pub mod call;
pub mod entry;
pub mod limits;
pub mod record;
pub mod state;
