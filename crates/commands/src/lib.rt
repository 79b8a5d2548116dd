#![tactic(auto)]

pub mod fields;
pub mod limits;
pub mod line;
pub mod setup;
