#![tactic(auto)]

mod choice;
mod leg;
pub mod limits;
pub mod memory;
mod round;
pub mod van;
pub mod vanfleet;
