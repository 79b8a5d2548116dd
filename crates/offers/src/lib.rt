#![tactic(auto)]

mod agenda;
pub mod change;
pub mod memory;
pub mod offers;
