#![tactic(auto)]

pub mod due;
pub mod queue;
pub mod visit;
