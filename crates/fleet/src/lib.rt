#![tactic(auto)]

pub mod interface;
pub mod layer;
pub mod load;
pub mod rule;
pub mod tally;
pub mod visit;
