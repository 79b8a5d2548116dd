#![tactic(auto)]

pub mod buffer;
pub mod fields;
pub mod figures;
pub mod lines;
pub mod numbers;
pub mod passage;
pub mod piece;
