#![tactic(auto)]

pub mod limits;
pub mod rules;
pub mod share;
pub mod weight;
