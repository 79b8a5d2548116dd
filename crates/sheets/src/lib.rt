#![tactic(auto)]

pub mod account;
mod row;
pub mod visits;
