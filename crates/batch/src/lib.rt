#![tactic(auto)]

mod hearing;
mod listing;
pub mod respond;
pub mod workspace;
