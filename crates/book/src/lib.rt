#![tactic(auto)]

pub mod book;
mod deadline;
pub mod log;
mod request;
pub mod run;
pub mod slip;
