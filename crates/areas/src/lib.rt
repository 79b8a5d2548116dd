#![tactic(auto)]

pub mod admission;
pub mod area;
pub mod areaquotas;
pub mod holding;
pub mod limits;
pub mod memory;
pub mod quota;
pub mod quotas;
