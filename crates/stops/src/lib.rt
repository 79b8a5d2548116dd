#![tactic(auto)]

pub mod atmost;
pub mod blank;
pub mod class;
pub mod limits;
pub mod place;
pub mod refusal;
pub mod slot;
pub mod stop;
pub mod table;
