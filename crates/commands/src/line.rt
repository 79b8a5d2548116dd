pub mod reads;
pub mod verb;
