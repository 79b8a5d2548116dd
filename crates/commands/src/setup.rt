pub mod entry;
pub mod memory;
mod numbered;
pub mod refusal;
pub mod sheet;
