pub mod byslot;
pub mod reserve;
pub mod weight;
