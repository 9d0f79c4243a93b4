//! The log of a board, with what was handed over beside its entries, which only contracts see.
//!
//! Contracts see a `ToldLog` as the record `ToldState`: the entries with what was told beside them, and how many there is room for
//! (`specs/ToldLogs.antt`).
#![tactic(auto)]

mod laws;
mod log;
mod lost;

pub use laws::reclaims_have_room;
pub use log::ToldLog;
pub use lost::LostBlocks;
