//! What a board keeps by block number: a frame, storage, or nothing.
//!
//! Contracts see a `FrameTable` as a list of `Kept`, one for each block number from 0 on (`specs/Kept.antt`).
#![tactic(auto)]

mod place;
mod table;

pub use table::{FrameTable, Taken};
