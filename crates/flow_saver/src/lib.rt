//! The role that saves the files of a run while the others work, and what is left to save once they have ended.
#![tactic(auto)]

mod ending;
mod piece;
mod remaining;
mod saving;

pub use ending::{end_files, groups_read_back, rows_complete_the_files};
pub use piece::{DuePiece, write_piece};
pub use remaining::{files_go_on, save_left, save_rest};
pub use saving::{SaveEnd, save_role};
