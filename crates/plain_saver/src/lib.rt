//! The files of a plain run: a graph over a stack in one thread, frame by frame.
#![tactic(auto)]

mod gathering;
mod node_rooms;
mod passes;
mod passing;
mod rooms;
mod rows;
mod saver;
mod saving;
mod source;
mod texts;

pub use passing::passed;
pub use saving::save_files;
