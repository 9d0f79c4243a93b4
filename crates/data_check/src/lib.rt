//! Whether the files of a finished run are there as the run writes them: each file is compared row by row with what the log and the stack say of it,
//! and no more than one array with its row is in memory beside the stack.
#![tactic(auto)]

mod compare;
mod difference;
mod fault;
mod files;
mod front;
mod history;
mod laws;
mod part;
mod rows;

pub use compare::first_difference;
pub use difference::Difference;
pub use fault::CompareFault;
pub use laws::{differences_are_one, history_is_compared};
