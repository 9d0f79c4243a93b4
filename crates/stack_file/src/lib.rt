//! Writes the frames of a stack, each changed in one way, as one netCDF file on a shelf, a few rows at a time: no second
//! stack and no whole file is in memory.
#![tactic(auto)]

mod change;
mod changes;
mod rows;
mod saving;

pub use change::{Change, Unchanged};
pub use changes::{Corrected, Oriented};
pub use saving::save_stack;
