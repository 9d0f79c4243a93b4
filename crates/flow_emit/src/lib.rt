//! What goes out of the nodes of a run, and the moves that bring it: an array that is emitted is offered to the children of its node, after
//! an issue, a put, a look at a sort list or a settle.
//!
//! Each call makes one whole move of a `Course`: the entry, and all that follows it by the words of `flow_journal`. The moves that nothing
//! follows are methods of `Course` itself.
#![tactic(auto)]

mod emission;
mod looks;
mod moves;
mod puts;
mod settling;
mod sorting;
mod ticks;
mod watching;

pub use emission::emit;
pub use moves::{drop_at_pool, issue, load, reclaim, refuse_load, saved};
pub use puts::put;
pub use settling::settle;
