//! The drain of a run: what is left to do once all roles have ended.
#![tactic(auto)]

mod draining;
mod laws;
mod working;

pub use draining::drain;
pub use laws::ended_nodes_are_empty;
