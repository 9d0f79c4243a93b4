//! The plain meaning of a graph over a stack: what each frame holds, and what each node passes on.
#![tactic(auto)]

mod contents;
mod laws;
mod outputs;
mod plans;
mod shape;

pub use contents::content;
pub use laws::{contents_are_as_planned, contents_follow_the_graph};
pub use outputs::plain_outputs;
pub use plans::{maker_for, plan};
