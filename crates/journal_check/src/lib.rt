//! Whether a log is that of a finished run of a graph over a stack.
//!
//! `specs/Verdicts.antt` says what a checker answers, by the legal histories of `flow_journal`.
#![tactic(auto)]

mod check;
mod endings;
mod fault;
mod frame;
mod grants;
mod laws;
mod loads;
mod measures;
mod moves;
mod puts;
mod saves;
mod source;
mod step;
mod takes;

pub use check::check_log;
pub use fault::CheckFault;
pub use laws::verdicts_are_one;
