//! A ticket lock round one object. Each caller has a pass, which knows the moves that its role has made; all moves stand in the
//! one log that the object means, each once and in its role's order. docs/turn-lock.md explains it.
#![tactic(auto)]

mod counter;
mod crowd;
mod lock;
mod object;
mod rule;
mod steps;
#[cfg(test)]
mod tests;

pub use counter::{Count, Counter, CounterOp, CounterReply};
pub use crowd::{Job, add_then_first, count_all, count_times, jobs, watch};
pub use lock::{Open, Pass, TurnLock};
pub use object::Object;
