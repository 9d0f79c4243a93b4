//! A whole run with a reader beside it, which tells how far the run had come while it went on.
#![tactic(auto)]

mod lines;
mod reading;
mod run;
#[cfg(test)]
mod tests;
mod whole;

pub use run::{WatchEnd, watch_run};
