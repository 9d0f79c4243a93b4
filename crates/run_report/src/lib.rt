//! The report of a run: what its log counts, and the text that is printed of it.
//!
//! `specs/Report.antt` says each counter as a count of entries of the log. It is so of every log, legal or not.
#![tactic(auto)]

mod counting;
mod counts;
mod feed;
mod laws;
mod reclaims;
mod tally;
#[cfg(test)]
mod tests;
mod text;

pub use counting::counters;
pub use counts::{Counters, NodeCount};
pub use laws::{counts_are_of_runs, offers_are_counted};
pub use text::report_text;
