//! Runs that have room for all their frames, and the demo run, which is one: laws over histories alone.
#![tactic(auto)]

mod laws;

pub use laws::{ample_reports_are_whole, ample_runs_are_smooth, demos_are_whole};
