//! A monitor of a run: a publisher of notes of how far the run has come, and readers in threads of their own, each of which sees a
//! front of the published notes that never gets shorter, and reads the last note of it without waiting.
//!
//! The published notes are a log that stands in proofs alone: it only grows, and whoever has seen a front of it can show that to others.
//! A register carries the newest note, beside the front that it ends, to readers that weren't told of it.
#![tactic(auto)]

mod latest;
mod monitor;
mod note_log;
mod peek;
mod publisher;
mod register;
#[cfg(test)]
mod tests;

pub use monitor::Monitor;
pub use peek::Peek;
pub use publisher::Publisher;
