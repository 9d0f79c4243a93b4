//! Storage for samples, and the frames that stand on it: blocks of the heap that are filled once, read in many threads at a
//! time, and used again for the next frame.
#![tactic(auto)]

mod blank;
mod frame;
#[cfg(test)]
mod tests;

pub use blank::Blank;
pub use frame::Frame;
