//! What a run reads from and writes to, as traits: files to read, files to write, and a sink of
//! bytes. Each has a meaning that its contracts speak of, and a count of its faults. Beside
//! them stand objects in memory for tests, and adapters over real files and standard output.
#![tactic(auto)]

mod clock;
mod disk;
mod failed;
mod gate;
mod gates;
mod library;
mod memory;
mod real_clock;
mod shelf;
mod sink;
#[cfg(test)]
mod tests;

pub use clock::Clock;
pub use disk::{DiskLibrary, DiskShelf, OutSink};
pub use failed::Failed;
pub use gate::Gate;
pub use gates::{AppendGate, OpenGate, PairGate};
pub use library::Library;
pub use memory::{
    MemClock, MemLibrary, MemShelf, MemSink, SlowLibrary, SlowSink, SureLibrary, ToldShelf,
};
pub use real_clock::RealClock;
pub use shelf::Shelf;
pub use sink::Sink;

/// Memory could not be had.
pub type OutOfMemory = std::alloc::AllocError;
