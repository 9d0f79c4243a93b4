//! Objects in memory, whose calls fail where a list says so.

mod arena;
mod calls;
mod clock;
mod file_list;
mod library;
mod shelf;
mod sink;
mod slow;
mod told_shelf;

pub use clock::MemClock;
pub use library::{MemLibrary, SureLibrary};
pub use shelf::MemShelf;
pub use sink::MemSink;
pub use slow::{SlowLibrary, SlowSink};
pub use told_shelf::ToldShelf;
