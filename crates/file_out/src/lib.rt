//! Writes netCDF files to a shelf, one frame after the other: a header, the rows of the frames, and at the end
//! the number of records where the header left it open.
#![tactic(auto)]

mod fault;
mod group;
mod stream;
#[cfg(test)]
mod tests;

pub use fault::SaveFault;
pub use group::{Row, is_row, save_group};
pub use stream::StreamFile;
