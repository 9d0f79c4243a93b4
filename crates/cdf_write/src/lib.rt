//! Writes frames as netCDF classic files (CDF-1 or CDF-2), in the layout of `specs/Layout.antt`: a header, and then
//! the bytes of one row for each frame.
#![tactic(auto)]

mod attributes;
mod header;
mod laws;
mod lengths;
mod row;
mod spelling;
#[cfg(test)]
mod tests;
mod variables;
mod writable;

pub use header::{TooLarge, header_bytes};
pub use laws::files_have_their_lengths;
pub use lengths::{file_length, length_with};
pub use row::{push_row, row_bytes};
pub use writable::{has_columns, is_writable};
