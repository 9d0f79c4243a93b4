//! The header of a netCDF classic file, CDF-1 or CDF-2, read from its bytes: every header with all its
//! parts, or the first fault from the left with its place (NetCDF Classic Format Specification).
#![tactic(auto)]

mod fault;
mod field;
mod head;
mod header;
mod parts;
mod place;
mod size;
mod word;

pub use fault::CdfFault;
pub use head::{HeadAttr, HeadDim, HeadVar, Header};
pub use header::{faults_are_first, header_or_fault, read_header};
pub use place::{has_value, value_place};
pub use size::size_of_value;
