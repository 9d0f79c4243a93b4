//! The exact statistics of an array, after NDPluginStats: whole numbers alone, in one pass over the samples.
//!
//! A measure has the count, the least and the greatest value with their first places, the sums, those at the
//! border, those at or above a threshold with their moments, a histogram and profiles. `specs/Measured.antt`
//! says each of them over the whole list of samples. Measures of pieces are merged ([`Merge`]).
#![tactic(auto)]

mod blocks;
mod border;
mod chunks;
mod columns;
mod extremes;
mod histogram;
mod lines;
mod measures;
mod merge;
mod over;
mod profiles;
mod row;
mod sample;
mod spot;
mod tally;

pub use chunks::measure_chunks;
pub use measures::{measure, measure_piece};
pub use merge::Merge;
pub use row::row_text;
