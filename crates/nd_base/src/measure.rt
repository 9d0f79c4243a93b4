//! The statistics of one array.

use crate::Seq;

/// The exact numbers of one array, or of a piece of it. A place is the number of a sample from 0, with
/// dimension 0 the fastest.
#[derive(Debug, Drop)]
pub struct Measure {
    /// The array's unique id.
    pub id: i32,
    /// How many samples there are.
    pub n: u32,
    pub min: i64,
    /// The first place of the least value.
    pub min_at: u32,
    pub max: i64,
    /// The first place of the greatest value.
    pub max_at: u32,
    pub total: i64,
    /// The sum of the squares.
    pub squares: u128,
    /// The sum over the samples at the border, each counted once.
    pub border: i64,
    pub border_n: u32,
    /// How many samples are at or above the threshold.
    pub over: u32,
    /// Their sum.
    pub m0: i64,
    /// Their sum, each times its index in dimension 0.
    pub mx: i128,
    /// Their sum, each times its index in dimension 1.
    pub my: i128,
    /// How many samples are below the histogram's range.
    pub below: u32,
    pub bins: Seq<i64>,
    /// How many samples are above the histogram's range.
    pub above: u32,
    /// The sum for each index in dimension 0.
    pub x: Seq<i64>,
    /// The sum for each index in dimension 1.
    pub y: Seq<i64>,
}
