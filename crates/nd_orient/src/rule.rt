//! How an array is corrected.

/// What a correction does with the difference of a sample and its dark sample: times `num`, over `den`, plus `offset`,
/// and then brought to `low` to `high`.
#[derive(Clone, Copy, Debug, PartialEq, Eq)]
pub struct CorrectRule {
    pub offset: i32,
    pub num: i32,
    pub den: i32,
    pub low: i32,
    pub high: i32,
}
