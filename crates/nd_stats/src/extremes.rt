//! The extremes of samples with those of a block more.

ghost use Rattle.std.specs.Prelude.{◌≡◌, ◌+◌, ◌/◌, ◌<◌, ◌≤◌, ◌++◌, List, length, int_lt, if◌then◌else◌};
ghost use Rattle.nd_base.specs.Samples.{width, samples_of};
ghost use Rattle.nd_base.specs.Shapes.{most_samples};
ghost use Rattle.nd_stats.specs.Samples.{Sample, placed, least, greatest};
ghost use Rattle.nd_stats.specs.Running.{AreExtremes};

use crate::tally::Extremes;
use lane_kernels::{MinMax, first_place, min_max_bytes};
use nd_base::SampleType;

/// The lesser of a value and the least sample of a block, with its place. The block begins at `place`; its least sample, `min`, is
/// looked for only where it is below the value.
fn lesser(kind: SampleType, block: &[u8], place: u32, min: i64, value: i64, at: u32) -> (i64, u32)
    requires some { 0 < length block.now / width kind }
    requires few { place + length block.now / width kind ≤ most_samples }
    requires min { min ≡ (least (placed place (samples_of kind block.now))).value }
    ensures value { result.0
        ≡ (if int_lt (least (placed place (samples_of kind block.now))).value value then (least (placed place (samples_of kind block.now))).value else value) }
    ensures at { result.1 ≡ (if int_lt (least (placed place (samples_of kind block.now))).value value then
        (least (placed place (samples_of kind block.now))).place else at) }
{
    if min < value {
        (min, place + first_place(kind, block, min) as u32)
    } else {
        (value, at)
    }
}

/// The greater of a value and the greatest sample of a block, `max`, with its place.
fn greater(kind: SampleType, block: &[u8], place: u32, max: i64, value: i64, at: u32) -> (i64, u32)
    requires some { 0 < length block.now / width kind }
    requires few { place + length block.now / width kind ≤ most_samples }
    requires max { max ≡ (greatest (placed place (samples_of kind block.now))).value }
    ensures value { result.0
        ≡ (if int_lt value (greatest (placed place (samples_of kind block.now))).value then
        (greatest (placed place (samples_of kind block.now))).value else value) }
    ensures at { result.1 ≡ (if int_lt value (greatest (placed place (samples_of kind block.now))).value then
        (greatest (placed place (samples_of kind block.now))).place else at) }
{
    if max > value {
        (max, place + first_place(kind, block, max) as u32)
    } else {
        (value, at)
    }
}

/// The extremes with those of a block behind the other samples, which begins at `place`.
pub(crate) fn with_block(
    extremes: &Extremes,
    kind: SampleType,
    block: &[u8],
    place: u32,
) -> Extremes
    requires some { 0 < length block.now / width kind }
    requires few { place + length block.now / width kind ≤ most_samples }
    ensures { (first : Sample) → (xs : List Sample) → AreExtremes first xs extremes.now
        → AreExtremes first (xs ++ placed place (samples_of kind block.now)) result }
{
    let Some(MinMax { min, max }) = min_max_bytes(kind, block) else {
        unreachable!()
    };
    let (min, min_at) = lesser(kind, block, place, min, extremes.min, extremes.min_at);
    let (max, max_at) = greater(kind, block, place, max, extremes.max, extremes.max_at);
    Extremes {
        min,
        min_at,
        max,
        max_at,
    }
}
