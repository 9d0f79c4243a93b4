//! Sums, extremes and squares over samples as bytes, the most significant byte first.
#![tactic(auto)]

ghost use Rattle.std.specs.Prelude.{◌≡◌, ◌≢◌, ℕ, ◌*◌, ◌/◌, ◌%◌, ◌<◌, ◌≤◌, ◌+ℤ◌, pos, length, slice_index_or, FitsSigned};
ghost use Rattle.std.specs.Int.{w32, w64, int_wrap};
ghost use Rattle.nd_base.specs.Samples.{width, samples_of};
ghost use Rattle.nd_base.specs.Shapes.{most_samples};
ghost use Rattle.lane_kernels.specs.Plain.{total, squares, least, greatest, min_max, stored, run};

mod binned;
mod extremes;
mod lanes;
mod sample;
mod sums;
mod words;

pub use extremes::MinMax;
use nd_base::SampleType;
pub use sample::{low_word, narrow_at, sample_at};

/// The sum of the samples.
pub fn sum_bytes(kind: SampleType, samples: &[u8]) -> i64
    requires whole { length samples.now % width kind ≡ 0 }
    requires few { length samples.now / width kind ≤ most_samples }
    ensures { result ≡ total (samples_of kind samples.now) }
{
    match kind {
        SampleType::Int8 => sums::sum(SampleType::Int8, samples),
        SampleType::UInt8 => sums::sum(SampleType::UInt8, samples),
        SampleType::Int16 => sums::sum(SampleType::Int16, samples),
        SampleType::UInt16 => sums::sum(SampleType::UInt16, samples),
        SampleType::Int32 => sums::sum(SampleType::Int32, samples),
        SampleType::UInt32 => sums::sum(SampleType::UInt32, samples),
    }
}

/// The sum of the squares of the samples.
#[inline(never)]
pub fn squares_bytes(kind: SampleType, samples: &[u8]) -> u128
    requires whole { length samples.now % width kind ≡ 0 }
    requires few { length samples.now / width kind ≤ most_samples }
    ensures { result ≡ squares (samples_of kind samples.now) }
{
    match kind {
        SampleType::Int8 => sums::squares(SampleType::Int8, samples),
        SampleType::UInt8 => sums::squares(SampleType::UInt8, samples),
        SampleType::Int16 => sums::squares(SampleType::Int16, samples),
        SampleType::UInt16 => words::sum_and_squares(samples).1,
        SampleType::Int32 => sums::squares(SampleType::Int32, samples),
        SampleType::UInt32 => sums::squares(SampleType::UInt32, samples),
    }
}

/// The sum of the samples, and that of their squares.
pub fn sums_bytes(kind: SampleType, samples: &[u8]) -> (i64, u128)
    requires whole { length samples.now % width kind ≡ 0 }
    requires few { length samples.now / width kind ≤ most_samples }
    ensures sum { result.0 ≡ total (samples_of kind samples.now) }
    ensures squares { result.1 ≡ squares (samples_of kind samples.now) }
{
    match kind {
        SampleType::UInt16 => words::sum_and_squares(samples),
        SampleType::Int32 => sums::sums_by_parts(SampleType::Int32, samples),
        SampleType::UInt32 => sums::sums_by_parts(SampleType::UInt32, samples),
        _ => (sum_bytes(kind, samples), squares_bytes(kind, samples)),
    }
}

/// The least and the greatest sample; None where there is none.
#[inline(never)]
pub fn min_max_bytes(kind: SampleType, samples: &[u8]) -> Option<MinMax>
    ensures { result ≡ min_max (samples_of kind samples.now) }
{
    match kind {
        SampleType::Int8 => extremes::min_max(SampleType::Int8, samples),
        SampleType::UInt8 => extremes::min_max(SampleType::UInt8, samples),
        SampleType::Int16 => extremes::min_max(SampleType::Int16, samples),
        SampleType::UInt16 => extremes::min_max(SampleType::UInt16, samples),
        SampleType::Int32 => extremes::min_max(SampleType::Int32, samples),
        SampleType::UInt32 => extremes::min_max(SampleType::UInt32, samples),
    }
}

/// The least sample; None where there is none.
pub fn min_bytes(kind: SampleType, samples: &[u8]) -> Option<i64>
    ensures { result ≡ least (samples_of kind samples.now) }
{
    let both = min_max_bytes(kind, samples)?;
    Some(both.min)
}

/// The greatest sample; None where there is none.
pub fn max_bytes(kind: SampleType, samples: &[u8]) -> Option<i64>
    ensures { result ≡ greatest (samples_of kind samples.now) }
{
    let both = min_max_bytes(kind, samples)?;
    Some(both.max)
}

/// The place of the first sample with this value, and the number of samples where none has it.
#[inline(never)]
pub fn first_place(kind: SampleType, samples: &[u8], value: i64) -> usize
    ensures within { result ≤ length samples.now / width kind }
    ensures here { result < length samples.now / width kind → stored kind samples.now result ≡ value }
    ensures first { (k : ℕ) → k < result → stored kind samples.now k ≢ value }
{
    match kind {
        SampleType::Int8 => extremes::first_place(SampleType::Int8, samples, value),
        SampleType::UInt8 => extremes::first_place(SampleType::UInt8, samples, value),
        SampleType::Int16 => extremes::first_place(SampleType::Int16, samples, value),
        SampleType::UInt16 => extremes::first_place(SampleType::UInt16, samples, value),
        SampleType::Int32 => extremes::first_place(SampleType::Int32, samples, value),
        SampleType::UInt32 => extremes::first_place(SampleType::UInt32, samples, value),
    }
}

/// Adds to number i of `sums` the samples `i * bin` to `i * bin + bin - 1` of the line. A sum that leaves its type wraps.
pub fn add_binned(kind: SampleType, line: &[u8], bin: u32, sums: &mut [i64])
    requires within { length sums.old * bin ≤ length line.now / width kind }
    requires fit { (k : ℕ) → k < length sums.old → FitsSigned w64 (slice_index_or sums.old k (pos 0)) }
    ensures { (k : ℕ) → k < length sums.new
        → slice_index_or sums.new k (pos 0) ≡ int_wrap w64 (slice_index_or sums.old k (pos 0) +ℤ run kind line.now bin (k * bin)) }
{
    let bin = bin as usize;
    match kind {
        SampleType::Int8 => binned::add_runs(SampleType::Int8, line, bin, sums),
        SampleType::UInt8 => binned::add_bytes(line, bin, sums),
        SampleType::Int16 => binned::add_runs(SampleType::Int16, line, bin, sums),
        SampleType::UInt16 => binned::add_runs(SampleType::UInt16, line, bin, sums),
        SampleType::Int32 => binned::add_runs(SampleType::Int32, line, bin, sums),
        SampleType::UInt32 => binned::add_runs(SampleType::UInt32, line, bin, sums),
    }
}

/// The same with sums of 32 bits: what leaves them is lost.
#[inline(never)]
pub fn add_binned_low(kind: SampleType, line: &[u8], bin: u32, sums: &mut [i32])
    requires { length sums.old * bin ≤ length line.now / width kind }
    ensures { (k : ℕ) → k < length sums.new
        → slice_index_or sums.new k (pos 0) ≡ int_wrap w32 (slice_index_or sums.old k (pos 0) +ℤ run kind line.now bin (k * bin)) }
{
    let bin = bin as usize;
    match kind {
        SampleType::Int8 => binned::add_low_runs(SampleType::Int8, line, bin, sums),
        SampleType::UInt8 => binned::add_low_runs(SampleType::UInt8, line, bin, sums),
        SampleType::Int16 => binned::add_low_runs(SampleType::Int16, line, bin, sums),
        SampleType::UInt16 => binned::add_low_runs(SampleType::UInt16, line, bin, sums),
        SampleType::Int32 => binned::add_low_runs(SampleType::Int32, line, bin, sums),
        SampleType::UInt32 => binned::add_low_runs(SampleType::UInt32, line, bin, sums),
    }
}
