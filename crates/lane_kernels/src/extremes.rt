//! The least and the greatest sample, and the first place of one.

ghost use Rattle.std.specs.Prelude.{◌≡◌, ◌≢◌, ℕ, false, ◌+◌, ◌*◌, ◌/◌, ◌<◌, ◌≤◌, ◌+ℤ◌, ◌-ℤ◌, length, take, drop, map, pos, Some};
ghost use Rattle.std.specs.Int.{w32, int_wrap};
ghost use Rattle.nd_base.specs.Samples.{width, number, numbers, samples_of};
ghost use Rattle.nd_base.specs.declared.array.SampleType.TheVariants.{Int32, UInt32};
ghost use Rattle.lane_kernels.specs.Plain.{least, greatest, least_with, greatest_with, min_max, stored};
ghost use Rattle.lane_kernels.specs.Lanes.{offset};

use crate::lanes::{byte_lanes, signed_words_at, words_at};
use crate::sample::{low_word, sample_at};
use nd_base::{SampleType, pair_at};
use std::simd::prelude::*;

/// The least and the greatest of some numbers.
#[derive(Clone, Copy)]
pub struct MinMax {
    pub min: i64,
    pub max: i64,
}

/// The number that a lane stands for.
#[inline(always)]
fn from_lane(kind: SampleType, lane: i32) -> i64
    ensures { result ≡ lane +ℤ offset kind }
{
    match kind {
        SampleType::Int8 => i64::from(lane) - 0x80,
        SampleType::UInt16 => i64::from(lane) + 0x8000,
        SampleType::UInt32 => i64::from(lane) + 0x8000_0000,
        _ => i64::from(lane),
    }
}

/// The sample of 16 bits whose bytes begin at index `at`, less 2^15 in UInt16, so that both types go through lanes of 16 bits.
#[inline(always)]
fn pair_lane_at(kind: SampleType, bytes: &[u8], at: usize) -> i16
    requires pair { width kind ≡ 2 }
    requires at { at + width kind ≤ length bytes.now }
    ensures { result +ℤ offset kind ≡ number kind (take (width kind) (drop at bytes.now)) }
{
    match kind {
        SampleType::Int16 => pair_at(bytes, at).cast_signed(),
        SampleType::UInt16 => pair_at(bytes, at).wrapping_add(0x8000).cast_signed(),
        _ => unreachable!(),
    }
}

/// The least and the greatest sample, of 16 bits. The compiler makes lanes of the loop.
#[inline(always)]
fn pair_min_max(kind: SampleType, samples: &[u8]) -> Option<MinMax>
    requires { width kind ≡ 2 }
    ensures { result ≡ min_max (samples_of kind samples.now) }
{
    let width = kind.width();
    if samples.len() < width {
        return None;
    }
    let mut least = pair_lane_at(kind, samples, 0);
    let mut greatest = least;
    for k in 0..samples.len() / width {
        let lane = pair_lane_at(kind, samples, k * width);
        least = least.min(lane);
        greatest = greatest.max(lane);
    }
    Some(MinMax {
        min: from_lane(kind, i32::from(least)),
        max: from_lane(kind, i32::from(greatest)),
    })
}

/// The least of some lanes, and the greatest of others.
#[inline(always)]
fn lane_ends(kind: SampleType, lows: &[i32], highs: &[i32]) -> MinMax
    requires some { 0 < length lows.now }
    requires as_many { length highs.now ≡ length lows.now }
    ensures min { Some result.min ≡ least (map (λ x. x +ℤ offset kind) lows.now) }
    ensures max { Some result.max ≡ greatest (map (λ x. x +ℤ offset kind) highs.now) }
{
    let mut low = lows[0];
    let mut high = highs[0];
    for k in 1..lows.len() {
        low = low.min(lows[k]);
        high = high.max(highs[k]);
    }
    MinMax {
        min: from_lane(kind, low),
        max: from_lane(kind, high),
    }
}

/// The least and the greatest sample of some rows of sixteen samples of 8 bits.
#[inline(always)]
fn byte_ends(kind: SampleType, samples: &[u8], rows: usize) -> MinMax
    requires byte { width kind ≡ 1 }
    requires some { 0 < rows }
    requires within { rows * 16 ≤ length samples.now }
    ensures min { Some result.min ≡ least (numbers kind (rows * 16) samples.now) }
    ensures max { Some result.max ≡ greatest (numbers kind (rows * 16) samples.now) }
{
    let mut lows = byte_lanes(kind, samples, 0);
    let mut highs = lows;
    for k in 1..rows {
        let row = byte_lanes(kind, samples, k * 16);
        lows = lows.simd_min(row);
        highs = highs.simd_max(row);
    }
    lane_ends(
        kind,
        &lows.cast::<i32>().to_array(),
        &highs.cast::<i32>().to_array(),
    )
}

/// The least and the greatest sample of some rows of four samples of 32 bits with a sign.
#[inline(always)]
fn signed_word_ends(samples: &[u8], rows: usize) -> MinMax
    requires some { 0 < rows }
    requires within { rows * 16 ≤ length samples.now }
    ensures min { Some result.min ≡ least (numbers Int32 (rows * 4) samples.now) }
    ensures max { Some result.max ≡ greatest (numbers Int32 (rows * 4) samples.now) }
{
    let mut lows = signed_words_at(samples, 0);
    let mut highs = lows;
    for k in 1..rows {
        let row = signed_words_at(samples, k * 16);
        lows = lows.simd_min(row);
        highs = highs.simd_max(row);
    }
    lane_ends(SampleType::Int32, &lows.to_array(), &highs.to_array())
}

/// Lanes of 32 bits less 2^31, so that they have a sign.
#[inline(always)]
fn lowered(lanes: u32x4) -> i32x4
    requires { length lanes ≡ 4 }
    ensures { result ≡ map (λ x. pos x -ℤ offset UInt32) lanes }
{
    (lanes.cast::<i64>() - i64x4::splat(0x8000_0000)).cast::<i32>()
}

/// The least and the greatest sample of some rows of four samples of 32 bits without a sign.
#[inline(always)]
fn word_ends(samples: &[u8], rows: usize) -> MinMax
    requires some { 0 < rows }
    requires within { rows * 16 ≤ length samples.now }
    ensures min { Some result.min ≡ least (numbers UInt32 (rows * 4) samples.now) }
    ensures max { Some result.max ≡ greatest (numbers UInt32 (rows * 4) samples.now) }
{
    let mut lows = words_at(samples, 0);
    let mut highs = lows;
    for k in 1..rows {
        let row = words_at(samples, k * 16);
        lows = lows.simd_min(row);
        highs = highs.simd_max(row);
    }
    let (lows, highs) = (lowered(lows), lowered(highs));
    lane_ends(SampleType::UInt32, &lows.to_array(), &highs.to_array())
}

/// The least and the greatest of two numbers and of the samples.
#[inline(always)]
fn ends_with(kind: SampleType, samples: &[u8], ends: MinMax) -> MinMax
    ensures min { result.min ≡ least_with ends.min (samples_of kind samples.now) }
    ensures max { result.max ≡ greatest_with ends.max (samples_of kind samples.now) }
{
    let mut min = ends.min;
    let mut max = ends.max;
    for k in 0..samples.len() / kind.width() {
        let sample = sample_at(kind, samples, k);
        min = min.min(sample);
        max = max.max(sample);
    }
    MinMax { min, max }
}

/// The least and the greatest sample, of 8 or of 32 bits, row by row of sixteen bytes.
#[inline(always)]
fn row_min_max(kind: SampleType, samples: &[u8]) -> Option<MinMax>
    requires { width kind ≢ 2 }
    ensures { result ≡ min_max (samples_of kind samples.now) }
{
    let width = kind.width();
    let rows = samples.len() / 16;
    if samples.len() < width {
        None
    } else if rows == 0 {
        let first = sample_at(kind, samples, 0);
        let ends = MinMax {
            min: first,
            max: first,
        };
        Some(ends_with(kind, samples, ends))
    } else {
        let ends = match kind {
            SampleType::Int32 => signed_word_ends(samples, rows),
            SampleType::UInt32 => word_ends(samples, rows),
            _ => byte_ends(kind, samples, rows),
        };
        Some(ends_with(kind, &samples[rows * 16..], ends))
    }
}

/// The least and the greatest sample.
#[inline(always)]
pub(crate) fn min_max(kind: SampleType, samples: &[u8]) -> Option<MinMax>
    ensures { result ≡ min_max (samples_of kind samples.now) }
{
    if kind.width() == 2 {
        pair_min_max(kind, samples)
    } else {
        row_min_max(kind, samples)
    }
}

/// How many samples are looked through at once.
const CHUNK: usize = 64;

/// Whether one of the `size` samples from a place on has these lowest 32 bits. All are looked at, so that the compiler makes lanes of them.
#[inline(always)]
fn has_low(kind: SampleType, samples: &[u8], place: usize, size: usize, low: i32) -> bool
    requires { place + size ≤ length samples.now / width kind }
    ensures { result ≡ false → (k : ℕ) → k < size → int_wrap w32 (stored kind samples.now (place + k)) ≢ low }
{
    let mut found = false;
    for k in 0..size {
        if low_word(sample_at(kind, samples, place + k)) == low {
            found = true;
        }
    }
    found
}

/// A place before which no sample has this value: one from which on a chunk may have it, or where no whole chunk is left.
#[inline(always)]
fn chunk_with(kind: SampleType, samples: &[u8], value: i64) -> usize
    ensures within { result ≤ length samples.now / width kind }
    ensures first { (k : ℕ) → k < result → stored kind samples.now k ≢ value }
{
    let count = samples.len() / kind.width();
    let low = low_word(value);
    let mut place = 0;
    while count - place >= CHUNK && !has_low(kind, samples, place, CHUNK, low) {
        place += CHUNK;
    }
    place
}

/// The place of the first sample with this value, and the number of samples where none has it.
#[inline(always)]
pub(crate) fn first_place(kind: SampleType, samples: &[u8], value: i64) -> usize
    ensures within { result ≤ length samples.now / width kind }
    ensures here { result < length samples.now / width kind → stored kind samples.now result ≡ value }
    ensures first { (k : ℕ) → k < result → stored kind samples.now k ≢ value }
{
    let count = samples.len() / kind.width();
    for k in chunk_with(kind, samples, value)..count {
        if sample_at(kind, samples, k) == value {
            return k;
        }
    }
    count
}
