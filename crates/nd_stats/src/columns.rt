//! Samples of 8 or 16 bits without a sign in rows of eight: the sums of their columns, and the sums of these from row to row.

ghost use Rattle.std.specs.Prelude.{◌≡◌, ℕ, ◌<◌, ◌+◌, ◌*◌, ◌/◌, ◌%◌, ◌≤◌, ◌^◌, pos, length, map, unsigned_abs, nat_le, int_lt, not, slice_index_or, if◌then◌else◌};
ghost use Rattle.std.specs.List.{count_by};
ghost use Rattle.std.specs.Simd.Lanes.{zip2, sum_l};
ghost use Rattle.nd_base.specs.Samples.{width, samples_of};
ghost use Rattle.nd_base.specs.declared.array.SampleType.TheVariants.{UInt8, UInt16};
ghost use Rattle.nd_stats.specs.Columns.{IsNarrowUnsigned, moment};
ghost use Rattle.nd_stats.specs.Samples.{placed};
ghost use Rattle.nd_stats.specs.Over.{IsOver};

use crate::over::Over;
use crate::sample::part;
use nd_base::SampleType;
use std::simd::prelude::*;

/// Eight samples of 8 bits.
#[inline(always)]
fn bytes(row: &[u8]) -> u32x8
    requires { length row.now ≡ 8 }
    ensures { result ≡ map unsigned_abs (samples_of UInt8 row.now) }
{
    u8x8::from_slice(row).cast::<u32>()
}

/// Eight samples of 16 bits, as numbers with a sign.
#[inline(always)]
fn signed_pairs(row: &[u8]) -> i32x8
    requires { length row.now ≡ 16 }
    ensures { result ≡ samples_of UInt16 row.now }
{
    let bytes = u8x16::from_slice(row);
    let high = bytes.swizzle([0, 2, 4, 6, 8, 10, 12, 14]).cast::<u16>();
    let low = bytes.swizzle([1, 3, 5, 7, 9, 11, 13, 15]).cast::<u16>();
    (high * u16x8::splat(256) + low).cast::<i32>()
}

/// Eight samples of 16 bits.
#[inline(always)]
fn pairs(row: &[u8]) -> u32x8
    requires { length row.now ≡ 16 }
    ensures { result ≡ map unsigned_abs (samples_of UInt16 row.now) }
{
    signed_pairs(row).cast::<u32>()
}

/// The eight samples of a row.
#[inline(always)]
fn eight(kind: SampleType, row: &[u8]) -> u32x8
    requires kind { IsNarrowUnsigned kind }
    requires whole { length row.now ≡ 8 * width kind }
    ensures values { result ≡ map unsigned_abs (samples_of kind row.now) }
    ensures size { length result ≡ 8 }
    ensures most { (k : ℕ) → k < 8 → slice_index_or result k 0 ≤ 65535 }
{
    match kind {
        SampleType::UInt8 => bytes(row),
        SampleType::UInt16 => pairs(row),
        _ => unreachable!(),
    }
}

/// The least number that reaches a threshold, of those below 2^16.
#[inline(always)]
fn least_of(threshold: i64) -> u32
    ensures { (v : ℕ) → v ≤ 65535 → nat_le result v ≡ not (int_lt (pos v) threshold) }
{
    threshold.clamp(0, 65_536) as u32
}

/// The numbers that are at least so much, and 0 in place of each other one.
#[inline(always)]
fn kept(values: u32x8, least: u32) -> u32x8
    requires { length values ≡ 8 }
    ensures { result ≡ map (λ v. if nat_le least v then v else 0) values }
{
    values
        .simd_ge(u32x8::splat(least))
        .select(values, u32x8::splat(0))
}

/// How many of the numbers are at least so much.
#[inline(always)]
fn reached(values: u32x8, least: u32) -> u32
    requires { length values ≡ 8 }
    ensures { result ≡ count_by (λ v. nat_le least v) values }
{
    values
        .simd_ge(u32x8::splat(least))
        .to_bitmask()
        .count_ones()
}

/// The sums, lane by lane.
#[inline(always)]
fn plus(one: u32x8, two: u32x8) -> u32x8
    requires long { length one ≡ 8 }
    requires as_long { length two ≡ 8 }
    requires fit { (k : ℕ) → k < 8 → slice_index_or one k 0 + slice_index_or two k 0 < 2 ^ 32 }
    ensures { result ≡ zip2 (λ a b. a + b) one two }
{
    one + two
}

/// The sum of the lanes, and that of each lane times its index.
#[inline(always)]
fn lane_sums(lanes: u32x8) -> (u64, u64)
    requires { length lanes ≡ 8 }
    ensures sum { result.0 ≡ sum_l lanes }
    ensures moment { result.1 ≡ moment 0 lanes }
    ensures most { result.0 < 2 ^ 40 }
    ensures most_moment { result.1 < 2 ^ 40 }
{
    let lanes = lanes.to_array();
    let (mut sum, mut moment) = (0u64, 0u64);
    for k in 0..8usize {
        let number = u64::from(lanes[k]);
        sum += number;
        moment += u64::from(k as u8) * number;
    }
    (sum, moment)
}

/// The numbers of rows of eight samples.
#[inline(always)]
pub(crate) fn rows_over(kind: SampleType, threshold: i64, rows: &[u8]) -> Over
    requires kind { IsNarrowUnsigned kind }
    requires whole { length rows.now / width kind % 8 ≡ 0 }
    requires few { length rows.now / width kind ≤ 1024 }
    ensures over { IsOver threshold (placed 0 (samples_of kind rows.now)) result }
    ensures few { result.count ≤ length rows.now / width kind }
    ensures sum { unsigned_abs result.sum ≤ length rows.now / width kind * 4294967296 }
    ensures weighted { unsigned_abs result.weighted ≤ length rows.now / width kind * 549755813888 }
{
    let least = least_of(threshold);
    let count = rows.len() / kind.width() / 8;
    let mut reached_count = 0u32;
    let mut sums = u32x8::splat(0);
    let mut running = u32x8::splat(0);
    for k in 0..count {
        let values = eight(kind, part(kind, rows, k * 8, 8));
        reached_count += reached(values, least);
        sums = plus(sums, kept(values, least));
        running = plus(running, sums);
    }
    let (sum, moment) = lane_sums(sums);
    let (earlier, _) = lane_sums(running);
    Over {
        count: reached_count,
        sum: sum as i64,
        weighted: (moment + count as u64 * 8 * sum) as i64 - (earlier * 8) as i64,
    }
}
