//! Sums and squares. Samples of at most 16 bits are summed block by block, so that the lanes of a block are narrow.

ghost use Rattle.std.specs.Prelude.{◌≡◌, ◌≢◌, ◌+◌, ◌*◌, ◌/◌, ◌≤◌, length, unsigned_abs};
ghost use Rattle.nd_base.specs.Samples.{width, numbers, samples_of};
ghost use Rattle.nd_base.specs.declared.array.SampleType.TheVariants.{Int16, UInt16};
ghost use Rattle.nd_base.specs.Shapes.{most_samples};
ghost use Rattle.lane_kernels.specs.Plain.{total, squares, run, square_run};

use crate::lanes::{narrow_row, square_row, wide_row};
use crate::sample::{narrow_at, sample_at, sample_square};
use nd_base::{SampleType, number_at};
use std::simd::prelude::*;

/// How many samples a block has.
const BLOCK: usize = 8192;

/// The sum of some samples of at most 16 bits from a place on.
#[inline(always)]
fn sum_block(kind: SampleType, samples: &[u8], place: usize, size: usize) -> i32
    requires narrow { width kind ≤ 2 }
    requires few { size ≤ 8192 }
    requires within { place + size ≤ length samples.now / width kind }
    ensures value { result ≡ run kind samples.now size place }
    ensures bound { unsigned_abs result ≤ size * 65535 }
{
    let mut sum = 0i32;
    for k in 0..size {
        sum += narrow_at(kind, samples, place + k);
    }
    sum
}

/// The sum of samples of at most 16 bits.
#[inline(always)]
fn sum_blocks(kind: SampleType, samples: &[u8]) -> i64
    requires narrow { width kind ≤ 2 }
    requires few { length samples.now / width kind ≤ most_samples }
    ensures { result ≡ total (samples_of kind samples.now) }
{
    let count = samples.len() / kind.width();
    let mut sum = 0i64;
    let mut done = 0;
    while done < count {
        let size = (count - done).min(BLOCK);
        sum += i64::from(sum_block(kind, samples, done, size));
        done += size;
    }
    sum
}

/// How many rows of eight samples a block has.
const ROWS: usize = 1024;

/// The sum of some rows of eight samples, of 8 bits or of 16 with a sign.
#[inline(always)]
fn sum_rows(kind: SampleType, samples: &[u8], rows: usize) -> i32
    requires narrow { width kind ≤ 2 }
    requires other { kind ≢ UInt16 }
    requires few { rows ≤ 1024 }
    requires within { rows * 8 ≤ length samples.now / width kind }
    ensures { result ≡ total (numbers kind (rows * 8) samples.now) }
{
    let mut sums = i32x8::splat(0);
    for k in 0..rows {
        sums += narrow_row(kind, samples, k * 8);
    }
    sums.reduce_sum()
}

/// The sum of samples of 8 bits or of 16 with a sign, row by row.
#[inline(always)]
fn narrow_sum(kind: SampleType, samples: &[u8]) -> i64
    requires narrow { width kind ≤ 2 }
    requires other { kind ≢ UInt16 }
    requires few { length samples.now / width kind ≤ most_samples }
    ensures { result ≡ total (samples_of kind samples.now) }
{
    let width = kind.width();
    let rows = samples.len() / width / 8;
    let mut sum = 0i64;
    let mut done = 0;
    while done < rows {
        let size = (rows - done).min(ROWS);
        sum += i64::from(sum_rows(kind, &samples[done * 8 * width..], size));
        done += size;
    }
    sum + sum_each(kind, &samples[done * 8 * width..])
}

/// The sum of samples of 32 bits, two rows of four at a time.
#[inline(always)]
fn wide_sum(kind: SampleType, samples: &[u8]) -> i64
    requires wide { width kind ≡ 4 }
    requires few { length samples.now / width kind ≤ most_samples }
    ensures { result ≡ total (samples_of kind samples.now) }
{
    let rows = samples.len() / 32;
    let mut sums = i64x4::splat(0);
    for k in 0..rows {
        sums += wide_row(kind, samples, k * 8) + wide_row(kind, samples, k * 8 + 4);
    }
    sums.reduce_sum() + sum_each(kind, &samples[rows * 32..])
}

/// The sum of the samples. The compiler makes better lanes of a loop over samples of 16 bits without a sign.
#[inline(always)]
pub(crate) fn sum(kind: SampleType, samples: &[u8]) -> i64
    requires { length samples.now / width kind ≤ most_samples }
    ensures { result ≡ total (samples_of kind samples.now) }
{
    match kind {
        SampleType::UInt16 => sum_blocks(kind, samples),
        SampleType::Int32 | SampleType::UInt32 => wide_sum(kind, samples),
        _ => narrow_sum(kind, samples),
    }
}

/// The sum of the samples, each added in 64 bits.
#[inline(always)]
fn sum_each(kind: SampleType, samples: &[u8]) -> i64
    requires { length samples.now / width kind ≤ most_samples }
    ensures { result ≡ total (samples_of kind samples.now) }
{
    let width = kind.width();
    let mut sum = 0i64;
    for k in 0..samples.len() / width {
        sum += number_at(kind, samples, k * width);
    }
    sum
}

/// The sum of the squares of samples of at most 16 bits, one by one.
#[inline(always)]
fn narrow_squares(kind: SampleType, samples: &[u8]) -> u64
    requires narrow { width kind ≤ 2 }
    requires few { length samples.now / width kind ≤ most_samples }
    ensures { result ≡ squares (samples_of kind samples.now) }
{
    let mut sum = 0u64;
    for k in 0..samples.len() / kind.width() {
        sum += sample_square(kind, samples, k);
    }
    sum
}

/// The sum of the squares of some rows of sixteen samples of 8 bits. The compiler multiplies and adds up two of each in one step.
#[inline(always)]
fn square_rows(kind: SampleType, samples: &[u8], rows: usize) -> u32
    requires byte { width kind ≡ 1 }
    requires few { rows ≤ 512 }
    requires within { rows * 16 ≤ length samples.now }
    ensures { result ≡ squares (numbers kind (rows * 16) samples.now) }
{
    let mut sums = i32x8::splat(0);
    for k in 0..rows {
        sums += square_row(kind, samples, k * 16) + square_row(kind, samples, k * 16 + 8);
    }
    sums.reduce_sum() as u32
}

/// How many rows of sixteen samples of 8 bits a block has.
const BYTE_ROWS: usize = 512;

/// The sum of the squares of samples of 8 bits.
#[inline(always)]
fn byte_squares(kind: SampleType, samples: &[u8]) -> u64
    requires byte { width kind ≡ 1 }
    requires few { length samples.now / width kind ≤ most_samples }
    ensures { result ≡ squares (samples_of kind samples.now) }
{
    let rows = samples.len() / 16;
    let mut sum = 0u64;
    let mut done = 0;
    while done < rows {
        let size = (rows - done).min(BYTE_ROWS);
        sum += u64::from(square_rows(kind, &samples[done * 16..], size));
        done += size;
    }
    sum + narrow_squares(kind, &samples[done * 16..])
}

/// The sum of the squares of samples of 16 bits with a sign.
#[inline(always)]
fn pair_squares(samples: &[u8]) -> u64
    requires { length samples.now / 2 ≤ most_samples }
    ensures { result ≡ squares (samples_of Int16 samples.now) }
{
    let rows = samples.len() / 16;
    let mut sums = i64x8::splat(0);
    for k in 0..rows {
        sums += square_row(SampleType::Int16, samples, k * 8).cast::<i64>();
    }
    sums.reduce_sum() as u64 + narrow_squares(SampleType::Int16, &samples[rows * 16..])
}

/// The sum of the squares.
#[inline(always)]
pub(crate) fn squares(kind: SampleType, samples: &[u8]) -> u128
    requires { length samples.now / width kind ≤ most_samples }
    ensures { result ≡ squares (samples_of kind samples.now) }
{
    match kind {
        SampleType::Int8 | SampleType::UInt8 => u128::from(byte_squares(kind, samples)),
        SampleType::Int16 => u128::from(pair_squares(samples)),
        _ => sums_by_parts(kind, samples).1,
    }
}

/// The sum, and that of the squares by their sum in 64 bits, which may wrap, and the sum of all but their lowest 36 bits. What the second leaves
/// of the first is less than 64 bits, so that no bit of it is lost. Were they cut at 32 bits, the compiler would make two products of each.
#[inline(always)]
pub(crate) fn sums_by_parts(kind: SampleType, samples: &[u8]) -> (i64, u128)
    requires { length samples.now / width kind ≤ most_samples }
    ensures sum { result.0 ≡ total (samples_of kind samples.now) }
    ensures squares { result.1 ≡ squares (samples_of kind samples.now) }
{
    let mut sum = 0i64;
    let mut whole = 0u64;
    let mut high = 0u64;
    for k in 0..samples.len() / kind.width() {
        sum += sample_at(kind, samples, k);
        let square = sample_square(kind, samples, k);
        whole = whole.wrapping_add(square);
        high += square / 0x10_0000_0000;
    }
    let low = whole.wrapping_sub(high.wrapping_mul(0x10_0000_0000));
    let squares = u128::from(low) + u128::from(high) * 0x10_0000_0000;
    (sum, squares)
}
