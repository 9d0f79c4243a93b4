//! The sum and the squares of unsigned samples of 16 bits in one pass, two samples out of one word.

ghost use Rattle.std.specs.Prelude.{◌≡◌, ◌+◌, ◌*◌, ◌/◌, ◌%◌, ◌≤◌, ◌+ℤ◌, length, pos, unsigned_abs};
ghost use Rattle.nd_base.specs.Samples.{width, numbers, samples_of};
ghost use Rattle.nd_base.specs.Shapes.{most_samples};
ghost use Rattle.nd_base.specs.declared.array.SampleType.TheVariants.{UInt16};
ghost use Rattle.lane_kernels.specs.Plain.{total, squares, run, square_run};

use crate::sample::{sample_at, sample_square};
use nd_base::{SampleType, word_at};

/// How far the two samples of a word lie above 2^15. The compiler multiplies numbers of 16 bits with a sign, and adds each two
/// products, in one step.
#[inline(always)]
fn above_middle(word: u32) -> (i32, i32)
    ensures high { result.0 +ℤ pos 32768 ≡ pos (word / 65536) }
    ensures low { result.1 +ℤ pos 32768 ≡ pos (word % 65536) }
{
    let flipped = (word ^ 0x8000).wrapping_add(0x8000_0000);
    let low = ((flipped % 0x1_0000) as u16).cast_signed();
    (flipped.cast_signed() >> 16, i32::from(low))
}

/// The square of a number that lies at most 2^15 from 0.
#[inline(always)]
fn near_square(number: i32) -> u32
    requires { unsigned_abs number ≤ 32768 }
    ensures value { result ≡ unsigned_abs number * unsigned_abs number }
    ensures bound { result ≤ 1073741824 }
{
    (number * number).cast_unsigned()
}

/// The squares of how far the two samples of a word lie from 2^15, added up.
#[inline(always)]
fn squares_around(word: u32) -> u32
    ensures value { result + 65536 * (word / 65536 + word % 65536)
        ≡ word / 65536 * (word / 65536) + word % 65536 * (word % 65536) + 2147483648 }
    ensures bound { result ≤ 2147483648 }
{
    let (high, low) = above_middle(word);
    near_square(high) + near_square(low)
}

/// The sum of the samples of some words from a place on, and that of their squares.
#[inline(always)]
fn word_block(samples: &[u8], place: usize, size: usize) -> (u32, u64)
    requires few { size ≤ 4096 }
    requires within { (place + size) * 4 ≤ length samples.now }
    ensures sum { pos result.0 ≡ run UInt16 samples.now (size * 2) (place * 2) }
    ensures squares { result.1 ≡ square_run UInt16 samples.now (size * 2) (place * 2) }
    ensures small { result.0 ≤ size * 131070 }
    ensures small_squares { result.1 ≤ size * 8589869055 }
{
    let mut sum = 0u32;
    let (mut low, mut high) = (0u32, 0u32);
    for k in 0..size {
        let word = word_at(samples, (place + k) * 4);
        let around = squares_around(word);
        sum += word / 0x1_0000 + word % 0x1_0000;
        low += around % 0x1_0000;
        high += around / 0x1_0000;
    }
    let squares = u64::from(low) + (u64::from(high) + u64::from(sum)) * 0x1_0000;
    (sum, squares - size as u64 * 0x8000_0000)
}

/// How many words a block has.
const BLOCK: usize = 4096;

/// The sum of the samples of all whole words, and that of their squares.
#[inline(always)]
fn word_blocks(samples: &[u8]) -> (u64, u64)
    requires { length samples.now / 4 ≤ 33554432 }
    ensures sum { pos result.0 ≡ total (numbers UInt16 (length samples.now / 4 * 2) samples.now) }
    ensures squares { result.1 ≡ squares (numbers UInt16 (length samples.now / 4 * 2) samples.now) }
    ensures small { result.0 ≤ length samples.now / 4 * 131070 }
    ensures small_squares { result.1 ≤ length samples.now / 4 * 8589869055 }
{
    let count = samples.len() / 4;
    let mut sum = 0u64;
    let mut squares = 0u64;
    let mut done = 0;
    while done < count {
        let size = (count - done).min(BLOCK);
        let (more, more_squares) = word_block(samples, done, size);
        sum += u64::from(more);
        squares += more_squares;
        done += size;
    }
    (sum, squares)
}

/// The sum of the samples, and that of their squares.
#[inline(never)]
pub(crate) fn sum_and_squares(samples: &[u8]) -> (i64, u128)
    requires whole { length samples.now % width UInt16 ≡ 0 }
    requires few { length samples.now / width UInt16 ≤ most_samples }
    ensures sum { result.0 ≡ total (samples_of UInt16 samples.now) }
    ensures squares { result.1 ≡ squares (samples_of UInt16 samples.now) }
{
    let (sum, squares) = word_blocks(samples);
    if samples.len() % 4 == 0 {
        return (sum as i64, u128::from(squares));
    }
    let place = samples.len() / 4 * 2;
    let last = sample_at(SampleType::UInt16, samples, place);
    let square = sample_square(SampleType::UInt16, samples, place);
    (sum as i64 + last, u128::from(squares + square))
}
