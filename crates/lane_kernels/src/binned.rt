//! Binned lines.

ghost use Rattle.std.specs.Prelude.{◌≡◌, ◌≢◌, ℕ, ◌+◌, ◌*◌, ◌/◌, ◌<◌, ◌≤◌, length, pos, ◌+ℤ◌, slice_index_or, map, FitsSigned};
ghost use Rattle.std.specs.Int.{w32, w64, int_wrap};
ghost use Rattle.std.specs.List.{range_with_len};
ghost use Rattle.nd_base.specs.Samples.{width};
ghost use Rattle.nd_base.specs.declared.array.SampleType.TheVariants.{UInt8, Int16, UInt16};
ghost use Rattle.lane_kernels.specs.Plain.{stored, run};

use crate::lanes::{byte_lanes, signed_words_at};
use crate::sample::{low_word, sample_at};
use nd_base::{SampleType, pair_at, word_at};
use std::simd::prelude::*;

/// The sum of the `bin` samples from a place on.
#[inline(always)]
#[tactic(auto, using(crate::proofs::Wraps::wrapping))]
fn sum_run(kind: SampleType, input: &[u8], bin: usize, place: usize) -> i64
    requires { place + bin ≤ length input.now / width kind }
    ensures { result ≡ int_wrap w64 (run kind input.now bin place) }
{
    let mut sum = 0i64;
    for j in 0..bin {
        sum = sum.wrapping_add(sample_at(kind, input, place + j));
    }
    sum
}

/// Adds `bin` samples to each sum, those from `place` on to the first.
#[inline(always)]
#[tactic(auto, using(crate::proofs::Wraps::wrapping))]
fn add_each(kind: SampleType, input: &[u8], bin: usize, place: usize, sums: &mut [i64])
    requires { place + length sums.old * bin ≤ length input.now / width kind }
    ensures { (k : ℕ) → k < length sums.new
        → slice_index_or sums.new k (pos 0) ≡ int_wrap w64 (slice_index_or sums.old k (pos 0) +ℤ run kind input.now bin (place + k * bin)) }
{
    let mut at = place;
    for sum in sums.iter_mut() {
        *sum = sum.wrapping_add(sum_run(kind, input, bin, at));
        at += bin;
    }
}

/// What is left in 32 bits of the sum of the first `bin` samples, one by one.
#[inline(always)]
#[tactic(auto, using(crate::proofs::Wraps::wrapping))]
fn low_run_each(kind: SampleType, samples: &[u8], bin: usize) -> i32
    requires { bin ≤ length samples.now / width kind }
    ensures { result ≡ int_wrap w32 (run kind samples.now bin 0) }
{
    let mut sum = 0i32;
    for j in 0..bin {
        sum = sum.wrapping_add(low_word(sample_at(kind, samples, j)));
    }
    sum
}

/// The sum of the first two bytes without a sign, read as one pair.
#[inline(always)]
fn sum_of_bytes(samples: &[u8]) -> i32
    requires { 2 ≤ length samples.now / width UInt8 }
    ensures { result ≡ run UInt8 samples.now 2 0 }
{
    let pair = pair_at(samples, 0);
    (pair / 0x100 + pair % 0x100) as i32
}

/// The sum of two samples of 16 bits without a sign, read as one word.
#[inline(always)]
fn sum_of_two(input: &[u8], place: usize) -> i32
    requires { place + 2 ≤ length input.now / width UInt16 }
    ensures { result ≡ run UInt16 input.now 2 place }
{
    let word = word_at(input, place * 2);
    (word / 0x1_0000 + word % 0x1_0000) as i32
}

/// The sample of 16 bits without a sign at a place. With the code of all types in its place `add_low_runs` would grow too large to be
/// compiled for each type.
#[inline(always)]
#[tactic(auto, using(crate::proofs::Narrow::narrow_stored))]
fn unsigned_at(input: &[u8], place: usize) -> i32
    requires { place < length input.now / width UInt16 }
    ensures { result ≡ stored UInt16 input.now place }
{
    i32::from(pair_at(input, place * 2))
}

/// What is left in 32 bits of the sum of the first `bin` samples, of 16 bits without a sign, two by two.
#[inline(always)]
#[tactic(auto, using(crate::proofs::Wraps::wrapping))]
fn low_run_by_two(samples: &[u8], bin: usize) -> i32
    requires { bin ≤ length samples.now / width UInt16 }
    ensures { result ≡ int_wrap w32 (run UInt16 samples.now bin 0) }
{
    let mut sum = 0i32;
    for j in 0..bin / 2 {
        sum = sum.wrapping_add(sum_of_two(samples, j * 2));
    }
    if bin % 2 == 0 {
        sum
    } else {
        let last = unsigned_at(samples, bin - 1);
        sum.wrapping_add(last)
    }
}

/// What is left in 32 bits of the sum of the first `bin` samples.
#[inline(always)]
fn low_run(kind: SampleType, samples: &[u8], bin: usize) -> i32
    requires { bin ≤ length samples.now / width kind }
    ensures { result ≡ int_wrap w32 (run kind samples.now bin 0) }
{
    match kind {
        SampleType::UInt8 if bin == 2 => sum_of_bytes(samples),
        SampleType::UInt16 => low_run_by_two(samples, bin),
        _ => low_run_each(kind, samples, bin),
    }
}

/// Adds `bin` samples to each sum of 32 bits, those from the line's start on to the first. Each sum's samples are a slice of their own, of
/// a length that the compiler knows: so it tests only where the slice ends, and makes lanes of the loop.
#[inline(always)]
#[tactic(auto, using(crate::proofs::Wraps::wrapping, crate::proofs::Slices::run_end))]
fn add_low_each(kind: SampleType, line: &[u8], bin: usize, sums: &mut [i32])
    requires { length sums.old * bin ≤ length line.now / width kind }
    ensures { (k : ℕ) → k < length sums.new
        → slice_index_or sums.new k (pos 0) ≡ int_wrap w32 (slice_index_or sums.old k (pos 0) +ℤ run kind line.now bin (k * bin)) }
{
    let mut at = 0;
    for sum in sums.iter_mut() {
        let end = at + bin * kind.width();
        *sum = sum.wrapping_add(low_run(kind, &line[at..end], bin));
        at = end;
    }
}

/// How many sums are added to at once.
const LANES: usize = 8;

/// The sums of each two bytes.
#[inline(always)]
fn pair_sums(bytes: u8x16) -> i64x8
    ensures { result ≡ map (λ k. pos (slice_index_or bytes (k * 2) 0 + slice_index_or bytes (k * 2 + 1) 0)) (range_with_len 0 8) }
{
    let first = bytes.swizzle([0, 2, 4, 6, 8, 10, 12, 14]).cast::<u16>();
    let second = bytes.swizzle([1, 3, 5, 7, 9, 11, 13, 15]).cast::<u16>();
    (first + second).cast::<i64>()
}

/// Adds two bytes to each of eight sums, those from `place` on to the first.
#[inline(always)]
fn add_lanes(input: &[u8], place: usize, sums: &mut [i64])
    requires room { place + 16 ≤ length input.now }
    requires lanes { length sums.old ≡ 8 }
    requires fit { (k : ℕ) → k < length sums.old → FitsSigned w64 (slice_index_or sums.old k (pos 0)) }
    ensures { (k : ℕ) → k < length sums.new
        → slice_index_or sums.new k (pos 0) ≡ int_wrap w64 (slice_index_or sums.old k (pos 0) +ℤ run UInt8 input.now 2 (place + k * 2)) }
{
    let more = pair_sums(u8x16::from_slice(&input[place..]));
    (i64x8::from_slice(sums) + more).copy_to_slice(sums);
}

/// Adds two bytes to each sum, those from `place` on to the first.
fn add_byte_pairs(input: &[u8], place: usize, sums: &mut [i64])
    requires within { place + length sums.old * 2 ≤ length input.now }
    requires fit { (k : ℕ) → k < length sums.old → FitsSigned w64 (slice_index_or sums.old k (pos 0)) }
    ensures { (k : ℕ) → k < length sums.new
        → slice_index_or sums.new k (pos 0) ≡ int_wrap w64 (slice_index_or sums.old k (pos 0) +ℤ run UInt8 input.now 2 (place + k * 2)) }
{
    let mut done = 0;
    while sums.len() - done >= LANES {
        let end = done + LANES;
        add_lanes(input, place + done * 2, &mut sums[done..end]);
        done = end;
    }
    add_each(
        SampleType::UInt8,
        input,
        2,
        place + done * 2,
        &mut sums[done..],
    );
}

/// The sums of each two of the sixteen samples of 8 bits from a place on, in 32 bits.
#[inline(always)]
fn byte_pair_sums(kind: SampleType, line: &[u8], place: usize) -> i32x8
    requires byte { width kind ≡ 1 }
    requires room { place + 16 ≤ length line.now }
    ensures { result ≡ map (λ k. run kind line.now 2 (place + k * 2)) (range_with_len 0 8) }
{
    let sums = pair_sums(byte_lanes(kind, line, place)).cast::<i32>();
    match kind {
        SampleType::Int8 => sums - i32x8::splat(256),
        SampleType::UInt8 => sums,
        _ => unreachable!(),
    }
}

/// The sums of each two of the eight samples of 16 bits with a sign from a place on. Shifts take the two out of each word, with their signs.
#[inline(always)]
fn signed_pair_sums(line: &[u8], place: usize) -> i32x4
    requires { place * 2 + 16 ≤ length line.now }
    ensures { result ≡ map (λ k. run Int16 line.now 2 (place + k * 2)) (range_with_len 0 4) }
{
    let row = signed_words_at(line, place * 2);
    ((row << 16) >> 16) + (row >> 16)
}

/// The sums of each two of the sixteen samples from a place on, of 8 bits or of 16 with a sign, in 32 bits.
#[inline(always)]
fn low_pair_sums(kind: SampleType, line: &[u8], place: usize) -> i32x8
    requires narrow { width kind ≤ 2 }
    requires other { kind ≢ UInt16 }
    requires room { place + 16 ≤ length line.now / width kind }
    ensures { result ≡ map (λ k. run kind line.now 2 (place + k * 2)) (range_with_len 0 8) }
{
    match kind {
        SampleType::Int16 => {
            let first = signed_pair_sums(line, place);
            let second = signed_pair_sums(line, place + 8);
            first.shuffle(second, [0, 1, 2, 3, 4, 5, 6, 7])
        }
        _ => byte_pair_sums(kind, line, place),
    }
}

/// Adds two samples of 8 bits, or of 16 with a sign, to each of eight sums of 32 bits, those from a place on to the first. The compiler
/// adds them in lanes.
#[inline(always)]
#[tactic(auto, using(crate::proofs::Wraps::wrapping))]
fn add_low_lanes(kind: SampleType, line: &[u8], place: usize, sums: &mut [i32])
    requires narrow { width kind ≤ 2 }
    requires other { kind ≢ UInt16 }
    requires room { place + 16 ≤ length line.now / width kind }
    requires lanes { length sums.old ≡ 8 }
    ensures { (k : ℕ) → k < length sums.new
        → slice_index_or sums.new k (pos 0) ≡ int_wrap w32 (slice_index_or sums.old k (pos 0) +ℤ run kind line.now 2 (place + k * 2)) }
{
    let more = low_pair_sums(kind, line, place).to_array();
    for k in 0..LANES {
        sums[k] = sums[k].wrapping_add(more[k]);
    }
}

/// Adds two samples of 8 bits, or of 16 with a sign, to each sum of 32 bits, those from the line's start on to the first.
fn add_low_pairs(kind: SampleType, line: &[u8], sums: &mut [i32])
    requires narrow { width kind ≤ 2 }
    requires other { kind ≢ UInt16 }
    requires within { length sums.old * 2 ≤ length line.now / width kind }
    ensures { (k : ℕ) → k < length sums.new
        → slice_index_or sums.new k (pos 0) ≡ int_wrap w32 (slice_index_or sums.old k (pos 0) +ℤ run kind line.now 2 (k * 2)) }
{
    let mut done = 0;
    while sums.len() - done >= LANES {
        let end = done + LANES;
        add_low_lanes(kind, line, done * 2, &mut sums[done..end]);
        done = end;
    }
    add_low_each(kind, &line[done * 2 * kind.width()..], 2, &mut sums[done..]);
}

/// Adds `bin` samples to each sum. The usual bins have code of their own.
#[inline(always)]
pub(crate) fn add_runs(kind: SampleType, line: &[u8], bin: usize, sums: &mut [i64])
    requires within { length sums.old * bin ≤ length line.now / width kind }
    ensures { (k : ℕ) → k < length sums.new
        → slice_index_or sums.new k (pos 0) ≡ int_wrap w64 (slice_index_or sums.old k (pos 0) +ℤ run kind line.now bin (k * bin)) }
{
    match bin {
        1 => add_each(kind, line, 1, 0, sums),
        2 => add_each(kind, line, 2, 0, sums),
        3 => add_each(kind, line, 3, 0, sums),
        4 => add_each(kind, line, 4, 0, sums),
        8 => add_each(kind, line, 8, 0, sums),
        _ => add_each(kind, line, bin, 0, sums),
    }
}

/// Adds `bin` samples to each sum of 32 bits. The usual bins have code of their own.
#[inline(always)]
pub(crate) fn add_low_runs(kind: SampleType, line: &[u8], bin: usize, sums: &mut [i32])
    requires { length sums.old * bin ≤ length line.now / width kind }
    ensures { (k : ℕ) → k < length sums.new
        → slice_index_or sums.new k (pos 0) ≡ int_wrap w32 (slice_index_or sums.old k (pos 0) +ℤ run kind line.now bin (k * bin)) }
{
    match bin {
        1 => add_low_each(kind, line, 1, sums),
        2 if kind.width() == 1 || kind == SampleType::Int16 => add_low_pairs(kind, line, sums),
        2 => add_low_each(kind, line, 2, sums),
        3 => add_low_each(kind, line, 3, sums),
        4 => add_low_each(kind, line, 4, sums),
        8 => add_low_each(kind, line, 8, sums),
        _ => add_low_each(kind, line, bin, sums),
    }
}

/// The same of unsigned bytes, two by two in lanes.
pub(crate) fn add_bytes(line: &[u8], bin: usize, sums: &mut [i64])
    requires within { length sums.old * bin ≤ length line.now }
    requires fit { (k : ℕ) → k < length sums.old → FitsSigned w64 (slice_index_or sums.old k (pos 0)) }
    ensures { (k : ℕ) → k < length sums.new
        → slice_index_or sums.new k (pos 0) ≡ int_wrap w64 (slice_index_or sums.old k (pos 0) +ℤ run UInt8 line.now bin (k * bin)) }
{
    match bin {
        2 => add_byte_pairs(line, 0, sums),
        _ => add_runs(SampleType::UInt8, line, bin, sums),
    }
}
