//! The samples of a line that reach the threshold.

ghost use Rattle.std.specs.Prelude.{◌≡◌, ℤ, ◌+◌, ◌*◌, ◌/◌, ◌<◌, ◌≤◌, ◌^◌, ◌*ℤ◌, ◌+ℤ◌, length, pos, int_lt, not, unsigned_abs};
ghost use Rattle.nd_base.specs.Samples.{width, samples_of, IsSmall};
ghost use Rattle.nd_base.specs.declared.array.SampleType.TheVariants.{Int32};
ghost use Rattle.nd_stats.specs.Samples.{placed};
ghost use Rattle.nd_stats.specs.Tallies.{counted};
ghost use Rattle.nd_stats.specs.Over.{IsOver};
ghost use Rattle.nd_stats.specs.Columns.{IsNarrowUnsigned, most_in_block};
ghost use Rattle.lane_kernels.specs.Plain.{stored};

use crate::columns::rows_over;
use crate::sample::part;
use crate::tally::{counted, reaches};
use lane_kernels::{narrow_at, sample_at};
use nd_base::{SampleType, word_at};

/// How many samples reach the threshold, their sum, and the sum of each times its index.
#[derive(Clone, Copy)]
pub(crate) struct Over {
    pub count: u32,
    pub sum: i64,
    pub weighted: i64,
}

/// How many samples a block has at most, so that its numbers are small.
#[inline(always)]
fn block_size(kind: SampleType) -> usize
    ensures size { result ≡ most_in_block kind }
    ensures some { 0 < result }
    ensures few { result ≤ 1024 }
{
    match kind {
        SampleType::UInt8 | SampleType::UInt16 => 1024,
        _ => 128,
    }
}

/// A value times its index in a block.
#[inline(always)]
fn weighted(index: usize, value: i64) -> i64
    requires index { index < 128 }
    requires value { IsSmall value }
    ensures value { result ≡ pos index *ℤ value }
    ensures bound { unsigned_abs result ≤ 549755813888 }
{
    i64::from(index as u8) * value
}

/// The numbers of a block of samples of 32 bits.
#[inline(always)]
fn wide_over(kind: SampleType, threshold: i64, block: &[u8]) -> Over
    requires { length block.now / width kind ≤ 128 }
    ensures over { IsOver threshold (placed 0 (samples_of kind block.now)) result }
    ensures few { result.count ≤ length block.now / width kind }
    ensures sum { unsigned_abs result.sum ≤ length block.now / width kind * 4294967296 }
    ensures weighted { unsigned_abs result.weighted ≤ length block.now / width kind * 549755813888 }
{
    let mut count = 0u32;
    let mut sum = 0i64;
    let mut moment = 0i64;
    for index in 0..block.len() / kind.width() {
        let value = sample_at(kind, block, index);
        let is_over = reaches(value, threshold);
        let kept = counted(is_over, value);
        count += u32::from(is_over);
        sum += kept;
        moment += weighted(index, kept);
    }
    Over {
        count,
        sum,
        weighted: moment,
    }
}

/// A threshold that the same samples of at most 16 bits reach.
#[inline(always)]
fn near(threshold: i64) -> i32
    ensures { (v : ℤ) → unsigned_abs v ≤ 65535 → int_lt v result ≡ int_lt v threshold }
{
    if threshold > 65_536 {
        65_536
    } else if threshold < -65_536 {
        -65_536
    } else {
        threshold as i32
    }
}

/// Whether a sample reaches the near threshold.
#[inline(always)]
fn reaches_near(value: i32, near: i32) -> bool
    ensures { result ≡ not (int_lt value near) }
{
    value >= near
}

/// The sample where the test holds, and 0 elsewhere.
#[inline(always)]
fn kept_if(test: bool, value: i32) -> i32
    ensures value { result ≡ counted test value }
    ensures bound { unsigned_abs value ≤ 65535 → unsigned_abs result ≤ 65535 }
{
    if test { value } else { 0 }
}

/// A sample of at most 16 bits times its index in a block.
#[inline(always)]
fn near_weighted(index: usize, value: i32) -> i32
    requires index { index < 128 }
    requires value { unsigned_abs value ≤ 65535 }
    ensures value { result ≡ pos index *ℤ value }
    ensures bound { unsigned_abs result ≤ 8388480 }
{
    i32::from(index as u8) * value
}

/// The numbers of a block of samples of at most 16 bits.
#[inline(always)]
fn narrow_over(kind: SampleType, threshold: i64, block: &[u8]) -> Over
    requires few { length block.now / width kind ≤ 128 }
    requires narrow { width kind ≤ 2 }
    ensures over { IsOver threshold (placed 0 (samples_of kind block.now)) result }
    ensures few { result.count ≤ length block.now / width kind }
    ensures sum { unsigned_abs result.sum ≤ length block.now / width kind * 4294967296 }
    ensures weighted { unsigned_abs result.weighted ≤ length block.now / width kind * 549755813888 }
{
    let near = near(threshold);
    let mut count = 0u32;
    let mut sum = 0i32;
    let mut moment = 0i32;
    for index in 0..block.len() / kind.width() {
        let value = narrow_at(kind, block, index);
        let is_over = reaches_near(value, near);
        let kept = kept_if(is_over, value);
        count += u32::from(is_over);
        sum += kept;
        moment += near_weighted(index, kept);
    }
    Over {
        count,
        sum: i64::from(sum),
        weighted: i64::from(moment),
    }
}

/// A number in its high 16 bits, with the sign, and the low ones.
#[inline(always)]
fn halves(value: i32) -> (i32, i32)
    ensures value { value ≡ result.1 +ℤ (pos 65536 *ℤ result.0) }
    ensures high { unsigned_abs result.0 ≤ 65535 }
    ensures low { unsigned_abs result.1 ≤ 65535 }
{
    let high = value >> 16;
    (high, value - high * 65_536)
}

/// A sample of 32 bits with a sign.
#[inline(always)]
fn signed_at(bytes: &[u8], place: usize) -> i32
    requires { place < length bytes.now / width Int32 }
    ensures { result ≡ stored Int32 bytes.now place }
{
    word_at(bytes, place * 4).cast_signed()
}

/// A number of which 65,536 times the first part and the second are the sum.
#[inline(always)]
fn joined(high: i32, low: i32) -> i64
    ensures { result ≡ low +ℤ (pos 65536 *ℤ high) }
{
    i64::from(low) + i64::from(high) * 65_536
}

/// The numbers of a block of samples of 32 bits with a sign, by the sums of their halves.
#[inline(always)]
fn signed_over(threshold: i32, block: &[u8]) -> Over
    requires { length block.now / width Int32 ≤ 128 }
    ensures over { IsOver threshold (placed 0 (samples_of Int32 block.now)) result }
    ensures few { result.count ≤ length block.now / width Int32 }
    ensures sum { unsigned_abs result.sum ≤ length block.now / width Int32 * 4294967296 }
    ensures weighted { unsigned_abs result.weighted ≤ length block.now / width Int32 * 549755813888 }
{
    let mut count = 0u32;
    let (mut high, mut low) = (0i32, 0i32);
    let (mut high_moment, mut low_moment) = (0i32, 0i32);
    for index in 0..block.len() / 4 {
        let value = signed_at(block, index);
        let is_over = reaches_near(value, threshold);
        let (high_part, low_part) = halves(kept_if(is_over, value));
        count += u32::from(is_over);
        high += high_part;
        low += low_part;
        high_moment += near_weighted(index, high_part);
        low_moment += near_weighted(index, low_part);
    }
    Over {
        count,
        sum: joined(high, low),
        weighted: joined(high_moment, low_moment),
    }
}

/// The numbers of a block of samples of 32 bits.
#[inline(always)]
fn long_over(kind: SampleType, threshold: i64, block: &[u8]) -> Over
    requires { length block.now / width kind ≤ 128 }
    ensures over { IsOver threshold (placed 0 (samples_of kind block.now)) result }
    ensures few { result.count ≤ length block.now / width kind }
    ensures sum { unsigned_abs result.sum ≤ length block.now / width kind * 4294967296 }
    ensures weighted { unsigned_abs result.weighted ≤ length block.now / width kind * 549755813888 }
{
    match (kind, i32::try_from(threshold)) {
        (SampleType::Int32, Ok(near)) => signed_over(near, block),
        _ => wide_over(kind, threshold, block),
    }
}

/// The numbers of a block of samples of at most 16 bits without a sign: those of rows of eight, and of the rest one by one.
#[inline(always)]
fn unsigned_over(kind: SampleType, threshold: i64, block: &[u8]) -> Over
    requires kind { IsNarrowUnsigned kind }
    requires few { length block.now / width kind ≤ 1024 }
    ensures over { IsOver threshold (placed 0 (samples_of kind block.now)) result }
    ensures few { result.count ≤ length block.now / width kind }
    ensures sum { unsigned_abs result.sum ≤ length block.now / width kind * 4294967296 }
    ensures weighted { unsigned_abs result.weighted ≤ length block.now / width kind * 8796093022208 }
{
    let count = block.len() / kind.width();
    let done = count / 8 * 8;
    let mut over = rows_over(kind, threshold, part(kind, block, 0, done));
    let rest = narrow_over(kind, threshold, part(kind, block, done, count - done));
    over.join(&rest, done);
    over
}

/// The numbers of a block.
#[inline(always)]
fn block_over(kind: SampleType, threshold: i64, block: &[u8]) -> Over
    requires { length block.now / width kind ≤ most_in_block kind }
    ensures over { IsOver threshold (placed 0 (samples_of kind block.now)) result }
    ensures few { result.count ≤ length block.now / width kind }
    ensures sum { unsigned_abs result.sum ≤ length block.now / width kind * 4294967296 }
    ensures weighted { unsigned_abs result.weighted ≤ length block.now / width kind * 8796093022208 }
{
    match kind {
        SampleType::UInt8 | SampleType::UInt16 => unsigned_over(kind, threshold, block),
        SampleType::Int8 | SampleType::Int16 => narrow_over(kind, threshold, block),
        SampleType::Int32 | SampleType::UInt32 => long_over(kind, threshold, block),
    }
}

/// The weighted sum of samples that lie `by` places further.
#[inline(always)]
fn shifted(weighted: i64, by: usize, sum: i64) -> i64
    requires by { by ≤ 8192 }
    requires sum { unsigned_abs sum ≤ 2 ^ 42 }
    requires weighted { unsigned_abs weighted ≤ 2 ^ 56 }
    ensures value { result ≡ weighted +ℤ (pos by *ℤ sum) }
    ensures bound { unsigned_abs result ≤ 2 ^ 57 }
{
    weighted + i64::from(by as u16) * sum
}

impl Over {
    /// Takes up the numbers of the samples behind these, of which there are `done`.
    #[inline(always)]
    fn join(&mut self, later: &Over, done: usize)
        requires done { done ≤ 8192 }
        requires count { self.old.count ≤ 8192 }
        requires sum { unsigned_abs self.old.sum ≤ 2 ^ 46 }
        requires weighted { unsigned_abs self.old.weighted ≤ 2 ^ 60 }
        requires more { later.now.count ≤ 1024 }
        requires more_sum { unsigned_abs later.now.sum ≤ 2 ^ 42 }
        requires more_weighted { unsigned_abs later.now.weighted ≤ 2 ^ 56 }
        ensures count { self.new.count ≡ self.old.count + later.now.count }
        ensures sum { self.new.sum ≡ self.old.sum +ℤ later.now.sum }
        ensures weighted { self.new.weighted ≡ self.old.weighted +ℤ (later.now.weighted +ℤ (pos done *ℤ later.now.sum)) }
    {
        self.count += later.count;
        self.sum += later.sum;
        self.weighted += shifted(later.weighted, done, later.sum);
    }
}

/// The numbers of a part of a line.
#[inline(always)]
fn part_over(kind: SampleType, threshold: i64, line: &[u8]) -> Over
    requires { length line.now / width kind ≤ 8192 }
    ensures over { IsOver threshold (placed 0 (samples_of kind line.now)) result }
    ensures few { result.count ≤ 8192 }
    ensures sum { unsigned_abs result.sum ≤ 2 ^ 46 }
    ensures weighted { unsigned_abs result.weighted ≤ 2 ^ 60 }
{
    let count = line.len() / kind.width();
    let mut over = Over {
        count: 0,
        sum: 0,
        weighted: 0,
    };
    let mut done = 0;
    while done < count {
        let size = (count - done).min(block_size(kind));
        let block = block_over(kind, threshold, part(kind, line, done, size));
        over.join(&block, done);
        done += size;
    }
    over
}

/// The numbers of a part of a line, by code of each sample type. A threshold that each unsigned sample reaches is no test.
#[inline(never)]
pub(crate) fn line_over(kind: SampleType, threshold: i64, line: &[u8]) -> Over
    requires { length line.now / width kind ≤ 8192 }
    ensures over { IsOver threshold (placed 0 (samples_of kind line.now)) result }
    ensures few { result.count ≤ 8192 }
    ensures sum { unsigned_abs result.sum ≤ 2 ^ 46 }
    ensures weighted { unsigned_abs result.weighted ≤ 2 ^ 60 }
{
    match kind {
        SampleType::UInt8 if threshold <= 0 => part_over(SampleType::UInt8, 0, line),
        SampleType::UInt16 if threshold <= 0 => part_over(SampleType::UInt16, 0, line),
        SampleType::Int8 => part_over(SampleType::Int8, threshold, line),
        SampleType::UInt8 => part_over(SampleType::UInt8, threshold, line),
        SampleType::Int16 => part_over(SampleType::Int16, threshold, line),
        SampleType::UInt16 => part_over(SampleType::UInt16, threshold, line),
        SampleType::Int32 => part_over(SampleType::Int32, threshold, line),
        SampleType::UInt32 => part_over(SampleType::UInt32, threshold, line),
    }
}
