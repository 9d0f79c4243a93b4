//! The histogram of a piece.

ghost use Rattle.std.specs.Prelude.{◌≡◌, ◌≢◌, ℕ, ◌-◌, ◌+◌, ◌*◌, ◌/◌, ◌<◌, ◌≤◌, ◌^◌, ◌≤ℤ◌, ◌-ℤ◌, ◌&&◌, [], int_lt, length, pos, unsigned_abs, IfOk, IfSome};
ghost use Rattle.nd_base.specs.GraphRules.{IsStats};
ghost use Rattle.nd_base.specs.Samples.{width, samples_of, IsSmall};
ghost use Rattle.nd_base.specs.Shapes.{most_samples};
ghost use Rattle.nd_stats.specs.Measured.{bin_at, has_histogram};
ghost use Rattle.nd_stats.specs.Tallies.{bins_after, one_if};
ghost use Rattle.nd_stats.specs.Samples.{placed};
ghost use Rattle.nd_stats.specs.Running.{IsHistogram, IsScale, IsRamp, IsCounted, HaveCountRooms};

use crate::merge::add_each;
use crate::tally::{Histogram, add_at, distance};
use lane_kernels::sample_at;
use nd_base::SampleType::{Int8, Int16, Int32, UInt8, UInt16, UInt32};
use nd_base::{SampleType, StatsRule};

/// How many bins a histogram has at most.
const MOST_BINS: usize = 1024;

/// From how many samples on a piece is counted by halves.
const MANY: usize = 4096;

/// How many parts a bin has.
const PARTS: u64 = 1 << 54;

/// From how far between its ends on a range is long.
const LONG: u64 = 1 << 21;

/// Where the values of a short range lie, in parts of a bin from the beginning of bin 0 on: the lowest, and each behind it by a step more.
#[derive(Clone, Copy)]
struct Ramp {
    step: u64,
    start: u64,
}

/// The ramp of a histogram, where its range is short.
fn ramp_of(rule: &StatsRule) -> Option<Ramp>
    requires rule { IsStats rule.now }
    requires some { rule.now.hist_size ≢ 0 }
    ensures ramp { IfSome result (λ ramp. IsRamp rule.now ramp) }
    ensures short { unsigned_abs (rule.now.hist_hi -ℤ rule.now.hist_lo) < 2 ^ 21 → result ≢ None }
{
    let range = distance(rule.hist_lo, rule.hist_hi);
    if range >= LONG {
        return None;
    }
    let half = PARTS / (2 * range) + 1;
    Some(Ramp {
        step: 2 * u64::from(rule.hist_size - 1) * half,
        start: range * half,
    })
}

/// The bin of the value that lies so far above the low end of a short range.
#[inline(always)]
fn ramp_bin(rule: &StatsRule, ramp: Ramp, above: u64) -> usize
    requires ramp { IsRamp rule.now ramp }
    requires within { above ≤ unsigned_abs (rule.now.hist_hi -ℤ rule.now.hist_lo) }
    ensures { result ≡ bin_at rule.now above }
{
    ((above * ramp.step + ramp.start) / PARTS) as usize
}

/// A number to divide by, and how often it goes into the greatest number of 64 bits.
#[derive(Clone, Copy)]
struct Divisor {
    by: u64,
    times: u64,
}

/// What to divide by.
fn divisor_of(by: u64) -> Divisor
    requires { 0 < by }
    ensures by { result.by ≡ by }
    ensures times { result.times ≡ 18446744073709551615 / by }
{
    Divisor {
        by,
        times: u64::MAX / by,
    }
}

/// The quotient, by a product in place of a division. What the product gives is right, or one too low.
#[inline(always)]
fn quotient(number: u64, divisor: Divisor) -> u64
    requires some { 0 < divisor.by }
    requires times { divisor.times ≡ 18446744073709551615 / divisor.by }
    requires small { number < 2 ^ 62 }
    requires small_by { divisor.by < 2 ^ 40 }
    ensures { result ≡ number / divisor.by }
{
    let near = (u128::from(number) * u128::from(divisor.times) / 0x1_0000_0000_0000_0000) as u64;
    if (near + 1) * divisor.by <= number {
        near + 1
    } else {
        near
    }
}

/// What the bin of a value is computed from: the low end of the histogram's range, how far the high end is from it, the number of the last bin,
/// and what to divide by.
#[derive(Clone, Copy)]
struct Scale {
    low: i64,
    range: u64,
    last: u64,
    divisor: Divisor,
}

/// The scale of a histogram.
fn scale_of(rule: &StatsRule) -> Scale
    requires rule { IsStats rule.now }
    requires some { rule.now.hist_size ≢ 0 }
    ensures { IsScale rule.now result }
{
    let range = distance(rule.hist_lo, rule.hist_hi);
    Scale {
        low: rule.hist_lo,
        range,
        last: u64::from(rule.hist_size - 1),
        divisor: divisor_of(2 * range),
    }
}

/// The bin of the value that lies so far above the low end of the histogram's range, without a division.
#[inline(always)]
fn scaled_bin(rule: &StatsRule, scale: Scale, above: u64) -> usize
    requires rule { IsStats rule.now }
    requires some { rule.now.hist_size ≢ 0 }
    requires scale { IsScale rule.now scale }
    requires within { above ≤ unsigned_abs (rule.now.hist_hi -ℤ rule.now.hist_lo) }
    ensures { result ≡ bin_at rule.now above }
{
    quotient(2 * above * scale.last + scale.range, scale.divisor) as usize
}

/// How far a value lies above the low end of the histogram's range; further than any range where it lies below.
#[inline(always)]
fn above_low(rule: &StatsRule, scale: Scale, value: i64) -> u64
    requires rule { IsStats rule.now }
    requires scale { IsScale rule.now scale }
    requires small { IsSmall value }
    ensures from { result < 2 ^ 40 → rule.now.hist_lo ≤ℤ value }
    ensures distance { rule.now.hist_lo ≤ℤ value → result ≡ unsigned_abs (value -ℤ rule.now.hist_lo) }
{
    (value - scale.low).cast_unsigned()
}

/// The bin of the value that lies so far above the low end of the histogram's range, by the ramp where there is one.
#[inline(always)]
fn bin_above(rule: &StatsRule, scale: Scale, ramp: Option<Ramp>, above: u64) -> usize
    requires rule { IsStats rule.now }
    requires some { rule.now.hist_size ≢ 0 }
    requires scale { IsScale rule.now scale }
    requires ramp { IfSome ramp (λ ramp. IsRamp rule.now ramp) }
    requires within { above ≤ unsigned_abs (rule.now.hist_hi -ℤ rule.now.hist_lo) }
    ensures bin { result ≡ bin_at rule.now above }
    ensures below { result < rule.now.hist_size }
{
    match ramp {
        Some(ramp) => ramp_bin(rule, ramp, above),
        None => scaled_bin(rule, scale, above),
    }
}

/// How many samples lie below and above the histogram's range.
#[derive(Clone, Copy)]
pub(crate) struct Ends {
    pub below: u32,
    pub above: u32,
}

/// Counts one sample.
#[inline(always)]
fn count_one(
    rule: &StatsRule,
    scale: Scale,
    ramp: Option<Ramp>,
    value: i64,
    ends: Ends,
    counts: &mut [i64],
) -> Ends
    requires rule { IsStats rule.now }
    requires some { rule.now.hist_size ≢ 0 }
    requires scale { IsScale rule.now scale }
    requires ramp { IfSome ramp (λ ramp. IsRamp rule.now ramp) }
    requires small { IsSmall value }
    requires rooms { HaveCountRooms rule.now ends counts.old }
    ensures below { result.below ≡ ends.below + one_if (has_histogram rule.now && int_lt value rule.now.hist_lo) }
    ensures bins { counts.new ≡ bins_after rule.now value counts.old }
    ensures above { result.above ≡ ends.above + one_if (has_histogram rule.now && int_lt rule.now.hist_hi value) }
{
    let from_low = above_low(rule, scale, value);
    if from_low <= scale.range {
        add_at(counts, bin_above(rule, scale, ramp, from_low), 1);
        return ends;
    }
    let Ends { below, above } = ends;
    if value < scale.low {
        Ends {
            below: below + 1,
            above,
        }
    } else {
        Ends {
            below,
            above: above + 1,
        }
    }
}

/// Counts the samples of a piece that begins at place `from`.
#[inline(always)]
fn count_each(
    rule: &StatsRule,
    scale: Scale,
    ramp: Option<Ramp>,
    kind: SampleType,
    from: u32,
    samples: &[u8],
    counts: &mut [i64],
) -> Ends
    requires rule { IsStats rule.now }
    requires some { rule.now.hist_size ≢ 0 }
    requires scale { IsScale rule.now scale }
    requires ramp { IfSome ramp (λ ramp. IsRamp rule.now ramp) }
    requires few { length samples.now / width kind ≤ most_samples }
    requires blank { IsCounted rule.now [] record { below = 0; above = 0 } counts.old }
    ensures { IsCounted rule.now (placed from (samples_of kind samples.now)) result counts.new }
{
    let mut ends = Ends { below: 0, above: 0 };
    for k in 0..samples.len() / kind.width() {
        ends = count_one(rule, scale, ramp, sample_at(kind, samples, k), ends, counts);
    }
    ends
}

/// Counts the samples of two pieces in turns, each in counts of its own, so that a sample needn't wait for an equal one before it. The second
/// has as many samples as the first, or one more.
#[inline(always)]
fn count_turns(
    rule: &StatsRule,
    scale: Scale,
    ramp: Option<Ramp>,
    kind: SampleType,
    from: u32,
    first: &[u8],
    second: &[u8],
    counts: &mut [i64],
    more: &mut [i64],
) -> (Ends, Ends)
    requires rule { IsStats rule.now }
    requires some { rule.now.hist_size ≢ 0 }
    requires scale { IsScale rule.now scale }
    requires ramp { IfSome ramp (λ ramp. IsRamp rule.now ramp) }
    requires few { length first.now / width kind + length second.now / width kind ≤ most_samples }
    requires as_many { length first.now / width kind ≤ length second.now / width kind }
    requires one_more { length second.now / width kind ≤ length first.now / width kind + 1 }
    requires blank { IsCounted rule.now [] record { below = 0; above = 0 } counts.old }
    requires blank_more { IsCounted rule.now [] record { below = 0; above = 0 } more.old }
    ensures first { IsCounted rule.now (placed from (samples_of kind first.now)) result.0 counts.new }
    ensures second { IsCounted rule.now (placed (from + length first.now / width kind) (samples_of kind second.now)) result.1 more.new }
{
    let mut one = Ends { below: 0, above: 0 };
    let mut two = one;
    let turns = first.len() / kind.width();
    for k in 0..turns {
        one = count_one(rule, scale, ramp, sample_at(kind, first, k), one, counts);
        two = count_one(rule, scale, ramp, sample_at(kind, second, k), two, more);
    }
    if turns < second.len() / kind.width() {
        let last = sample_at(kind, second, turns);
        two = count_one(rule, scale, ramp, last, two, more);
    }
    (one, two)
}

/// Counts the samples of a piece that begins at place `from`, by halves where there are counts for a second one.
#[inline(always)]
fn count_piece(
    rule: &StatsRule,
    scale: Scale,
    ramp: Option<Ramp>,
    kind: SampleType,
    from: u32,
    samples: &[u8],
    counts: &mut [i64],
    more: &mut [i64],
) -> Ends
    requires rule { IsStats rule.now }
    requires some { rule.now.hist_size ≢ 0 }
    requires scale { IsScale rule.now scale }
    requires ramp { IfSome ramp (λ ramp. IsRamp rule.now ramp) }
    requires few { length samples.now / width kind ≤ most_samples }
    requires blank { IsCounted rule.now [] record { below = 0; above = 0 } counts.old }
    requires blank_more { 0 < length more.old → IsCounted rule.now [] record { below = 0; above = 0 } more.old }
    ensures { IsCounted rule.now (placed from (samples_of kind samples.now)) result counts.new }
{
    if more.is_empty() {
        return count_each(rule, scale, ramp, kind, from, samples, counts);
    }
    let half = samples.len() / kind.width() / 2;
    let (first, second) = samples.split_at(half * kind.width());
    let (one, two) = count_turns(rule, scale, ramp, kind, from, first, second, counts, more);
    add_each(counts, more);
    Ends {
        below: one.below + two.below,
        above: one.above + two.above,
    }
}

/// The same scale, with ends that are known where the code is made.
#[inline(always)]
fn whole(scale: Scale, last: u64) -> Scale
    requires low { scale.low ≡ pos 0 }
    requires range { scale.range ≡ last }
    ensures { result ≡ scale }
{
    Scale {
        low: 0,
        range: last,
        ..scale
    }
}

/// The same by code of each sample type. Where the range has just the values of a type without a sign, its code is made without a test.
#[inline(always)]
fn count_kind(
    rule: &StatsRule,
    scale: Scale,
    ramp: Option<Ramp>,
    kind: SampleType,
    from: u32,
    samples: &[u8],
    counts: &mut [i64],
    more: &mut [i64],
) -> Ends
    requires rule { IsStats rule.now }
    requires some { rule.now.hist_size ≢ 0 }
    requires scale { IsScale rule.now scale }
    requires ramp { IfSome ramp (λ ramp. IsRamp rule.now ramp) }
    requires few { length samples.now / width kind ≤ most_samples }
    requires blank { IsCounted rule.now [] record { below = 0; above = 0 } counts.old }
    requires blank_more { 0 < length more.old → IsCounted rule.now [] record { below = 0; above = 0 } more.old }
    ensures { IsCounted rule.now (placed from (samples_of kind samples.now)) result counts.new }
{
    match kind {
        Int8 => count_piece(rule, scale, ramp, Int8, from, samples, counts, more),
        UInt8 if scale.low == 0 && scale.range == 255 => {
            let scale = whole(scale, 255);
            count_piece(rule, scale, ramp, UInt8, from, samples, counts, more)
        }
        UInt8 => count_piece(rule, scale, ramp, UInt8, from, samples, counts, more),
        Int16 => count_piece(rule, scale, ramp, Int16, from, samples, counts, more),
        UInt16 if scale.low == 0 && scale.range == 65_535 => {
            let scale = whole(scale, 65_535);
            count_piece(rule, scale, ramp, UInt16, from, samples, counts, more)
        }
        UInt16 => count_piece(rule, scale, ramp, UInt16, from, samples, counts, more),
        Int32 => count_piece(rule, scale, ramp, Int32, from, samples, counts, more),
        UInt32 => count_piece(rule, scale, ramp, UInt32, from, samples, counts, more),
    }
}

/// The same by code of its own for a short range.
#[inline(never)]
fn count_all(
    rule: &StatsRule,
    kind: SampleType,
    from: u32,
    samples: &[u8],
    counts: &mut [i64],
    more: &mut [i64],
) -> Ends
    requires rule { IsStats rule.now }
    requires some { rule.now.hist_size ≢ 0 }
    requires few { length samples.now / width kind ≤ most_samples }
    requires blank { IsCounted rule.now [] record { below = 0; above = 0 } counts.old }
    requires blank_more { 0 < length more.old → IsCounted rule.now [] record { below = 0; above = 0 } more.old }
    ensures { IsCounted rule.now (placed from (samples_of kind samples.now)) result counts.new }
{
    let scale = scale_of(rule);
    match ramp_of(rule) {
        Some(ramp) => count_kind(rule, scale, Some(ramp), kind, from, samples, counts, more),
        None => count_kind(rule, scale, None, kind, from, samples, counts, more),
    }
}

/// The histogram of a piece that begins at place `from`; before it has counted nothing.
pub(crate) fn histogram_of(
    blank: Histogram,
    rule: &StatsRule,
    kind: SampleType,
    from: u32,
    samples: &[u8],
) -> Histogram
    requires rule { IsStats rule.now }
    requires few { length samples.now / width kind ≤ most_samples }
    requires blank { IsHistogram rule.now [] blank }
    ensures { IsHistogram rule.now (placed from (samples_of kind samples.now)) result }
{
    if rule.hist_size == 0 {
        return blank;
    }
    let mut histogram = blank;
    let ends = if samples.len() / kind.width() < MANY {
        count_all(rule, kind, from, samples, &mut histogram.bins, &mut [])
    } else {
        let mut more = [0; MOST_BINS];
        let more = &mut more[..rule.hist_size as usize];
        count_all(rule, kind, from, samples, &mut histogram.bins, more)
    };
    histogram.below = ends.below;
    histogram.above = ends.above;
    histogram
}
