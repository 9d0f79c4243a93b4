//! The numbers of the samples so far.

ghost use Rattle.std.specs.Prelude.{◌≡◌, ◌≢◌, ◌+◌, ◌*◌, ◌<◌, ◌≤◌, ◌^◌, length, pos, ◌+ℤ◌, ◌-ℤ◌, ◌*ℤ◌, ◌-◌, ◌/◌, ◌≤ℤ◌, ◌<ℤ◌, int_lt, not, ◌&&◌, vec_len};
ghost use Rattle.std.specs.Prelude.{unsigned_abs, IsTrue, if◌then◌else◌};
ghost use Rattle.nd_base.specs.GraphRules.{IsStats};
ghost use Rattle.nd_stats.specs.Measured.{bin_of, square, has_histogram};
ghost use Rattle.nd_base.specs.Samples.{IsSmall};
ghost use Rattle.nd_stats.specs.Tallies.{HasRoom, HaveRoom, added_at, bins_after, counted, one_if};

use crate::spot::{Spot, is_on_border};
use nd_base::{Dim, StatsRule};

/// The least and the greatest value, each with the first place that has it.
#[derive(Drop)]
pub(crate) struct Extremes {
    pub min: i64,
    pub min_at: u32,
    pub max: i64,
    pub max_at: u32,
}

impl Extremes {
    pub fn add(&mut self, place: u32, value: i64)
        ensures min { self.new.min ≡ (if int_lt value self.old.min then value else self.old.min) }
        ensures min_at { self.new.min_at ≡ (if int_lt value self.old.min then place else self.old.min_at) }
        ensures max { self.new.max ≡ (if int_lt self.old.max value then value else self.old.max) }
        ensures max_at { self.new.max_at ≡ (if int_lt self.old.max value then place else self.old.max_at) }
    {
        if value < self.min {
            self.min = value;
            self.min_at = place;
        }
        if self.max < value {
            self.max = value;
            self.max_at = place;
        }
    }
}

/// The value where the test holds, and 0 elsewhere.
#[inline(always)]
pub(crate) fn counted(test: bool, value: i64) -> i64
    ensures value { result ≡ counted test value }
    ensures small { IsSmall value → IsSmall result }
{
    if test { value } else { 0 }
}

/// The sums over all samples, and over those at the border.
#[derive(Drop)]
pub(crate) struct Sums {
    pub n: u32,
    pub total: i64,
    pub squares: u128,
    pub border: i64,
    pub border_n: u32,
}

impl Sums {
    pub fn add(&mut self, at_border: bool, value: i64)
        requires value { IsSmall value }
        requires n { self.old.n < 2 ^ 31 }
        requires total { HasRoom self.old.total }
        requires squares { self.old.squares < 2 ^ 100 }
        requires border { HasRoom self.old.border }
        requires border_n { self.old.border_n < 2 ^ 31 }
        ensures n { self.new.n ≡ self.old.n + 1 }
        ensures total { self.new.total ≡ self.old.total +ℤ value }
        ensures squares { self.new.squares ≡ self.old.squares + square value }
        ensures border { self.new.border ≡ self.old.border +ℤ counted at_border value }
        ensures border_n { self.new.border_n ≡ self.old.border_n + one_if at_border }
    {
        let size = value.unsigned_abs();
        self.n += 1;
        self.total += value;
        self.squares += u128::from(size * size);
        self.border += counted(at_border, value);
        self.border_n += u32::from(at_border);
    }
}

/// An index times a weight.
fn product(index: u32, weight: i64) -> i64
    requires index { index ≤ 67108864 }
    requires weight { IsSmall weight }
    ensures value { result ≡ pos index *ℤ weight }
    ensures bound { unsigned_abs result < 2 ^ 60 }
{
    i64::from(index) * weight
}

/// A sum with one value more.
fn added(sum: i64, value: i64) -> i64
    requires sum { HasRoom sum }
    requires value { IsSmall value }
    ensures { result ≡ sum +ℤ value }
{
    sum + value
}

/// A moment with one number more.
fn sum_after(sum: i128, more: i64) -> i128
    requires { unsigned_abs sum < 2 ^ 100 }
    ensures { result ≡ sum +ℤ more }
{
    sum + i128::from(more)
}

/// The sums over the samples that reach the threshold.
#[derive(Drop)]
pub(crate) struct Moments {
    pub over: u32,
    pub m0: i64,
    pub mx: i128,
    pub my: i128,
}

impl Moments {
    pub fn add(&mut self, is_over: bool, x: u32, y: u32, weight: i64)
        requires weight { IsSmall weight }
        requires x { x ≤ 67108864 }
        requires y { y ≤ 67108864 }
        requires over { self.old.over < 2 ^ 31 }
        requires m0 { HasRoom self.old.m0 }
        requires mx { unsigned_abs self.old.mx < 2 ^ 100 }
        requires my { unsigned_abs self.old.my < 2 ^ 100 }
        ensures over { self.new.over ≡ self.old.over + one_if is_over }
        ensures m0 { self.new.m0 ≡ self.old.m0 +ℤ weight }
        ensures mx { self.new.mx ≡ self.old.mx +ℤ (pos x *ℤ weight) }
        ensures my { self.new.my ≡ self.old.my +ℤ (pos y *ℤ weight) }
    {
        self.over += u32::from(is_over);
        self.m0 = added(self.m0, weight);
        self.mx = sum_after(self.mx, product(x, weight));
        self.my = sum_after(self.my, product(y, weight));
    }
}

/// Whether a value reaches the threshold.
#[inline(always)]
pub(crate) fn reaches(value: i64, threshold: i64) -> bool
    ensures { result ≡ not (int_lt value threshold) }
{
    value >= threshold
}

/// Adds a value to the sum at an index.
pub(crate) fn add_at(sums: &mut [i64], index: usize, value: i64)
    requires index { index < length sums.old }
    requires room { HaveRoom sums.old }
    requires value { IsSmall value }
    ensures { sums.new ≡ added_at sums.old index value }
{
    sums[index] += value;
}

/// How far two numbers are apart.
pub(crate) fn distance(from: i64, to: i64) -> u64
    ensures { result ≡ unsigned_abs (to -ℤ from) }
{
    to.abs_diff(from)
}

/// The bin of a value that is so far above the low end of the range, rounded to the nearest.
pub(crate) fn bin_at(above: u64, range: u64, size: u32) -> usize
    requires within { above ≤ range }
    requires some { 0 < range }
    requires few { range ≤ 8589934592 }
    requires size { 0 < size }
    requires bins { size ≤ 1024 }
    ensures bin { result ≡ (2 * above * (size - 1) + range) / (2 * range) }
    ensures below { result < size }
{
    ((2 * above * u64::from(size - 1) + range) / (2 * range)) as usize
}

/// The bin of a value of the histogram's range.
pub(crate) fn bin_of(rule: &StatsRule, value: i64) -> usize
    requires rule { IsStats rule.now }
    requires some { rule.now.hist_size ≢ 0 }
    requires from { rule.now.hist_lo ≤ℤ value }
    requires to { value ≤ℤ rule.now.hist_hi }
    ensures bin { result ≡ bin_of rule.now value }
    ensures below { result < rule.now.hist_size }
{
    let range = distance(rule.hist_lo, rule.hist_hi);
    let above = distance(rule.hist_lo, value);
    bin_at(above, range, rule.hist_size)
}

/// The histogram's counts.
#[derive(Drop)]
pub(crate) struct Histogram {
    pub below: u32,
    pub bins: Vec<i64>,
    pub above: u32,
}

impl Histogram {
    pub fn add(&mut self, rule: &StatsRule, value: i64)
        requires rule { IsStats rule.now }
        requires bins { vec_len self.old.bins ≡ rule.now.hist_size }
        requires room { HaveRoom self.old.bins.items }
        requires below { self.old.below < 2 ^ 31 }
        requires above { self.old.above < 2 ^ 31 }
        ensures below { self.new.below ≡ self.old.below + one_if (has_histogram rule.now && int_lt value rule.now.hist_lo) }
        ensures bins { self.new.bins.items ≡ bins_after rule.now value self.old.bins.items }
        ensures above { self.new.above ≡ self.old.above + one_if (has_histogram rule.now && int_lt rule.now.hist_hi value) }
    {
        if rule.hist_size == 0 {
            return;
        }
        if value < rule.hist_lo {
            self.below += 1;
        } else if rule.hist_hi < value {
            self.above += 1;
        } else {
            let bin = bin_of(rule, value);
            add_at(&mut self.bins, bin, 1);
        }
    }
}

/// The numbers of the samples so far.
#[derive(Drop)]
pub(crate) struct Tally {
    pub extremes: Extremes,
    pub sums: Sums,
    pub moments: Moments,
    pub histogram: Histogram,
    pub x: Vec<i64>,
    pub y: Vec<i64>,
}

impl Tally {
    ghost use Rattle.std.specs.Prelude.{◌∷◌, ◌++◌, [], List};
    ghost use Rattle.nd_stats.specs.Samples.{Sample};
    ghost use Rattle.nd_stats.specs.Running.{IsTally, IsFrame, CanGrow};
    ghost use Rattle.nd_stats.specs.Spots.{IsSpot};

    /// Adds the sample with this value at this place.
    pub fn add(&mut self, rule: &StatsRule, dims: &[Dim], spot: &Spot, value: i64)
        requires frame { IsFrame rule.now dims.now }
        requires spot { IsSpot rule.now.border dims.now spot.now }
        requires value { IsSmall value }
        requires before { (first : Sample) × ((xs : List Sample) × CanGrow rule.now dims.now first xs self.old) }
        ensures { (first : Sample) → (xs : List Sample) → IsTally rule.now dims.now first xs self.old
            → IsTally rule.now dims.now first (xs ++ record { place = spot.now.place; value = value } ∷ []) self.new }
    {
        let at_border = is_on_border(rule.border, dims, spot);
        let is_over = reaches(value, rule.threshold);
        self.extremes.add(spot.place, value);
        self.sums.add(at_border, value);
        self.moments
            .add(is_over, spot.x, spot.y, counted(is_over, value));
        self.histogram.add(rule, value);
        if rule.profiles {
            add_at(&mut self.x, spot.x as usize, value);
            add_at(&mut self.y, spot.y as usize, value);
        }
    }
}
