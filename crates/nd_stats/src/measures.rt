//! The measure of an array, and of a piece of one.

ghost use Rattle.std.specs.Prelude.{◌≡◌, ℕ, ◌+◌, ◌*◌, ◌/◌, ◌%◌, ◌<◌, ◌≤◌, length, take, pos, [], IfOk, IsTrue, true, false, if◌then◌else◌};
ghost use Rattle.nd_base.specs.GraphRules.{IsStats};
ghost use Rattle.nd_base.specs.Samples.{number, width, samples_of};
ghost use Rattle.nd_base.specs.Shapes.{has_dimensions, sample_count, most_samples};
ghost use Rattle.nd_base.specs.Places.{size_in};
ghost use Rattle.nd_stats.specs.Samples.{table, placed};
ghost use Rattle.nd_stats.specs.Measured.{measure_of};
ghost use Rattle.nd_stats.specs.Running.{IsTally, IsFrame};

use crate::blocks::{Basics, basics_of};
use crate::histogram::histogram_of;
use crate::profiles::add_profiles;
use crate::spot::{first_size, next_spot, plane_of, second_size, spot_at};
use crate::tally::{Extremes, Histogram, Moments, Sums, Tally};
use nd_base::{Dim, Measure, OutOfMemory, SampleType, Seq, StatsRule, number_at};
use std::alloc::Global;

/// So many sums of nothing.
fn zeros(alloc: Global, count: usize) -> Result<Vec<i64>, OutOfMemory>
    ensures { IfOk result (λ v. v.items ≡ table (λ _. pos 0) 0 count) }
{
    let sums = vec![in alloc; 0i64; count]?;
    Ok(sums)
}

/// A profile of no samples, with so many sums.
fn blank_profile(alloc: Global, wanted: bool, size: u32) -> Result<Vec<i64>, OutOfMemory>
    ensures { IfOk result (λ v. v.items ≡ (if wanted then table (λ _. pos 0) 0 size else [])) }
{
    if wanted {
        zeros(alloc, size as usize)
    } else {
        Ok(Vec::new(alloc))
    }
}

/// Sums of 32 bits of no samples, one for each index of dimension 0, where profiles are wanted of samples of at most 16 bits.
fn blank_narrow(
    alloc: Global,
    rule: &StatsRule,
    kind: SampleType,
    dims: &[Dim],
) -> Result<Vec<i32>, OutOfMemory>
    ensures { rule.now.profiles ≡ true → width kind ≤ 2 → IfOk result (λ v. v.items ≡ table (λ _. pos 0) 0 (size_in dims.now 0)) }
{
    if rule.profiles && kind.width() <= 2 {
        let sums = vec![in alloc; 0i32; first_size(dims) as usize]?;
        Ok(sums)
    } else {
        Ok(Vec::new(alloc))
    }
}

/// The numbers of no samples; `value` at `place` is the first sample.
pub(crate) fn blank_tally(
    alloc: Global,
    rule: &StatsRule,
    dims: &[Dim],
    place: u32,
    value: i64,
) -> Result<Tally, OutOfMemory>
    ensures { IfOk result (λ t. IsTally rule.now dims.now record { place = place; value = value } [] t) }
{
    let bins = zeros(alloc, rule.hist_size as usize)?;
    let x = blank_profile(alloc, rule.profiles, first_size(dims))?;
    let y = blank_profile(alloc, rule.profiles, second_size(dims))?;
    Ok(Tally {
        extremes: Extremes {
            min: value,
            min_at: place,
            max: value,
            max_at: place,
        },
        sums: Sums {
            n: 0,
            total: 0,
            squares: 0,
            border: 0,
            border_n: 0,
        },
        moments: Moments {
            over: 0,
            m0: 0,
            mx: 0,
            my: 0,
        },
        histogram: Histogram {
            below: 0,
            bins,
            above: 0,
        },
        x,
        y,
    })
}

/// Adds the samples of a piece that begins at place `from`, one by one.
#[inline(always)]
fn add_all(
    mut tally: Tally,
    rule: &StatsRule,
    kind: SampleType,
    dims: &[Dim],
    from: u32,
    samples: &[u8],
) -> Tally
    requires frame { IsFrame rule.now dims.now }
    requires within { from + length samples.now / width kind ≤ sample_count dims.now }
    requires blank { IsTally rule.now dims.now record { place = from; value = number kind (take (width kind) samples.now) } [] tally }
    ensures { IsTally rule.now dims.now record {
      place = from;
      value = number kind (take (width kind) samples.now);
    } (placed from (samples_of kind samples.now)) result }
{
    let width = kind.width();
    let plane = plane_of(dims);
    let count = samples.len() / width;
    let mut spot = spot_at(rule.border, dims, from);
    for k in 0..count {
        let value = number_at(kind, samples, k * width);
        tally.add(rule, dims, &spot, value);
        spot = next_spot(rule.border, dims, plane, spot);
    }
    tally
}

/// The same by code of each sample type.
pub(crate) fn add_each(
    tally: Tally,
    rule: &StatsRule,
    kind: SampleType,
    dims: &[Dim],
    from: u32,
    samples: &[u8],
) -> Tally
    requires frame { IsFrame rule.now dims.now }
    requires within { from + length samples.now / width kind ≤ sample_count dims.now }
    requires blank { IsTally rule.now dims.now record { place = from; value = number kind (take (width kind) samples.now) } [] tally }
    ensures { IsTally rule.now dims.now record {
      place = from;
      value = number kind (take (width kind) samples.now);
    } (placed from (samples_of kind samples.now)) result }
{
    match kind {
        SampleType::Int8 => add_all(tally, rule, SampleType::Int8, dims, from, samples),
        SampleType::UInt8 => add_all(tally, rule, SampleType::UInt8, dims, from, samples),
        SampleType::Int16 => add_all(tally, rule, SampleType::Int16, dims, from, samples),
        SampleType::UInt16 => add_all(tally, rule, SampleType::UInt16, dims, from, samples),
        SampleType::Int32 => add_all(tally, rule, SampleType::Int32, dims, from, samples),
        SampleType::UInt32 => add_all(tally, rule, SampleType::UInt32, dims, from, samples),
    }
}

/// The numbers of a piece by passes over its lines and blocks. `narrow` is where samples of at most 16 bits are added up for a profile.
fn tally_lines(
    blank: Tally,
    rule: &StatsRule,
    narrow: &mut [i32],
    kind: SampleType,
    dims: &[Dim],
    from: u32,
    samples: &[u8],
) -> Tally
    requires frame { IsFrame rule.now dims.now }
    requires narrow { rule.now.profiles ≡ true → width kind ≤ 2 → narrow.old ≡ table (λ _. pos 0) 0 (size_in dims.now 0) }
    requires whole { length samples.now % width kind ≡ 0 }
    requires some { 0 < length samples.now / width kind }
    requires within { from + length samples.now / width kind ≤ sample_count dims.now }
    requires blank { IsTally rule.now dims.now record { place = from; value = number kind (take (width kind) samples.now) } [] blank }
    ensures { IsTally rule.now dims.now record {
      place = from;
      value = number kind (take (width kind) samples.now);
    } (placed from (samples_of kind samples.now)) result }
{
    let mut tally = blank;
    let Basics {
        extremes,
        total,
        squares,
        edge,
        moments,
    } = basics_of(rule, kind, dims, from, samples);
    tally.extremes = extremes;
    tally.sums = Sums {
        n: (samples.len() / kind.width()) as u32,
        total,
        squares,
        border: edge.sum,
        border_n: edge.count,
    };
    tally.moments = moments;
    tally.histogram = histogram_of(tally.histogram, rule, kind, from, samples);
    if rule.profiles {
        add_profiles(
            rule,
            kind,
            dims,
            from,
            samples,
            narrow,
            &mut tally.x,
            &mut tally.y,
        );
    }
    tally
}

/// From how many samples on a line is long enough for passes over lines.
const LONG: u32 = 4;

/// The numbers of a piece that begins at place `from`.
fn tally_of(
    blank: Tally,
    rule: &StatsRule,
    narrow: &mut [i32],
    kind: SampleType,
    dims: &[Dim],
    from: u32,
    samples: &[u8],
) -> Tally
    requires frame { IsFrame rule.now dims.now }
    requires narrow { rule.now.profiles ≡ true → width kind ≤ 2 → narrow.old ≡ table (λ _. pos 0) 0 (size_in dims.now 0) }
    requires whole { length samples.now % width kind ≡ 0 }
    requires some { 0 < length samples.now / width kind }
    requires within { from + length samples.now / width kind ≤ sample_count dims.now }
    requires blank { IsTally rule.now dims.now record { place = from; value = number kind (take (width kind) samples.now) } [] blank }
    ensures { IsTally rule.now dims.now record {
      place = from;
      value = number kind (take (width kind) samples.now);
    } (placed from (samples_of kind samples.now)) result }
{
    if first_size(dims) < LONG {
        add_each(blank, rule, kind, dims, from, samples)
    } else {
        tally_lines(blank, rule, narrow, kind, dims, from, samples)
    }
}

/// The measure that a tally holds.
pub(crate) fn measure_from(tally: Tally, id: i32) -> Measure
    ensures { result ≡ record {
      id = id;
      n = tally.sums.n;
      min = tally.extremes.min;
      min_at = tally.extremes.min_at;
      max = tally.extremes.max;
      max_at = tally.extremes.max_at;
      total = tally.sums.total;
      squares = tally.sums.squares;
      border = tally.sums.border;
      border_n = tally.sums.border_n;
      over = tally.moments.over;
      m0 = tally.moments.m0;
      mx = tally.moments.mx;
      my = tally.moments.my;
      below = tally.histogram.below;
      bins = tally.histogram.bins.items;
      above = tally.histogram.above;
      x = tally.x.items;
      y = tally.y.items;
    } }
{
    let Tally {
        extremes,
        sums,
        moments,
        histogram,
        x,
        y,
    } = tally;
    let Histogram { below, bins, above } = histogram;
    Measure {
        id,
        n: sums.n,
        min: extremes.min,
        min_at: extremes.min_at,
        max: extremes.max,
        max_at: extremes.max_at,
        total: sums.total,
        squares: sums.squares,
        border: sums.border,
        border_n: sums.border_n,
        over: moments.over,
        m0: moments.m0,
        mx: moments.mx,
        my: moments.my,
        below,
        bins: Seq::new(bins),
        above,
        x: Seq::new(x),
        y: Seq::new(y),
    }
}

/// The measure of the piece of an array that begins at place `from`. `samples` are the bytes of the piece,
/// the most significant byte of each sample first, and `dims` are the dimensions of the array.
///
/// # Errors
///
/// Where memory is refused.
pub fn measure_piece(
    alloc: Global,
    rule: &StatsRule,
    id: i32,
    kind: SampleType,
    dims: &[Dim],
    from: u32,
    samples: &[u8],
) -> Result<Measure, OutOfMemory>
    requires rule { IsStats rule.now }
    requires dimensions { IsTrue (has_dimensions dims.now) }
    requires few { sample_count dims.now ≤ most_samples }
    requires whole { length samples.now % width kind ≡ 0 }
    requires some { 0 < length samples.now }
    requires within { from + length samples.now / width kind ≤ sample_count dims.now }
    ensures { IfOk result (λ m. m ≡ measure_of rule.now id kind dims.now from samples.now) }
{
    let first = number_at(kind, samples, 0);
    let blank = blank_tally(alloc, rule, dims, from, first)?;
    let mut narrow = blank_narrow(alloc, rule, kind, dims)?;
    let tally = tally_of(blank, rule, &mut narrow, kind, dims, from, samples);
    Ok(measure_from(tally, id))
}

/// The measure of an array. `samples` are the bytes of its samples, the most significant byte of each first.
///
/// # Errors
///
/// Where memory is refused.
pub fn measure(
    alloc: Global,
    rule: &StatsRule,
    id: i32,
    kind: SampleType,
    dims: &[Dim],
    samples: &[u8],
) -> Result<Measure, OutOfMemory>
    requires rule { IsStats rule.now }
    requires dimensions { IsTrue (has_dimensions dims.now) }
    requires few { sample_count dims.now ≤ most_samples }
    requires samples { length samples.now ≡ sample_count dims.now * width kind }
    ensures { IfOk result (λ m. m ≡ measure_of rule.now id kind dims.now 0 samples.now) }
{
    measure_piece(alloc, rule, id, kind, dims, 0, samples)
}
