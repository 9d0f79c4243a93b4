//! The measure of an array, made of those of its chunks by several threads.

ghost use Rattle.std.specs.Prelude.{◌≡◌, ◌+◌, ◌*◌, ◌/◌, ◌%◌, ◌^◌, ◌<◌, ◌≤◌, length, IfOk, IsTrue};
ghost use Rattle.std.specs.Thread.{IsSync};
ghost use Rattle.nd_base.specs.GraphRules.{IsStats};
ghost use Rattle.nd_base.specs.Samples.{width};
ghost use Rattle.nd_base.specs.Shapes.{has_dimensions, sample_count, most_samples};
ghost use Rattle.nd_stats.specs.Measured.{measure_of};

use crate::measures::{measure, measure_piece};
use crate::merge::Merge;
use crate::spot::{first_size, second_size};
use nd_base::{Dim, Measure, OutOfMemory, SampleType, StatsRule};
use rayon::{current_num_threads, join};
use std::alloc::Global;
use std::thread::Threads;

/// How few samples are worth a thread of their own where they are counted in a histogram, which takes most of a measure's time.
const LEAST: usize = 32_768;

/// How few are where they aren't: a thread starts in the time in which some hundred thousand samples are measured.
const LEAST_UNCOUNTED: usize = 1_048_576;

/// How many samples a chunk has at least for each sum of its lists, of which each chunk has its own.
const FOR_EACH_SUM: usize = 8;

/// How many sums the histogram and the profiles of a measure have.
fn sums_of(rule: &StatsRule, dims: &[Dim]) -> usize
    requires { IsStats rule.now }
    ensures { result < 2 ^ 34 }
{
    let mut sums = rule.hist_size as usize;
    if rule.profiles {
        sums += first_size(dims) as usize + second_size(dims) as usize;
    }
    sums
}

/// How many threads so many samples are worth.
fn worth(rule: &StatsRule, dims: &[Dim], count: usize) -> usize
    requires { IsStats rule.now }
{
    let least = if rule.hist_size == 0 {
        LEAST_UNCOUNTED
    } else {
        LEAST
    };
    count / least.max(FOR_EACH_SUM * sums_of(rule, dims))
}

/// The measure of the first samples of an array by so many threads: this one, for the samples in front, and one for each chunk behind
/// them. This thread starts all others, one after the other, before it begins.
#[cycle(chunks)]
fn measure_by<R: Threads + Sync>(
    rt: &R,
    alloc: Global,
    rule: &StatsRule,
    id: i32,
    kind: SampleType,
    dims: &[Dim],
    samples: &[u8],
    threads: usize,
) -> Result<Measure, OutOfMemory>
    requires rule { IsStats rule.now }
    requires dimensions { IsTrue (has_dimensions dims.now) }
    requires few { sample_count dims.now ≤ most_samples }
    requires whole { length samples.now % width kind ≡ 0 }
    requires some { 0 < length samples.now }
    requires within { length samples.now / width kind ≤ sample_count dims.now }
    ensures { IfOk result (λ m. m ≡ measure_of rule.now id kind dims.now 0 samples.now) }
{
    let wide = kind.width();
    let count = samples.len() / wide;
    if threads < 2 || count < threads {
        return measure_piece(alloc, rule, id, kind, dims, 0, samples);
    }
    let from = count - count / threads;
    let (front, chunk) = samples.split_at(from * wide);
    let of_chunk = || -> Result<Measure, OutOfMemory>
        requires { IsStats rule.now × IsTrue (has_dimensions dims.now) × (sample_count dims.now ≤ most_samples)
            × (length chunk.now % width kind ≡ 0) × (0 < length chunk.now) × (from + length chunk.now / width kind ≤ sample_count dims.now) }
        ensures { IfOk result (λ m. m ≡ measure_of rule.entry.now id kind dims.entry.now from chunk.entry.now) }
    { measure_piece(alloc, rule, id, kind, dims, from as u32, chunk) };
    let of_front = || -> Result<Measure, OutOfMemory>
        requires { IsSync R.row × IsStats rule.now × IsTrue (has_dimensions dims.now) × (sample_count dims.now ≤ most_samples)
            × (length front.now % width kind ≡ 0) × (0 < length front.now) × (length front.now / width kind ≤ sample_count dims.now)
            × (1 < threads) }
        ensures { IfOk result (λ m. m ≡ measure_of rule.entry.now id kind dims.entry.now 0 front.entry.now) }
    { measure_by(rt, alloc, rule, id, kind, dims, front, threads - 1) };
    let (later, earlier) = join(rt, of_chunk, of_front);
    let mut whole = earlier?;
    whole.merge(&later?);
    Ok(whole)
}

/// As [`measure`](crate::measure), and a large array is measured in chunks by as many threads as there are processors.
///
/// # Errors
///
/// Where memory is refused.
pub fn measure_chunks(
    rt: &(impl Threads + Sync),
    alloc: Global,
    rule: &StatsRule,
    id: i32,
    kind: SampleType,
    dims: &[Dim],
    samples: &[u8],
) -> Result<Measure, OutOfMemory>
    requires rule { IsStats rule.now }
    requires dimensions { IsTrue (has_dimensions dims.now) }
    requires few { sample_count dims.now ≤ most_samples }
    requires samples { length samples.now ≡ sample_count dims.now * width kind }
    ensures { IfOk result (λ m. m ≡ measure_of rule.now id kind dims.now 0 samples.now) }
{
    let count = samples.len() / kind.width();
    let threads = worth(rule, dims, count);
    if threads < 2 {
        return measure(alloc, rule, id, kind, dims, samples);
    }
    let threads = threads.min(current_num_threads(rt));
    measure_by(rt, alloc, rule, id, kind, dims, samples, threads)
}
