//! Workload `stats TYPE BITS THRESHOLD BORDER BINS LOW HIGH PROFILES SIZES COUNT`: the measure of an array whose samples have so many bits, so many
//! times; `chunks` with the same words measures it by as many threads as there are processors.

ghost use Rattle.std.specs.Prelude.{IfSome};
ghost use Rattle.nd_base.specs.GraphRules.{IsStats};

use crate::given::{array_of, bound_of, kind_of, mixed};
use nd_base::{Measure, NdArray, StatsRule};
use nd_stats::{measure, measure_chunks};
use std::alloc::Global;
use std::thread::Threads;

/// The lowest 64 bits of a wide number.
fn low_bits(number: u128) -> u64 {
    (number % 0x1_0000_0000_0000_0000) as u64
}

/// The numbers of a measure in one.
fn checksum(m: &Measure) -> u64 {
    let mut sum = low_bits(m.squares);
    for number in [m.total, m.border, m.m0, m.min, m.max] {
        sum = mixed(sum, number.cast_unsigned());
    }
    for number in [m.mx, m.my] {
        sum = mixed(sum, low_bits(number.cast_unsigned()));
    }
    for count in [
        m.n, m.border_n, m.over, m.min_at, m.max_at, m.below, m.above,
    ] {
        sum = mixed(sum, u64::from(count));
    }
    for list in [m.bins.as_slice(), m.x.as_slice(), m.y.as_slice()] {
        for number in list {
            sum = mixed(sum, number.cast_unsigned());
        }
    }
    sum
}

/// The rule of these words.
fn rule_of(words: &[String]) -> Option<StatsRule>
    ensures { IfSome result (λ rule. IsStats rule) }
{
    let [threshold, border, bins, low, high, profiles] = words else {
        return None;
    };
    let border = border.as_str().parse::<u32>().ok()?;
    let hist_size = bins.as_str().parse::<u32>().ok()?;
    let hist_lo = bound_of(low.as_str())?;
    let hist_hi = bound_of(high.as_str())?;
    if border > 67_108_864 || hist_size > 1024 || (hist_size != 0 && hist_lo >= hist_hi) {
        return None;
    }
    Some(StatsRule {
        threshold: bound_of(threshold.as_str())?,
        border,
        hist_size,
        hist_lo,
        hist_hi,
        profiles: profiles.as_str() == "1",
    })
}

/// The array whose samples have so many bits, and the rule.
fn work_of(alloc: Global, kind: &str, words: &[String], sizes: &str) -> Option<(NdArray, StatsRule)>
    ensures { IfSome result (λ work. IsStats work.1) }
{
    let [bits, rule @ ..] = words else {
        return None;
    };
    let bits = bits.as_str().parse::<usize>().ok()?;
    let array = array_of(alloc, kind_of(kind)?, bits, sizes)?;
    Some((array, rule_of(rule)?))
}

/// Measures the array of these words `count` times.
pub(crate) fn stats(
    alloc: Global,
    kind: &str,
    words: &[String],
    sizes: &str,
    count: u32,
) -> Option<u64> {
    let (array, rule) = work_of(alloc, kind, words, sizes)?;
    let mut sum = 0;
    for _ in 0..count {
        let m = measure(alloc, &rule, 1, array.kind(), array.dims(), array.bytes()).ok()?;
        sum = mixed(sum, checksum(&m));
    }
    Some(sum)
}

/// The same in chunks.
pub(crate) fn chunks<T: Threads + Sync>(
    rt: &T,
    alloc: Global,
    kind: &str,
    words: &[String],
    sizes: &str,
    count: u32,
) -> Option<u64> {
    let (array, rule) = work_of(alloc, kind, words, sizes)?;
    let mut sum = 0;
    for _ in 0..count {
        let m = measure_chunks(
            rt,
            alloc,
            &rule,
            1,
            array.kind(),
            array.dims(),
            array.bytes(),
        )
        .ok()?;
        sum = mixed(sum, checksum(&m));
    }
    Some(sum)
}
