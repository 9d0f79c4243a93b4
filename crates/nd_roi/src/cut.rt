//! What a rule cuts out of each dimension.

ghost use Rattle.std.specs.Prelude.{◌≡◌, ◌<◌, ◌≤◌, IfOk, IsTrue, slice_index_or, pos, ◌+ℤ◌, ◌*ℤ◌};
ghost use Rattle.nd_base.specs.GraphRules.{IsRoi};
ghost use Rattle.nd_base.specs.Shapes.{has_dimensions, sample_count, most_samples};
ghost use Rattle.nd_roi.specs.Cut.{clamped, clamped_i32, cut, cut_dim, region_dims};
ghost use Rattle.nd_roi.specs.Walk.{held, kept};

use nd_base::{Dim, OutOfMemory, RoiRule};
use std::alloc::Global;

/// What a rule cuts out of one dimension: from index `min` on, `size` groups of `bin` indices each, the
/// last group first where `reverse` is set.
#[derive(Clone, Copy, Debug, PartialEq, Eq)]
pub(crate) struct Cut {
    pub min: u32,
    pub bin: u32,
    pub size: u32,
    pub reverse: bool,
}

impl Cut {
    ghost use Rattle.nd_roi.specs.Walk.{covers_from};

    /// The first index that the output index `out` covers.
    pub fn first_covered(self, out: usize) -> usize
        requires { out < self.size }
        ensures { result ≡ covers_from self out }
    {
        let group = if self.reverse {
            self.size as usize - 1 - out
        } else {
            out
        };
        self.min as usize + group * self.bin as usize
    }
}

/// The number nearest to `value` from `low` to `high`.
fn clamp_index(value: i32, low: u32, high: u32) -> u32
    requires { low ≤ high }
    ensures { result ≡ clamped low high value }
{
    match u32::try_from(value) {
        Ok(index) => index.max(low).min(high),
        Err(_) => low,
    }
}

/// The value for dimension `k`, or `otherwise` where the list is too short.
fn listed(list: &[i32], k: usize, otherwise: i32) -> i32
    ensures { result ≡ slice_index_or list.now k otherwise }
{
    list.get(k).copied().unwrap_or(otherwise)
}

/// The value for dimension `k`, or `otherwise` where the list is too short.
fn flagged(list: &[bool], k: usize, otherwise: bool) -> bool
    ensures { result ≡ slice_index_or list.now k otherwise }
{
    list.get(k).copied().unwrap_or(otherwise)
}

/// What the rule cuts out of dimension `k`, which has `size` elements.
pub(crate) fn cut_of(rule: &RoiRule, k: usize, size: u32) -> Cut
    requires { 0 < size }
    ensures { result ≡ held (cut rule.now k size) }
{
    let min = clamp_index(listed(rule.min.as_slice(), k, 0), 0, size - 1);
    let rest = size - min;
    let takes_rest = flagged(rule.auto.as_slice(), k, rule.size.as_slice().len() <= k);
    let span = match rule.size.as_slice().get(k) {
        Some(&wanted) if !takes_rest => clamp_index(wanted, 1, rest),
        _ => rest,
    };
    let bin = clamp_index(listed(rule.bin.as_slice(), k, 1), 1, span);
    Cut {
        min,
        bin,
        size: span / bin,
        reverse: flagged(rule.reverse.as_slice(), k, false),
    }
}

/// The 32-bit number nearest to `value`.
fn clamp_i32(value: i64) -> i32
    ensures { result ≡ clamped_i32 value }
{
    value.clamp(i64::from(i32::MIN), i64::from(i32::MAX)) as i32
}

/// The offset moved up by `min`.
fn offset_from(offset: i32, min: u32) -> i32
    ensures { result ≡ clamped_i32 (offset +ℤ pos min) }
{
    clamp_i32(i64::from(offset) + i64::from(min))
}

/// The binning where `bin` elements become one.
fn binning_by(binning: i32, bin: u32) -> i32
    ensures { result ≡ clamped_i32 (binning *ℤ pos bin) }
{
    clamp_i32(i64::from(binning) * i64::from(bin))
}

/// What the cut leaves of the dimension.
fn cut_dim(dim: &Dim, cut: Cut) -> Dim
    ensures { result ≡ cut_dim dim.now (kept cut) }
{
    Dim {
        size: cut.size,
        offset: offset_from(dim.offset, cut.min),
        binning: binning_by(dim.binning, cut.bin),
        reverse: if cut.reverse {
            !dim.reverse
        } else {
            dim.reverse
        },
    }
}

/// The dimensions of the region that the rule cuts out of an array of dimensions `dims`.
///
/// # Errors
///
/// Only for want of memory.
pub fn region(alloc: Global, rule: &RoiRule, dims: &[Dim]) -> Result<Vec<Dim>, OutOfMemory>
    requires rule { IsRoi rule.now }
    requires dimensions { IsTrue (has_dimensions dims.now) }
    requires few { sample_count dims.now ≤ most_samples }
    ensures { IfOk result (λ region. region.items ≡ region_dims rule.now dims.now) }
{
    let mut region = Vec::with_capacity(alloc, dims.len())?;
    for (k, dim) in dims.iter().enumerate() {
        region.push(cut_dim(dim, cut_of(rule, k, dim.size)))?;
    }
    Ok(region)
}
