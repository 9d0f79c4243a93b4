//! The samples at the border of an array.

ghost use Rattle.std.specs.Prelude.{◌≡◌, ℕ, ◌+◌, ◌*◌, ◌/◌, ◌<◌, ◌≤◌, ◌||◌, length, drop};
ghost use Rattle.nd_base.specs.Samples.{width, numbers, samples_of};
ghost use Rattle.nd_base.specs.Shapes.{sample_count, most_samples};
ghost use Rattle.lane_kernels.specs.Plain.{total};
ghost use Rattle.nd_stats.specs.Samples.{placed, is_near_end};
ghost use Rattle.nd_stats.specs.Running.{IsFrame, IsEdge};

use crate::spot::{Spot, later_spot, plane_of, spot_at};
use lane_kernels::sample_at;
use nd_base::{Dim, SampleType, StatsRule};

/// The samples at the border: how many, and their sum.
#[derive(Clone, Copy)]
pub(crate) struct Edge {
    pub count: u32,
    pub sum: i64,
}

impl Edge {
    ghost use Rattle.std.specs.Prelude.{◌+ℤ◌};
    ghost use Rattle.nd_stats.specs.Running.{HaveEdgeRooms};

    /// Takes up those of later samples.
    pub fn extend(&mut self, later: &Edge)
        requires one { HaveEdgeRooms self.old }
        requires two { HaveEdgeRooms later.now }
        ensures count { self.new.count ≡ self.old.count + later.now.count }
        ensures sum { self.new.sum ≡ self.old.sum +ℤ later.now.sum }
    {
        self.count += later.count;
        self.sum += later.sum;
    }
}

/// Neighbours on a line that are all at the border, or all not.
#[derive(Clone, Copy)]
struct Run {
    at_border: bool,
    size: u32,
}

/// The run that begins at a spot. `width` is the size of dimension 0.
fn run_at(border: u32, width: u32, spot: &Spot) -> Run
    requires { spot.now.x < width }
    ensures some { 0 < result.size }
    ensures within { spot.now.x + result.size ≤ width }
    ensures same { (j : ℕ) → j < result.size → (is_near_end border width (spot.now.x + j) || spot.now.line_at_border) ≡ result.at_border }
{
    let last = width.saturating_sub(border);
    let (at_border, end) = if spot.line_at_border || spot.x >= last {
        (true, width)
    } else if spot.x < border {
        (true, border.min(width))
    } else {
        (false, last)
    };
    Run {
        at_border,
        size: end - spot.x,
    }
}

/// The sum of `size` neighbours from place `done` of the samples on, by a loop of their type: most runs are short.
#[inline(always)]
fn sum_run(kind: SampleType, samples: &[u8], done: usize, size: usize) -> i64
    requires within { done + size ≤ length samples.now / width kind }
    requires few { length samples.now / width kind ≤ most_samples }
    ensures { result ≡ total (numbers kind size (drop (done * width kind) samples.now)) }
{
    let mut sum = 0i64;
    for k in 0..size {
        sum += sample_at(kind, samples, done + k);
    }
    sum
}

/// The samples at the border of a piece that begins at place `from`.
#[inline(always)]
fn edge_each(rule: &StatsRule, kind: SampleType, dims: &[Dim], from: u32, samples: &[u8]) -> Edge
    requires frame { IsFrame rule.now dims.now }
    requires within { from + length samples.now / width kind ≤ sample_count dims.now }
    ensures { IsEdge rule.now dims.now (placed from (samples_of kind samples.now)) result }
{
    let mut edge = Edge { count: 0, sum: 0 };
    if rule.border == 0 {
        return edge;
    }
    let count = samples.len() / kind.width();
    let plane = plane_of(dims);
    let mut spot = spot_at(rule.border, dims, from);
    let mut done = 0;
    while done < count {
        let run = run_at(rule.border, plane.width, &spot);
        let size = (run.size as usize).min(count - done);
        if run.at_border {
            edge.count += size as u32;
            edge.sum += sum_run(kind, samples, done, size);
        }
        spot = later_spot(rule.border, dims, plane, spot, size as u32);
        done += size;
    }
    edge
}

/// The same by code of each sample type.
#[inline(never)]
pub(crate) fn edge_of(
    rule: &StatsRule,
    kind: SampleType,
    dims: &[Dim],
    from: u32,
    samples: &[u8],
) -> Edge
    requires frame { IsFrame rule.now dims.now }
    requires within { from + length samples.now / width kind ≤ sample_count dims.now }
    ensures { IsEdge rule.now dims.now (placed from (samples_of kind samples.now)) result }
{
    match kind {
        SampleType::Int8 => edge_each(rule, SampleType::Int8, dims, from, samples),
        SampleType::UInt8 => edge_each(rule, SampleType::UInt8, dims, from, samples),
        SampleType::Int16 => edge_each(rule, SampleType::Int16, dims, from, samples),
        SampleType::UInt16 => edge_each(rule, SampleType::UInt16, dims, from, samples),
        SampleType::Int32 => edge_each(rule, SampleType::Int32, dims, from, samples),
        SampleType::UInt32 => edge_each(rule, SampleType::UInt32, dims, from, samples),
    }
}
