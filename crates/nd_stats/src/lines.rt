//! The numbers that ask where the samples lie, line by line.

ghost use Rattle.std.specs.Prelude.{◌≡◌, ◌+◌, ◌*◌, ◌/◌, ◌<◌, ◌≤◌, ◌^◌, ◌+ℤ◌, ◌*ℤ◌, length, pos, unsigned_abs, true, nat_lt};
ghost use Rattle.std.specs.List.{list_all};
ghost use Rattle.nd_base.specs.Samples.{width, samples_of};
ghost use Rattle.nd_base.specs.Shapes.{sample_count};
ghost use Rattle.nd_base.specs.Places.{index_in};
ghost use Rattle.nd_stats.specs.Samples.{placed};
ghost use Rattle.nd_stats.specs.Tallies.{HasRoom};
ghost use Rattle.nd_stats.specs.Running.{IsFrame, AreMoments};

use crate::over::{Over, line_over};
use crate::sample::part;
use crate::spot::{later_spot, plane_of, spot_at};
use crate::tally::Moments;
use nd_base::{Dim, SampleType, StatsRule};

/// How many of `left` samples lie on a line of this width from index `x` on, at most 8,192.
pub(crate) fn on_line(width: u32, x: u32, left: usize) -> usize
    requires x { x < width }
    requires left { 0 < left }
    ensures some { 0 < result }
    ensures left { result ≤ left }
    ensures line { x + result ≤ width }
    ensures few { result ≤ 8192 }
{
    ((width - x) as usize).min(left).min(8192)
}

/// A sum times an index.
#[inline(always)]
fn far(index: u32, sum: i64) -> i128
    requires index { index ≤ 67108864 }
    requires sum { unsigned_abs sum ≤ 2 ^ 46 }
    ensures value { result ≡ pos index *ℤ sum }
    ensures bound { unsigned_abs result ≤ 2 ^ 73 }
{
    i128::from(index) * i128::from(sum)
}

impl Moments {
    /// Adds a part of a line, whose first sample has index `x` in dimension 0 and `y` in dimension 1.
    fn add_line(&mut self, line: &Over, x: u32, y: u32)
        requires x { x ≤ 67108864 }
        requires y { y ≤ 67108864 }
        requires over { self.old.over < 2 ^ 31 }
        requires m0 { HasRoom self.old.m0 }
        requires mx { unsigned_abs self.old.mx < 2 ^ 100 }
        requires my { unsigned_abs self.old.my < 2 ^ 100 }
        requires count { line.now.count ≤ 8192 }
        requires sum { unsigned_abs line.now.sum ≤ 2 ^ 46 }
        requires weighted { unsigned_abs line.now.weighted ≤ 2 ^ 60 }
        ensures over { self.new.over ≡ self.old.over + line.now.count }
        ensures m0 { self.new.m0 ≡ self.old.m0 +ℤ line.now.sum }
        ensures mx { self.new.mx ≡ self.old.mx +ℤ (line.now.weighted +ℤ (pos x *ℤ line.now.sum)) }
        ensures my { self.new.my ≡ self.old.my +ℤ (pos y *ℤ line.now.sum) }
    {
        self.over += line.count;
        self.m0 += line.sum;
        self.mx += i128::from(line.weighted) + far(x, line.sum);
        self.my += far(y, line.sum);
    }
}

/// The sums over the samples of a piece that reach the threshold. The piece begins at place `from`.
pub(crate) fn moments_of(
    rule: &StatsRule,
    kind: SampleType,
    dims: &[Dim],
    from: u32,
    samples: &[u8],
) -> Moments
    requires frame { IsFrame rule.now dims.now }
    requires within { from + length samples.now / width kind ≤ sample_count dims.now }
    ensures { AreMoments rule.now dims.now (placed from (samples_of kind samples.now)) result }
{
    let count = samples.len() / kind.width();
    let plane = plane_of(dims);
    let mut moments = Moments {
        over: 0,
        m0: 0,
        mx: 0,
        my: 0,
    };
    let mut spot = spot_at(rule.border, dims, from);
    let mut done = 0;
    while done < count {
        let size = on_line(plane.width, spot.x, count - done);
        let line = line_over(kind, rule.threshold, part(kind, samples, done, size));
        moments.add_line(&line, spot.x, spot.y);
        spot = later_spot(rule.border, dims, plane, spot, size as u32);
        done += size;
    }
    moments
}
