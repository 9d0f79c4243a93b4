//! The samples of a region.

ghost use Rattle.std.specs.Prelude.{◌≡◌, ◌+◌, ◌*◌, ◌<◌, ◌≤◌, length, IsTrue, nat_lt, true};
ghost use Rattle.std.specs.List.{list_all};
ghost use Rattle.nd_base.specs.GraphRules.{IsRoi};
ghost use Rattle.nd_base.specs.Samples.{width, samples_of};
ghost use Rattle.nd_base.specs.Shapes.{has_dimensions, sample_count, most_samples};
ghost use Rattle.nd_roi.specs.Cut.{region_dims};
ghost use Rattle.nd_roi.specs.Region.{out_type, region_samples};
ghost use Rattle.nd_roi.specs.Walk.{axes_from};

use crate::cut::{Cut, cut_of};
use crate::walk::{Axis, CHUNK, Job, fill_lines};
use nd_base::{Dim, RoiRule, SampleType};

/// An axis before it is set.
const UNSET: Axis = Axis {
    cut: Cut {
        min: 0,
        bin: 1,
        size: 1,
        reverse: false,
    },
    stride: 0,
};

/// Sets the axes of the dimensions from dimension 1 on; `stride` is the size of dimension 0.
fn set_axes(rule: &RoiRule, dims: &[Dim], mut stride: usize, axes: &mut [Axis])
    requires room { length axes.old ≡ length dims.now }
    requires sizes { list_all (λ d. nat_lt 0 d.size) dims.now ≡ true }
    requires few { stride * sample_count dims.now ≤ most_samples }
    ensures { axes.new ≡ axes_from rule.now 1 stride dims.now }
{
    for (k, dim) in dims.iter().enumerate() {
        axes[k] = Axis {
            cut: cut_of(rule, k + 1, dim.size),
            stride,
        };
        stride *= dim.size as usize;
    }
}

/// Fills `out` with the samples of the region that the rule cuts out of an array of type `kind`, dimensions
/// `dims` and samples `input`. Both hold the most significant byte of each sample first; the output's type is
/// the rule's, or `kind` where it names none.
pub fn fill_region(rule: &RoiRule, kind: SampleType, dims: &[Dim], input: &[u8], out: &mut [u8])
    requires rule { IsRoi rule.now }
    requires dimensions { IsTrue (has_dimensions dims.now) }
    requires few { sample_count dims.now ≤ most_samples }
    requires input { length input.now ≡ sample_count dims.now * width kind }
    requires output { length out.old ≡ sample_count (region_dims rule.now dims.now) * width (out_type rule.now kind) }
    ensures { samples_of (out_type rule.now kind) out.new ≡ region_samples rule.now kind dims.now (samples_of kind input.now) }
{
    let Some((first, others)) = dims.split_first() else {
        return;
    };
    let mut axes = [UNSET; 9];
    let slower = &mut axes[..others.len()];
    set_axes(rule, others, first.size as usize, slower);
    let job = Job {
        kind,
        line: cut_of(rule, 0, first.size),
        slower,
        scale: rule.scale,
        out_kind: rule.out.unwrap_or(kind),
    };
    let mut sums = [0i32; CHUNK];
    fill_lines(&job, input, job.slower, 0, 0, &mut sums, out);
}
