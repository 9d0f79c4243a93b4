//! The numbers of regions of a frame, read where they lie.

ghost use Rattle.std.specs.Prelude.{◌≡◌, ◌*◌, ◌<◌, ◌≤◌, IfOk, IsTrue, length, map};
ghost use Rattle.nd_base.specs.Samples.{width, samples_of};
ghost use Rattle.nd_base.specs.Shapes.{has_dimensions, sample_count, most_samples};
ghost use Rattle.nd_base.specs.Array.{Array};
ghost use Rattle.nd_series.specs.Regions.{measured_part, row_of};
ghost use Rattle.nd_series.specs.InPlace.{part_in, row_in_place};

use crate::line::{Frame, line_numbers};
use crate::row::{Part, SeriesRow};
use crate::span::line_count;
use nd_base::{Dim, NdArray, OutOfMemory, SampleType, Seq};
use std::alloc::Global;

/// A region of a frame: `w` columns from `x` on and `h` rows from `y` on, as far as the frame has them. There is at least one of each, the
/// last where the region begins behind it. `y` and `h` aren't used where there is one dimension, and dimensions from 2 on are taken whole.
#[derive(Clone, Copy, Debug, PartialEq, Eq)]
pub struct Box4 {
    pub x: u32,
    pub y: u32,
    pub w: u32,
    pub h: u32,
}

/// The numbers of one region.
fn region_part(region: &Box4, kind: SampleType, dims: &[Dim], samples: &[u8]) -> Part
    requires dimensions { IsTrue (has_dimensions dims.now) }
    requires few { sample_count dims.now ≤ most_samples }
    requires count { length samples.now ≡ sample_count dims.now * width kind }
    ensures in_place { result ≡ part_in region.now dims.now (samples_of kind samples.now) }
    ensures measured { (a : Array) → a.kind ≡ kind → a.dims ≡ dims.now → a.samples ≡ samples_of kind samples.now → result ≡ measured_part region.now a }
{
    let Some((first, others)) = dims.split_first() else {
        unreachable!()
    };
    let frame = Frame {
        kind,
        columns: first.size,
        others,
        samples,
    };
    let mut part = line_numbers(&frame, region, 0);
    for number in 1..line_count(region, 1, others) {
        part = part.joined(&line_numbers(&frame, region, number));
    }
    part
}

/// The numbers of each region of a frame of this type, with these dimensions and samples.
pub(crate) fn region_parts(
    alloc: Global,
    regions: &[Box4],
    kind: SampleType,
    dims: &[Dim],
    samples: &[u8],
) -> Result<Vec<Part>, OutOfMemory>
    requires dimensions { IsTrue (has_dimensions dims.now) }
    requires few { sample_count dims.now ≤ most_samples }
    requires count { length samples.now ≡ sample_count dims.now * width kind }
    ensures in_place { IfOk result (λ parts. parts.items ≡ map (λ b. part_in b dims.now (samples_of kind samples.now)) regions.now) }
    ensures measured { (a : Array) → a.kind ≡ kind → a.dims ≡ dims.now → a.samples ≡ samples_of kind samples.now
        → IfOk result (λ parts. parts.items ≡ map (λ b. measured_part b a) regions.now) }
{
    let mut parts = Vec::with_capacity(alloc, regions.len())?;
    for region in regions {
        parts.push(region_part(region, kind, dims, samples))?;
    }
    Ok(parts)
}

/// The numbers of each region of a frame, with one pass over the region's samples and no copy of them.
///
/// # Errors
///
/// Only for want of memory.
pub fn region_row(alloc: Global, regions: &[Box4], a: &NdArray) -> Result<SeriesRow, OutOfMemory>
    ensures measured { IfOk result (λ row. row ≡ row_of regions.now a.now) }
    ensures in_place { IfOk result (λ row. row ≡ row_in_place regions.now a.now) }
{
    let parts = region_parts(alloc, regions, a.kind(), a.dims(), a.bytes())?;
    Ok(SeriesRow {
        id: a.head().id,
        parts: Seq::new(parts),
    })
}
