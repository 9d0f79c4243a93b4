//! The series of a stack.

ghost use Rattle.std.specs.Prelude.{◌≡◌, ◌<◌, length, slice_get, IfOk, IfSome};
ghost use Rattle.nd_base.specs.GraphRules.{IsBetween};
ghost use Rattle.nd_series.specs.Regions.{row_of};
ghost use Rattle.nd_series.specs.Stacks.{series_of};

use crate::region::{Box4, region_parts};
use crate::row::SeriesRow;
use crate::series::Series;
use nd_base::{OutOfMemory, Seq, Stack};
use std::alloc::Global;

/// The numbers of each region of frame `k`, with one pass over the region's samples, which are read where they lie in the stack's file.
///
/// # Errors
///
/// Only for want of memory.
pub fn stack_row(
    alloc: Global,
    regions: &[Box4],
    stack: &Stack,
    k: u32,
) -> Result<SeriesRow, OutOfMemory>
    requires { k < length stack.now.arrays }
    ensures { IfOk result (λ row. IfSome (slice_get stack.now.arrays k) (λ a. row ≡ row_of regions.now a)) }
{
    let shape = stack.shape();
    let dims = shape.dims.as_slice();
    let parts = region_parts(alloc, regions, shape.kind, dims, stack.frame(k))?;
    Ok(SeriesRow {
        id: stack.head(k).id,
        parts: Seq::new(parts),
    })
}

/// The series of these regions over all frames of a stack, in order, that keeps the last `most` rows.
///
/// # Errors
///
/// Only for want of memory.
pub fn series_of(
    alloc: Global,
    regions: &[Box4],
    most: u32,
    stack: &Stack,
) -> Result<Series, OutOfMemory>
    requires regions { IsBetween 1 32 (length regions.now) }
    requires most { IsBetween 1 4096 most }
    ensures { IfOk result (λ series. series ≡ series_of most regions.now stack.now.arrays) }
{
    let mut series = Series::new(alloc, regions.len() as u32, most)?;
    for k in 0..stack.frames() {
        series.push(stack_row(alloc, regions, stack, k)?);
    }
    Ok(series)
}
