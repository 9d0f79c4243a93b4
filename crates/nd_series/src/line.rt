//! The numbers of one line of a region.

ghost use Rattle.std.specs.Prelude.{◌≡◌, ℕ, ◌+◌, ◌*◌, ◌/◌, ◌%◌, ◌<◌, ◌≤◌, List, ◌∷◌, length, drop};
ghost use Rattle.nd_base.specs.Samples.{width, numbers, samples_of};
ghost use Rattle.nd_base.specs.Shapes.{most_samples};
ghost use Rattle.nd_series.specs.declared.span.Span.{Span};
ghost use Rattle.nd_series.specs.Spans.{span_at, spans_from, span_count, is_at_edge};
ghost use Rattle.nd_series.specs.InPlace.{numbers_of, placed_at};
ghost use Rattle.nd_stats.specs.Samples.{placed};
ghost use Rattle.nd_series.specs.Lines.{IsFrame, columns_and_lines, ends_sum, ends_count};

use crate::region::Box4;
use crate::row::Part;
use crate::span::{span_at, spot_at};
use lane_kernels::{MinMax, min_max_bytes, sample_at, sum_bytes};
use nd_base::{Dim, SampleType};

/// A frame: the type of its samples, the size of dimension 0, the other dimensions, and the bytes of the samples.
#[derive(Clone, Copy)]
pub(crate) struct Frame<'a> {
    pub kind: SampleType,
    pub columns: u32,
    pub others: &'a [Dim],
    pub samples: &'a [u8],
}

/// The bytes of `count` samples from place `place` on.
fn bytes_from(kind: SampleType, samples: &[u8], place: usize, count: usize) -> &[u8]
    requires { place + count ≤ length samples.now / width kind }
    ensures values { samples_of kind result.now ≡ numbers kind count (drop (place * width kind) samples.now) }
    ensures len { length result.now ≡ count * width kind }
{
    let width = kind.width();
    &samples[place * width..(place + count) * width]
}

/// The sum of the first and the last sample of a line, and how many these are.
fn ends(kind: SampleType, line: &[u8]) -> (i64, u32)
    requires { 0 < length line.now / width kind }
    ensures sum { result.0 ≡ ends_sum (samples_of kind line.now) }
    ensures count { result.1 ≡ ends_count (samples_of kind line.now) }
{
    let first = sample_at(kind, line, 0);
    let last = line.len() / kind.width() - 1;
    if last == 0 {
        (first, 1)
    } else {
        (first + sample_at(kind, line, last), 2)
    }
}

/// The numbers of a line. All of its samples are at the region's border where the line is the first or the last along some dimension, and
/// else its first and its last one.
fn part_of_line(kind: SampleType, line: &[u8], at_edge: bool) -> Part
    requires whole { length line.now % width kind ≡ 0 }
    requires some { 0 < length line.now / width kind }
    requires few { length line.now / width kind ≤ most_samples }
    ensures { (s : Span) (spans : List Span) (k : ℕ) → s.count ≡ length line.now / width kind → is_at_edge spans k ≡ at_edge
        → result ≡ numbers_of (s ∷ spans) (placed (k * s.count) (samples_of kind line.now)) }
{
    let Some(MinMax { min, max }) = min_max_bytes(kind, line) else {
        unreachable!()
    };
    let total = sum_bytes(kind, line);
    let (border, border_n) = if at_edge {
        (total, (line.len() / kind.width()) as u32)
    } else {
        ends(kind, line)
    };
    Part {
        min,
        max,
        total,
        border,
        border_n,
    }
}

/// The numbers of line `number` of a region.
pub(crate) fn line_numbers(frame: &Frame, region: &Box4, number: u32) -> Part
    requires frame { IsFrame frame.now.kind frame.now.columns frame.now.others.now frame.now.samples.now }
    requires number { number < span_count (spans_from region.now 1 frame.now.others.now) }
    ensures { let spans = columns_and_lines region.now frame.now.columns frame.now.others.now in
        let count = (span_at region.now 0 frame.now.columns).count in
        result ≡ numbers_of spans (placed_at spans (samples_of frame.now.kind frame.now.samples.now) (number * count) count) }
{
    let columns = span_at(region, 0, frame.columns);
    let spot = spot_at(region, 1, frame.others, number);
    let place = columns.first as usize + frame.columns as usize * spot.place;
    let line = bytes_from(frame.kind, frame.samples, place, columns.count as usize);
    part_of_line(frame.kind, line, spot.at_edge)
}
