//! What a region takes of each dimension.

ghost use Rattle.std.specs.Prelude.{◌≡◌, ◌+◌, ◌<◌, ◌≤◌, true, nat_lt, length};
ghost use Rattle.std.specs.List.{list_all};
ghost use Rattle.nd_base.specs.Shapes.{sample_count, most_samples};
ghost use Rattle.nd_series.specs.Spans.{span_from, span_at, spans_from, span_count, frame_place, is_at_edge};

use crate::region::Box4;
use nd_base::Dim;

/// What a region takes of one dimension of `size`: `count` indices from `first` on.
#[derive(Clone, Copy)]
pub(crate) struct Span {
    pub first: u32,
    pub count: u32,
    pub size: u32,
}

/// `count` indices from `first` on, as far as there are so many: at least one, the last where `first` lies behind it.
fn span_from(first: u32, count: u32, size: u32) -> Span
    requires { 0 < size }
    ensures { result ≡ span_from first count size }
{
    let first = first.min(size - 1);
    Span {
        first,
        count: count.max(1).min(size - first),
        size,
    }
}

/// What a region takes of dimension `k`.
pub(crate) fn span_at(region: &Box4, k: usize, size: u32) -> Span
    requires { 0 < size }
    ensures { result ≡ span_at region.now k size }
{
    match k {
        0 => span_from(region.x, region.w, size),
        1 => span_from(region.y, region.h, size),
        _ => Span {
            first: 0,
            count: size,
            size,
        },
    }
}

/// How many samples, or lines, a region takes of these dimensions. The first of them is dimension `k`.
pub(crate) fn line_count(region: &Box4, k: usize, dims: &[Dim]) -> u32
    requires sizes { list_all (λ d. nat_lt 0 d.size) dims.now ≡ true }
    requires few { sample_count dims.now ≤ most_samples }
    requires most { k + length dims.now ≤ 10 }
    ensures value { result ≡ span_count (spans_from region.now k dims.now) }
    ensures bound { result ≤ sample_count dims.now }
{
    match dims {
        [] => 1,
        [dim, others @ ..] => {
            span_at(region, k, dim.size).count * line_count(region, k + 1, others)
        }
    }
}

/// Where a line of a region lies: which line of the frame it is, and whether it is the first or the last along some dimension.
#[derive(Clone, Copy)]
pub(crate) struct Spot {
    pub place: usize,
    pub at_edge: bool,
}

/// Where line `number` of a region lies. `dims` are the dimensions that the lines are counted along, of which the first is dimension `k`.
pub(crate) fn spot_at(region: &Box4, k: usize, dims: &[Dim], number: u32) -> Spot
    requires sizes { list_all (λ d. nat_lt 0 d.size) dims.now ≡ true }
    requires few { sample_count dims.now ≤ most_samples }
    requires most { k + length dims.now ≤ 10 }
    requires number { number < span_count (spans_from region.now k dims.now) }
    ensures place { result.place ≡ frame_place (spans_from region.now k dims.now) number }
    ensures within { result.place < sample_count dims.now }
    ensures edge { result.at_edge ≡ is_at_edge (spans_from region.now k dims.now) number }
{
    match dims {
        [] => Spot {
            place: 0,
            at_edge: false,
        },
        [dim, others @ ..] => {
            let span = span_at(region, k, dim.size);
            let index = number % span.count;
            let rest = spot_at(region, k + 1, others, number / span.count);
            Spot {
                place: (span.first + index) as usize + dim.size as usize * rest.place,
                at_edge: index == 0 || index + 1 == span.count || rest.at_edge,
            }
        }
    }
}
