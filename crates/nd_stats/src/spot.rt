//! Where a place lies.

ghost use Rattle.std.specs.Prelude.{◌≡◌, ◌+◌, ◌/◌, ◌<◌, ◌≤◌, ◌^◌, ◌||◌, length, drop, true, nat_lt};
ghost use Rattle.std.specs.List.{list_all};
ghost use Rattle.nd_base.specs.Places.{index_in, size_in};
ghost use Rattle.nd_stats.specs.Samples.{is_near_end, is_at_border};
ghost use Rattle.nd_stats.specs.Spots.{IsSpot, IsPlane};

use nd_base::Dim;

/// A place, its indices in dimensions 0 and 1, whether its line is near the end of a dimension from dimension 1 on, and
/// whether its plane is near the end of one from dimension 2 on.
#[derive(Clone, Copy)]
pub(crate) struct Spot {
    pub place: u32,
    pub x: u32,
    pub y: u32,
    pub line_at_border: bool,
    pub plane_at_border: bool,
}

/// Whether an index is one of the first or of the last `border` of a dimension.
pub(crate) fn is_near_end(border: u32, size: u32, index: u32) -> bool
    ensures { result ≡ is_near_end border size index }
{
    index < border || index >= size.saturating_sub(border)
}

/// Whether a place is near the end of some dimension.
fn is_at_border(border: u32, dims: &[Dim], place: u32) -> bool
    requires { list_all (λ d. nat_lt 0 d.size) dims.now ≡ true }
    ensures { result ≡ is_at_border border dims.now place }
{
    let mut rest = place;
    for dim in dims {
        if is_near_end(border, dim.size, rest % dim.size) {
            return true;
        }
        rest /= dim.size;
    }
    false
}

/// The index in the first of these dimensions, 0 where there is none.
pub(crate) fn first_index(dims: &[Dim], place: u32) -> u32
    requires { list_all (λ d. nat_lt 0 d.size) dims.now ≡ true }
    ensures { result ≡ index_in dims.now 0 place }
{
    match dims {
        [] => 0,
        [first, ..] => place % first.size,
    }
}

/// Whether a place is near the end of some dimension but the first of these.
fn is_plane_at_border(border: u32, dims: &[Dim], place: u32) -> bool
    requires { list_all (λ d. nat_lt 0 d.size) dims.now ≡ true }
    ensures { result ≡ is_at_border border (drop 1 dims.now) (place / size_in dims.now 0) }
{
    match dims {
        [] => false,
        [first, others @ ..] => is_at_border(border, others, place / first.size),
    }
}

/// Finds the indices of a place.
pub(crate) fn spot_at(border: u32, dims: &[Dim], place: u32) -> Spot
    requires { list_all (λ d. nat_lt 0 d.size) dims.now ≡ true }
    ensures place { result.place ≡ place }
    ensures spot { IsSpot border dims.now result }
{
    match dims {
        [] => Spot {
            place,
            x: 0,
            y: 0,
            line_at_border: false,
            plane_at_border: false,
        },
        [first, lines @ ..] => {
            let line = place / first.size;
            Spot {
                place,
                x: place % first.size,
                y: first_index(lines, line),
                line_at_border: is_at_border(border, lines, line),
                plane_at_border: is_plane_at_border(border, lines, line),
            }
        }
    }
}

/// The size of dimension 0.
pub(crate) fn first_size(dims: &[Dim]) -> u32
    ensures { result ≡ size_in dims.now 0 }
{
    match dims {
        [] => 1,
        [first, ..] => first.size,
    }
}

/// Whether a spot is near the end of some dimension.
#[tactic(auto, using(crate::proofs::Places::border_split))]
pub(crate) fn is_on_border(border: u32, dims: &[Dim], spot: &Spot) -> bool
    requires some { 0 < length dims.now }
    requires spot { IsSpot border dims.now spot.now }
    ensures { result ≡ is_at_border border dims.now spot.now.place }
{
    is_near_end(border, first_size(dims), spot.x) || spot.line_at_border
}

/// The size of dimension 1, 1 where there is none.
pub(crate) fn second_size(dims: &[Dim]) -> u32
    ensures { result ≡ size_in dims.now 1 }
{
    match dims {
        [] => 1,
        [_, others @ ..] => first_size(others),
    }
}

/// The sizes of dimensions 0 and 1.
#[derive(Clone, Copy)]
pub(crate) struct Plane {
    pub width: u32,
    pub height: u32,
}

/// The sizes of dimensions 0 and 1, 1 where there is none.
#[inline(always)]
pub(crate) fn plane_of(dims: &[Dim]) -> Plane
    ensures { IsPlane dims.now result }
{
    Plane {
        width: first_size(dims),
        height: second_size(dims),
    }
}

/// Whether a line is near the end of some dimension from dimension 1 on, by its index there and by its plane.
#[inline(always)]
fn is_line_at_border(border: u32, height: u32, y: u32, plane_at_border: bool) -> bool
    ensures { result ≡ (is_near_end border height y || plane_at_border) }
{
    is_near_end(border, height, y) || plane_at_border
}

/// The first spot of the next line, by the spot of a line before. It divides only where a plane ends.
#[inline(always)]
fn next_line(border: u32, dims: &[Dim], plane: Plane, spot: Spot, more: u32) -> Spot
    requires sizes { list_all (λ d. nat_lt 0 d.size) dims.now ≡ true }
    requires plane { IsPlane dims.now plane }
    requires spot { IsSpot border dims.now spot }
    requires few { spot.place < 2 ^ 31 }
    requires more { more < 2 ^ 31 }
    requires end { spot.x + more ≡ size_in dims.now 0 }
    ensures place { result.place ≡ spot.place + more }
    ensures spot { IsSpot border dims.now result }
{
    let place = spot.place + more;
    let y = spot.y + 1;
    if y >= plane.height {
        return spot_at(border, dims, place);
    }
    Spot {
        place,
        x: 0,
        y,
        line_at_border: is_line_at_border(border, plane.height, y, spot.plane_at_border),
        ..spot
    }
}

/// The place that lies so many places later, on the same line or where the next one begins.
#[inline(always)]
pub(crate) fn later_spot(border: u32, dims: &[Dim], plane: Plane, spot: Spot, more: u32) -> Spot
    requires sizes { list_all (λ d. nat_lt 0 d.size) dims.now ≡ true }
    requires plane { IsPlane dims.now plane }
    requires spot { IsSpot border dims.now spot }
    requires few { spot.place < 2 ^ 31 }
    requires more { more < 2 ^ 31 }
    requires line { spot.x + more ≤ size_in dims.now 0 }
    ensures place { result.place ≡ spot.place + more }
    ensures spot { IsSpot border dims.now result }
{
    let x = spot.x + more;
    if x >= plane.width {
        return next_line(border, dims, plane, spot, more);
    }
    Spot {
        place: spot.place + more,
        x,
        ..spot
    }
}

/// The next place.
pub(crate) fn next_spot(border: u32, dims: &[Dim], plane: Plane, spot: Spot) -> Spot
    requires sizes { list_all (λ d. nat_lt 0 d.size) dims.now ≡ true }
    requires plane { IsPlane dims.now plane }
    requires spot { IsSpot border dims.now spot }
    requires few { spot.place < 2 ^ 31 }
    ensures place { result.place ≡ spot.place + 1 }
    ensures spot { IsSpot border dims.now result }
{
    later_spot(border, dims, plane, spot, 1)
}
