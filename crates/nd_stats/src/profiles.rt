//! The sums at each index of dimensions 0 and 1.

ghost use Rattle.std.specs.Prelude.{◌≡◌, ℕ, ◌+◌, ◌*◌, ◌/◌, ◌≤◌, length, drop, pos};
ghost use Rattle.nd_base.specs.Samples.{width, numbers, samples_of};
ghost use Rattle.nd_base.specs.Shapes.{sample_count, most_samples};
ghost use Rattle.nd_base.specs.Places.{index_in, size_in};
ghost use Rattle.lane_kernels.specs.Plain.{total};
ghost use Rattle.nd_stats.specs.Samples.{placed, table};
ghost use Rattle.nd_stats.specs.Running.{IsFrame, sums_along, AreWithin};
ghost use Rattle.nd_stats.specs.Spots.{IsSpot, IsPlane};

use crate::lines::on_line;
use crate::spot::{Plane, Spot, later_spot, plane_of, spot_at};
use lane_kernels::{narrow_at, sample_at};
use nd_base::SampleType::{Int8, Int16, Int32, UInt8, UInt16, UInt32};
use nd_base::{Dim, SampleType, StatsRule};

/// Adds each of `size` neighbours on a line to the sum at its index of dimension 0, which is `x` for the first, and gives their sum.
#[inline(always)]
fn add_line(
    kind: SampleType,
    dims: &[Dim],
    from: u32,
    samples: &[u8],
    done: usize,
    size: usize,
    x: u32,
    sums: &mut [i64],
) -> i64
    requires within { done + size ≤ length samples.now / width kind }
    requires few { length samples.now / width kind ≤ most_samples }
    requires line { x + size ≤ size_in dims.now 0 }
    requires x { x ≡ index_in dims.now 0 (from + done) }
    requires before { sums.old ≡ sums_along dims.now 0 (placed from (numbers kind done samples.now)) }
    ensures sums { sums.new ≡ sums_along dims.now 0 (placed from (numbers kind (done + size) samples.now)) }
    ensures sum { result ≡ total (numbers kind size (drop (done * width kind) samples.now)) }
{
    let mut sum = 0i64;
    for k in 0..size {
        let value = sample_at(kind, samples, done + k);
        sums[x as usize + k] += value;
        sum += value;
    }
    sum
}

/// Adds the sum of `size` neighbours on a line, which begins at this spot, to the sum at their index of dimension 1, and gives the spot behind
/// them.
#[inline(always)]
fn add_row(
    rule: &StatsRule,
    kind: SampleType,
    dims: &[Dim],
    plane: Plane,
    from: u32,
    samples: &[u8],
    done: usize,
    spot: Spot,
    size: usize,
    sum: i64,
    rows: &mut [i64],
) -> Spot
    requires frame { IsFrame rule.now dims.now }
    requires plane { IsPlane dims.now plane }
    requires piece { from + length samples.now / width kind ≤ sample_count dims.now }
    requires within { done + size ≤ length samples.now / width kind }
    requires few { size ≤ 8192 }
    requires place { spot.place ≡ from + done }
    requires spot { IsSpot rule.now.border dims.now spot }
    requires line { spot.x + size ≤ size_in dims.now 0 }
    requires sum { sum ≡ total (numbers kind size (drop (done * width kind) samples.now)) }
    requires before { rows.old ≡ sums_along dims.now 1 (placed from (numbers kind done samples.now)) }
    ensures rows { rows.new ≡ sums_along dims.now 1 (placed from (numbers kind (done + size) samples.now)) }
    ensures place { result.place ≡ from + (done + size) }
    ensures spot { IsSpot rule.now.border dims.now result }
{
    rows[spot.y as usize] += sum;
    later_spot(rule.border, dims, plane, spot, size as u32)
}

/// Adds each sample behind the first `begin` of a piece that begins at place `from` to the sum at its index of dimension 0, and the sum of
/// each line to that at its index of dimension 1.
#[inline(always)]
fn add_lines(
    rule: &StatsRule,
    kind: SampleType,
    dims: &[Dim],
    from: u32,
    samples: &[u8],
    begin: usize,
    columns: &mut [i64],
    rows: &mut [i64],
)
    requires frame { IsFrame rule.now dims.now }
    requires within { from + length samples.now / width kind ≤ sample_count dims.now }
    requires begin { begin ≤ length samples.now / width kind }
    requires columns_before { columns.old ≡ sums_along dims.now 0 (placed from (numbers kind begin samples.now)) }
    requires rows_before { rows.old ≡ sums_along dims.now 1 (placed from (numbers kind begin samples.now)) }
    ensures columns { columns.new ≡ sums_along dims.now 0 (placed from (samples_of kind samples.now)) }
    ensures rows { rows.new ≡ sums_along dims.now 1 (placed from (samples_of kind samples.now)) }
{
    let count = samples.len() / kind.width();
    let plane = plane_of(dims);
    let mut done = begin;
    let mut spot = spot_at(rule.border, dims, from + begin as u32);
    while done < count {
        let size = on_line(plane.width, spot.x, count - done);
        let sum = add_line(kind, dims, from, samples, done, size, spot.x, columns);
        spot = add_row(
            rule, kind, dims, plane, from, samples, done, spot, size, sum, rows,
        );
        done += size;
    }
}

/// Adds each of `size` neighbours of at most 16 bits on a line to the sum of 32 bits at its index of dimension 0, which is `x` for the first,
/// and gives their sum.
#[inline(always)]
fn add_narrow_line(
    kind: SampleType,
    dims: &[Dim],
    from: u32,
    samples: &[u8],
    done: usize,
    size: usize,
    x: u32,
    sums: &mut [i32],
) -> i64
    requires narrow { width kind ≤ 2 }
    requires within { done + size ≤ length samples.now / width kind }
    requires few { size ≤ 8192 }
    requires line { x + size ≤ size_in dims.now 0 }
    requires x { x ≡ index_in dims.now 0 (from + done) }
    requires before { sums.old ≡ sums_along dims.now 0 (placed from (numbers kind done samples.now)) }
    requires room { AreWithin 2147385345 sums.old }
    ensures sums { sums.new ≡ sums_along dims.now 0 (placed from (numbers kind (done + size) samples.now)) }
    ensures grown { (most : ℕ) → AreWithin most sums.old → AreWithin (most + 65535) sums.new }
    ensures sum { result ≡ total (numbers kind size (drop (done * width kind) samples.now)) }
{
    let mut sum = 0i32;
    for k in 0..size {
        let value = narrow_at(kind, samples, done + k);
        sums[x as usize + k] += value;
        sum += value;
    }
    i64::from(sum)
}

/// How many parts of lines are added up in 32 bits, which hold the sum of so many samples of 16 bits.
const PARTS: u32 = 32_768;

/// Adds the samples of a piece that begins at place `from`, of at most 16 bits, to the sums of 32 bits at their indices of dimension 0, and the
/// sum of each line to that at its index of dimension 1, as far as so many parts of lines go. It gives how many samples it added.
#[inline(always)]
fn add_narrow_lines(
    rule: &StatsRule,
    kind: SampleType,
    dims: &[Dim],
    from: u32,
    samples: &[u8],
    columns: &mut [i32],
    rows: &mut [i64],
) -> usize
    requires narrow { width kind ≤ 2 }
    requires frame { IsFrame rule.now dims.now }
    requires within { from + length samples.now / width kind ≤ sample_count dims.now }
    requires blank_columns { columns.old ≡ table (λ _. pos 0) 0 (size_in dims.now 0) }
    requires blank_rows { rows.old ≡ table (λ _. pos 0) 0 (size_in dims.now 1) }
    ensures within { result ≤ length samples.now / width kind }
    ensures few { length samples.now / width kind ≤ 32768 → result ≡ length samples.now / width kind }
    ensures columns { columns.new ≡ sums_along dims.now 0 (placed from (numbers kind result samples.now)) }
    ensures rows { rows.new ≡ sums_along dims.now 1 (placed from (numbers kind result samples.now)) }
{
    let count = samples.len() / kind.width();
    let plane = plane_of(dims);
    let mut done = 0;
    let mut spot = spot_at(rule.border, dims, from);
    let mut parts = 0;
    while done < count && parts < PARTS {
        let size = on_line(plane.width, spot.x, count - done);
        let sum = add_narrow_line(kind, dims, from, samples, done, size, spot.x, columns);
        spot = add_row(
            rule, kind, dims, plane, from, samples, done, spot, size, sum, rows,
        );
        done += size;
        parts += 1;
    }
    done
}

/// Writes sums of 32 bits into such of 64.
fn widen(narrow: &[i32], sums: &mut [i64])
    requires { length sums.old ≡ length narrow.now }
    ensures { sums.new ≡ narrow.now }
{
    for k in 0..narrow.len() {
        sums[k] = i64::from(narrow[k]);
    }
}

/// The sums of a piece that begins at place `from`, of samples of at most 16 bits. They are added up in 32 bits, of which a vector has twice as
/// many lanes as of 64, and only what lies behind the parts that this holds in 64.
#[inline(always)]
fn add_narrow(
    rule: &StatsRule,
    kind: SampleType,
    dims: &[Dim],
    from: u32,
    samples: &[u8],
    narrow: &mut [i32],
    columns: &mut [i64],
    rows: &mut [i64],
)
    requires narrow { width kind ≤ 2 }
    requires frame { IsFrame rule.now dims.now }
    requires within { from + length samples.now / width kind ≤ sample_count dims.now }
    requires blank { narrow.old ≡ table (λ _. pos 0) 0 (size_in dims.now 0) }
    requires blank_columns { columns.old ≡ table (λ _. pos 0) 0 (size_in dims.now 0) }
    requires blank_rows { rows.old ≡ table (λ _. pos 0) 0 (size_in dims.now 1) }
    ensures columns { columns.new ≡ sums_along dims.now 0 (placed from (samples_of kind samples.now)) }
    ensures rows { rows.new ≡ sums_along dims.now 1 (placed from (samples_of kind samples.now)) }
{
    let done = add_narrow_lines(rule, kind, dims, from, samples, narrow, rows);
    widen(narrow, columns);
    add_lines(rule, kind, dims, from, samples, done, columns, rows);
}

/// The sums at each index of dimensions 0 and 1 of the samples of a piece that begins at place `from`, by code of each sample type. `narrow`
/// is where samples of at most 16 bits are added up first.
#[inline(never)]
pub(crate) fn add_profiles(
    rule: &StatsRule,
    kind: SampleType,
    dims: &[Dim],
    from: u32,
    samples: &[u8],
    narrow: &mut [i32],
    columns: &mut [i64],
    rows: &mut [i64],
)
    requires frame { IsFrame rule.now dims.now }
    requires within { from + length samples.now / width kind ≤ sample_count dims.now }
    requires blank { width kind ≤ 2 → narrow.old ≡ table (λ _. pos 0) 0 (size_in dims.now 0) }
    requires blank_columns { columns.old ≡ table (λ _. pos 0) 0 (size_in dims.now 0) }
    requires blank_rows { rows.old ≡ table (λ _. pos 0) 0 (size_in dims.now 1) }
    ensures columns { columns.new ≡ sums_along dims.now 0 (placed from (samples_of kind samples.now)) }
    ensures rows { rows.new ≡ sums_along dims.now 1 (placed from (samples_of kind samples.now)) }
{
    match kind {
        Int8 => add_narrow(rule, Int8, dims, from, samples, narrow, columns, rows),
        UInt8 => add_narrow(rule, UInt8, dims, from, samples, narrow, columns, rows),
        Int16 => add_narrow(rule, Int16, dims, from, samples, narrow, columns, rows),
        UInt16 => add_narrow(rule, UInt16, dims, from, samples, narrow, columns, rows),
        Int32 => add_lines(rule, Int32, dims, from, samples, 0, columns, rows),
        UInt32 => add_lines(rule, UInt32, dims, from, samples, 0, columns, rows),
    }
}
