//! The samples of an oriented array.

ghost use Rattle.std.specs.Prelude.{◌≡◌, true, false, ℕ, ◌+◌, ◌*◌, ◌<◌, ◌≤◌, length, IsTrue};
ghost use Rattle.nd_base.specs.Samples.{width, samples_of};
ghost use Rattle.nd_base.specs.Shapes.{has_dimensions, sample_count, most_samples};
ghost use Rattle.nd_orient.specs.Orientation.{along, turn_of, oriented_samples};
ghost use Rattle.nd_orient.specs.Walk.{cell, line_size, line_count, column, row, source, IsFilled};

use crate::cells::{copy_sample, copy_samples};
use crate::reverse::copy_down;
use crate::turn::{Turn, turn_of};
use nd_base::{Dim, MOST_SAMPLES, SampleType};

/// The side of a block of samples that are read by columns.
const SIDE: usize = 16;

/// A plane of dimensions 0 and 1 of the input, and what a mode does to it.
#[derive(Clone, Copy, Debug)]
pub(crate) struct Plane {
    pub turn: Turn,
    /// The size of dimension 0.
    pub columns: usize,
    /// The size of dimension 1.
    pub rows: usize,
}

/// The index that the `index`-th reads of a dimension of `size`: as it stands, or from the last one down.
#[inline(always)]
fn along(down: bool, size: usize, index: usize) -> usize
    requires { index < size }
    ensures value { result ≡ along down size index }
    ensures within { result < size }
{
    if down { size - 1 - index } else { index }
}

impl Plane {
    /// The size of the output's dimension 0.
    #[inline(always)]
    fn line_size(self) -> usize
        ensures { result ≡ line_size self }
    {
        if self.turn.swaps {
            self.rows
        } else {
            self.columns
        }
    }

    /// The size of the output's dimension 1.
    #[inline(always)]
    fn line_count(self) -> usize
        ensures { result ≡ line_count self }
    {
        if self.turn.swaps {
            self.columns
        } else {
            self.rows
        }
    }

    /// The input's column that sample `x` of the output's line `y` reads.
    #[inline(always)]
    fn column(self, x: usize, y: usize) -> usize
        requires x { x < line_size self }
        requires y { y < line_count self }
        ensures value { result ≡ column self x y }
        ensures within { result < self.columns }
    {
        if self.turn.swaps {
            along(self.turn.y_down, self.columns, y)
        } else {
            along(self.turn.x_down, self.columns, x)
        }
    }

    /// The input's row that sample `x` of the output's line `y` reads.
    #[inline(always)]
    fn row(self, x: usize, y: usize) -> usize
        requires x { x < line_size self }
        requires y { y < line_count self }
        ensures value { result ≡ row self x y }
        ensures within { result < self.rows }
    {
        if self.turn.swaps {
            along(self.turn.x_down, self.rows, x)
        } else {
            along(self.turn.y_down, self.rows, y)
        }
    }

    /// The place in the input's plane that sample `x` of the output's line `y` reads.
    #[inline(always)]
    fn source(self, x: usize, y: usize) -> usize
        requires few { self.columns * self.rows ≤ most_samples }
        requires x { x < line_size self }
        requires y { y < line_count self }
        ensures value { result ≡ source self x y }
        ensures within { result < self.columns * self.rows }
    {
        self.column(x, y) + self.columns * self.row(x, y)
    }
}

/// What a plane is filled from: its samples have `width` bytes each.
#[derive(Clone, Copy)]
struct Job<'a> {
    width: usize,
    plane: Plane,
    input: &'a [u8],
}

/// A block of the output's plane: lines `top` to `bottom - 1`, and of each the samples `left` to `right - 1`.
#[derive(Clone, Copy)]
struct Block {
    left: usize,
    right: usize,
    top: usize,
    bottom: usize,
}

/// Fills line `y` of a block, sample by sample.
#[inline(always)]
fn fill_each(job: &Job, block: Block, y: usize, out: &mut [u8])
    requires few { job.now.plane.columns * job.now.plane.rows ≤ most_samples }
    requires input { length job.now.input.now ≡ job.now.plane.columns * job.now.plane.rows * job.now.width }
    requires output { length out.old ≡ job.now.plane.columns * job.now.plane.rows * job.now.width }
    requires right { block.right ≤ line_size job.now.plane }
    requires y { y < line_count job.now.plane }
    ensures line { (x : ℕ) → block.left ≤ x → x < block.right
        → IsFilled job.now.width job.now.plane job.now.input.now out.new (y * line_size job.now.plane + x) }
    ensures keeps { (k : ℕ) → IsFilled job.now.width job.now.plane job.now.input.now out.old k
        → IsFilled job.now.width job.now.plane job.now.input.now out.new k }
{
    let start = y * job.plane.line_size();
    for x in block.left..block.right {
        let from = job.plane.source(x, y);
        copy_sample(job.width, job.input, from, out, start + x);
    }
}

/// Fills line `y` of a block that is read as it stands.
#[inline(always)]
fn fill_forward(job: &Job, block: Block, y: usize, out: &mut [u8])
    requires few { job.now.plane.columns * job.now.plane.rows ≤ most_samples }
    requires input { length job.now.input.now ≡ job.now.plane.columns * job.now.plane.rows * job.now.width }
    requires output { length out.old ≡ job.now.plane.columns * job.now.plane.rows * job.now.width }
    requires right { block.right ≤ line_size job.now.plane }
    requires y { y < line_count job.now.plane }
    requires straight { job.now.plane.turn.swaps ≡ false }
    requires forward { job.now.plane.turn.x_down ≡ false }
    ensures line { (x : ℕ) → block.left ≤ x → x < block.right
        → IsFilled job.now.width job.now.plane job.now.input.now out.new (y * line_size job.now.plane + x) }
    ensures keeps { (k : ℕ) → IsFilled job.now.width job.now.plane job.now.input.now out.old k
        → IsFilled job.now.width job.now.plane job.now.input.now out.new k }
{
    if block.left < block.right {
        let to = y * job.plane.line_size() + block.left;
        let from = job.plane.source(block.left, y);
        copy_samples(
            job.width,
            block.right - block.left,
            job.input,
            from,
            out,
            to,
        );
    }
}

/// Fills line `y` of a block that is read down its line.
#[inline(always)]
fn fill_reversed(job: &Job, block: Block, y: usize, out: &mut [u8])
    requires few { job.now.plane.columns * job.now.plane.rows ≤ most_samples }
    requires input { length job.now.input.now ≡ job.now.plane.columns * job.now.plane.rows * job.now.width }
    requires output { length out.old ≡ job.now.plane.columns * job.now.plane.rows * job.now.width }
    requires right { block.right ≤ line_size job.now.plane }
    requires y { y < line_count job.now.plane }
    requires straight { job.now.plane.turn.swaps ≡ false }
    requires down { job.now.plane.turn.x_down ≡ true }
    ensures line { (x : ℕ) → block.left ≤ x → x < block.right
        → IsFilled job.now.width job.now.plane job.now.input.now out.new (y * line_size job.now.plane + x) }
    ensures keeps { (k : ℕ) → IsFilled job.now.width job.now.plane job.now.input.now out.old k
        → IsFilled job.now.width job.now.plane job.now.input.now out.new k }
{
    if block.left < block.right {
        let to = y * job.plane.line_size() + block.left;
        let from = job.plane.source(block.right - 1, y);
        copy_down(
            job.width,
            block.right - block.left,
            job.input,
            from,
            out,
            to,
        );
    }
}

/// Fills line `y` of a block.
#[inline(always)]
fn fill_line(job: &Job, block: Block, y: usize, out: &mut [u8])
    requires few { job.now.plane.columns * job.now.plane.rows ≤ most_samples }
    requires input { length job.now.input.now ≡ job.now.plane.columns * job.now.plane.rows * job.now.width }
    requires output { length out.old ≡ job.now.plane.columns * job.now.plane.rows * job.now.width }
    requires right { block.right ≤ line_size job.now.plane }
    requires y { y < line_count job.now.plane }
    ensures line { (x : ℕ) → block.left ≤ x → x < block.right
        → IsFilled job.now.width job.now.plane job.now.input.now out.new (y * line_size job.now.plane + x) }
    ensures keeps { (k : ℕ) → IsFilled job.now.width job.now.plane job.now.input.now out.old k
        → IsFilled job.now.width job.now.plane job.now.input.now out.new k }
{
    let turn = job.plane.turn;
    if turn.swaps {
        fill_each(job, block, y, out);
    } else if turn.x_down {
        fill_reversed(job, block, y, out);
    } else {
        fill_forward(job, block, y, out);
    }
}

/// Fills a block.
#[inline(always)]
fn fill_block(job: &Job, block: Block, out: &mut [u8])
    requires few { job.now.plane.columns * job.now.plane.rows ≤ most_samples }
    requires input { length job.now.input.now ≡ job.now.plane.columns * job.now.plane.rows * job.now.width }
    requires output { length out.old ≡ job.now.plane.columns * job.now.plane.rows * job.now.width }
    requires right { block.right ≤ line_size job.now.plane }
    requires bottom { block.bottom ≤ line_count job.now.plane }
    ensures block { (x y : ℕ) → block.left ≤ x → x < block.right → block.top ≤ y → y < block.bottom
        → IsFilled job.now.width job.now.plane job.now.input.now out.new (y * line_size job.now.plane + x) }
    ensures keeps { (k : ℕ) → IsFilled job.now.width job.now.plane job.now.input.now out.old k
        → IsFilled job.now.width job.now.plane job.now.input.now out.new k }
{
    for y in block.top..block.bottom {
        fill_line(job, block, y, out);
    }
}

/// Fills lines `top` to `bottom - 1`, in blocks so many samples wide.
#[inline(always)]
fn fill_band(job: &Job, wide: usize, top: usize, bottom: usize, out: &mut [u8])
    requires few { job.now.plane.columns * job.now.plane.rows ≤ most_samples }
    requires input { length job.now.input.now ≡ job.now.plane.columns * job.now.plane.rows * job.now.width }
    requires output { length out.old ≡ job.now.plane.columns * job.now.plane.rows * job.now.width }
    requires wide { 0 < wide }
    requires bottom { bottom ≤ line_count job.now.plane }
    ensures band { (x y : ℕ) → x < line_size job.now.plane → top ≤ y → y < bottom
        → IsFilled job.now.width job.now.plane job.now.input.now out.new (y * line_size job.now.plane + x) }
    ensures keeps { (k : ℕ) → IsFilled job.now.width job.now.plane job.now.input.now out.old k
        → IsFilled job.now.width job.now.plane job.now.input.now out.new k }
{
    let line = job.plane.line_size();
    let mut left = 0;
    while left < line {
        let right = left + wide.min(line - left);
        let block = Block {
            left,
            right,
            top,
            bottom,
        };
        fill_block(job, block, out);
        left = right;
    }
}

/// Fills the output's plane, block by block where it reads columns, so that what it reads and writes stays near.
#[inline(always)]
fn fill_plane(width: usize, plane: Plane, input: &[u8], out: &mut [u8])
    requires some { 0 < plane.columns * plane.rows }
    requires few { plane.columns * plane.rows ≤ most_samples }
    requires width { width ≤ 4 }
    requires input { length input.now ≡ plane.columns * plane.rows * width }
    requires output { length out.old ≡ plane.columns * plane.rows * width }
    ensures { (x y : ℕ) → x < line_size plane → y < line_count plane
        → cell width out.new (y * line_size plane + x) ≡ cell width input.now (source plane x y) }
{
    let job = Job {
        width,
        plane,
        input,
    };
    let lines = plane.line_count();
    let (wide, high) = if plane.turn.swaps {
        (SIDE, SIDE)
    } else {
        (MOST_SAMPLES as usize, 1)
    };
    let mut top = 0;
    while top < lines {
        let bottom = top + high.min(lines - top);
        fill_band(&job, wide, top, bottom, out);
        top = bottom;
    }
}

/// Fills so many planes of the output.
#[inline(always)]
fn fill_planes(width: usize, plane: Plane, planes: usize, input: &[u8], out: &mut [u8])
    requires some { 0 < plane.columns * plane.rows }
    requires few { plane.columns * plane.rows ≤ most_samples }
    requires width { width ≤ 4 }
    requires input { length input.now ≡ planes * (plane.columns * plane.rows * width) }
    requires output { length out.old ≡ planes * (plane.columns * plane.rows * width) }
    ensures { (x y z : ℕ) → x < line_size plane → y < line_count plane → z < planes
        → cell width out.new (z * (plane.columns * plane.rows) + (y * line_size plane + x))
        ≡ cell width input.now (z * (plane.columns * plane.rows) + source plane x y) }
{
    let size = plane.columns * plane.rows * width;
    for z in 0..planes {
        let at = z * size;
        fill_plane(width, plane, &input[at..at + size], &mut out[at..at + size]);
    }
}

/// The same for samples of a type.
fn fill(kind: SampleType, plane: Plane, planes: usize, input: &[u8], out: &mut [u8])
    requires some { 0 < plane.columns * plane.rows }
    requires few { plane.columns * plane.rows ≤ most_samples }
    requires input { length input.now ≡ planes * (plane.columns * plane.rows * width kind) }
    requires output { length out.old ≡ planes * (plane.columns * plane.rows * width kind) }
    ensures { (x y z : ℕ) → x < line_size plane → y < line_count plane → z < planes
        → cell (width kind) out.new (z * (plane.columns * plane.rows) + (y * line_size plane + x))
        ≡ cell (width kind) input.now (z * (plane.columns * plane.rows) + source plane x y) }
{
    match kind {
        SampleType::Int8 | SampleType::UInt8 => fill_planes(1, plane, planes, input, out),
        SampleType::Int16 | SampleType::UInt16 => fill_planes(2, plane, planes, input, out),
        SampleType::Int32 | SampleType::UInt32 => fill_planes(4, plane, planes, input, out),
    }
}

/// Fills `out` with the samples that a mode gives an array of type `kind`, at least two dimensions `dims` and samples
/// `input`. Both hold the most significant byte of each sample first. It takes no memory.
pub fn orient_samples(mode: u32, kind: SampleType, dims: &[Dim], input: &[u8], out: &mut [u8])
    requires mode { mode < 8 }
    requires dimensions { IsTrue (has_dimensions dims.now) }
    requires two { 2 ≤ length dims.now }
    requires few { sample_count dims.now ≤ most_samples }
    requires input { length input.now ≡ sample_count dims.now * width kind }
    requires output { length out.old ≡ sample_count dims.now * width kind }
    ensures { samples_of kind out.new ≡ oriented_samples mode dims.now (samples_of kind input.now) }
{
    let [first, second, ..] = dims else {
        unreachable!()
    };
    let plane = Plane {
        turn: turn_of(mode),
        columns: first.size as usize,
        rows: second.size as usize,
    };
    let planes = input.len() / (plane.columns * plane.rows * kind.width());
    fill(kind, plane, planes, input, out);
}
