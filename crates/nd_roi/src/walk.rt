//! The walk over the places of a region.

ghost use Rattle.std.specs.Prelude.{◌≡◌, ℕ, ◌+◌, ◌*◌, ◌-◌, ◌/◌, ◌<◌, ◌≤◌, ◌++◌, length, take, drop, map, pos, ◌+ℤ◌, slice_index_or, reverse, sum_by, true};
ghost use Rattle.std.specs.Prelude.{false, FitsSigned};
ghost use Rattle.std.specs.List.{range_with_len};
ghost use Rattle.std.specs.Int.{w32, w64, int_wrap};
ghost use Rattle.std.specs.Int.RustNames.{int_div};
ghost use Rattle.nd_base.specs.GraphRules.{IsBetween};
ghost use Rattle.nd_base.specs.Samples.{width};
ghost use Rattle.nd_base.specs.Shapes.{most_samples};
ghost use Rattle.nd_roi.specs.Walk.{run, lines_total, bin_reach, bins_of, lines, for_lines, first_reach, line_total, line_bytes};

use crate::cut::Cut;
use crate::sample::{add_line, add_low_line, divide_each, write_samples};
use nd_base::SampleType;

/// One dimension of the walk: its cut, and how many places lie between neighbours.
#[derive(Clone, Copy, Debug, PartialEq, Eq)]
pub(crate) struct Axis {
    pub cut: Cut,
    pub stride: usize,
}

/// What the walk makes of an array.
#[derive(Clone, Copy)]
pub(crate) struct Job<'a> {
    /// The type of the array's samples.
    pub kind: SampleType,
    /// The cut of dimension 0.
    pub line: Cut,
    /// The other dimensions, the slowest last.
    pub slower: &'a [Axis],
    /// What each sum is divided by.
    pub scale: u32,
    /// The type of the output's samples.
    pub out_kind: SampleType,
}

/// How many sums are gathered at a time.
pub(crate) const CHUNK: usize = 256;

/// Adds to each sum the samples of all lines that a bin covers along the slower axes: `bin` of each line,
/// those from `base` on to the first sum.
pub(crate) fn add_lines(
    kind: SampleType,
    input: &[u8],
    bin: u32,
    slower: &[Axis],
    base: usize,
    sums: &mut [i64],
)
    requires within { base + length sums.old * bin + sum_by bin_reach slower.now ≤ length input.now / width kind }
    requires fit { (k : ℕ) → k < length sums.old → FitsSigned w64 (slice_index_or sums.old k (pos 0)) }
    ensures { (k : ℕ) → k < length sums.new → slice_index_or sums.new k (pos 0)
        ≡ int_wrap w64 (slice_index_or sums.old k (pos 0) +ℤ lines_total (reverse slower.now) (run kind input.now bin) (base + k * bin)) }
{
    match slower.split_last() {
        None => add_line(kind, input, bin, base, sums),
        Some((axis, faster)) => {
            for j in 0..axis.cut.bin as usize {
                add_lines(kind, input, bin, faster, base + j * axis.stride, sums);
            }
        }
    }
}

/// Adds to each sum of 32 bits the samples of all lines that a bin covers along the slower axes: `bin` of each line,
/// those from `base` on to the first sum.
pub(crate) fn add_low_lines(
    kind: SampleType,
    input: &[u8],
    bin: u32,
    slower: &[Axis],
    base: usize,
    sums: &mut [i32],
)
    requires within { base + length sums.old * bin + sum_by bin_reach slower.now ≤ length input.now / width kind }
    requires fit { (k : ℕ) → k < length sums.old → FitsSigned w32 (slice_index_or sums.old k (pos 0)) }
    ensures { (k : ℕ) → k < length sums.new → slice_index_or sums.new k (pos 0)
        ≡ int_wrap w32 (slice_index_or sums.old k (pos 0) +ℤ lines_total (reverse slower.now) (run kind input.now bin) (base + k * bin)) }
{
    match slower.split_last() {
        None => add_low_line(kind, input, bin, base, sums),
        Some((axis, faster)) => {
            for j in 0..axis.cut.bin as usize {
                add_low_lines(kind, input, bin, faster, base + j * axis.stride, sums);
            }
        }
    }
}

/// Of the `count` bins of a line that the output indices from `done` on cover, the first in the array's order.
fn first_bin(line: Cut, done: usize, count: usize) -> usize
    requires { done + count ≤ line.size }
    ensures within { result + count ≤ line.size }
    ensures forward { line.reverse ≡ false → result ≡ done }
    ensures reversed { line.reverse ≡ true → result + count + done ≡ line.size }
{
    if line.reverse {
        line.size as usize - done - count
    } else {
        done
    }
}

/// Sets each sum to that of the samples that an output index of the line covers, from output index `done` on.
/// `base` is the place of the first line that the bin covers.
fn gather(job: &Job, input: &[u8], base: usize, done: usize, sums: &mut [i64])
    requires range { done + length sums.old ≤ job.now.line.size }
    requires within { base + (job.now.line.min + job.now.line.size * job.now.line.bin)
        + sum_by bin_reach job.now.slower.now ≤ length input.now / width job.now.kind }
    requires few { bins_of (reverse job.now.slower.now) * job.now.line.bin ≤ most_samples }
    ensures { sums.new ≡ map (λ out. line_total job.now.kind input.now job.now.line (reverse job.now.slower.now) base out)
        (range_with_len done (length sums.old)) }
{
    let line = job.line;
    let first = first_bin(line, done, sums.len());
    let bin = line.bin as usize;
    sums.fill(0);
    add_lines(
        job.kind,
        input,
        line.bin,
        job.slower,
        base + line.min as usize + first * bin,
        sums,
    );
    if line.reverse {
        sums.reverse();
    }
}

/// Sets each to what is left in 32 bits of the sum of the samples that an output index of the line covers, from output index `done` on.
/// `base` is the place of the first line that the bin covers.
fn gather_low(job: &Job, input: &[u8], base: usize, done: usize, sums: &mut [i32])
    requires range { done + length sums.old ≤ job.now.line.size }
    requires within { base + (job.now.line.min + job.now.line.size * job.now.line.bin)
        + sum_by bin_reach job.now.slower.now ≤ length input.now / width job.now.kind }
    ensures { sums.new ≡ map (λ out. int_wrap w32 (line_total job.now.kind input.now job.now.line (reverse job.now.slower.now) base out))
        (range_with_len done (length sums.old)) }
{
    let line = job.line;
    let first = first_bin(line, done, sums.len());
    let bin = line.bin as usize;
    sums.fill(0);
    add_low_lines(
        job.kind,
        input,
        line.bin,
        job.slower,
        base + line.min as usize + first * bin,
        sums,
    );
    if line.reverse {
        sums.reverse();
    }
}

/// The same of the sums divided by the scale, which are gathered in 64 bits.
fn gather_divided(job: &Job, input: &[u8], base: usize, done: usize, quotients: &mut [i32])
    requires chunk { length quotients.old ≤ CHUNK }
    requires range { done + length quotients.old ≤ job.now.line.size }
    requires within { base + (job.now.line.min + job.now.line.size * job.now.line.bin)
        + sum_by bin_reach job.now.slower.now ≤ length input.now / width job.now.kind }
    requires few { bins_of (reverse job.now.slower.now) * job.now.line.bin ≤ most_samples }
    requires scale { 0 < job.now.scale }
    ensures { quotients.new ≡ map
        (λ out. int_wrap w32 (int_div (line_total job.now.kind input.now job.now.line (reverse job.now.slower.now) base out) (pos job.now.scale)))
        (range_with_len done (length quotients.old)) }
{
    let mut sums = [0i64; CHUNK];
    let sums = &mut sums[..quotients.len()];
    gather(job, input, base, done, sums);
    divide_each(sums, job.scale, quotients);
}

/// Writes the samples of the line from output index `done` on, one for each sum. `base` is the place of the
/// first line that the bin covers.
fn fill_chunk(job: &Job, input: &[u8], base: usize, done: usize, sums: &mut [i32], out: &mut [u8])
    requires chunk { length sums.old ≤ CHUNK }
    requires range { done + length sums.old ≤ job.now.line.size }
    requires room { length out.old ≡ length sums.old * width job.now.out_kind }
    requires within { base + (job.now.line.min + job.now.line.size * job.now.line.bin)
        + sum_by bin_reach job.now.slower.now ≤ length input.now / width job.now.kind }
    requires few { bins_of (reverse job.now.slower.now) * job.now.line.bin ≤ most_samples }
    requires scale { 0 < job.now.scale }
    ensures { out.new ≡ line_bytes job.now.kind input.now job.now.line (reverse job.now.slower.now) job.now.scale job.now.out_kind base done (length sums.old) }
{
    if job.scale == 1 {
        gather_low(job, input, base, done, sums);
    } else {
        gather_divided(job, input, base, done, sums);
    }
    write_samples(job.out_kind, sums, out);
}

/// Whether a bin covers one line alone along these axes.
fn all_single(axes: &[Axis]) -> bool
    ensures { result ≡ true → bins_of (reverse axes.now) ≡ 1 }
{
    match axes.split_last() {
        None => true,
        Some((axis, faster)) => axis.cut.bin == 1 && all_single(faster),
    }
}

/// Whether each sample of the output is the one that it covers.
fn copies(job: &Job) -> bool
    ensures bin { result ≡ true → job.now.line.bin ≡ 1 }
    ensures forward { result ≡ true → job.now.line.reverse ≡ false }
    ensures single { result ≡ true → bins_of (reverse job.now.slower.now) ≡ 1 }
    ensures scale { result ≡ true → job.now.scale ≡ 1 }
    ensures kind { result ≡ true → job.now.out_kind ≡ job.now.kind }
{
    job.line.bin == 1
        && !job.line.reverse
        && job.scale == 1
        && job.out_kind == job.kind
        && all_single(job.slower)
}

/// Copies the samples from a place on.
fn copy_samples(kind: SampleType, input: &[u8], place: usize, out: &mut [u8])
    requires { place * width kind + length out.old ≤ length input.now }
    ensures { out.new ≡ take (length out.old) (drop (place * width kind) input.now) }
{
    let from = place * kind.width();
    out.copy_from_slice(&input[from..from + out.len()]);
}

/// Writes a line of the output from index `at` of `out` on, and gives the index behind it. `base` is the place
/// of the first line that the bin covers.
fn fill_line(
    job: &Job,
    input: &[u8],
    base: usize,
    at: usize,
    sums: &mut [i32],
    out: &mut [u8],
) -> usize
    requires chunk { length sums.old ≡ CHUNK }
    requires room { at + job.now.line.size * width job.now.out_kind ≤ length out.old }
    requires within { base + (job.now.line.min + job.now.line.size * job.now.line.bin)
        + sum_by bin_reach job.now.slower.now ≤ length input.now / width job.now.kind }
    requires few { bins_of (reverse job.now.slower.now) * job.now.line.bin ≤ most_samples }
    requires scale { 0 < job.now.scale }
    ensures next { result ≡ at + job.now.line.size * width job.now.out_kind }
    ensures written { take result out.new ≡ take at out.old
        ++ line_bytes job.now.kind input.now job.now.line (reverse job.now.slower.now) job.now.scale job.now.out_kind base 0 job.now.line.size }
{
    let width = job.out_kind.width();
    let size = job.line.size as usize;
    if copies(job) {
        let end = at + size * width;
        copy_samples(
            job.kind,
            input,
            base + job.line.min as usize,
            &mut out[at..end],
        );
        return end;
    }
    let mut done = 0;
    let mut next = at;
    while done < size {
        let count = (size - done).min(CHUNK);
        let end = next + count * width;
        fill_chunk(
            job,
            input,
            base,
            done,
            &mut sums[..count],
            &mut out[next..end],
        );
        done += count;
        next = end;
    }
    next
}

/// Writes the output's lines along the axes from index `at` of `out` on, and gives the index behind them.
/// `base` is the place of the first line, but for what these axes add.
pub(crate) fn fill_lines(
    job: &Job,
    input: &[u8],
    slower: &[Axis],
    base: usize,
    at: usize,
    sums: &mut [i32],
    out: &mut [u8],
) -> usize
    requires chunk { length sums.old ≡ CHUNK }
    requires room { at + for_lines (reverse slower.now) (job.now.line.size * width job.now.out_kind) ≤ length out.old }
    requires within { base + sum_by first_reach slower.now + (job.now.line.min + job.now.line.size * job.now.line.bin)
        + sum_by bin_reach job.now.slower.now ≤ length input.now / width job.now.kind }
    requires few { bins_of (reverse job.now.slower.now) * job.now.line.bin ≤ most_samples }
    requires scale { 0 < job.now.scale }
    ensures next { result ≡ at + for_lines (reverse slower.now) (job.now.line.size * width job.now.out_kind) }
    ensures written { take result out.new ≡ take at out.old ++ lines (reverse slower.now)
        (λ at. line_bytes job.now.kind input.now job.now.line (reverse job.now.slower.now) job.now.scale job.now.out_kind at 0 job.now.line.size) base }
{
    match slower.split_last() {
        None => fill_line(job, input, base, at, sums, out),
        Some((axis, faster)) => {
            let mut next = at;
            for index in 0..axis.cut.size as usize {
                let from = base + axis.cut.first_covered(index) * axis.stride;
                next = fill_lines(job, input, faster, from, next, sums, out);
            }
            next
        }
    }
}
