//! The bytes of single samples.

ghost use Rattle.std.specs.Prelude.{◌≡◌, ◌≢◌, ◌⊎◌, ℕ, ◌+◌, ◌-◌, ◌*◌, ◌<◌, ◌≤◌, ◌++◌, map, length, take, drop, slice_index};
ghost use Rattle.std.specs.List.{range_with_len};
ghost use Rattle.nd_orient.specs.Walk.{cell, turned};

use std::simd::u8x16;

/// Copies two bytes. They are read before one is written, so that the compiler moves them as one.
#[inline(always)]
fn copy_two(input: &[u8], source: usize, out: &mut [u8], target: usize)
    requires input { source + 2 ≤ length input.now }
    requires output { target + 2 ≤ length out.old }
    ensures { out.new ≡ take target out.old ++ (take 2 (drop source input.now) ++ drop 2 (drop target out.old)) }
{
    let first = input[source];
    let second = input[source + 1];
    out[target] = first;
    out[target + 1] = second;
}

/// Copies four bytes in the same way.
#[inline(always)]
fn copy_four(input: &[u8], source: usize, out: &mut [u8], target: usize)
    requires input { source + 4 ≤ length input.now }
    requires output { target + 4 ≤ length out.old }
    ensures { out.new ≡ take target out.old ++ (take 4 (drop source input.now) ++ drop 4 (drop target out.old)) }
{
    let first = input[source];
    let second = input[source + 1];
    let third = input[source + 2];
    let fourth = input[source + 3];
    out[target] = first;
    out[target + 1] = second;
    out[target + 2] = third;
    out[target + 3] = fourth;
}

/// Puts the bytes of one sample, of which there are `width`, at place `to` of the output.
#[inline(always)]
pub(crate) fn put_sample(width: usize, bytes: &[u8], out: &mut [u8], to: usize)
    requires bytes { length bytes.now ≡ width }
    requires output { to * width + width ≤ length out.old }
    ensures here { cell width out.new to ≡ bytes.now }
    ensures others { (k : ℕ) → k ≢ to → cell width out.new k ≡ cell width out.old k }
{
    let target = to * width;
    match width {
        2 => copy_two(bytes, 0, out, target),
        4 => copy_four(bytes, 0, out, target),
        _ => out[target..target + width].copy_from_slice(bytes),
    }
}

/// Copies sample `from` of the input to place `to` of the output.
#[inline(always)]
pub(crate) fn copy_sample(width: usize, input: &[u8], from: usize, out: &mut [u8], to: usize)
    requires input { from * width + width ≤ length input.now }
    requires output { to * width + width ≤ length out.old }
    ensures copied { cell width out.new to ≡ cell width input.now from }
    ensures others { (k : ℕ) → k ≢ to → cell width out.new k ≡ cell width out.old k }
{
    let source = from * width;
    put_sample(width, &input[source..source + width], out, to);
}

/// Puts the bytes of `count` samples at the places of the output from `to` on.
#[inline(always)]
pub(crate) fn put_samples(width: usize, count: usize, bytes: &[u8], out: &mut [u8], to: usize)
    requires bytes { length bytes.now ≡ count * width }
    requires output { to * width + count * width ≤ length out.old }
    ensures here { (k : ℕ) → k < count → cell width out.new (to + k) ≡ cell width bytes.now k }
    ensures others { (k : ℕ) → (k < to) ⊎ (to + count ≤ k) → cell width out.new k ≡ cell width out.old k }
{
    let target = to * width;
    out[target..target + bytes.len()].copy_from_slice(bytes);
}

/// The first 16 bytes with their samples, which have 1, 2 or 4 bytes each, the last one first.
#[inline(always)]
fn reversed(width: usize, bytes: &[u8]) -> u8x16
    requires { 16 ≤ length bytes.now }
    ensures one { width ≡ 1 → result ≡ map (λ i. slice_index bytes.now i) (map (turned 1 16) (range_with_len 0 16)) }
    ensures two { width ≡ 2 → result ≡ map (λ i. slice_index bytes.now i) (map (turned 2 8) (range_with_len 0 16)) }
    ensures four { width ≡ 4 → result ≡ map (λ i. slice_index bytes.now i) (map (turned 4 4) (range_with_len 0 16)) }
{
    let block = u8x16::from_slice(bytes);
    match width {
        1 => block.swizzle([15, 14, 13, 12, 11, 10, 9, 8, 7, 6, 5, 4, 3, 2, 1, 0]),
        2 => block.swizzle([14, 15, 12, 13, 10, 11, 8, 9, 6, 7, 4, 5, 2, 3, 0, 1]),
        _ => block.swizzle([12, 13, 14, 15, 8, 9, 10, 11, 4, 5, 6, 7, 0, 1, 2, 3]),
    }
}

/// Copies `count` samples of the input, from place `from` on, to the places of the output from `to` on.
#[inline(always)]
pub(crate) fn copy_samples(
    width: usize,
    count: usize,
    input: &[u8],
    from: usize,
    out: &mut [u8],
    to: usize,
)
    requires input { from * width + count * width ≤ length input.now }
    requires output { to * width + count * width ≤ length out.old }
    ensures copied { (k : ℕ) → k < count → cell width out.new (to + k) ≡ cell width input.now (from + k) }
    ensures others { (k : ℕ) → (k < to) ⊎ (to + count ≤ k) → cell width out.new k ≡ cell width out.old k }
{
    let source = from * width;
    let end = source + count * width;
    put_samples(width, count, &input[source..end], out, to);
}

/// Copies the samples in 16 bytes of the input, from place `from` on, to the places of the output from `to` on, the last one first.
#[inline(always)]
pub(crate) fn copy_reversed(
    width: usize,
    count: usize,
    input: &[u8],
    from: usize,
    out: &mut [u8],
    to: usize,
)
    requires width { (width ≡ 1) ⊎ ((width ≡ 2) ⊎ (width ≡ 4)) }
    requires count { count * width ≡ 16 }
    requires input { from * width + 16 ≤ length input.now }
    requires output { to * width + 16 ≤ length out.old }
    ensures copied { (k : ℕ) → k < count → cell width out.new (to + k) ≡ cell width input.now (from + (count - 1 - k)) }
    ensures others { (k : ℕ) → (k < to) ⊎ (to + count ≤ k) → cell width out.new k ≡ cell width out.old k }
{
    let source = from * width;
    let target = to * width;
    let block = reversed(width, &input[source..source + 16]);
    block.copy_to_slice(&mut out[target..target + 16]);
}
