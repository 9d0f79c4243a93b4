//! Rows of samples, side by side in the lanes of a vector.

ghost use Rattle.std.specs.Prelude.{◌≡◌, ◌≢◌, ◌+◌, ◌*◌, ◌/◌, ◌≤◌, ◌+ℤ◌, pos, length, drop, map, unsigned_abs};
ghost use Rattle.nd_base.specs.Samples.{width, numbers};
ghost use Rattle.nd_base.specs.declared.array.SampleType.TheVariants.{Int8, UInt8, Int16, UInt16, Int32, UInt32};
ghost use Rattle.lane_kernels.specs.Lanes.{offset};
ghost use Rattle.lane_kernels.specs.Plain.{square};

use nd_base::SampleType;
use std::simd::prelude::*;

/// The eight samples of 8 bits without a sign whose bytes begin at index `at`.
#[inline(always)]
fn bytes_at(bytes: &[u8], at: usize) -> i32x8
    requires { at + 8 ≤ length bytes.now }
    ensures { result ≡ numbers UInt8 8 (drop at bytes.now) }
{
    u8x8::from_slice(&bytes[at..]).cast::<i32>()
}

/// The eight samples of 8 bits with a sign whose bytes begin at index `at`. The compiler extends the sign in one step.
#[inline(always)]
fn signed_bytes_at(bytes: &[u8], at: usize) -> i32x8
    requires { at + 8 ≤ length bytes.now }
    ensures { result ≡ numbers Int8 8 (drop at bytes.now) }
{
    (u8x8::from_slice(&bytes[at..]) + u8x8::splat(128)).cast::<i32>() - i32x8::splat(128)
}

/// The eight samples of 16 bits with a sign whose bytes begin at index `at`.
#[inline(always)]
fn signed_pairs_at(bytes: &[u8], at: usize) -> i16x8
    requires { at + 16 ≤ length bytes.now }
    ensures { result ≡ numbers Int16 8 (drop at bytes.now) }
{
    let row = u8x16::from_slice(&bytes[at..]);
    i16x8::from_le_bytes(row.swizzle([1, 0, 3, 2, 5, 4, 7, 6, 9, 8, 11, 10, 13, 12, 15, 14]))
}

/// The four samples of 32 bits with a sign whose bytes begin at index `at`.
#[inline(always)]
pub(crate) fn signed_words_at(bytes: &[u8], at: usize) -> i32x4
    requires { at + 16 ≤ length bytes.now }
    ensures { result ≡ numbers Int32 4 (drop at bytes.now) }
{
    let row = u8x16::from_slice(&bytes[at..]);
    i32x4::from_le_bytes(row.swizzle([3, 2, 1, 0, 7, 6, 5, 4, 11, 10, 9, 8, 15, 14, 13, 12]))
}

/// The four samples of 32 bits without a sign whose bytes begin at index `at`.
#[inline(always)]
pub(crate) fn words_at(bytes: &[u8], at: usize) -> u32x4
    requires { at + 16 ≤ length bytes.now }
    ensures { result ≡ map unsigned_abs (numbers UInt32 4 (drop at bytes.now)) }
{
    let row = u8x16::from_slice(&bytes[at..]);
    u32x4::from_le_bytes(row.swizzle([3, 2, 1, 0, 7, 6, 5, 4, 11, 10, 9, 8, 15, 14, 13, 12]))
}

/// The eight samples from a place on, of 8 bits or of 16 with a sign.
#[inline(always)]
pub(crate) fn narrow_row(kind: SampleType, bytes: &[u8], place: usize) -> i32x8
    requires narrow { width kind ≤ 2 }
    requires other { kind ≢ UInt16 }
    requires place { place + 8 ≤ length bytes.now / width kind }
    ensures { result ≡ numbers kind 8 (drop (place * width kind) bytes.now) }
{
    match kind {
        SampleType::Int8 => signed_bytes_at(bytes, place),
        SampleType::UInt8 => bytes_at(bytes, place),
        SampleType::Int16 => signed_pairs_at(bytes, place * 2).cast::<i32>(),
        _ => unreachable!(),
    }
}

/// The squares of these.
#[inline(always)]
pub(crate) fn square_row(kind: SampleType, bytes: &[u8], place: usize) -> i32x8
    requires narrow { width kind ≤ 2 }
    requires other { kind ≢ UInt16 }
    requires place { place + 8 ≤ length bytes.now / width kind }
    ensures { result ≡ map square (numbers kind 8 (drop (place * width kind) bytes.now)) }
{
    let row = narrow_row(kind, bytes, place);
    row * row
}

/// The four samples from a place on, of 32 bits.
#[inline(always)]
pub(crate) fn wide_row(kind: SampleType, bytes: &[u8], place: usize) -> i64x4
    requires wide { width kind ≡ 4 }
    requires place { place + 4 ≤ length bytes.now / width kind }
    ensures { result ≡ numbers kind 4 (drop (place * width kind) bytes.now) }
{
    match kind {
        SampleType::Int32 => signed_words_at(bytes, place * 4).cast::<i64>(),
        SampleType::UInt32 => words_at(bytes, place * 4).cast::<i64>(),
        _ => unreachable!(),
    }
}

/// Sixteen samples of 8 bits, those whose bytes begin at index `at`, in lanes without a sign: more by 128 in Int8.
#[inline(always)]
pub(crate) fn byte_lanes(kind: SampleType, bytes: &[u8], at: usize) -> u8x16
    requires byte { width kind ≡ 1 }
    requires at { at + 16 ≤ length bytes.now }
    ensures { map (λ x. pos x +ℤ offset kind) result ≡ numbers kind 16 (drop at bytes.now) }
{
    let row = u8x16::from_slice(&bytes[at..]);
    match kind {
        SampleType::Int8 => row + u8x16::splat(128),
        SampleType::UInt8 => row,
        _ => unreachable!(),
    }
}
