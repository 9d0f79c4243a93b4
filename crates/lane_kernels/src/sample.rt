//! Samples by their places.

ghost use Rattle.std.specs.Prelude.{◌≡◌, ◌*◌, ◌/◌, ◌<◌, ◌≤◌, length, unsigned_abs};
ghost use Rattle.std.specs.Int.{w32, int_wrap};
ghost use Rattle.nd_base.specs.Samples.{width, IsSmall};
ghost use Rattle.lane_kernels.specs.Plain.{stored};

use nd_base::{SampleType, number_at};

/// The sample at a place.
#[inline(always)]
pub fn sample_at(kind: SampleType, bytes: &[u8], place: usize) -> i64
    requires { place < length bytes.now / width kind }
    ensures value { result ≡ stored kind bytes.now place }
    ensures small { IsSmall result }
{
    number_at(kind, bytes, place * kind.width())
}

/// The sample at a place, of at most 16 bits.
#[inline(always)]
#[tactic(auto, using(crate::proofs::Narrow::narrow_stored))]
pub fn narrow_at(kind: SampleType, bytes: &[u8], place: usize) -> i32
    requires place { place < length bytes.now / width kind }
    requires narrow { width kind ≤ 2 }
    ensures value { result ≡ stored kind bytes.now place }
    ensures bound { unsigned_abs result ≤ 65535 }
{
    sample_at(kind, bytes, place) as i32
}

/// The square of the sample at a place. In 64 bits a number's own bits have its square, so its size need not be taken.
#[inline(always)]
#[tactic(auto, using(crate::proofs::Squares::bits_squared))]
pub(crate) fn sample_square(kind: SampleType, bytes: &[u8], place: usize) -> u64
    requires { place < length bytes.now / width kind }
    ensures { result ≡ unsigned_abs (stored kind bytes.now place) * unsigned_abs (stored kind bytes.now place) }
{
    let bits = sample_at(kind, bytes, place).cast_unsigned();
    bits.wrapping_mul(bits)
}

/// What is left of a number in 32 bits.
#[inline(always)]
pub fn low_word(number: i64) -> i32
    ensures { result ≡ int_wrap w32 number }
{
    let bits = number.cast_unsigned();
    let low = (bits % 0x1_0000_0000) as u32;
    low.cast_signed()
}
