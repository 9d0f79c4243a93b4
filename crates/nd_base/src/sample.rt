//! Samples as bytes, the most significant byte first. The bytes of one are taken as a whole, so that the compiler loads them as one
//! number, and many of them at once.

ghost use Rattle.std.specs.Prelude.{◌≡◌, ◌+◌, ◌≤◌, length, take, drop};
ghost use Rattle.std.specs.Int.{w16, w32, from_be_bytes};
ghost use Rattle.nd_base.specs.Samples.{number, width, IsSmall};

use crate::SampleType;

/// The two bytes from index `at` on as a number.
#[inline(always)]
pub fn pair_at(bytes: &[u8], at: usize) -> u16
    requires { at + 2 ≤ length bytes.now }
    ensures { result ≡ from_be_bytes w16 (take 2 (drop at bytes.now)) }
{
    let Some(pair) = bytes[at..].first_chunk() else {
        unreachable!()
    };
    u16::from_be_bytes(*pair)
}

/// The four bytes from index `at` on as a number.
#[inline(always)]
pub fn word_at(bytes: &[u8], at: usize) -> u32
    requires { at + 4 ≤ length bytes.now }
    ensures { result ≡ from_be_bytes w32 (take 4 (drop at bytes.now)) }
{
    let Some(word) = bytes[at..].first_chunk() else {
        unreachable!()
    };
    u32::from_be_bytes(*word)
}

/// The sample whose bytes begin at index `at`.
#[inline(always)]
pub fn number_at(kind: SampleType, bytes: &[u8], at: usize) -> i64
    requires { at + width kind ≤ length bytes.now }
    ensures value { result ≡ number kind (take (width kind) (drop at bytes.now)) }
    ensures small { IsSmall result }
{
    match kind {
        SampleType::Int8 => bytes[at].cast_signed() as i64,
        SampleType::UInt8 => bytes[at] as i64,
        SampleType::Int16 => pair_at(bytes, at).cast_signed() as i64,
        SampleType::UInt16 => pair_at(bytes, at) as i64,
        SampleType::Int32 => word_at(bytes, at).cast_signed() as i64,
        SampleType::UInt32 => word_at(bytes, at) as i64,
    }
}
