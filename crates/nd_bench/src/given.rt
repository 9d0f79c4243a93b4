//! Arrays and rules that words on the command line name, so that types, sizes and options are known only as the program runs.

ghost use Rattle.std.specs.Prelude.{◌≡◌, ◌<◌, ◌≤◌, IfSome, length};
ghost use Rattle.nd_base.specs.GraphRules.{IsSampleBound};

use nd_base::{Attrs, Dim, Head, NdArray, SampleType};
use std::alloc::Global;

/// The sample type of this name.
pub(crate) fn kind_of(word: &str) -> Option<SampleType> {
    match word {
        "Int8" => Some(SampleType::Int8),
        "UInt8" => Some(SampleType::UInt8),
        "Int16" => Some(SampleType::Int16),
        "UInt16" => Some(SampleType::UInt16),
        "Int32" => Some(SampleType::Int32),
        "UInt32" => Some(SampleType::UInt32),
        _ => None,
    }
}

/// A value that a sample of some type can have.
pub(crate) fn bound_of(word: &str) -> Option<i64>
    ensures { IfSome result (λ bound. IsSampleBound bound) }
{
    let bound = word.parse::<i64>().ok()?;
    if bound < -0x8000_0000 || bound > 0xffff_ffff {
        return None;
    }
    Some(bound)
}

/// The numbers of a list like 2x2, at most 10 of them.
pub(crate) fn list_of(alloc: Global, word: &str) -> Option<Vec<i32>>
    ensures { IfSome result (λ list. length list.items ≤ 10) }
{
    let mut list = Vec::new(alloc);
    for number in word.split('x') {
        list.push(number.parse::<i32>().ok()?).ok()?;
    }
    if list.len() > 10 {
        return None;
    }
    Some(list)
}

/// So many samples without a pattern.
fn samples(alloc: Global, count: usize) -> Option<Vec<u8>>
    ensures { IfSome result (λ samples. length samples.items ≡ count) }
{
    let mut samples = vec![in alloc; 0u8; count].ok()?;
    let mut number = 1u32;
    for sample in samples.iter_mut() {
        number = number.wrapping_mul(1_664_525).wrapping_add(1_013_904_223);
        *sample = number.to_be_bytes()[0];
    }
    Some(samples)
}

/// The lowest bits of a byte, by how many.
const LOWEST: [u8; 9] = [0, 1, 3, 7, 15, 31, 63, 127, 255];

/// Leaves each sample, which has `width` bytes, the most significant first, its lowest `bits` bits.
fn keep_bits(samples: &mut [u8], width: usize, bits: usize)
    requires { 0 < width }
    ensures { length samples.new ≡ length samples.old }
{
    for (index, byte) in samples.iter_mut().enumerate() {
        let behind = width.saturating_sub(index % width).saturating_sub(1);
        let kept = bits.saturating_sub(behind.saturating_mul(8)).min(8);
        *byte &= LOWEST[kept];
    }
}

/// An array of these sizes, as 1024x1024, with dimension 0 first. Its samples have no pattern, and so many bits.
pub(crate) fn array_of(
    alloc: Global,
    kind: SampleType,
    bits: usize,
    sizes: &str,
) -> Option<NdArray> {
    let mut dims = Vec::new(alloc);
    let mut bytes = kind.width();
    for size in list_of(alloc, sizes)?.iter() {
        let size = u32::try_from(*size).ok()?;
        bytes = bytes.checked_mul(size as usize)?;
        let dim = Dim {
            size,
            offset: 0,
            binning: 1,
            reverse: false,
        };
        dims.push(dim).ok()?;
    }
    let head = Head {
        id: 1,
        stamp: 0,
        sec: 0,
        nsec: 0,
        attrs: Attrs::none(alloc),
    };
    let mut samples = samples(alloc, bytes)?;
    keep_bits(&mut samples, kind.width(), bits);
    NdArray::new(alloc, head, kind, dims, samples).ok()
}

/// A checksum with one number more.
pub(crate) fn mixed(sum: u64, more: u64) -> u64 {
    sum.wrapping_mul(31).wrapping_add(more)
}
