//! Samples as bytes, the most significant byte first.

ghost use Rattle.std.specs.Prelude.{◌≡◌, ℕ, ◌+◌, ◌*◌, ◌/◌, ◌<◌, ◌≤◌, length, take, drop, pos, ◌+ℤ◌, slice_index_or, map, FitsSigned};
ghost use Rattle.std.specs.Int.{w16, w32, w64, int_wrap, from_be_bytes, to_be_bytes};
ghost use Rattle.nd_base.specs.Samples.{width};
ghost use Rattle.std.specs.List.{range_with_len, flat_map};
ghost use Rattle.std.specs.Int.RustNames.{int_div};
ghost use Rattle.nd_roi.specs.Region.{low_bits};
ghost use Rattle.nd_base.specs.declared.array.SampleType.TheVariants.{UInt8};
ghost use Rattle.nd_roi.specs.Walk.{stored, run, bytes_of};

use lane_kernels::{add_binned, add_binned_low, low_word};
use nd_base::SampleType;

/// Adds `bin` samples to each sum, those from `place` on to the first.
pub(crate) fn add_line(kind: SampleType, input: &[u8], bin: u32, place: usize, sums: &mut [i64])
    requires within { place + length sums.old * bin ≤ length input.now / width kind }
    requires fit { (k : ℕ) → k < length sums.old → FitsSigned w64 (slice_index_or sums.old k (pos 0)) }
    ensures { (k : ℕ) → k < length sums.new
        → slice_index_or sums.new k (pos 0) ≡ int_wrap w64 (slice_index_or sums.old k (pos 0) +ℤ run kind input.now bin (place + k * bin)) }
{
    let from = place * kind.width();
    add_binned(kind, &input[from..], bin, sums);
}

/// Adds `bin` samples to each sum of 32 bits, those from `place` on to the first.
pub(crate) fn add_low_line(kind: SampleType, input: &[u8], bin: u32, place: usize, sums: &mut [i32])
    requires { place + length sums.old * bin ≤ length input.now / width kind }
    ensures { (k : ℕ) → k < length sums.new
        → slice_index_or sums.new k (pos 0) ≡ int_wrap w32 (slice_index_or sums.old k (pos 0) +ℤ run kind input.now bin (place + k * bin)) }
{
    let from = place * kind.width();
    add_binned_low(kind, &input[from..], bin, sums);
}

/// Sets each to what is left in 32 bits of a sum that was divided by `scale`, toward zero.
pub(crate) fn divide_each(sums: &[i64], scale: u32, quotients: &mut [i32])
    requires scale { 0 < scale }
    requires room { length quotients.old ≡ length sums.now }
    ensures { quotients.new ≡ map (λ sum. int_wrap w32 (int_div sum (pos scale))) sums.now }
{
    let scale = i64::from(scale);
    for (k, sum) in sums.iter().enumerate() {
        quotients[k] = low_word(*sum / scale);
    }
}

/// Writes each as a sample, what is left of it in the bits of the type.
pub(crate) fn write_samples(kind: SampleType, sums: &[i32], out: &mut [u8])
    requires { length out.old ≡ length sums.now * width kind }
    ensures { out.new ≡ flat_map (bytes_of kind) sums.now }
{
    match kind {
        SampleType::Int8 | SampleType::UInt8 => write_bytes(sums, out),
        SampleType::Int16 | SampleType::UInt16 => write_pairs(sums, out),
        SampleType::Int32 | SampleType::UInt32 => write_words(sums, out),
    }
}

/// The lowest 8 bits.
fn low_byte(sum: i32) -> u8
    ensures { result ≡ low_bits 8 sum }
{
    (sum.cast_unsigned() % 0x100) as u8
}

/// The lowest 16 bits.
fn low_pair(sum: i32) -> u16
    ensures { result ≡ low_bits 16 sum }
{
    (sum.cast_unsigned() % 0x1_0000) as u16
}

/// All 32 bits.
fn whole_word(sum: i32) -> u32
    ensures { result ≡ low_bits 32 sum }
{
    sum.cast_unsigned()
}

/// The bytes, the most significant first. They are swapped as a whole, so that the compiler stores them as one.
fn pair_bytes(pair: u16) -> [u8; 2]
    ensures { result ≡ to_be_bytes w16 pair }
{
    pair.swap_bytes().to_le_bytes()
}

/// The bytes, the most significant first.
fn word_bytes(word: u32) -> [u8; 4]
    ensures { result ≡ to_be_bytes w32 word }
{
    word.swap_bytes().to_le_bytes()
}

/// Writes the lowest 8 bits of each.
fn write_bytes(sums: &[i32], out: &mut [u8])
    requires { length out.old ≡ length sums.now }
    ensures { out.new ≡ flat_map (bytes_of SampleType.UInt8) sums.now }
{
    for (k, sum) in sums.iter().enumerate() {
        out[k] = low_byte(*sum);
    }
}

/// Writes the lowest 16 bits of each.
fn write_pairs(sums: &[i32], out: &mut [u8])
    requires { length out.old ≡ length sums.now * 2 }
    ensures { out.new ≡ flat_map (bytes_of SampleType.UInt16) sums.now }
{
    for (k, sum) in sums.iter().enumerate() {
        let [high, low] = pair_bytes(low_pair(*sum));
        out[2 * k] = high;
        out[2 * k + 1] = low;
    }
}

/// Writes the lowest 32 bits of each.
fn write_words(sums: &[i32], out: &mut [u8])
    requires { length out.old ≡ length sums.now * 4 }
    ensures { out.new ≡ flat_map (bytes_of SampleType.UInt32) sums.now }
{
    for (k, sum) in sums.iter().enumerate() {
        let [first, second, third, last] = word_bytes(whole_word(*sum));
        out[4 * k] = first;
        out[4 * k + 1] = second;
        out[4 * k + 2] = third;
        out[4 * k + 3] = last;
    }
}
