//! Correction by dark samples.

ghost use Rattle.std.specs.Prelude.{◌≡◌, ◌≢◌, ℕ, ◌+◌, ◌*◌, ◌/◌, ◌%◌, ◌<◌, ◌≤◌, length};
ghost use Rattle.nd_base.specs.Samples.{width, number, sample_bytes, samples_of};
ghost use Rattle.nd_base.specs.SampleLaws.{IsSample};
ghost use Rattle.nd_orient.specs.Correction.{IsCorrectRule, nearest_sample, corrected_sample, corrected_samples};
ghost use Rattle.nd_orient.specs.Walk.{cell, stored};

use crate::cells::put_sample;
use crate::rule::CorrectRule;
use crate::scale::{Scale, scale_for};
use nd_base::{SampleType, number_at};

/// The samples of an array as bytes, the most significant byte of each first.
#[derive(Clone, Copy, Debug)]
pub struct Samples<'a> {
    pub kind: SampleType,
    pub bytes: &'a [u8],
}

/// Writes a number as the sample at a place.
#[inline(always)]
fn write_number(kind: SampleType, number: i64, out: &mut [u8], place: usize)
    requires sample { IsSample kind number }
    requires output { place * width kind + width kind ≤ length out.old }
    ensures here { cell (width kind) out.new place ≡ sample_bytes kind number }
    ensures others { (k : ℕ) → k ≢ place → cell (width kind) out.new k ≡ cell (width kind) out.old k }
{
    match kind {
        SampleType::Int8 => put_sample(
            1,
            &(number as i8).cast_unsigned().to_be_bytes(),
            out,
            place,
        ),
        SampleType::UInt8 => put_sample(1, &(number as u8).to_be_bytes(), out, place),
        SampleType::Int16 => put_sample(
            2,
            &(number as i16).cast_unsigned().to_be_bytes(),
            out,
            place,
        ),
        SampleType::UInt16 => put_sample(2, &(number as u16).to_be_bytes(), out, place),
        SampleType::Int32 => put_sample(
            4,
            &(number as i32).cast_unsigned().to_be_bytes(),
            out,
            place,
        ),
        SampleType::UInt32 => put_sample(4, &(number as u32).to_be_bytes(), out, place),
    }
}

/// Corrects each sample of the input.
#[inline(always)]
fn correct_each(scale: Scale, dark: &Samples, input: &Samples, out: &mut [u8])
    requires rule { IsCorrectRule scale.rule }
    requires low { scale.low ≡ nearest_sample input.now.kind scale.rule.low }
    requires high { scale.high ≡ nearest_sample input.now.kind scale.rule.high }
    requires dark { length dark.now.bytes.now / width dark.now.kind ≡ length input.now.bytes.now / width input.now.kind }
    requires output { length out.old ≡ length input.now.bytes.now }
    ensures { (k : ℕ) → k < length input.now.bytes.now / width input.now.kind → cell (width input.now.kind) out.new k
        ≡ sample_bytes input.now.kind (corrected_sample scale.rule input.now.kind
        (stored input.now.kind input.now.bytes.now k) (stored dark.now.kind dark.now.bytes.now k)) }
{
    let width = input.kind.width();
    let dark_width = dark.kind.width();
    for k in 0..input.bytes.len() / width {
        let sample = number_at(input.kind, input.bytes, k * width);
        let dark_sample = number_at(dark.kind, dark.bytes, k * dark_width);
        let number = scale.corrected(sample, dark_sample);
        write_number(input.kind, number, out, k);
    }
}

/// The same, where both are of this type.
#[inline(always)]
fn correct_as(kind: SampleType, scale: Scale, dark: &[u8], input: &[u8], out: &mut [u8])
    requires rule { IsCorrectRule scale.rule }
    requires low { scale.low ≡ nearest_sample kind scale.rule.low }
    requires high { scale.high ≡ nearest_sample kind scale.rule.high }
    requires dark { length dark.now / width kind ≡ length input.now / width kind }
    requires output { length out.old ≡ length input.now }
    ensures { (k : ℕ) → k < length input.now / width kind → cell (width kind) out.new k
        ≡ sample_bytes kind (corrected_sample scale.rule kind (stored kind input.now k) (stored kind dark.now k)) }
{
    let dark = Samples { kind, bytes: dark };
    let input = Samples { kind, bytes: input };
    correct_each(scale, &dark, &input, out);
}

/// The same, where both are of the input's type.
fn correct_alike(scale: Scale, dark: &[u8], input: &Samples, out: &mut [u8])
    requires rule { IsCorrectRule scale.rule }
    requires low { scale.low ≡ nearest_sample input.now.kind scale.rule.low }
    requires high { scale.high ≡ nearest_sample input.now.kind scale.rule.high }
    requires dark { length dark.now / width input.now.kind ≡ length input.now.bytes.now / width input.now.kind }
    requires output { length out.old ≡ length input.now.bytes.now }
    ensures { (k : ℕ) → k < length input.now.bytes.now / width input.now.kind → cell (width input.now.kind) out.new k
        ≡ sample_bytes input.now.kind (corrected_sample scale.rule input.now.kind
        (stored input.now.kind input.now.bytes.now k) (stored input.now.kind dark.now k)) }
{
    match input.kind {
        SampleType::Int8 => correct_as(SampleType::Int8, scale, dark, input.bytes, out),
        SampleType::UInt8 => correct_as(SampleType::UInt8, scale, dark, input.bytes, out),
        SampleType::Int16 => correct_as(SampleType::Int16, scale, dark, input.bytes, out),
        SampleType::UInt16 => correct_as(SampleType::UInt16, scale, dark, input.bytes, out),
        SampleType::Int32 => correct_as(SampleType::Int32, scale, dark, input.bytes, out),
        SampleType::UInt32 => correct_as(SampleType::UInt32, scale, dark, input.bytes, out),
    }
}

/// Fills `out` with the corrected samples of the input, which are of its type. It takes no memory.
pub fn correct_samples(rule: &CorrectRule, dark: &Samples, input: &Samples, out: &mut [u8])
    requires rule { IsCorrectRule rule.now }
    requires dark { length dark.now.bytes.now / width dark.now.kind ≡ length input.now.bytes.now / width input.now.kind }
    requires output { length out.old ≡ length input.now.bytes.now }
    ensures { samples_of input.now.kind out.new ≡ corrected_samples rule.now input.now.kind
        (samples_of dark.now.kind dark.now.bytes.now) (samples_of input.now.kind input.now.bytes.now) }
{
    let scale = scale_for(rule, input.kind);
    if dark.kind == input.kind {
        correct_alike(scale, dark.bytes, input, out);
    } else {
        correct_each(scale, dark, input, out);
    }
}
