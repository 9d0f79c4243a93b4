//! The arithmetic of a correction, in 64 bits.

ghost use Rattle.std.specs.Prelude.{◌≡◌, ◌^◌, ◌<◌, ◌+ℤ◌, ◌-ℤ◌, ◌*ℤ◌, pos, negsuc, unsigned_abs};
ghost use Rattle.std.specs.Int.RustNames.{int_div};
ghost use Rattle.nd_base.specs.Samples.{IsSmall};
ghost use Rattle.nd_orient.specs.Correction.{IsCorrectRule, least, greatest, nearest, nearest_sample, scaled};

use crate::rule::CorrectRule;
use nd_base::SampleType;

/// The least sample of a type.
const fn least_of(kind: SampleType) -> i64
    ensures { result ≡ least kind }
{
    match kind {
        SampleType::Int8 => i8::MIN as i64,
        SampleType::Int16 => i16::MIN as i64,
        SampleType::Int32 => i32::MIN as i64,
        SampleType::UInt8 | SampleType::UInt16 | SampleType::UInt32 => 0,
    }
}

/// The greatest sample of a type.
const fn greatest_of(kind: SampleType) -> i64
    ensures { result ≡ greatest kind }
{
    match kind {
        SampleType::Int8 => i8::MAX as i64,
        SampleType::UInt8 => u8::MAX as i64,
        SampleType::Int16 => i16::MAX as i64,
        SampleType::UInt16 => u16::MAX as i64,
        SampleType::Int32 => i32::MAX as i64,
        SampleType::UInt32 => u32::MAX as i64,
    }
}

/// The number nearest to this one that is a sample of the type.
fn nearest_sample(kind: SampleType, value: i32) -> i64
    ensures { result ≡ nearest_sample kind value }
{
    i64::from(value).min(greatest_of(kind)).max(least_of(kind))
}

/// A rule for samples of one type, with its range brought to that of the type.
#[derive(Clone, Copy, Debug)]
pub(crate) struct Scale {
    pub rule: CorrectRule,
    pub low: i64,
    pub high: i64,
}

/// The rule for samples of this type.
pub(crate) fn scale_for(rule: &CorrectRule, kind: SampleType) -> Scale
    ensures rule { result.rule ≡ rule.now }
    ensures low { result.low ≡ nearest_sample kind rule.now.low }
    ensures high { result.high ≡ nearest_sample kind rule.now.high }
{
    Scale {
        rule: *rule,
        low: nearest_sample(kind, rule.low),
        high: nearest_sample(kind, rule.high),
    }
}

/// No sample and no limit is as far from zero.
const FAR: u64 = 0x100_0000_0000;

impl Scale {
    /// The difference times `num` over `den`, toward zero, or the number nearest to it that isn't too far from zero.
    #[inline(always)]
    fn scaled(self, difference: i64) -> i64
        requires rule { IsCorrectRule self.rule }
        requires near { unsigned_abs difference < 2 ^ 33 }
        ensures { result ≡ nearest (negsuc 0xff_ffff_ffff) (pos 0x100_0000_0000) (int_div (difference *ℤ self.rule.num) self.rule.den) }
    {
        let product = difference.unsigned_abs() * u64::from(self.rule.num.unsigned_abs());
        let quotient = product / u64::from(self.rule.den.unsigned_abs());
        let near = quotient.min(FAR) as i64;
        if (difference < 0) == (self.rule.num < 0) {
            near
        } else {
            -near
        }
    }

    /// A sample over a dark sample.
    #[inline(always)]
    pub fn corrected(self, sample: i64, dark: i64) -> i64
        requires rule { IsCorrectRule self.rule }
        requires low { unsigned_abs self.low < 2 ^ 33 }
        requires high { unsigned_abs self.high < 2 ^ 33 }
        requires sample { IsSmall sample }
        requires dark { IsSmall dark }
        ensures { result ≡ nearest self.low self.high (scaled self.rule sample dark +ℤ self.rule.offset) }
    {
        let value = self.scaled(sample - dark) + i64::from(self.rule.offset);
        value.min(self.high).max(self.low)
    }
}
