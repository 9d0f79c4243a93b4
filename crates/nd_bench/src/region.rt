//! Workload `region TYPE BINS REVERSE SCALE OUT SIZES COUNT`: a region of an array, so many times.

ghost use Rattle.std.specs.Prelude.{◌≡◌, IfSome};
ghost use Rattle.nd_base.specs.GraphRules.{IsRoi};

use crate::given::{array_of, kind_of, list_of, mixed};
use nd_base::{NdArray, RoiRule, Seq, frame_bytes};
use nd_roi::fill_region;
use std::alloc::Global;

/// The rule of these words. OUT is a sample type, or `same`.
fn rule_of(alloc: Global, words: &[String]) -> Option<RoiRule>
    ensures { IfSome result (λ rule. IsRoi rule) }
{
    let [bins, reverse, scale, out] = words else {
        return None;
    };
    let scale = scale.as_str().parse::<u32>().ok()?;
    if scale == 0 || scale > 0x7fff_ffff {
        return None;
    }
    Some(RoiRule {
        min: Seq::new(Vec::new(alloc)),
        size: Seq::new(Vec::new(alloc)),
        bin: Seq::new(list_of(alloc, bins.as_str())?),
        reverse: Seq::new(Vec::from_slice(alloc, &[reverse.as_str() == "1"]).ok()?),
        auto: Seq::new(Vec::new(alloc)),
        scale,
        out: kind_of(out.as_str()),
    })
}

/// Cuts the region `count` times. The checksum tells its bytes.
#[tactic(auto, using(crate::proofs::Cuts::shapes))]
fn cut(alloc: Global, rule: &RoiRule, array: &NdArray, count: u32) -> Option<u64>
    requires { IsRoi rule.now }
{
    let dims = nd_roi::region(alloc, rule, array.dims()).ok()?;
    let kind = rule.out.unwrap_or(array.kind());
    let mut out = vec![in alloc; 0u8; frame_bytes(kind, &dims)].ok()?;
    for _ in 0..count {
        fill_region(rule, array.kind(), array.dims(), array.bytes(), &mut out);
    }
    let mut sum = 0;
    for byte in out.iter() {
        sum = mixed(sum, u64::from(*byte));
    }
    Some(sum)
}

/// Cuts the region of these words `count` times.
pub(crate) fn region(
    alloc: Global,
    kind: &str,
    rule: &[String],
    sizes: &str,
    count: u32,
) -> Option<u64> {
    let array = array_of(alloc, kind_of(kind)?, 32, sizes)?;
    cut(alloc, &rule_of(alloc, rule)?, &array, count)
}
