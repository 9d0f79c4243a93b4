//! The samples of a part of the bytes.

ghost use Rattle.std.specs.Prelude.{◌≡◌, ◌+◌, ◌*◌, ◌/◌, ◌≤◌, length, drop};
ghost use Rattle.nd_base.specs.Samples.{width, numbers, samples_of};

use nd_base::SampleType;

/// The bytes of `size` samples from place `done` on.
#[inline(always)]
pub(crate) fn part(kind: SampleType, samples: &[u8], done: usize, size: usize) -> &[u8]
    requires { done + size ≤ length samples.now / width kind }
    ensures values { samples_of kind result.now ≡ numbers kind size (drop (done * width kind) samples.now) }
    ensures len { length result.now ≡ size * width kind }
{
    let width = kind.width();
    &samples[done * width..(done + size) * width]
}
