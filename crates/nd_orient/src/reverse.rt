//! Lines with their samples in reverse.

ghost use Rattle.std.specs.Prelude.{◌≡◌, ◌⊎◌, ℕ, ◌+◌, ◌-◌, ◌*◌, ◌<◌, ◌≤◌, length};
ghost use Rattle.nd_base.specs.Shapes.{most_samples};
ghost use Rattle.nd_orient.specs.Walk.{cell};

use crate::cells::{copy_reversed, copy_sample};

/// Writes the samples from place `done` on, one by one.
#[inline(always)]
fn reverse_rest(width: usize, samples: usize, done: usize, input: &[u8], out: &mut [u8])
    requires few { samples ≤ most_samples }
    requires input { length input.now ≡ samples * width }
    requires output { length out.old ≡ samples * width }
    ensures rest { (k : ℕ) → done ≤ k → k < samples → cell width out.new k ≡ cell width input.now (samples - 1 - k) }
    ensures before { (k : ℕ) → k < done → cell width out.new k ≡ cell width out.old k }
{
    for k in done..samples {
        copy_sample(width, input, samples - 1 - k, out, k);
    }
}

/// Writes the samples 16 bytes at a time, in which there are `count` of them.
#[inline(always)]
fn reverse_by(width: usize, count: usize, samples: usize, input: &[u8], out: &mut [u8])
    requires width { (width ≡ 1) ⊎ ((width ≡ 2) ⊎ (width ≡ 4)) }
    requires count { count * width ≡ 16 }
    requires few { samples ≤ most_samples }
    requires input { length input.now ≡ samples * width }
    requires output { length out.old ≡ samples * width }
    ensures { (k : ℕ) → k < samples → cell width out.new k ≡ cell width input.now (samples - 1 - k) }
{
    let mut done = 0;
    while count <= samples - done {
        let from = samples - done - count;
        copy_reversed(width, count, input, from, out, done);
        done += count;
    }
    reverse_rest(width, samples, done, input, out);
}

/// Writes the samples of the input, the last one first. It is a function of its own, so that its loops have the registers to themselves.
#[inline(never)]
fn reverse_samples(width: usize, samples: usize, input: &[u8], out: &mut [u8])
    requires few { samples ≤ most_samples }
    requires input { length input.now ≡ samples * width }
    requires output { length out.old ≡ samples * width }
    ensures { (k : ℕ) → k < samples → cell width out.new k ≡ cell width input.now (samples - 1 - k) }
{
    match width {
        1 => reverse_by(1, 16, samples, input, out),
        2 => reverse_by(2, 8, samples, input, out),
        4 => reverse_by(4, 4, samples, input, out),
        _ => reverse_rest(width, samples, 0, input, out),
    }
}

/// Copies so many samples of the input, from place `from` on, to the places of the output from `to` on, the last one first.
#[inline(always)]
pub(crate) fn copy_down(
    width: usize,
    samples: usize,
    input: &[u8],
    from: usize,
    out: &mut [u8],
    to: usize,
)
    requires few { samples ≤ most_samples }
    requires input { from * width + samples * width ≤ length input.now }
    requires output { to * width + samples * width ≤ length out.old }
    ensures copied { (k : ℕ) → k < samples → cell width out.new (to + k) ≡ cell width input.now (from + (samples - 1 - k)) }
    ensures others { (k : ℕ) → (k < to) ⊎ (to + samples ≤ k) → cell width out.new k ≡ cell width out.old k }
{
    let source = from * width;
    let target = to * width;
    let bytes = samples * width;
    reverse_samples(
        width,
        samples,
        &input[source..source + bytes],
        &mut out[target..target + bytes],
    );
}
