//! Stacks.

ghost use Rattle.std.specs.Prelude.{◌≡◌, ◌<◌, ◌≤◌, ◌+◌, ◌*◌, ◌↔◌, ℕ, IsTrue, length, take, drop, slice_get, Some, IfOk, IfSome};
ghost use Rattle.nd_base.specs.SampleLaws.{AreBytes};

use crate::{
    Bytes, FileShape, Head, NdArray, OutOfMemory, Seq, are_array_dims, frame_bytes, same_head,
};
use std::alloc::Global;
use std::marker::Model;

/// Frames of one shape over the bytes of the file that they come from. The samples of frame k are the bytes
/// of one frame that begin at `first + k * step`, and aren't copied. Contracts see the shape and the list
/// of arrays.
#[derive(Debug, Drop)]
pub struct Stack {
    shape: FileShape,
    heads: Seq<Head>,
    bytes: Bytes,
    first: u64,
    step: u64,
}

impl Model for Stack {
    ghost use Rattle.nd_base.specs.Array.{StackValue};
    ghost use Rattle.nd_base.specs.Stacks.{stack_at, FitsFile};

    ghost Value = { StackValue };

    ghost view = { λ s. stack_at s.shape s.heads s.bytes s.first s.step };

    ghost invariant = { λ s. FitsFile s.shape s.heads s.bytes s.first s.step };
}

/// So many of the bytes, from a place on.
fn part(bytes: &[u8], place: usize, size: usize) -> &[u8]
    requires { place + size ≤ length bytes.now }
    ensures value { result.now ≡ take size (drop place bytes.now) }
    ensures bytes { AreBytes result.now }
{
    &bytes[place..place + size]
}

/// Whether so many frames of so many bytes, the first of which begins at `first` and each further one a step later, lie within
/// `total` bytes.
fn lie_within(frames: usize, size: usize, first: u64, step: u64, total: usize) -> bool
    requires few { frames ≤ 65536 }
    requires small { size ≤ 268435456 }
    ensures { IsTrue result ↔ ((k : ℕ) → k < frames → first + k * step + size ≤ total) }
{
    let Some(last) = frames.checked_sub(1) else {
        return true;
    };
    u128::from(first) + last as u128 * u128::from(step) + size as u128 <= total as u128
}

impl Stack {
    ghost use Rattle.nd_base.specs.Samples.{samples_of, bytes_of};
    ghost use Rattle.nd_base.specs.Stacks.{stack_at, frame_size, head_of, FitsFile, IsStack};

    /// Whether these make a stack, as `new` requires: an array can have the shape's dimensions, there are at most 65,536
    /// frames, and the samples of each lie within the bytes.
    pub fn fits(shape: &FileShape, heads: &[Head], bytes: &[u8], first: u64, step: u64) -> bool
        ensures { IsTrue result ↔ FitsFile shape.now heads.now bytes.now first step }
    {
        let dims = shape.dims.as_slice();
        if !are_array_dims(dims) || heads.len() > 65_536 {
            return false;
        }
        let size = frame_bytes(shape.kind, dims);
        lie_within(heads.len(), size, first, step, bytes.len())
    }

    /// The stack of these frames: frame k has head k, and its samples begin at place `first + k * step` of
    /// the bytes. It takes no memory.
    pub fn new(shape: FileShape, heads: Seq<Head>, bytes: Bytes, first: u64, step: u64) -> Stack
        requires { FitsFile shape heads bytes first step }
        ensures { result ≡ stack_at shape heads bytes first step }
    {
        Stack {
            shape,
            heads,
            bytes,
            first,
            step,
        }
    }

    /// How many frames there are: at most 65,536.
    pub fn frames(&self) -> u32
        ensures { result ≡ length self.now.arrays }
    {
        self.heads.as_slice().len() as u32
    }

    /// Id, times and attributes of frame `k`.
    pub fn head(&self, k: u32) -> &Head
        requires { k < length self.now.arrays }
        ensures { IfSome (slice_get self.now.arrays k) (λ a. head_of a ≡ result.now) }
    {
        &self.heads.as_slice()[k as usize]
    }

    /// What all frames share.
    pub fn shape(&self) -> &FileShape
        ensures value { result.now ≡ self.now.shape }
        ensures sound { IsStack self.now }
    {
        &self.shape
    }

    /// The samples of frame `k`, the most significant byte of each first. They aren't copied.
    pub fn frame(&self, k: u32) -> &[u8]
        requires { k < length self.now.arrays }
        ensures size { length result.now ≡ frame_size self.now.shape }
        ensures samples { IfSome (slice_get self.now.arrays k) (λ a. samples_of self.now.shape.kind result.now ≡ a.samples) }
        ensures bytes { IfSome (slice_get self.now.arrays k) (λ a. result.now ≡ bytes_of self.now.shape.kind a.samples) }
    {
        let bytes = self.bytes.list();
        let size = frame_bytes(self.shape.kind, self.shape.dims.as_slice());
        let place = (self.first + u64::from(k) * self.step) as usize;
        part(bytes, place, size)
    }

    /// Fills `out` with the samples of frame `k`, the most significant byte of each first. It takes no
    /// memory.
    pub fn fill_frame(&self, k: u32, out: &mut [u8])
        requires frame { k < length self.now.arrays }
        requires room { length out.old ≡ frame_size self.now.shape }
        ensures samples { IfSome (slice_get self.now.arrays k) (λ a. samples_of self.now.shape.kind out.new ≡ a.samples) }
        ensures bytes { IfSome (slice_get self.now.arrays k) (λ a. out.new ≡ bytes_of self.now.shape.kind a.samples) }
    {
        out.copy_from_slice(self.frame(k));
    }
    /// Frame `k` as an array of its own.
    ///
    /// # Errors
    ///
    /// Only for want of memory.
    pub fn array(&self, alloc: Global, k: u32) -> Result<NdArray, OutOfMemory>
        requires { k < length self.now.arrays }
        ensures { IfOk result (λ a. slice_get self.now.arrays k ≡ Some a) }
    {
        let shape = self.shape();
        let samples = self.frame(k).to_vec(alloc)?;
        let head = same_head(self.head(k))?;
        let dims = shape.dims.as_slice().to_vec(alloc)?;
        let Ok(array) = NdArray::new(alloc, head, shape.kind, dims, samples) else {
            unreachable!()
        };
        Ok(array)
    }
}
