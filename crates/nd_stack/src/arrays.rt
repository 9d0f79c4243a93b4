//! Arrays and shapes out of a stack.

ghost use Rattle.std.specs.Prelude.{◌≡◌, ◌<◌, length, IfOk, slice_get, Some};

use nd_base::{Dim, FileShape, NdArray, OutOfMemory, SampleType, Seq, Stack};
use std::alloc::Global;

/// Frame `k` of the stack.
pub fn array(alloc: Global, stack: &Stack, k: u32) -> Result<NdArray, OutOfMemory>
    requires { k < length stack.now.arrays }
    ensures { IfOk result (λ a. slice_get stack.now.arrays k ≡ Some a) }
{
    stack.array(alloc, k)
}

/// The stack's shape with another sample type and other dimensions.
pub fn shape_for(
    alloc: Global,
    stack: &Stack,
    kind: SampleType,
    dims: &[Dim],
) -> Result<FileShape, OutOfMemory>
    ensures { IfOk result (λ shape. shape ≡ (record stack.now.shape { kind = kind; dims = dims.now })) }
{
    let shape = stack.shape();
    Ok(FileShape {
        form: shape.form,
        kind,
        dims: Seq::new(dims.to_vec(alloc)?),
        attrs: shape.attrs.clone()?,
        width: shape.width,
        extras: shape.extras.clone()?,
    })
}
