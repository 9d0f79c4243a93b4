//! Whole arrays.

ghost use Rattle.std.specs.Prelude.{◌≡◌, ◌≤◌, ◌*◌, ◌<◌, length, Err, IfOk, IfErr, IsTrue};
ghost use Rattle.nd_orient.specs.declared.arrays.OrientFault.TheVariants as faults;
ghost use Rattle.nd_base.specs.Samples.{width, samples_of};
ghost use Rattle.nd_base.specs.Shapes.{sample_count};
ghost use Rattle.nd_base.specs.Places.{sizes_of};
ghost use Rattle.nd_orient.specs.Correction.{IsCorrectRule, corrected, corrected_samples};
ghost use Rattle.nd_orient.specs.Orientation.{oriented, oriented_dims, oriented_samples};

use crate::correction::{Samples, correct_samples};
use crate::dims::orient_dims;
use crate::rule::CorrectRule;
use crate::samples::orient_samples;
use nd_base::{NdArray, OutOfMemory, frame_bytes, same_head};
use std::alloc::Global;
use thiserror::Error;

/// Why an array is not oriented.
#[derive(Clone, Copy, Debug, PartialEq, Eq, Error)]
pub enum OrientFault {
    /// The array has one dimension, and no second one to turn it with.
    #[error("an array of one dimension has no other orientation")]
    OneDim,
    #[error("out of memory")]
    OutOfMemory,
}

impl From<OutOfMemory> for OrientFault {
    ghost from_gives = { λ _ e. e ≡ faults.OutOfMemory };

    fn from(_: OutOfMemory) -> Self {
        OrientFault::OutOfMemory
    }
}

/// The bytes of the oriented samples.
fn oriented_bytes(alloc: Global, mode: u32, array: &NdArray) -> Result<Vec<u8>, OutOfMemory>
    requires mode { mode < 8 }
    requires two { 2 ≤ length array.now.dims }
    ensures size { IfOk result (λ bytes. length bytes.items ≡ sample_count array.now.dims * width array.now.kind) }
    ensures samples { IfOk result (λ bytes. samples_of array.now.kind bytes.items ≡ oriented_samples mode array.now.dims array.now.samples) }
{
    let input = array.bytes();
    let mut bytes = vec![in alloc; 0; input.len()]?;
    orient_samples(mode, array.kind(), array.dims(), input, &mut bytes);
    Ok(bytes)
}

/// The array in another orientation. Its id, times and attributes stay.
///
/// # Errors
///
/// `OneDim` exactly where the array has one dimension; otherwise only for want of memory.
pub fn orient(alloc: Global, mode: u32, array: &NdArray) -> Result<NdArray, OrientFault>
    requires { mode < 8 }
    ensures value { IfOk result (λ a. a ≡ oriented mode array.now) }
    ensures one { length array.now.dims ≡ 1 → result ≡ Err OrientFault.OneDim }
    ensures more { IfErr result (λ fault. fault ≡ OrientFault.OneDim → length array.now.dims ≡ 1) }
{
    if array.dims().len() == 1 {
        return Err(OrientFault::OneDim);
    }
    let bytes = oriented_bytes(alloc, mode, array)?;
    let dims = orient_dims(alloc, mode, array.dims())?;
    let head = same_head(array.head())?;
    let Ok(turned) = NdArray::new(alloc, head, array.kind(), dims, bytes) else {
        unreachable!()
    };
    Ok(turned)
}

/// The bytes of an array's samples.
fn samples_in(array: &NdArray) -> Samples<'_>
    ensures kind { result.kind ≡ array.now.kind }
    ensures samples { samples_of array.now.kind result.bytes.now ≡ array.now.samples }
    ensures size { length result.bytes.now ≡ sample_count array.now.dims * width array.now.kind }
{
    let size = frame_bytes(array.kind(), array.dims());
    Samples {
        kind: array.kind(),
        bytes: &array.bytes()[..size],
    }
}

/// The corrected bytes of an array's samples.
fn corrected_bytes(
    alloc: Global,
    rule: &CorrectRule,
    dark: &NdArray,
    array: &NdArray,
) -> Result<Vec<u8>, OutOfMemory>
    requires rule { IsCorrectRule rule.now }
    requires sizes { sizes_of dark.now.dims ≡ sizes_of array.now.dims }
    ensures size { IfOk result (λ bytes. length bytes.items ≡ sample_count array.now.dims * width array.now.kind) }
    ensures samples { IfOk result (λ bytes. samples_of array.now.kind bytes.items
        ≡ corrected_samples rule.now array.now.kind dark.now.samples array.now.samples) }
{
    let input = samples_in(array);
    let dark = samples_in(dark);
    let mut bytes = vec![in alloc; 0; input.bytes.len()]?;
    correct_samples(rule, &dark, &input, &mut bytes);
    Ok(bytes)
}

/// The array with each sample corrected by the dark array's sample at its place. All but the samples stays.
///
/// # Errors
///
/// Only for want of memory.
pub fn correct(
    alloc: Global,
    rule: &CorrectRule,
    dark: &NdArray,
    array: &NdArray,
) -> Result<NdArray, OutOfMemory>
    requires rule { IsCorrectRule rule.now }
    requires sizes { sizes_of dark.now.dims ≡ sizes_of array.now.dims }
    ensures { IfOk result (λ a. a ≡ corrected rule.now dark.now array.now) }
{
    let bytes = corrected_bytes(alloc, rule, dark, array)?;
    let dims = array.dims().to_vec(alloc)?;
    let head = same_head(array.head())?;
    let Ok(corrected) = NdArray::new(alloc, head, array.kind(), dims, bytes) else {
        unreachable!()
    };
    Ok(corrected)
}
