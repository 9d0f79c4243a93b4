//! Headers.

ghost use Rattle.std.specs.Prelude.{◌≡◌, ◌+◌, ◌≤◌, ◌++◌, length, map, OnOk, IfOk, IfErr};
ghost use Rattle.std.specs.Option.{ForSome};
ghost use Rattle.std.specs.List.{concat};
ghost use Rattle.nd_base.specs.Forms.{longest_of};
ghost use Rattle.cdf_write.specs.declared.header.TooLarge.TheVariants.{OutOfMemory};
ghost use Rattle.cdf_write.specs.Spelling.{element_list};
ghost use Rattle.cdf_write.specs.Layout.{version, record_count, slowest_first, size_dimensions, dimensions, header};
ghost use Rattle.cdf_write.specs.Lengths.{length_of, IsRefusal};
ghost use Rattle.cdf_write.specs.Writable.{IsWritable};

use crate::attributes::push_attributes;
use crate::lengths::{file_length, header_size};
use crate::spelling::{push_dimension, push_word};
use crate::variables::push_variables;
use nd_base::{Dim, FileShape, Form};
use std::alloc::{AllocError, Global};
use thiserror::Error;

/// The number of records of a file whose records are counted by its length.
const STREAMING: u32 = 0xffff_ffff;

/// The tag of the list of dimensions.
const DIMENSIONS: u32 = 10;

/// Why no header is made.
#[derive(Clone, Copy, Debug, PartialEq, Eq, Error)]
pub enum TooLarge {
    /// The whole file would have so many bytes, more than 2,147,483,647 in form `Classic` or 8,589,934,592 in
    /// form `Wide`.
    #[error("the file would have {bytes} bytes")]
    FileTooLarge { bytes: u128 },
    #[error("out of memory")]
    OutOfMemory,
}

impl From<AllocError> for TooLarge {
    ghost from_gives = { λ _ r. r ≡ OutOfMemory };

    fn from(_: AllocError) -> Self {
        TooLarge::OutOfMemory
    }
}

/// The version of the format, which is the last byte of the magic.
fn version_of(form: Form) -> u8
    ensures { result ≡ version form }
{
    match form {
        Form::Classic => 1,
        Form::Wide => 2,
    }
}

/// Appends the number of records, or the mark for a number that isn't known.
fn push_record_count(out: &mut Vec<u8>, numrecs: Option<u32>) -> Result<(), AllocError>
    ensures { OnOk result (out.new.items ≡ out.old.items ++ record_count numrecs) }
{
    match numrecs {
        Some(n) => push_word(out, n),
        None => push_word(out, STREAMING),
    }
}

/// Appends the dimensions dim0, dim1 and so on, the slowest first.
fn push_sizes(out: &mut Vec<u8>, dims: &[Dim]) -> Result<(), AllocError>
    requires { length dims.now ≤ 10 }
    ensures { OnOk result (out.new.items ≡ out.old.items ++ concat (size_dimensions 0 (slowest_first (map (λ d. d.size) dims.now)))) }
{
    for i in 0..dims.len() {
        let name = [b'd', b'i', b'm', b'0' + i as u8];
        let size = dims[dims.len() - 1 - i].size;
        push_dimension(out, &name, size)?;
    }
    Ok(())
}

/// Appends the list of dimensions.
fn push_dimensions(out: &mut Vec<u8>, shape: &FileShape) -> Result<(), AllocError>
    requires { length shape.now.dims ≤ 10 }
    ensures { OnOk result (out.new.items ≡ out.old.items ++ element_list 10 (dimensions shape.now)) }
{
    let dims = shape.dims.as_slice();
    push_word(out, DIMENSIONS)?;
    push_word(out, dims.len() as u32 + 2)?;
    push_dimension(out, b"numArrays", 0)?;
    push_sizes(out, dims)?;
    push_dimension(out, b"attrStringSize", shape.width)
}

/// The header of a file of this shape with `numrecs` records, or None for a number that isn't known. The file
/// is to have at most `room` rows.
///
/// # Errors
///
/// `FileTooLarge` where a file of `room` rows is longer than 2,147,483,647 bytes in form `Classic` or
/// 8,589,934,592 in form `Wide`, else want of memory.
pub fn header_bytes(
    alloc: Global,
    shape: &FileShape,
    numrecs: Option<u32>,
    room: u64,
) -> Result<Vec<u8>, TooLarge>
    requires writable { IsWritable shape.now }
    requires room { 1 ≤ room }
    requires numrecs { ForSome numrecs (λ n. n ≤ room) }
    ensures bytes { IfOk result (λ v. v.items ≡ header shape.now numrecs) }
    ensures within { OnOk result (length_of shape.now room ≤ longest_of shape.now.form) }
    ensures refused { IfErr result (IsRefusal shape.now.form (length_of shape.now room)) }
{
    let bytes = file_length(shape, room);
    if bytes > u128::from(shape.form.longest()) {
        return Err(TooLarge::FileTooLarge { bytes });
    }
    let begin = header_size(shape, shape.form, shape.dims.as_slice());
    let mut out = Vec::with_capacity(alloc, begin as usize)?;
    out.extend_from_slice(&[b'C', b'D', b'F', version_of(shape.form)])?;
    push_record_count(&mut out, numrecs)?;
    push_dimensions(&mut out, shape)?;
    push_attributes(&mut out, shape)?;
    push_variables(&mut out, shape, begin as u64)?;
    Ok(out)
}
