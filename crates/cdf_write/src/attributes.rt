//! The global attributes of a header.

ghost use Rattle.std.specs.Prelude.{◌≡◌, ◌<◌, ◌^◌, ◌++◌, length, map, All, OnOk};
ghost use Rattle.std.specs.List.{concat, flat_map};
ghost use Rattle.std.specs.Int.{w32, cast_unsigned};
ghost use Rattle.cdf_write.specs.Spelling.{int_attribute, element_list};
ghost use Rattle.cdf_write.specs.Columns.{type_number};
ghost use Rattle.cdf_write.specs.DimParts.{part_of};
ghost use Rattle.cdf_write.specs.Layout.{fixed_attributes, attributes, extra_attribute};
ghost use Rattle.cdf_write.specs.Writable.{IsWritable, IsExtra};

use crate::spelling::{DOUBLE, INT, push_attribute, push_int, push_name, push_word};
use cdf_read::size_of_value;
use nd_base::{Dim, Extra, FileShape, SampleType};
use std::alloc::AllocError;

/// The tag of the list of attributes.
const ATTRIBUTES: u32 = 12;

/// The file version 3.0 as the bytes of a floating-point number.
const VERSION: [u8; 8] = [0x40, 0x08, 0, 0, 0, 0, 0, 0];

/// Which number of each dimension an attribute lists.
#[derive(Clone, Copy)]
pub enum DimPart {
    Size,
    Offset,
    Binning,
    Reverse,
}

impl DimPart {
    /// The number's bits.
    fn bits(self, dim: &Dim) -> u32
        ensures { result ≡ cast_unsigned w32 (part_of self dim.now) }
    {
        match self {
            DimPart::Size => dim.size,
            DimPart::Offset => dim.offset.cast_unsigned(),
            DimPart::Binning => dim.binning.cast_unsigned(),
            DimPart::Reverse => u32::from(dim.reverse),
        }
    }
}

/// The number of a sample type in the attribute `dataType`.
fn data_type(kind: SampleType) -> u32
    ensures { result ≡ type_number kind }
{
    match kind {
        SampleType::Int8 => 0,
        SampleType::UInt8 => 1,
        SampleType::Int16 => 2,
        SampleType::UInt16 => 3,
        SampleType::Int32 => 4,
        SampleType::UInt32 => 5,
    }
}

/// Appends an attribute that lists a number of each dimension, from dimension 0 on.
fn push_dim_part(
    out: &mut Vec<u8>,
    name: &[u8],
    dims: &[Dim],
    part: DimPart,
) -> Result<(), AllocError>
    requires name { length name.now < 2 ^ 32 }
    requires rank { length dims.now < 2 ^ 32 }
    ensures { OnOk result (out.new.items ≡ out.old.items ++ int_attribute name.now (map (part_of part) dims.now)) }
{
    push_name(out, b"", name)?;
    push_word(out, INT)?;
    push_word(out, dims.len() as u32)?;
    for dim in dims {
        push_word(out, part.bits(dim))?;
    }
    Ok(())
}

/// Appends the attributes that every file has.
fn push_fixed(out: &mut Vec<u8>, shape: &FileShape) -> Result<(), AllocError>
    requires { length shape.now.dims < 2 ^ 32 }
    ensures { OnOk result (out.new.items ≡ out.old.items ++ concat (fixed_attributes shape.now)) }
{
    let dims = shape.dims.as_slice();
    push_int(out, b"dataType", data_type(shape.kind))?;
    push_attribute(out, b"NDNetCDFFileVersion", DOUBLE, 1, &VERSION)?;
    push_int(out, b"numArrayDims", dims.len() as u32)?;
    push_dim_part(out, b"dimSize", dims, DimPart::Size)?;
    push_dim_part(out, b"dimOffset", dims, DimPart::Offset)?;
    push_dim_part(out, b"dimBinning", dims, DimPart::Binning)?;
    push_dim_part(out, b"dimReverse", dims, DimPart::Reverse)
}

/// Appends the attributes that are handed on.
fn push_extras(out: &mut Vec<u8>, extras: &[Extra]) -> Result<(), AllocError>
    requires { All IsExtra extras.now }
    ensures { OnOk result (out.new.items ≡ out.old.items ++ flat_map extra_attribute extras.now) }
{
    for extra in extras {
        let values = extra.values.list();
        let count = values.len() / size_of_value(extra.kind) as usize;
        push_attribute(
            out,
            extra.name.text().as_bytes(),
            extra.kind,
            count as u32,
            values,
        )?;
    }
    Ok(())
}

/// Appends the list of global attributes.
pub fn push_attributes(out: &mut Vec<u8>, shape: &FileShape) -> Result<(), AllocError>
    requires { IsWritable shape.now }
    ensures { OnOk result (out.new.items ≡ out.old.items ++ element_list 12 (attributes shape.now)) }
{
    let extras = shape.extras.as_slice();
    push_word(out, ATTRIBUTES)?;
    push_word(out, extras.len() as u32 + 7)?;
    push_fixed(out, shape)?;
    push_extras(out, extras)
}
