//! The variables of a header.

ghost use Rattle.std.specs.Prelude.{◌≡◌, ◌+◌, ◌<◌, ◌≤◌, ◌^◌, ◌++◌, length, map, OnOk, IfOk};
ghost use Rattle.std.specs.List.{concat, range_with_len};
ghost use Rattle.nd_base.specs.Forms.{longest_of};
ghost use Rattle.nd_base.specs.GraphRules.{IsBetween};
ghost use Rattle.cdf_write.specs.Spelling.{padded_length, element_list};
ghost use Rattle.cdf_write.specs.Columns.{columns, fixed_columns, scalar, attr_column, sample_column, sample_kind};
ghost use Rattle.cdf_write.specs.Layout.{variable, variables};
ghost use Rattle.cdf_write.specs.Lengths.{columns_length, row_length};
ghost use Rattle.cdf_write.specs.Writable.{IsWritable};

use crate::lengths::samples_size;
use crate::spelling::{CHAR, DOUBLE, FLOAT, INT, Variable, push_variable, push_word};
use nd_base::{AttrColumn, AttrKind, FileShape, Form, SampleType};
use std::alloc::AllocError;

/// The tag of the list of variables.
const VARIABLES: u32 = 11;

/// The numbers of the dimensions: numArrays, then dim0 to dim9.
const NUMBERS: [u32; 11] = [0, 1, 2, 3, 4, 5, 6, 7, 8, 9, 10];

/// The numbers of the first dimensions.
fn first_numbers(count: usize) -> &'static [u32]
    requires { count ≤ 11 }
    ensures numbers { result.now ≡ range_with_len 0 count }
    ensures len { length result.now ≡ count }
{
    &NUMBERS[..count]
}

/// The external type of samples.
fn samples_type(kind: SampleType) -> u32
    ensures { result ≡ sample_kind kind }
{
    match kind {
        SampleType::Int8 | SampleType::UInt8 => 1,
        SampleType::Int16 | SampleType::UInt16 => 3,
        SampleType::Int32 | SampleType::UInt32 => 4,
    }
}

/// Appends a variable with one value a record, and answers where the next one's values begin.
fn push_scalar(
    out: &mut Vec<u8>,
    form: Form,
    name: &[u8],
    kind: u32,
    size: u32,
    begin: u64,
) -> Result<u64, AllocError>
    requires name { length name.now < 2 ^ 32 }
    requires size { padded_length size < 2 ^ 32 }
    requires end { begin + padded_length size ≤ longest_of form }
    ensures bytes { OnOk result (out.new.items ≡ out.old.items ++ variable form (scalar name.now kind size) begin) }
    ensures next { IfOk result (λ next. next ≡ begin + padded_length size) }
{
    let variable = Variable {
        prefix: b"",
        name,
        dims: first_numbers(1),
        kind,
        size,
    };
    push_variable(out, form, &variable, begin)
}

/// Appends the variable of the samples, and answers where the next one's values begin.
fn push_samples_variable(
    out: &mut Vec<u8>,
    shape: &FileShape,
    begin: u64,
) -> Result<u64, AllocError>
    requires writable { IsWritable shape.now }
    requires end { begin + padded_length (sample_column shape.now).size ≤ longest_of shape.now.form }
    ensures bytes { OnOk result (out.new.items ≡ out.old.items ++ variable shape.now.form (sample_column shape.now) begin) }
    ensures next { IfOk result (λ next. next ≡ begin + padded_length (sample_column shape.now).size) }
{
    let dims = shape.dims.as_slice();
    let variable = Variable {
        prefix: b"",
        name: b"array_data",
        dims: first_numbers(dims.len() + 1),
        kind: samples_type(shape.kind),
        size: samples_size(shape.kind, dims) as u32,
    };
    push_variable(out, shape.form, &variable, begin)
}

/// Appends the variables that every file has, and answers where the next one's values begin.
fn push_fixed(out: &mut Vec<u8>, shape: &FileShape, begin: u64) -> Result<u64, AllocError>
    requires writable { IsWritable shape.now }
    requires end { begin + columns_length (fixed_columns shape.now) ≤ longest_of shape.now.form }
    ensures bytes { OnOk result (out.new.items ≡ out.old.items ++ concat (variables shape.now.form begin (fixed_columns shape.now))) }
    ensures next { IfOk result (λ next. next ≡ begin + columns_length (fixed_columns shape.now)) }
{
    let form = shape.form;
    let stamp = push_scalar(out, form, b"uniqueId", INT, 4, begin)?;
    let sec = push_scalar(out, form, b"timeStamp", DOUBLE, 8, stamp)?;
    let nsec = push_scalar(out, form, b"epicsTSSec", INT, 4, sec)?;
    let samples = push_scalar(out, form, b"epicsTSNsec", INT, 4, nsec)?;
    push_samples_variable(out, shape, samples)
}

/// Appends the variable of an attribute, and answers where the next one's values begin.
fn push_attr(
    out: &mut Vec<u8>,
    shape: &FileShape,
    attr: &AttrColumn,
    begin: u64,
) -> Result<u64, AllocError>
    requires writable { IsWritable shape.now }
    requires name { IsBetween 1 1019 (length attr.now.name) }
    requires end { begin + padded_length (attr_column shape.now attr.now).size ≤ longest_of shape.now.form }
    ensures bytes { OnOk result (out.new.items ≡ out.old.items ++ variable shape.now.form (attr_column shape.now attr.now) begin) }
    ensures next { IfOk result (λ next. next ≡ begin + padded_length (attr_column shape.now attr.now).size) }
{
    let text_dims = [0, shape.dims.as_slice().len() as u32 + 1];
    let (rank, kind, size) = match attr.kind {
        AttrKind::WholeKind => (1, INT, 4),
        AttrKind::TextKind => (2, CHAR, shape.width),
        AttrKind::Bits64Kind => (1, DOUBLE, 8),
        AttrKind::Bits32Kind => (1, FLOAT, 4),
    };
    let name = attr.name.text().as_bytes();
    let variable = Variable {
        prefix: b"Attr_",
        name,
        dims: &text_dims[..rank],
        kind,
        size,
    };
    push_variable(out, shape.form, &variable, begin)
}

/// Appends the variables of the attributes.
fn push_attrs(out: &mut Vec<u8>, shape: &FileShape, mut begin: u64) -> Result<(), AllocError>
    requires writable { IsWritable shape.now }
    requires end { begin + columns_length (map (attr_column shape.now) shape.now.attrs) ≤ longest_of shape.now.form }
    ensures { OnOk result (out.new.items ≡ out.old.items ++ concat (variables shape.now.form begin (map (attr_column shape.now) shape.now.attrs))) }
{
    for attr in shape.attrs.as_slice() {
        begin = push_attr(out, shape, attr, begin)?;
    }
    Ok(())
}

/// Appends the list of variables, of which the first one's values begin at `begin`.
pub fn push_variables(out: &mut Vec<u8>, shape: &FileShape, begin: u64) -> Result<(), AllocError>
    requires writable { IsWritable shape.now }
    requires end { begin + row_length shape.now ≤ longest_of shape.now.form }
    ensures { OnOk result (out.new.items ≡ out.old.items ++ element_list 11 (variables shape.now.form begin (columns shape.now))) }
{
    push_word(out, VARIABLES)?;
    push_word(out, shape.attrs.as_slice().len() as u32 + 5)?;
    let begin = push_fixed(out, shape, begin)?;
    push_attrs(out, shape, begin)
}
