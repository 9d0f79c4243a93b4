//! Lengths of files, headers and rows in bytes.

ghost use Rattle.std.specs.Prelude.{◌≡◌, ◌+◌, ◌*◌, ◌<◌, ◌≤◌, ◌^◌, length, All, IsTrue};
ghost use Rattle.std.specs.List.{sum_by};
ghost use Rattle.nd_base.specs.GraphRules.{IsBetween};
ghost use Rattle.nd_base.specs.Samples.{width};
ghost use Rattle.nd_base.specs.Shapes.{has_dimensions, sample_count, most_samples};
ghost use Rattle.cdf_write.specs.Spelling.{padded_length};
ghost use Rattle.cdf_write.specs.Columns.{kind_size};
ghost use Rattle.cdf_write.specs.Layout.{header_length};
ghost use Rattle.cdf_write.specs.Lengths.{row_length, length_of, offset_length, attr_header_length, extra_header_length};
ghost use Rattle.cdf_write.specs.Writable.{IsWritable, IsExtra};

use nd_base::{AttrColumn, AttrKind, Dim, Extra, FileShape, Form, SampleType};

/// The bytes of a header without dimensions, attributes and extras, and without the places of the five
/// variables.
const PLAIN_HEADER: u64 = 456;

/// The header's bytes for each dimension.
const DIMENSION: u64 = 32;

/// The bytes of the four fixed values before the samples in a row.
const PLAIN_ROW: u64 = 20;

/// A length raised to whole words.
fn padded(bytes: u64) -> u64
    requires { bytes < 2 ^ 63 }
    ensures { result ≡ padded_length bytes }
{
    bytes + (4 - bytes % 4) % 4
}

/// The number of samples of these dimensions.
fn samples_of_dims(dims: &[Dim]) -> u64
    requires dims { IsTrue (has_dimensions dims.now) }
    requires few { sample_count dims.now ≤ most_samples }
    ensures { result ≡ sample_count dims.now }
{
    let mut count = 1;
    for dim in dims {
        count *= u64::from(dim.size);
    }
    count
}

/// The bytes of the samples of one frame.
pub fn samples_size(kind: SampleType, dims: &[Dim]) -> u64
    requires dims { IsTrue (has_dimensions dims.now) }
    requires few { sample_count dims.now ≤ most_samples }
    ensures value { result ≡ sample_count dims.now * width kind }
    ensures small { result ≤ 268435456 }
{
    samples_of_dims(dims) * kind.width() as u64
}

/// The bytes of the value of an attribute of this kind, of a text `width` bytes.
fn value_size(kind: AttrKind, width: u32) -> u64
    ensures value { result ≡ kind_size width kind }
    ensures small { result < 2 ^ 32 }
{
    match kind {
        AttrKind::WholeKind | AttrKind::Bits32Kind => 4,
        AttrKind::Bits64Kind => 8,
        AttrKind::TextKind => u64::from(width),
    }
}

/// The bytes of the values of all attributes in one row.
fn values_size(attrs: &[AttrColumn], width: u32) -> u64
    requires { length attrs.now ≤ 2147483647 }
    ensures value { result ≡ sum_by (λ a. padded_length (kind_size width a.kind)) attrs.now }
    ensures small { result < 2 ^ 63 + 2 ^ 62 }
{
    let mut total = 0;
    for attr in attrs {
        total += padded(value_size(attr.kind, width));
    }
    total
}

/// The bytes of a row of this shape with this sample type and these dimensions.
pub fn row_size(shape: &FileShape, kind: SampleType, dims: &[Dim]) -> u64
    requires { IsWritable (record shape.now { kind = kind; dims = dims.now }) }
    ensures value { result ≡ row_length (record shape.now { kind = kind; dims = dims.now }) }
    ensures small { result < 2 ^ 63 + 2 ^ 62 + 2 ^ 30 }
{
    let values = values_size(shape.attrs.as_slice(), shape.width);
    PLAIN_ROW + padded(samples_size(kind, dims)) + values
}

/// The bytes of a place in the header.
fn offset_size(form: Form) -> u64
    ensures value { result ≡ offset_length form }
    ensures small { result ≤ 8 }
{
    match form {
        Form::Classic => 4,
        Form::Wide => 8,
    }
}

/// The header's bytes for the variables of these attributes.
fn attrs_header_size(form: Form, attrs: &[AttrColumn]) -> u64
    requires few { length attrs.now ≤ 2147483647 }
    requires names { All (λ a. IsBetween 1 1019 (length a.name)) attrs.now }
    ensures value { result ≡ sum_by (attr_header_length form) attrs.now }
    ensures small { result < 2 ^ 62 }
{
    let mut total = 0;
    for attr in attrs {
        let dims = match attr.kind {
            AttrKind::TextKind => 8,
            AttrKind::WholeKind | AttrKind::Bits64Kind | AttrKind::Bits32Kind => 4,
        };
        total += 24 + offset_size(form) + dims + padded(5 + attr.name.text().len() as u64);
    }
    total
}

/// The header's bytes for these extras.
fn extras_header_size(extras: &[Extra]) -> u128
    requires few { length extras.now ≤ 2147483647 }
    requires each { All IsExtra extras.now }
    ensures value { result ≡ sum_by extra_header_length extras.now }
    ensures small { result < 2 ^ 96 }
{
    let mut total = 0;
    for extra in extras {
        let name = extra.name.text().len() as u64;
        let values = extra.values.list().len() as u64;
        total += u128::from(12 + padded(name)) + u128::from(padded(values));
    }
    total
}

/// The bytes of a header of this shape in this form with these dimensions.
pub fn header_size(shape: &FileShape, form: Form, dims: &[Dim]) -> u128
    requires { IsWritable (record shape.now { form = form; dims = dims.now }) }
    ensures value { result ≡ header_length (record shape.now { form = form; dims = dims.now }) }
    ensures small { result < 2 ^ 97 }
{
    let fixed = PLAIN_HEADER + 5 * offset_size(form) + DIMENSION * dims.len() as u64;
    let attrs = attrs_header_size(form, shape.attrs.as_slice());
    let extras = extras_header_size(shape.extras.as_slice());
    u128::from(fixed + attrs) + extras
}

/// The length in bytes of a file of this shape with `count` rows. It takes no memory.
pub fn file_length(shape: &FileShape, count: u64) -> u128
    requires { IsWritable shape.now }
    ensures { result ≡ length_of shape.now count }
{
    length_with(shape, shape.form, shape.kind, shape.dims.as_slice(), count)
}

/// The `file_length` of this shape in another form, with another sample type and other dimensions. It takes no
/// memory.
pub fn length_with(
    shape: &FileShape,
    form: Form,
    kind: SampleType,
    dims: &[Dim],
    count: u64,
) -> u128
    requires { IsWritable (record shape.now { form = form; kind = kind; dims = dims.now }) }
    ensures { result ≡ length_of (record shape.now { form = form; kind = kind; dims = dims.now }) count }
{
    let row = u128::from(row_size(shape, kind, dims));
    header_size(shape, form, dims) + u128::from(count) * row
}
