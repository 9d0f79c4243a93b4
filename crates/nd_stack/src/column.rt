//! Variables by name, and where a variable's values for each frame stand.

ghost use Rattle.std.specs.Prelude.{◌≡◌, ◌+◌, ◌*◌, ◌≤◌, length, option_copied};
ghost use Rattle.cdf_read.specs.Places.{dim_length, value_count, var_size, is_record_var};
ghost use Rattle.nd_stack.specs.Columns.{variable_of, extent, frame_count, frame_values, column_of, cell};

use cdf_read::{HeadDim, HeadVar, Header, size_of_value};

/// Where a variable's values for the frames stand: those for frame k are `size` bytes from place
/// `first + k * step` on.
#[derive(Clone, Copy, Debug, PartialEq, Eq)]
pub(crate) struct Column {
    pub(crate) first: u64,
    pub(crate) step: u64,
    pub(crate) size: u64,
}

/// The first variable of this name.
pub(crate) fn variable_of<'a>(header: &'a Header, name: &str) -> Option<&'a HeadVar>
    ensures { option_copied result ≡ variable_of header.now name.now }
{
    header
        .vars
        .as_slice()
        .iter()
        .find(|var| var.name.text() == name)
}

/// The length of the dimension of this number, and 0 where there is none.
pub(crate) fn length_of(dims: &[HeadDim], number: u32) -> u32
    ensures { result ≡ dim_length dims.now number }
{
    dims.get(number as usize).map_or(0, |dim| dim.length)
}

/// Whether the variable's first dimension is the record dimension.
fn is_in_records(dims: &[HeadDim], var: &HeadVar) -> bool
    ensures { result ≡ is_record_var dims.now var.now }
{
    match var.dims.as_slice() {
        [] => false,
        [first, ..] => length_of(dims, *first) == 0,
    }
}

/// How many elements the dimension of this number has.
fn extent(header: &Header, number: u32) -> u64
    ensures { result ≡ extent header.now number }
{
    let length = length_of(header.dims.as_slice(), number);
    if length == 0 {
        return header.records;
    }
    u64::from(length)
}

/// How many frames the variable has values for.
pub(crate) fn frame_count(header: &Header, var: &HeadVar) -> u64
    ensures { result ≡ frame_count header.now var.now }
{
    match var.dims.as_slice().first() {
        None => 0,
        Some(number) => extent(header, *number),
    }
}

/// How many values these dimensions span, without the record dimension.
fn count_of(dims: &[HeadDim], numbers: &[u32]) -> u64
    requires { value_count dims.now numbers.now ≤ 4294967296 }
    ensures { result ≡ value_count dims.now numbers.now }
{
    let mut count = 1;
    for number in numbers {
        count *= u64::from(length_of(dims, *number).max(1));
    }
    count
}

/// How many values the variable has for each frame.
pub(crate) fn frame_values(header: &Header, var: &HeadVar) -> u64
    requires { var_size header.now.dims var.now ≤ 4294967296 }
    ensures { result ≡ frame_values header.now var.now }
{
    match var.dims.as_slice().split_first() {
        None => 1,
        Some((_, others)) => count_of(header.dims.as_slice(), others),
    }
}

/// Where the variable's values for the frames stand.
pub(crate) fn column_of(header: &Header, var: &HeadVar) -> Column
    requires { var_size header.now.dims var.now ≤ 4294967296 }
    ensures { result ≡ column_of header.now var.now }
{
    let size = frame_values(header, var) * u64::from(size_of_value(var.kind));
    let step = if is_in_records(header.dims.as_slice(), var) {
        header.recsize
    } else {
        size
    };
    Column {
        first: var.begin,
        step,
        size,
    }
}

/// The bytes for this frame.
pub(crate) fn cell(bytes: &[u8], column: Column, frame: u64) -> &[u8]
    requires { column.first + frame * column.step + column.size ≤ length bytes.now }
    ensures { result.now ≡ cell bytes.now column frame }
{
    let place = (column.first + frame * column.step) as usize;
    &bytes[place..place + column.size as usize]
}
