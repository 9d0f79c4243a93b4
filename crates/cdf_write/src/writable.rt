//! Tests of what calls require: whether the layout can spell a shape, and whether the attributes of a frame are those of it.

ghost use Rattle.std.specs.Prelude.{◌≡◌, ◌↔◌, length, All, IsTrue};
ghost use Rattle.nd_base.specs.GraphRules.{IsBetween};
ghost use Rattle.cdf_write.specs.Writable.{IsExtra, IsWritable, HasColumns, FitsIn, kind_of};

use cdf_read::size_of_value;
use nd_base::{AttrColumn, AttrKind, AttrValue, Attrs, Extra, FileShape, Name, are_array_dims};

/// The most attributes, extras, values of an extra, and bytes of a text.
const MOST: usize = 2_147_483_647;

/// Whether each attribute has a name of 1 to 1,019 bytes.
fn have_names(attrs: &[AttrColumn]) -> bool
    ensures { IsTrue result ↔ All (λ a. IsBetween 1 1019 (length a.name)) attrs.now }
{
    for attr in attrs {
        let length = attr.name.text().len();
        if length < 1 || length > 1019 {
            return false;
        }
    }
    true
}

/// Whether an extra has a name, an external type and whole values.
fn is_extra(extra: &Extra) -> bool
    ensures { IsTrue result ↔ IsExtra extra.now }
{
    let name = extra.name.text().len();
    let values = extra.values.list().len();
    let size = size_of_value(extra.kind) as usize;
    1 <= name
        && name <= 1024
        && 1 <= extra.kind
        && extra.kind <= 6
        && values % size == 0
        && values / size <= MOST
}

/// Whether each of them is one.
fn are_extras(extras: &[Extra]) -> bool
    ensures { IsTrue result ↔ All IsExtra extras.now }
{
    for extra in extras {
        if !is_extra(extra) {
            return false;
        }
    }
    true
}

/// Whether the layout can spell this shape, as the calls of this crate require.
pub fn is_writable(shape: &FileShape) -> bool
    ensures { IsTrue result ↔ IsWritable shape.now }
{
    let attrs = shape.attrs.as_slice();
    let extras = shape.extras.as_slice();
    are_array_dims(shape.dims.as_slice())
        && 1 <= shape.width
        && shape.width <= 2_147_483_647
        && attrs.len() <= MOST
        && have_names(attrs)
        && extras.len() <= MOST
        && are_extras(extras)
}

/// The kind of a value.
fn kind_of(value: &AttrValue) -> AttrKind
    ensures { result ≡ kind_of value.now }
{
    match value {
        AttrValue::Whole(_) => AttrKind::WholeKind,
        AttrValue::Text(_) => AttrKind::TextKind,
        AttrValue::Bits64(_) => AttrKind::Bits64Kind,
        AttrValue::Bits32(_) => AttrKind::Bits32Kind,
    }
}

/// Whether the value has room in so many bytes, where it is a text.
fn fits_in(width: u32, value: &AttrValue) -> bool
    ensures { IsTrue result ↔ FitsIn width value.now }
{
    match value {
        AttrValue::Text(text) => text.list().len() <= width as usize,
        AttrValue::Whole(_) | AttrValue::Bits64(_) | AttrValue::Bits32(_) => true,
    }
}

/// Whether an attribute of this name and value is the column's, and has room in so many bytes where it is a text.
fn is_in_column(column: &AttrColumn, width: u32, name: &Name, value: &AttrValue) -> bool
    ensures { IsTrue result ↔ ((name.now ≡ column.now.name) × (kind_of value.now ≡ column.now.kind) × FitsIn width value.now) }
{
    name.text() == column.name.text() && kind_of(value) == column.kind && fits_in(width, value)
}

/// Whether these attributes have the names and kinds of the shape's, in its order, and each text has room, as a row requires.
pub fn has_columns(shape: &FileShape, attrs: &Attrs) -> bool
    ensures { IsTrue result ↔ HasColumns shape.now attrs.now }
{
    let columns = shape.attrs.as_slice();
    let (names, values) = (attrs.names(), attrs.values());
    if columns.len() != names.len() {
        return false;
    }
    for (i, column) in columns.iter().enumerate() {
        if !is_in_column(column, shape.width, &names[i], &values[i]) {
            return false;
        }
    }
    true
}
