//! What all frames of a file share.

ghost use Rattle.std.specs.Prelude.{◌≡◌, ◌≤◌, ◌<◌, IfOk};
ghost use Rattle.nd_stack.specs.AttrVars.{attr_vars};
ghost use Rattle.nd_stack.specs.FrameShape.{dim_of, dims_of, extra, extras_of, shape_of, width_of};

use crate::attributes::{AttrVar, attr_columns, is_attr_name, width_of};
use crate::column::length_of;
use crate::integers::dim_value;
use cdf_read::{HeadAttr, HeadVar, Header};
use nd_base::{Dim, Extra, FileShape, Form, OutOfMemory, SampleType, Seq};
use std::alloc::Global;

/// Dimension `i` of so many.
fn dim_of(header: &Header, count: usize, i: usize, size: u32) -> Dim
    requires { i < count }
    ensures { result ≡ dim_of header.now count i size }
{
    Dim {
        size,
        offset: dim_value(header, "dimOffset", count, i, 0),
        binning: dim_value(header, "dimBinning", count, i, 1),
        reverse: dim_value(header, "dimReverse", count, i, 0) != 0,
    }
}

/// The dimensions of one frame, the fastest first.
fn dims_of(alloc: Global, header: &Header, var: &HeadVar) -> Result<Vec<Dim>, OutOfMemory>
    ensures { IfOk result (λ dims. dims.items ≡ dims_of header.now var.now) }
{
    let numbers = var.dims.as_slice();
    let count = numbers.len().saturating_sub(1);
    let mut dims = Vec::new(alloc);
    for i in 0..count {
        let size = length_of(header.dims.as_slice(), numbers[count - i]);
        dims.push(dim_of(header, count, i, size))?;
    }
    Ok(dims)
}

/// The global attribute as one that is handed on.
fn extra(attr: &HeadAttr) -> Result<Extra, OutOfMemory>
    ensures { IfOk result (λ e. e ≡ extra attr.now) }
{
    Ok(Extra {
        name: attr.name.clone()?,
        kind: attr.kind,
        values: attr.values.clone()?,
    })
}

/// The global attributes that are handed on.
fn extras_of(alloc: Global, header: &Header) -> Result<Vec<Extra>, OutOfMemory>
    ensures { IfOk result (λ extras. extras.items ≡ extras_of header.now) }
{
    let mut extras = Vec::new(alloc);
    for attr in header.gatts.as_slice() {
        if is_attr_name(attr.name.text()) {
            extras.push(extra(attr)?)?;
        }
    }
    Ok(extras)
}

/// The shape of the frames that this variable has.
pub(crate) fn shape_of(
    alloc: Global,
    header: &Header,
    var: &HeadVar,
    kind: SampleType,
    attrs: &[AttrVar],
) -> Result<FileShape, OutOfMemory>
    requires attrs { attrs.now ≡ attr_vars header.now }
    requires room { width_of attrs.now ≤ 2147483647 }
    ensures { IfOk result (λ shape. shape ≡ shape_of header.now var.now kind) }
{
    Ok(FileShape {
        form: Form::Classic,
        kind,
        dims: Seq::new(dims_of(alloc, header, var)?),
        attrs: Seq::new(attr_columns(alloc, attrs)?),
        width: width_of(attrs) as u32,
        extras: Seq::new(extras_of(alloc, header)?),
    })
}
