//! Dimensions, attributes and variables of a header. Each function is given the size of the whole file and
//! the bytes that are left of it, and gives what it read with the bytes after that. A list grows with what
//! was read, whatever its count says.

ghost use Rattle.std.specs.Prelude.{◌≡◌, ◌≤◌, ◌<◌, ◌*◌, [], List, length, nat_lt, All, IfOk};
ghost use Rattle.cdf_read.specs.declared.head.HeadAttr.{HeadAttr};
ghost use Rattle.cdf_read.specs.declared.head.HeadVar.{HeadVar};
ghost use Rattle.std.specs.List.{list_all};
ghost use Rattle.cdf_read.specs.HeaderReading.{Gives, dim_at, dims_at, attr_at, attrs_at, dim_number_at, dim_numbers_at, var_at, vars_at, many_at};
ghost use Rattle.cdf_read.specs.Places.{var_size};

use crate::size::{length_of, size_of_value, size_within};
use crate::word::{
    place_of, read_begin, read_kind, read_list_head, read_name, read_number, read_padded, read_word,
};
use crate::{CdfFault, HeadAttr, HeadDim, HeadVar};
use nd_base::{Bytes, Form, Seq};
use std::alloc::Global;

const DIMENSIONS: u32 = 10;

const VARIABLES: u32 = 11;

const ATTRIBUTES: u32 = 12;

/// A dimension after these.
#[tactic(auto, unfolding(crate::specs::HeaderReading::dim_at))]
fn read_dim<'a>(
    alloc: Global,
    total: usize,
    earlier: &[HeadDim],
    rest: &'a [u8],
) -> Result<(HeadDim, &'a [u8]), CdfFault>
    ensures { Gives (λ field. (field.0, field.1.now)) result (dim_at total earlier.now rest.now) }
{
    let (name, rest) = read_name(alloc, total, rest)?;
    let (length, rest) = read_number(total, rest)?;
    if length == 0 && !all_are_fixed(earlier) {
        return Err(CdfFault::TwoRecordDims);
    }
    Ok((HeadDim { name, length }, rest))
}

/// Whether none of these is the record dimension.
fn all_are_fixed(dims: &[HeadDim]) -> bool
    ensures { result ≡ list_all (λ d. nat_lt 0 d.length) dims.now }
{
    dims.iter().all(|dim| dim.length > 0)
}

fn read_so_many_dims(
    alloc: Global,
    total: usize,
    count: u32,
    mut rest: &[u8],
) -> Result<(Vec<HeadDim>, &[u8]), CdfFault>
    ensures { Gives (λ list. (list.0.items, list.1.now)) result (many_at (dim_at total) count [] rest.entry.now) }
{
    let mut dims = Vec::new(alloc);
    for _ in 0..count {
        let (dim, after) = read_dim(alloc, total, &dims, rest)?;
        dims.push(dim)?;
        rest = after;
    }
    Ok((dims, rest))
}

/// The dimension list.
#[tactic(auto, unfolding(crate::specs::HeaderReading::dims_at))]
pub(crate) fn read_dims(
    alloc: Global,
    total: usize,
    rest: &[u8],
) -> Result<(Vec<HeadDim>, &[u8]), CdfFault>
    ensures { Gives (λ list. (list.0.items, list.1.now)) result (dims_at total rest.now) }
{
    let (count, rest) = read_list_head(total, DIMENSIONS, rest)?;
    read_so_many_dims(alloc, total, count, rest)
}

#[tactic(auto, unfolding(crate::specs::HeaderReading::attr_at))]
fn read_attr(alloc: Global, total: usize, rest: &[u8]) -> Result<(HeadAttr, &[u8]), CdfFault>
    ensures { Gives (λ field. (field.0, field.1.now)) result (attr_at total rest.now) }
{
    let (name, rest) = read_name(alloc, total, rest)?;
    let (kind, rest) = read_kind(total, rest)?;
    let (count, rest) = read_number(total, rest)?;
    let size = count as usize * size_of_value(kind) as usize;
    let (values, rest) = read_padded(total, size, rest)?;
    let values = Bytes::new(Vec::from_slice(alloc, values)?);
    Ok((
        HeadAttr {
            name,
            kind,
            count,
            values,
        },
        rest,
    ))
}

fn read_so_many_attrs(
    alloc: Global,
    total: usize,
    count: u32,
    mut rest: &[u8],
) -> Result<(Vec<HeadAttr>, &[u8]), CdfFault>
    ensures { Gives (λ list. (list.0.items, list.1.now)) result (many_at (λ (earlier : List HeadAttr). attr_at total) count [] rest.entry.now) }
{
    let mut attrs = Vec::new(alloc);
    for _ in 0..count {
        let (attr, after) = read_attr(alloc, total, rest)?;
        attrs.push(attr)?;
        rest = after;
    }
    Ok((attrs, rest))
}

/// An attribute list.
#[tactic(auto, unfolding(crate::specs::HeaderReading::attrs_at))]
pub(crate) fn read_attrs(
    alloc: Global,
    total: usize,
    rest: &[u8],
) -> Result<(Vec<HeadAttr>, &[u8]), CdfFault>
    ensures { Gives (λ list. (list.0.items, list.1.now)) result (attrs_at total rest.now) }
{
    let (count, rest) = read_list_head(total, ATTRIBUTES, rest)?;
    read_so_many_attrs(alloc, total, count, rest)
}

/// The number of a dimension of the variable of this number, after these.
#[tactic(auto, unfolding(crate::specs::HeaderReading::dim_number_at))]
fn read_dim_number<'a>(
    total: usize,
    dims: &[HeadDim],
    var: u32,
    earlier: &[u32],
    rest: &'a [u8],
) -> Result<(u32, &'a [u8]), CdfFault>
    ensures { Gives (λ field. (field.0, field.1.now)) result (dim_number_at total dims.now var earlier.now rest.now) }
{
    let at = place_of(total, rest);
    let (number, rest) = read_word(total, rest)?;
    if number as usize >= dims.len() {
        return Err(CdfFault::DimNumber { at });
    }
    if length_of(dims, number) == 0 && !earlier.is_empty() {
        return Err(CdfFault::RecordDimNotFirst { var });
    }
    Ok((number, rest))
}

fn read_so_many_dim_numbers<'a>(
    alloc: Global,
    total: usize,
    dims: &[HeadDim],
    var: u32,
    count: u32,
    mut rest: &'a [u8],
) -> Result<(Vec<u32>, &'a [u8]), CdfFault>
    ensures { Gives (λ list. (list.0.items, list.1.now)) result (many_at (dim_number_at total dims.now var) count [] rest.entry.now) }
{
    let mut numbers = Vec::new(alloc);
    for _ in 0..count {
        let (number, after) = read_dim_number(total, dims, var, &numbers, rest)?;
        numbers.push(number)?;
        rest = after;
    }
    Ok((numbers, rest))
}

/// The rank of a variable, and so many numbers of dimensions.
#[tactic(auto, unfolding(crate::specs::HeaderReading::dim_numbers_at))]
fn read_dim_numbers<'a>(
    alloc: Global,
    total: usize,
    dims: &[HeadDim],
    var: u32,
    rest: &'a [u8],
) -> Result<(Vec<u32>, &'a [u8]), CdfFault>
    ensures { Gives (λ list. (list.0.items, list.1.now)) result (dim_numbers_at total dims.now var rest.now) }
{
    let (rank, rest) = read_number(total, rest)?;
    read_so_many_dim_numbers(alloc, total, dims, var, rank, rest)
}

/// The variable of this number.
#[tactic(auto, unfolding(crate::specs::HeaderReading::var_at))]
fn read_var<'a>(
    alloc: Global,
    form: Form,
    total: usize,
    dims: &[HeadDim],
    var: u32,
    rest: &'a [u8],
) -> Result<(HeadVar, &'a [u8]), CdfFault>
    ensures gives { Gives (λ field. (field.0, field.1.now)) result (var_at form total dims.now var rest.now) }
    ensures small { IfOk result (λ field. var_size dims.now field.0 ≤ 4294967296) }
{
    let (name, rest) = read_name(alloc, total, rest)?;
    let (numbers, rest) = read_dim_numbers(alloc, total, dims, var, rest)?;
    let (attrs, rest) = read_attrs(alloc, total, rest)?;
    let (kind, rest) = read_kind(total, rest)?;
    if size_within(dims, &numbers, kind).is_none() {
        return Err(CdfFault::Overflow { var });
    }
    let (_, rest) = read_word(total, rest)?;
    let (begin, rest) = read_begin(form, total, rest)?;
    let dims = Seq::new(numbers);
    let attrs = Seq::new(attrs);
    Ok((
        HeadVar {
            name,
            dims,
            attrs,
            kind,
            begin,
        },
        rest,
    ))
}

fn read_so_many_vars<'a>(
    alloc: Global,
    form: Form,
    total: usize,
    dims: &[HeadDim],
    count: u32,
    mut rest: &'a [u8],
) -> Result<(Vec<HeadVar>, &'a [u8]), CdfFault>
    ensures gives { Gives (λ list. (list.0.items, list.1.now)) result
        (many_at (λ (earlier : List HeadVar). var_at form total dims.now (length earlier)) count [] rest.entry.now) }
    ensures count { IfOk result (λ list. length list.0.items ≡ count) }
    ensures small { IfOk result (λ list. All (λ v. var_size dims.now v ≤ 4294967296) list.0.items) }
{
    let mut vars = Vec::new(alloc);
    for number in 0..count {
        let (var, after) = read_var(alloc, form, total, dims, number, rest)?;
        vars.push(var)?;
        rest = after;
    }
    Ok((vars, rest))
}

/// The variable list.
#[tactic(auto, unfolding(crate::specs::HeaderReading::vars_at))]
pub(crate) fn read_vars<'a>(
    alloc: Global,
    form: Form,
    total: usize,
    dims: &[HeadDim],
    rest: &'a [u8],
) -> Result<(Vec<HeadVar>, &'a [u8]), CdfFault>
    ensures gives { Gives (λ list. (list.0.items, list.1.now)) result (vars_at form total dims.now rest.now) }
    ensures few { IfOk result (λ list. length list.0.items ≤ 2147483647) }
    ensures small { IfOk result (λ list. All (λ v. var_size dims.now v ≤ 4294967296) list.0.items) }
{
    let (count, rest) = read_list_head(total, VARIABLES, rest)?;
    read_so_many_vars(alloc, form, total, dims, count, rest)
}
