//! Sizes of values, of variables and of records.

ghost use Rattle.std.specs.Prelude.{◌≡◌, ◌<◌, ◌≤◌, length, nat_le, All, if◌then◌else◌, IfSome, IfNone};
ghost use Rattle.std.specs.List.{list_all};
ghost use Rattle.cdf_read.specs.Places.{value_size, dim_length, size_of, var_size, is_record_var, record_vars, is_unpadded, stored_size, record_size};

use crate::field::padded_to_word;
use crate::{HeadDim, HeadVar};

/// The most bytes of a variable, or of one record of it.
pub(crate) const LARGEST: u64 = 4_294_967_296;

/// The bytes of one value of the type of this number.
pub fn size_of_value(kind: u32) -> u32
    ensures value { result ≡ value_size kind }
    ensures some { 1 ≤ result }
    ensures small { result ≤ 8 }
{
    match kind {
        0..=2 => 1,
        3 => 2,
        6 => 8,
        _ => 4,
    }
}

/// The length of the dimension of this number, and 0 where there is none.
pub(crate) fn length_of(dims: &[HeadDim], number: u32) -> u32
    ensures { result ≡ dim_length dims.now number }
{
    dims.get(number as usize).map_or(0, |dim| dim.length)
}

/// The bytes of a variable of these dimensions, or of one record of it; None where they exceed `LARGEST`.
pub(crate) fn size_within(dims: &[HeadDim], numbers: &[u32], kind: u32) -> Option<u64>
    ensures some { IfSome result (λ size. (size ≡ size_of dims.now numbers.now kind) × (size ≤ 4294967296)) }
    ensures none { IfNone result (4294967296 < size_of dims.now numbers.now kind) }
{
    let mut size = u64::from(size_of_value(kind));
    for number in numbers {
        size *= u64::from(length_of(dims, *number).max(1));
        if size > LARGEST {
            return None;
        }
    }
    Some(size)
}

/// The bytes of a variable, or of one record of it.
pub(crate) fn size_of_var(dims: &[HeadDim], var: &HeadVar) -> u64
    requires { var_size dims.now var.now ≤ 4294967296 }
    ensures { result ≡ var_size dims.now var.now }
{
    let Some(size) = size_within(dims, var.dims.as_slice(), var.kind) else {
        unreachable!()
    };
    size
}

/// Whether the variable has values in each record.
pub(crate) fn is_in_records(dims: &[HeadDim], var: &HeadVar) -> bool
    ensures { result ≡ is_record_var dims.now var.now }
{
    match var.dims.as_slice() {
        [] => false,
        [first, ..] => length_of(dims, *first) == 0,
    }
}

/// Whether there is only one record variable, and its type is byte, char or short.
fn is_lone_and_small(dims: &[HeadDim], vars: &[HeadVar]) -> bool
    ensures { result ≡ is_unpadded (record_vars dims.now vars.now) }
{
    count_in_records(dims, vars) == 1 && are_small(dims, vars)
}

/// How many variables have values in each record.
fn count_in_records(dims: &[HeadDim], vars: &[HeadVar]) -> usize
    ensures { result ≡ length (record_vars dims.now vars.now) }
{
    vars.iter().filter(|var| is_in_records(dims, var)).count()
}

/// Whether the type of each record variable is byte, char or short.
fn are_small(dims: &[HeadDim], vars: &[HeadVar]) -> bool
    ensures { result ≡ list_all (λ v. nat_le v.kind 3) (record_vars dims.now vars.now) }
{
    vars.iter()
        .filter(|var| is_in_records(dims, var))
        .all(|var| var.kind <= 3)
}

/// The bytes that a variable takes in each record, and 0 for one that is in no record.
fn stored_size(dims: &[HeadDim], unpadded: bool, var: &HeadVar) -> u64
    requires { var_size dims.now var.now ≤ 4294967296 }
    ensures value { result ≡ (if is_record_var dims.now var.now then stored_size dims.now unpadded var.now else 0) }
    ensures small { result ≤ 4294967296 }
{
    if !is_in_records(dims, var) {
        return 0;
    }
    let size = size_of_var(dims, var);
    if unpadded {
        size
    } else {
        padded_to_word(size as usize) as u64
    }
}

/// The bytes of one record.
pub(crate) fn size_of_record(dims: &[HeadDim], vars: &[HeadVar]) -> u64
    requires few { length vars.now ≤ 2147483647 }
    requires small { All (λ v. var_size dims.now v ≤ 4294967296) vars.now }
    ensures { result ≡ record_size dims.now vars.now }
{
    let unpadded = is_lone_and_small(dims, vars);
    let mut sum = 0;
    for var in vars {
        sum += stored_size(dims, unpadded, var);
    }
    sum
}
