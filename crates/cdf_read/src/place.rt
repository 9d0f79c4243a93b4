//! Where the records and the values of a file stand.

ghost use Rattle.std.specs.Prelude.{◌≡◌, ◌<◌, ◌≤◌, ◌↔◌, length, slice_get, Some, All, IsTrue};
ghost use Rattle.cdf_read.specs.declared.head.HeadVar.{HeadVar};
ghost use Rattle.cdf_read.specs.Grammar.{IsOfFile};
ghost use Rattle.cdf_read.specs.HeaderReading.{short_var};
ghost use Rattle.cdf_read.specs.Places.{value_count, var_size, record_vars, record_size, first_record, record_count, values_end, place_of_value, HasValue};

use crate::size::{is_in_records, length_of, size_of_value, size_of_var};
use crate::word::STREAMING;
use crate::{HeadDim, HeadVar, Header};

/// The place of the first record, or the file's end where that comes first.
fn first_record(total: u64, dims: &[HeadDim], vars: &[HeadVar]) -> u64
    ensures { result ≡ first_record total (record_vars dims.now vars.now) }
{
    vars.iter()
        .filter(|var| is_in_records(dims, var))
        .fold(total, |least, var| least.min(var.begin))
}

/// How many records a file of so many bytes has.
pub(crate) fn count_of_records(
    total: u64,
    numrecs: u32,
    recsize: u64,
    dims: &[HeadDim],
    vars: &[HeadVar],
) -> u64
    requires { recsize ≡ record_size dims.now vars.now }
    ensures { result ≡ record_count total numrecs dims.now vars.now }
{
    if numrecs != STREAMING {
        return u64::from(numrecs);
    }
    if recsize == 0 {
        return 0;
    }
    total.saturating_sub(first_record(total, dims, vars)) / recsize
}

/// The place after the last value of the variable, and 0 where it has none.
fn values_end(header: &Header, var: &HeadVar) -> u128
    requires { var_size header.now.dims var.now ≤ 4294967296 }
    ensures { result ≡ values_end header.now var.now }
{
    let dims = header.dims.as_slice();
    let end = u128::from(var.begin) + u128::from(size_of_var(dims, var));
    if !is_in_records(dims, var) {
        return end;
    }
    if header.records == 0 {
        return 0;
    }
    end + u128::from(header.records - 1) * u128::from(header.recsize)
}

/// The first variable whose last value ends after a file of so many bytes.
pub(crate) fn short_var(total: usize, header: &Header) -> Option<u32>
    requires few { length header.now.vars ≤ 2147483647 }
    requires small { All (λ v. var_size header.now.dims v ≤ 4294967296) header.now.vars }
    ensures { result ≡ short_var total header.now }
{
    let mut number = 0;
    for var in header.vars.as_slice() {
        if values_end(header, var) > total as u128 {
            return Some(number);
        }
        number += 1;
    }
    None
}

/// Whether dimensions of these numbers span more than `i` values, the record dimension left out.
fn span_more_than(dims: &[HeadDim], numbers: &[u32], i: u64) -> bool
    ensures { IsTrue result ↔ i < value_count dims.now numbers.now }
{
    let mut count = 1u128;
    for number in numbers {
        if count > u128::from(i) {
            return true;
        }
        count *= u128::from(length_of(dims, *number).max(1));
    }
    count > u128::from(i)
}

/// Whether the variable of this number has a value `i` in record `rec`, as `value_place` requires. For a variable without
/// the record dimension `rec` is not used.
pub fn has_value(header: &Header, var: usize, rec: u64, i: u64) -> bool
    ensures { IsTrue result ↔ HasValue header.now var rec i }
{
    let Some(var) = header.vars.as_slice().get(var) else {
        return false;
    };
    let dims = header.dims.as_slice();
    if is_in_records(dims, var) && header.records <= rec {
        return false;
    }
    span_more_than(dims, var.dims.as_slice(), i)
}

/// The place in the file of value `i` of record `rec` of a variable. For a variable without the record
/// dimension `rec` is not used.
pub fn value_place(header: &Header, var: usize, rec: u64, i: u64) -> u64
    requires header { IsOfFile header.now }
    requires value { HasValue header.now var rec i }
    ensures { (v : HeadVar) → slice_get header.now.vars var ≡ Some v → result ≡ place_of_value header.now v rec i }
{
    let var = &header.vars.as_slice()[var];
    let value = i * u64::from(size_of_value(var.kind));
    if is_in_records(header.dims.as_slice(), var) {
        return var.begin + rec * header.recsize + value;
    }
    var.begin + value
}
