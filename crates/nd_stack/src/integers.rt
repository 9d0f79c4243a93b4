//! Numbers out of bytes, the most significant first, and numbers of global attributes.

ghost use Rattle.std.specs.Prelude.{◌≡◌, ◌+◌, ◌≤◌, ◌<◌, ◌*◌, length, slice_get, Some, option_copied};
ghost use Rattle.std.specs.Int.{w32, w64, from_be_bytes};
ghost use Rattle.std.specs.List.{find};
ghost use Rattle.std.specs.Str.{bytes_eq};
ghost use Rattle.nd_base.specs.declared.array.SampleType.TheVariants.{Int8, Int16, Int32};
ghost use Rattle.nd_base.specs.Samples.{number, samples_of};
ghost use Rattle.nd_stack.specs.SampleTypes.{int_bytes, dim_value};

use cdf_read::{HeadAttr, Header};
use nd_base::{pair_at, word_at};

/// The number of one byte.
pub(crate) fn byte_of(bytes: &[u8]) -> i32
    requires { length bytes.now ≡ 1 }
    ensures { result ≡ number Int8 bytes.now }
{
    i32::from(bytes[0].cast_signed())
}

/// The number of two bytes.
pub(crate) fn short_of(bytes: &[u8]) -> i32
    requires { length bytes.now ≡ 2 }
    ensures { result ≡ number Int16 bytes.now }
{
    i32::from(pair_at(bytes, 0).cast_signed())
}

/// Four bytes as an unsigned number.
pub(crate) fn word_of(bytes: &[u8]) -> u32
    requires { length bytes.now ≡ 4 }
    ensures { result ≡ from_be_bytes w32 bytes.now }
{
    word_at(bytes, 0)
}

/// The number of four bytes.
pub(crate) fn int_of(bytes: &[u8]) -> i32
    requires { length bytes.now ≡ 4 }
    ensures { result ≡ number Int32 bytes.now }
{
    word_of(bytes).cast_signed()
}

/// Eight bytes as an unsigned number.
pub(crate) fn double_of(bytes: &[u8]) -> u64
    requires { length bytes.now ≡ 8 }
    ensures { result ≡ from_be_bytes w64 bytes.now }
{
    u64::from_be_bytes([
        bytes[0], bytes[1], bytes[2], bytes[3], bytes[4], bytes[5], bytes[6], bytes[7],
    ])
}

/// The first global attribute of this name.
fn attribute_of<'a>(header: &'a Header, name: &str) -> Option<&'a HeadAttr>
    ensures { option_copied result ≡ find (λ a. bytes_eq a.name name.now) header.now.gatts }
{
    header
        .gatts
        .as_slice()
        .iter()
        .find(|attr| attr.name.text() == name)
}

/// The value type int.
const INT: u32 = 4;

/// The bytes of the values of the first global attribute of this name, where it is there and has type int.
pub(crate) fn int_bytes<'a>(header: &'a Header, name: &str) -> &'a [u8]
    ensures { result.now ≡ int_bytes header.now name.now }
{
    match attribute_of(header, name) {
        Some(attr) if attr.kind == INT => attr.values.list(),
        _ => &[],
    }
}

/// Value `i` of these ints.
pub(crate) fn int_at(bytes: &[u8], i: usize) -> i32
    requires { i * 4 + 4 ≤ length bytes.now }
    ensures { slice_get (samples_of Int32 bytes.now) i ≡ Some result }
{
    int_of(&bytes[i * 4..i * 4 + 4])
}

/// Value `i` of the global attribute of this name, where it has type int and so many values; else `other`.
pub(crate) fn dim_value(header: &Header, name: &str, count: usize, i: usize, other: i32) -> i32
    requires { i < count }
    ensures { result ≡ dim_value header.now name.now count i other }
{
    let bytes = int_bytes(header, name);
    if bytes.len() / 4 != count {
        return other;
    }
    int_at(bytes, i)
}
