//! How the parts of a file are spelled: words of four bytes, the most significant first, and names and
//! values padded to whole words.

ghost use Rattle.std.specs.Prelude.{◌≡◌, ◌+◌, ◌<◌, ◌≤◌, ◌^◌, [], ◌∷◌, ◌++◌, pos, length, OnOk, OnErr, IfOk, replicate};
ghost use Rattle.std.specs.List.{flat_map};
ghost use Rattle.nd_base.specs.Forms.{longest_of};
ghost use Rattle.cdf_write.specs.Spelling.{word, double_word, gap, padded, padded_length, name_field, dimension, attribute, int_attribute};
ghost use Rattle.cdf_write.specs.Layout.{offset, variable};

use nd_base::Form;
use std::alloc::AllocError;

/// The external type of text and of single bytes as characters.
pub const CHAR: u32 = 2;
/// The external type of whole numbers of four bytes.
pub const INT: u32 = 4;
/// The external type of floating-point numbers of four bytes.
pub const FLOAT: u32 = 5;
/// The external type of floating-point numbers of eight bytes.
pub const DOUBLE: u32 = 6;

/// How many bytes are missing to a whole word.
pub fn missing(bytes: usize) -> usize
    ensures value { result ≡ gap bytes }
    ensures few { result < 4 }
{
    (4 - bytes % 4) % 4
}

/// Appends zero bytes.
pub fn push_zeros(out: &mut Vec<u8>, count: usize) -> Result<(), AllocError>
    ensures bytes { OnOk result (out.new.items ≡ out.old.items ++ replicate count 0) }
    ensures kept { OnErr result (out.new.items ≡ out.old.items) }
{
    let length = out.len().checked_add(count).ok_or(AllocError)?;
    out.resize(length, 0)
}

/// Appends a word.
pub fn push_word(out: &mut Vec<u8>, n: u32) -> Result<(), AllocError>
    ensures bytes { OnOk result (out.new.items ≡ out.old.items ++ word n) }
    ensures kept { OnErr result (out.new.items ≡ out.old.items) }
{
    out.extend_from_slice(&n.to_be_bytes())
}

/// Appends a number of eight bytes.
pub fn push_double_word(out: &mut Vec<u8>, n: u64) -> Result<(), AllocError>
    ensures bytes { OnOk result (out.new.items ≡ out.old.items ++ double_word n) }
    ensures kept { OnErr result (out.new.items ≡ out.old.items) }
{
    out.extend_from_slice(&n.to_be_bytes())
}

/// Appends a place in a file of this form.
fn push_offset(out: &mut Vec<u8>, form: Form, place: u64) -> Result<(), AllocError>
    requires { place ≤ longest_of form }
    ensures { OnOk result (out.new.items ≡ out.old.items ++ offset form place) }
{
    match form {
        Form::Classic => push_word(out, place as u32),
        Form::Wide => push_double_word(out, place),
    }
}

/// Appends a word for each number.
pub fn push_words(out: &mut Vec<u8>, numbers: &[u32]) -> Result<(), AllocError>
    ensures { OnOk result (out.new.items ≡ out.old.items ++ flat_map word numbers.now) }
{
    for n in numbers {
        push_word(out, *n)?;
    }
    Ok(())
}

/// Appends bytes and zeros up to a whole word.
pub fn push_padded(out: &mut Vec<u8>, bytes: &[u8]) -> Result<(), AllocError>
    ensures { OnOk result (out.new.items ≡ out.old.items ++ padded bytes.now) }
{
    out.extend_from_slice(bytes)?;
    push_zeros(out, missing(bytes.len()))
}

/// Appends a name in two pieces.
pub fn push_name(out: &mut Vec<u8>, prefix: &[u8], name: &[u8]) -> Result<(), AllocError>
    requires { length prefix.now + length name.now < 2 ^ 32 }
    ensures { OnOk result (out.new.items ≡ out.old.items ++ name_field (prefix.now ++ name.now)) }
{
    let length = prefix.len() + name.len();
    push_word(out, length as u32)?;
    out.extend_from_slice(prefix)?;
    out.extend_from_slice(name)?;
    push_zeros(out, missing(length))
}

/// Appends a dimension.
pub fn push_dimension(out: &mut Vec<u8>, name: &[u8], size: u32) -> Result<(), AllocError>
    requires { length name.now < 2 ^ 32 }
    ensures { OnOk result (out.new.items ≡ out.old.items ++ dimension name.now size) }
{
    push_name(out, b"", name)?;
    push_word(out, size)
}

/// Appends an attribute: its name, external type, number of values, and values.
pub fn push_attribute(
    out: &mut Vec<u8>,
    name: &[u8],
    kind: u32,
    count: u32,
    values: &[u8],
) -> Result<(), AllocError>
    requires { length name.now < 2 ^ 32 }
    ensures { OnOk result (out.new.items ≡ out.old.items ++ attribute name.now kind count values.now) }
{
    push_name(out, b"", name)?;
    push_word(out, kind)?;
    push_word(out, count)?;
    push_padded(out, values)
}

/// Appends an attribute with one whole number.
pub fn push_int(out: &mut Vec<u8>, name: &[u8], value: u32) -> Result<(), AllocError>
    requires { length name.now < 2 ^ 32 }
    ensures { OnOk result (out.new.items ≡ out.old.items ++ int_attribute name.now (pos value ∷ [])) }
{
    push_attribute(out, name, INT, 1, &value.to_be_bytes())
}

/// A variable: its name in two pieces, the numbers of its dimensions (slowest first), its external type, and
/// the bytes of its values in one record, without padding.
#[derive(Drop)]
pub struct Variable<'a> {
    pub prefix: &'a [u8],
    pub name: &'a [u8],
    pub dims: &'a [u32],
    pub kind: u32,
    pub size: u32,
}

/// Appends a variable without attributes, and answers where the values of the next one begin.
pub fn push_variable(
    out: &mut Vec<u8>,
    form: Form,
    v: &Variable<'_>,
    begin: u64,
) -> Result<u64, AllocError>
    requires name { length v.now.prefix.now + length v.now.name.now < 2 ^ 32 }
    requires rank { length v.now.dims.now < 2 ^ 32 }
    requires size { padded_length v.now.size < 2 ^ 32 }
    requires end { begin + padded_length v.now.size ≤ longest_of form }
    ensures bytes { OnOk result (out.new.items ≡ out.old.items
        ++ variable form (record { name = v.now.prefix.now ++ v.now.name.now; dims = v.now.dims.now; kind = v.now.kind; size = v.now.size }) begin) }
    ensures next { IfOk result (λ next. next ≡ begin + padded_length v.now.size) }
{
    let size = v.size + missing(v.size as usize) as u32;
    push_name(out, v.prefix, v.name)?;
    push_word(out, v.dims.len() as u32)?;
    push_words(out, v.dims)?;
    out.extend_from_slice(&[0; 8])?;
    push_word(out, v.kind)?;
    push_word(out, size)?;
    push_offset(out, form, begin)?;
    Ok(begin + u64::from(size))
}
