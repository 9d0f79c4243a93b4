//! The small fields of a header. Each function is given the size of the whole file and the bytes that are
//! left of it, and gives what it read with the bytes after that.

ghost use Rattle.std.specs.Prelude.{◌≡◌, ◌<◌, ◌^◌, true, false, ◌≤◌, IfOk, IfSome, IfNone};
ghost use Rattle.std.specs.Str.{is_utf8};
ghost use Rattle.cdf_read.specs.Fields.{place};
ghost use Rattle.cdf_read.specs.HeaderReading.{Gives, word_at, number_at, wide_begin_at, begin_at, kind_at, padded_at, name_at, list_head_at, form_of};
ghost use Rattle.cdf_read.specs.HeaderReading.{magic_at, numrecs_at};

use crate::CdfFault;
use crate::field::{self, CLASSIC_MAGIC, WIDE_MAGIC, padded_to_word};
use nd_base::{Form, Name};
use std::alloc::Global;

/// The greatest number of records, count, length, rank or begin of four bytes.
const GREATEST: u32 = 2_147_483_647;

/// The greatest begin of eight bytes.
const GREATEST_WIDE: u64 = 9_223_372_036_854_775_807;

/// The most bytes of a name.
const LONGEST_NAME: u32 = 1024;

/// numrecs of a file whose records are to be counted.
pub(crate) const STREAMING: u32 = 0xffff_ffff;

/// The place of what is left of a file of so many bytes.
pub(crate) fn place_of(total: usize, rest: &[u8]) -> u64
    ensures { result ≡ place total rest.now }
{
    total.saturating_sub(rest.len()) as u64
}

pub(crate) fn read_word(total: usize, rest: &[u8]) -> Result<(u32, &[u8]), CdfFault>
    ensures { Gives (λ field. (field.0, field.1.now)) result (word_at total rest.now) }
{
    let at = place_of(total, rest);
    field::read_word(rest).ok_or(CdfFault::Short { at })
}

/// A word that is at most `GREATEST`.
#[tactic(auto, unfolding(crate::specs::HeaderReading::number_at))]
pub(crate) fn read_number(total: usize, rest: &[u8]) -> Result<(u32, &[u8]), CdfFault>
    ensures { Gives (λ field. (field.0, field.1.now)) result (number_at total rest.now) }
{
    let at = place_of(total, rest);
    let (number, after) = read_word(total, rest)?;
    if number > GREATEST {
        return Err(CdfFault::Negative { at });
    }
    Ok((number, after))
}

/// A begin of eight bytes, which is at most `GREATEST_WIDE`.
#[tactic(auto, unfolding(crate::specs::HeaderReading::wide_begin_at))]
fn read_wide_begin(total: usize, rest: &[u8]) -> Result<(u64, &[u8]), CdfFault>
    ensures { Gives (λ field. (field.0, field.1.now)) result (wide_begin_at total rest.now) }
{
    let at = place_of(total, rest);
    let (begin, after) = field::read_double_word(rest).ok_or(CdfFault::Short { at })?;
    if begin > GREATEST_WIDE {
        return Err(CdfFault::Negative { at });
    }
    Ok((begin, after))
}

/// A begin in a file of this form.
pub(crate) fn read_begin(form: Form, total: usize, rest: &[u8]) -> Result<(u64, &[u8]), CdfFault>
    ensures { Gives (λ field. (field.0, field.1.now)) result (begin_at form total rest.now) }
{
    match form {
        Form::Classic => {
            let (begin, rest) = read_number(total, rest)?;
            Ok((u64::from(begin), rest))
        }
        Form::Wide => read_wide_begin(total, rest),
    }
}

/// The number of a value type.
#[tactic(auto, unfolding(crate::specs::HeaderReading::kind_at))]
pub(crate) fn read_kind(total: usize, rest: &[u8]) -> Result<(u32, &[u8]), CdfFault>
    ensures { Gives (λ field. (field.0, field.1.now)) result (kind_at total rest.now) }
{
    let at = place_of(total, rest);
    let (kind, after) = read_word(total, rest)?;
    if kind < 1 || kind > 6 {
        return Err(CdfFault::ValueType { at });
    }
    Ok((kind, after))
}

/// So many bytes, whose padding is passed over.
#[tactic(auto, unfolding(crate::specs::HeaderReading::padded_at))]
pub(crate) fn read_padded(
    total: usize,
    count: usize,
    rest: &[u8],
) -> Result<(&[u8], &[u8]), CdfFault>
    requires { count < 2 ^ 62 }
    ensures { Gives (λ field. (field.0.now, field.1.now)) result (padded_at total count rest.now) }
{
    let at = place_of(total, rest);
    let (text, after) = field::read_free(rest, padded_to_word(count)).ok_or(CdfFault::Short {
        at,
    })?;
    Ok((&text[..count], after))
}

/// The bytes as text, where they are UTF-8.
fn text_of(bytes: &[u8]) -> Option<&str>
    ensures some { IfSome result (λ text. (text.now ≡ bytes.now) × (is_utf8 bytes.now ≡ true)) }
    ensures none { IfNone result (is_utf8 bytes.now ≡ false) }
{
    match str::from_utf8(bytes) {
        Ok(text) => Some(text),
        Err(_) => None,
    }
}

#[tactic(auto, unfolding(crate::specs::HeaderReading::name_at))]
pub(crate) fn read_name(alloc: Global, total: usize, rest: &[u8]) -> Result<(Name, &[u8]), CdfFault>
    ensures { Gives (λ field. (field.0, field.1.now)) result (name_at total rest.now) }
{
    let at = place_of(total, rest);
    let (count, after) = read_number(total, rest)?;
    if count < 1 || count > LONGEST_NAME {
        return Err(CdfFault::NameLength { at });
    }
    let at = place_of(total, after);
    let (text, after) = read_padded(total, count as usize, after)?;
    let text = text_of(text).ok_or(CdfFault::NameText { at })?;
    Ok((Name::new(String::from_str(alloc, text)?), after))
}

/// The count of a list that has this tag or is absent.
#[tactic(auto, unfolding(crate::specs::HeaderReading::list_head_at))]
pub(crate) fn read_list_head(total: usize, tag: u32, rest: &[u8]) -> Result<(u32, &[u8]), CdfFault>
    ensures gives { Gives (λ field. (field.0, field.1.now)) result (list_head_at total tag rest.now) }
    ensures few { IfOk result (λ field. field.0 ≤ 2147483647) }
{
    let at = place_of(total, rest);
    let (first, rest) = read_word(total, rest)?;
    let count_at = place_of(total, rest);
    let (count, rest) = read_word(total, rest)?;
    if first != tag && !(first == 0 && count == 0) {
        return Err(CdfFault::Tag { at });
    }
    if count > GREATEST {
        return Err(CdfFault::Negative { at: count_at });
    }
    Ok((count, rest))
}

/// The form of a file that begins with these four bytes.
fn form_of(first: &[u8]) -> Option<Form>
    ensures { result ≡ form_of first.now }
{
    if first == CLASSIC_MAGIC {
        Some(Form::Classic)
    } else if first == WIDE_MAGIC {
        Some(Form::Wide)
    } else {
        None
    }
}

/// The form of a file by its first four bytes.
#[tactic(auto, unfolding(crate::specs::HeaderReading::magic_at))]
pub(crate) fn read_form(bytes: &[u8]) -> Result<(Form, &[u8]), CdfFault>
    ensures { Gives (λ field. (field.0, field.1.now)) result (magic_at bytes.now) }
{
    let (first, rest) = field::read_free(bytes, 4).ok_or(CdfFault::Short { at: 0 })?;
    let form = form_of(first).ok_or(CdfFault::Magic)?;
    Ok((form, rest))
}

/// The number of records, or `STREAMING`.
#[tactic(auto, unfolding(crate::specs::HeaderReading::numrecs_at))]
pub(crate) fn read_numrecs(total: usize, rest: &[u8]) -> Result<(u32, &[u8]), CdfFault>
    ensures { Gives (λ field. (field.0, field.1.now)) result (numrecs_at total rest.now) }
{
    let at = place_of(total, rest);
    let (numrecs, after) = read_word(total, rest)?;
    if numrecs != STREAMING && numrecs > GREATEST {
        return Err(CdfFault::Negative { at });
    }
    Ok((numrecs, after))
}
