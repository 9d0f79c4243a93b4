//! What the keys of a table hold.
ghost use Rattle.std.specs.Prelude.{◌≡◌, ◌≤ℤ◌, ◌≤◌, ◌<◌, ◌^◌, length, map, negsuc, pos, IfOk};
ghost use Rattle.std.specs.Option.{option_map};
ghost use Rattle.toml.specs.Data.{as_integer, as_bool, get_member};
ghost use Rattle.toml.specs.View.{view, array_view, table_view};
ghost use Rattle.graph_conf.specs.Answers.{Gives};
ghost use Rattle.graph_conf.specs.Keys.{present, number, count, truth, text_in, all_of, list_in, at_most, each_within, numbers, truths, first_unknown};
ghost use Rattle.graph_conf.specs.Keys.{only_keys};
ghost use Rattle.graph_conf.specs.declared.fault.GraphFault.TheVariants as fault;

use crate::GraphFault;
use crate::words::first_unknown;
use nd_base::{Name, Seq};
use std::alloc::{AllocError, Global};
use toml::value::Array;
use toml::{Table, Value};

/// The most items of a list that has one for each dimension.
const MOST_DIMENSIONS: usize = 10;

/// A name of its own with this text.
pub(crate) fn name_of(alloc: Global, text: &str) -> Result<Name, AllocError>
    ensures { IfOk result (λ name. name ≡ text.now) }
{
    Ok(Name::new(String::from_str(alloc, text)?))
}

/// The fault of a key whose value isn't of its form.
pub(crate) fn key_type(alloc: Global, key: &str) -> Result<GraphFault, AllocError>
    ensures { IfOk result (λ e. e ≡ fault.KeyType key.now) }
{
    let key = name_of(alloc, key)?;
    Ok(GraphFault::KeyType { key })
}

/// The fault of a number of a key that is out of range.
pub(crate) fn out_of_range(alloc: Global, key: &str, value: i64) -> Result<GraphFault, AllocError>
    ensures { IfOk result (λ e. e ≡ fault.Range key.now value) }
{
    let key = name_of(alloc, key)?;
    Ok(GraphFault::Range { key, value })
}

/// What the table has at a key.
pub(crate) fn value_at<'a>(table: &'a Table, key: &str) -> Option<&'a Value>
    ensures { option_map (λ v. view v.now) result ≡ get_member key.now (table_view table.now) }
{
    table.get(key)
}

/// What the table has at a key that has to be given.
pub(crate) fn present<'a>(
    alloc: Global,
    table: &'a Table,
    key: &str,
) -> Result<&'a Value, GraphFault>
    ensures { Gives (λ v. view v.now) result (present key.now (table_view table.now)) }
{
    match value_at(table, key) {
        Some(value) => Ok(value),
        None => {
            let key = name_of(alloc, key)?;
            Err(GraphFault::Missing { key })
        }
    }
}

/// The whole number at a key, from `low` to `high`.
pub(crate) fn number(
    alloc: Global,
    table: &Table,
    key: &str,
    low: i64,
    high: i64,
    default: i64,
) -> Result<i64, GraphFault>
    requires default { (low ≤ℤ default) × (default ≤ℤ high) }
    ensures gives { Gives (λ v. v) result (number key.now low high default (table_view table.now)) }
    ensures within { IfOk result (λ v. (low ≤ℤ v) × (v ≤ℤ high)) }
{
    let Some(value) = value_at(table, key) else {
        return Ok(default);
    };
    let Some(number) = value.as_integer() else {
        return Err(key_type(alloc, key)?);
    };
    if number < low || high < number {
        return Err(out_of_range(alloc, key, number)?);
    }
    Ok(number)
}

/// The same, where none of them is below 0.
pub(crate) fn count(
    alloc: Global,
    table: &Table,
    key: &str,
    low: u64,
    high: u64,
    default: u64,
) -> Result<u64, GraphFault>
    requires default { (low ≤ default) × (default ≤ high) }
    requires high { high < 2 ^ 63 }
    ensures gives { Gives (λ n. n) result (count key.now low high default (table_view table.now)) }
    ensures within { IfOk result (λ n. (low ≤ n) × (n ≤ high)) }
{
    let number = number(alloc, table, key, low as i64, high as i64, default as i64)?;
    Ok(number as u64)
}

/// The truth value at a key.
pub(crate) fn truth(
    alloc: Global,
    table: &Table,
    key: &str,
    default: bool,
) -> Result<bool, GraphFault>
    ensures { Gives (λ b. b) result (truth key.now default (table_view table.now)) }
{
    let Some(value) = value_at(table, key) else {
        return Ok(default);
    };
    match value.as_bool() {
        Some(truth) => Ok(truth),
        None => Err(key_type(alloc, key)?),
    }
}

/// A value that is a text.
pub(crate) fn text_in<'a>(alloc: Global, key: &str, value: &'a Value) -> Result<&'a str, GraphFault>
    ensures { Gives (λ text. text.now) result (text_in key.now (view value.now)) }
{
    match value.as_str() {
        Some(text) => Ok(text),
        None => Err(key_type(alloc, key)?),
    }
}

/// The values of the items, where each is a whole number.
fn integers_of(alloc: Global, items: &Array) -> Result<Option<Vec<i64>>, AllocError>
    ensures { IfOk result (λ found. option_map (λ list. list.items) found ≡ all_of as_integer (array_view items.now)) }
{
    let mut list = Vec::with_capacity(alloc, items.len())?;
    for item in items {
        match item.as_integer() {
            Some(number) => list.push(number)?,
            None => return Ok(None),
        }
    }
    Ok(Some(list))
}

/// The values of the items, where each is a truth value.
fn truths_of(alloc: Global, items: &Array) -> Result<Option<Vec<bool>>, AllocError>
    ensures { IfOk result (λ found. option_map (λ list. list.items) found ≡ all_of as_bool (array_view items.now)) }
{
    let mut list = Vec::with_capacity(alloc, items.len())?;
    for item in items {
        match item.as_bool() {
            Some(truth) => list.push(truth)?,
            None => return Ok(None),
        }
    }
    Ok(Some(list))
}

/// At most so many items.
fn at_most<T: Drop>(
    alloc: Global,
    key: &str,
    most: usize,
    list: Vec<T>,
) -> Result<Vec<T>, GraphFault>
    ensures gives { Gives (λ kept. kept.items) result (at_most key.now most list.items) }
    ensures few { IfOk result (λ kept. length kept.items ≤ most) }
{
    if list.len() > most {
        return Err(out_of_range(alloc, key, list.len() as i64)?);
    }
    Ok(list)
}

/// Each number in 32 bits; else the first that has more is out of range.
#[tactic(auto, using(crate::proofs::Lists::find_past))]
fn in_32_bits(alloc: Global, key: &str, list: &[i64]) -> Result<Vec<i32>, GraphFault>
    ensures gives { Gives (λ kept. kept.items) result (each_within key.now (negsuc 2147483647) (pos 2147483647) list.now) }
    ensures len { IfOk result (λ kept. length kept.items ≡ length list.now) }
{
    let mut kept = Vec::with_capacity(alloc, list.len())?;
    for number in list {
        match i32::try_from(*number) {
            Ok(number) => kept.push(number)?,
            Err(_) => return Err(out_of_range(alloc, key, *number)?),
        }
    }
    Ok(kept)
}

/// A value that is a list of whole numbers.
fn integers_in(alloc: Global, key: &str, value: &Value) -> Result<Vec<i64>, GraphFault>
    ensures { Gives (λ list. list.items) result (list_in key.now as_integer (view value.now)) }
{
    let Some(items) = value.as_array() else {
        return Err(key_type(alloc, key)?);
    };
    match integers_of(alloc, items)? {
        Some(list) => Ok(list),
        None => Err(key_type(alloc, key)?),
    }
}

/// A value that is a list of truth values.
fn truths_in(alloc: Global, key: &str, value: &Value) -> Result<Vec<bool>, GraphFault>
    ensures { Gives (λ list. list.items) result (list_in key.now as_bool (view value.now)) }
{
    let Some(items) = value.as_array() else {
        return Err(key_type(alloc, key)?);
    };
    match truths_of(alloc, items)? {
        Some(list) => Ok(list),
        None => Err(key_type(alloc, key)?),
    }
}

/// The whole numbers at a key, one for each dimension.
pub(crate) fn numbers(alloc: Global, table: &Table, key: &str) -> Result<Seq<i32>, GraphFault>
    ensures gives { Gives (λ list. list) result (numbers key.now (table_view table.now)) }
    ensures few { IfOk result (λ list. length list ≤ 10) }
{
    let Some(value) = value_at(table, key) else {
        return Ok(Seq::new(Vec::new(alloc)));
    };
    let list = integers_in(alloc, key, value)?;
    let list = at_most(alloc, key, MOST_DIMENSIONS, list)?;
    Ok(Seq::new(in_32_bits(alloc, key, &list)?))
}

/// The truth values at a key, one for each dimension.
pub(crate) fn truths(alloc: Global, table: &Table, key: &str) -> Result<Seq<bool>, GraphFault>
    ensures gives { Gives (λ list. list) result (truths key.now (table_view table.now)) }
    ensures few { IfOk result (λ list. length list ≤ 10) }
{
    let Some(value) = value_at(table, key) else {
        return Ok(Seq::new(Vec::new(alloc)));
    };
    let list = truths_in(alloc, key, value)?;
    Ok(Seq::new(at_most(alloc, key, MOST_DIMENSIONS, list)?))
}

/// The table has none but these keys.
pub(crate) fn only_keys(alloc: Global, table: &Table, known: &[&str]) -> Result<(), GraphFault>
    ensures { Gives (λ _. tt) result (only_keys (map (λ k. k.now) known.now) (table_view table.now)) }
{
    match first_unknown(table, known) {
        None => Ok(()),
        Some(key) => {
            let key = name_of(alloc, key)?;
            Err(GraphFault::UnknownKey { key })
        }
    }
}
