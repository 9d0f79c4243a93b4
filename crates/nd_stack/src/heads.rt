//! What each frame has beside its samples.

ghost use Rattle.std.specs.Prelude.{◌≡◌, ◌≤◌, ◌<◌, ℕ, length, map, All, IfOk, IfSome};
ghost use Rattle.std.specs.List.{range_with_len};
ghost use Rattle.cdf_read.specs.Places.{var_size};
ghost use Rattle.nd_stack.specs.Sound.{HasCell, HasTimes, HasAttr};
ghost use Rattle.nd_stack.specs.AttrVars.{attr_names};
ghost use Rattle.nd_stack.specs.FrameVars.{column_named, times_of, int_for, bits_for};
ghost use Rattle.nd_stack.specs.StackRules.{head_for};

use crate::attributes::{AttrVar, attr_names, attrs_for};
use crate::column::{Column, cell, column_of, variable_of};
use crate::integers::{double_of, int_of};
use cdf_read::Header;
use nd_base::{Head, Names, OutOfMemory};
use std::alloc::Global;

/// Where the four per-frame variables stand, where they are there.
#[derive(Clone, Copy, Debug)]
pub(crate) struct Times {
    id: Option<Column>,
    stamp: Option<Column>,
    sec: Option<Column>,
    nsec: Option<Column>,
}

/// Where the values of the first variable of this name stand.
fn column_named(header: &Header, name: &str) -> Option<Column>
    requires { All (λ v. var_size header.now.dims v ≤ 4294967296) header.now.vars }
    ensures { result ≡ column_named header.now name.now }
{
    let var = variable_of(header, name)?;
    Some(column_of(header, var))
}

/// The most bytes that the heads of a stack may take.
const MOST_HEAD_BYTES: u64 = 1 << 32;

/// The bytes of a head beside its attributes, and those of an attribute beside a text's own.
const HEAD_BYTES: u64 = 64;

const VALUE_BYTES: u64 = 32;

/// The most bytes that a value of the attribute takes: a text may fill its room.
fn value_bytes(var: &AttrVar) -> u64 {
    if var.kind == 2 {
        VALUE_BYTES.saturating_add(var.column.size)
    } else {
        VALUE_BYTES
    }
}

/// Whether the heads of so many frames with these attributes could take more than 4 GiB, so that a small file, in which variables
/// may share their bytes, could take a machine's memory.
fn take_too_much(frames: u32, attrs: &[AttrVar]) -> bool {
    let head = attrs.iter().fold(
        HEAD_BYTES,
        |bytes, var| bytes.saturating_add(value_bytes(var)),
    );
    u64::from(frames).saturating_mul(head) > MOST_HEAD_BYTES
}

/// Where the four per-frame variables stand.
pub(crate) fn times_of(header: &Header) -> Times
    requires { All (λ v. var_size header.now.dims v ≤ 4294967296) header.now.vars }
    ensures { result ≡ times_of header.now }
{
    Times {
        id: column_named(header, "uniqueId"),
        stamp: column_named(header, "timeStamp"),
        sec: column_named(header, "epicsTSSec"),
        nsec: column_named(header, "epicsTSNsec"),
    }
}

/// The int for this frame, or `missing` where the variable is missing.
fn int_for(bytes: &[u8], column: Option<Column>, frame: u64, missing: i32) -> i32
    requires { IfSome column (HasCell (length bytes.now) 4 frame) }
    ensures { result ≡ int_for bytes.now column frame missing }
{
    match column {
        None => missing,
        Some(column) => int_of(cell(bytes, column, frame)),
    }
}

/// The double's bits for this frame, or 0 where the variable is missing.
fn bits_for(bytes: &[u8], column: Option<Column>, frame: u64) -> u64
    requires { IfSome column (HasCell (length bytes.now) 8 frame) }
    ensures { result ≡ bits_for bytes.now column frame }
{
    match column {
        None => 0,
        Some(column) => double_of(cell(bytes, column, frame)),
    }
}

/// What this frame has beside its samples.
fn head_for(
    alloc: Global,
    bytes: &[u8],
    times: &Times,
    names: &Names,
    attrs: &[AttrVar],
    frame: u32,
) -> Result<Head, OutOfMemory>
    requires names { names.now ≡ attr_names attrs.now }
    requires few { frame < 65536 }
    requires times { HasTimes (length bytes.now) frame times.now }
    requires attrs { All (HasAttr (length bytes.now) frame) attrs.now }
    ensures { IfOk result (λ head. head ≡ head_for bytes.now times.now attrs.now frame) }
{
    let k = u64::from(frame);
    Ok(Head {
        id: int_for(bytes, times.id, k, frame as i32 + 1),
        stamp: bits_for(bytes, times.stamp, k),
        sec: int_for(bytes, times.sec, k, 0),
        nsec: int_for(bytes, times.nsec, k, 0),
        attrs: attrs_for(alloc, bytes, names, attrs, k)?,
    })
}

/// The heads of so many frames.
pub(crate) fn heads(
    alloc: Global,
    bytes: &[u8],
    times: &Times,
    attrs: &[AttrVar],
    frames: u32,
) -> Result<Vec<Head>, OutOfMemory>
    requires few { frames ≤ 65536 }
    requires times { (k : ℕ) → k < frames → HasTimes (length bytes.now) k times.now }
    requires attrs { (k : ℕ) → k < frames → All (HasAttr (length bytes.now) k) attrs.now }
    ensures { IfOk result (λ heads. heads.items ≡ map (head_for bytes.now times.now attrs.now) (range_with_len 0 frames)) }
{
    if take_too_much(frames, attrs) {
        return Err(OutOfMemory);
    }
    let names = attr_names(alloc, attrs)?;
    let mut heads = Vec::with_capacity(alloc, frames as usize)?;
    for frame in 0..frames {
        heads.push(head_for(alloc, bytes, times, &names, attrs, frame)?)?;
    }
    Ok(heads)
}
