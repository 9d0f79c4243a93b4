//! Arrays.

ghost use Rattle.std.specs.Prelude.{◌≡◌, ◌<◌, ◌≤◌, ◌*◌, ◌↔◌, length, slice_get, Some, None, IsTrue, nat_lt, IfOk, IfErr, IfSome, IfNone, OnOk, option_copied};
ghost use Rattle.std.specs.List.{list_all};
ghost use Rattle.nd_base.specs.Samples.{width};
ghost use Rattle.nd_base.specs.Shapes.{has_dimensions, sample_count, most_samples, shape_fault};

use crate::{AttrValue, Attrs, Bytes, OutOfMemory, Seq, number_at};
use std::alloc::Global;
use std::marker::Model;
use thiserror::Error;

/// The type of the samples: width in bits, and whether they have a sign.
#[derive(Clone, Copy, Debug, PartialEq, Eq)]
pub enum SampleType {
    Int8,
    UInt8,
    Int16,
    UInt16,
    Int32,
    UInt32,
}

impl SampleType {
    ghost use Rattle.nd_base.specs.Samples.{width};

    /// The bytes of one sample.
    pub fn width(self) -> usize
        ensures { result ≡ width self }
    {
        match self {
            SampleType::Int8 | SampleType::UInt8 => 1,
            SampleType::Int16 | SampleType::UInt16 => 2,
            SampleType::Int32 | SampleType::UInt32 => 4,
        }
    }
}

/// A dimension: its size, and where it lies in the detector's own dimension: the offset, how many of its
/// elements are binned into one, and whether it runs backwards.
#[derive(Clone, Copy, Debug, PartialEq, Eq)]
pub struct Dim {
    pub size: u32,
    pub offset: i32,
    pub binning: i32,
    pub reverse: bool,
}

/// What a frame has beside its samples: its unique id, its time stamp as 64 bits, its time in seconds and
/// nanoseconds, and its attributes.
#[derive(Clone, Debug, Drop)]
pub struct Head {
    pub id: i32,
    pub stamp: u64,
    pub sec: i32,
    pub nsec: i32,
    pub attrs: Attrs,
}

/// The same head.
///
/// # Errors
///
/// Only for want of memory.
pub fn same_head(head: &Head) -> Result<Head, OutOfMemory>
    ensures { IfOk result (λ h. h ≡ head.now) }
{
    Ok(head.clone()?)
}

/// Why an array is refused.
#[derive(Clone, Copy, Debug, PartialEq, Eq, Error)]
pub enum ShapeFault {
    /// There are not 1 to 10 dimensions, one of them is empty, or the bytes are not those of the samples.
    #[error("no array has these dimensions and bytes")]
    BadShape,
    /// There are more than 67,108,864 samples.
    #[error("too many samples")]
    TooManySamples,
    #[error("out of memory")]
    OutOfMemory,
}

/// The bytes of the samples of an array of this type and these dimensions.
pub fn frame_bytes(kind: SampleType, dims: &[Dim]) -> usize
    requires dimensions { IsTrue (has_dimensions dims.now) }
    requires few { sample_count dims.now ≤ most_samples }
    ensures { result ≡ sample_count dims.now * width kind }
{
    let mut count = 1;
    for dim in dims {
        count *= dim.size as usize;
    }
    count * kind.width()
}

/// An array: a head, a sample type, dimensions with dimension 0 the fastest, and samples. Contracts see it
/// as the record `Array`, whose samples are whole numbers; in memory they are bytes, the most significant
/// first.
#[derive(Debug, Drop)]
pub struct NdArray {
    head: Head,
    kind: SampleType,
    dims: Seq<Dim>,
    bytes: Bytes,
}

impl Model for NdArray {
    ghost use Rattle.std.specs.Prelude.{◌≡◌, length, None};
    ghost use Rattle.nd_base.specs.Array.{Array};
    ghost use Rattle.nd_base.specs.Shapes.{array_of, shape_fault};

    ghost Value = { Array };

    ghost view = { λ a. array_of a.head a.kind a.dims a.bytes };

    ghost invariant = { λ a. shape_fault a.kind a.dims (length a.bytes) ≡ None };
}

/// Whether there are 1 to 10 dimensions, none of them empty.
fn are_dimensions(dims: &[Dim]) -> bool
    ensures { result ≡ has_dimensions dims.now }
{
    !dims.is_empty() && dims.len() <= 10 && all_hold_elements(dims)
}

/// Whether none of them is empty.
fn all_hold_elements(dims: &[Dim]) -> bool
    ensures { result ≡ list_all (λ d. nat_lt 0 d.size) dims.now }
{
    dims.iter().all(|dim| dim.size > 0)
}

/// The number of samples of these dimensions, or None where it exceeds 67,108,864.
fn sample_count_within(dims: &[Dim]) -> Option<u64>
    requires { IsTrue (has_dimensions dims.now) }
    ensures some { IfSome result (λ n. (n ≡ sample_count dims.now) × (n ≤ most_samples)) }
    ensures none { IfNone result (most_samples < sample_count dims.now) }
{
    let mut count = 1u64;
    for dim in dims {
        count *= u64::from(dim.size);
        if count > MOST_SAMPLES {
            return None;
        }
    }
    Some(count)
}

/// Whether an array can have these dimensions: 1 to 10 of them, none empty, with at most 67,108,864 samples. Calls that
/// take a list of dimensions require this of it.
pub fn are_array_dims(dims: &[Dim]) -> bool
    ensures { IsTrue result ↔ (IsTrue (has_dimensions dims.now) × (sample_count dims.now ≤ most_samples)) }
{
    are_dimensions(dims) && sample_count_within(dims).is_some()
}

/// The first refusal that holds of this type, these dimensions and so many bytes of samples.
fn fault_of(kind: SampleType, dims: &[Dim], bytes: usize) -> Option<ShapeFault>
    ensures { result ≡ shape_fault kind dims.now bytes }
{
    if !are_dimensions(dims) {
        return Some(ShapeFault::BadShape);
    }
    match sample_count_within(dims) {
        None => Some(ShapeFault::TooManySamples),
        Some(count) if bytes as u64 == count * kind.width() as u64 => None,
        Some(_) => Some(ShapeFault::BadShape),
    }
}

/// The most samples that an array may have.
pub const MOST_SAMPLES: u64 = 67_108_864;

impl NdArray {
    ghost use Rattle.nd_base.specs.Array.{Array};
    ghost use Rattle.nd_base.specs.Attributes.{attr_of};
    ghost use Rattle.nd_base.specs.Shapes.{array_of, shape_fault};
    ghost use Rattle.nd_base.specs.Samples.{samples_of, width};

    /// Puts an array together. It takes over what it is given and needs no memory of its own; a refusal
    /// drops it.
    ///
    /// # Errors
    ///
    /// `shape_fault` of the definitions names the refusal: not 1 to 10 dimensions or an empty one, then
    /// too many samples, then a byte count that isn't that of the samples.
    pub fn new(
        _alloc: Global,
        head: Head,
        kind: SampleType,
        dims: Vec<Dim>,
        samples: Vec<u8>,
    ) -> Result<NdArray, ShapeFault>
        ensures value { IfOk result (λ a. a ≡ array_of head kind dims.items samples.items) }
        ensures accepted { OnOk result (shape_fault kind dims.items (length samples.items) ≡ None) }
        ensures refused { IfErr result (λ fault. shape_fault kind dims.items (length samples.items) ≡ Some fault) }
    {
        if let Some(fault) = fault_of(kind, &dims, samples.len()) {
            return Err(fault);
        }
        Ok(NdArray {
            head,
            kind,
            dims: Seq::new(dims),
            bytes: Bytes::new(samples),
        })
    }

    /// Id, times and attributes.
    pub fn head(&self) -> &Head
        ensures id { result.now.id ≡ self.now.id }
        ensures stamp { result.now.stamp ≡ self.now.stamp }
        ensures sec { result.now.sec ≡ self.now.sec }
        ensures nsec { result.now.nsec ≡ self.now.nsec }
        ensures attrs { result.now.attrs ≡ self.now.attrs }
    {
        &self.head
    }

    /// The type of the samples.
    pub fn kind(&self) -> SampleType
        ensures { result ≡ self.now.kind }
    {
        self.kind
    }

    /// The value of the first attribute of this name, or None exactly where there is none.
    pub fn attr(&self, name: &str) -> Option<&AttrValue>
        ensures { option_copied result ≡ attr_of name.now self.now.attrs }
    {
        self.head.attrs.value_of(name)
    }

    /// The dimensions, dimension 0 first: 1 to 10 of them, none empty, with at most 67,108,864 samples.
    pub fn dims(&self) -> &[Dim]
        ensures value { result.now ≡ self.now.dims }
        ensures dimensions { IsTrue (has_dimensions self.now.dims) }
        ensures few { sample_count self.now.dims ≤ most_samples }
        ensures count { length self.now.samples ≡ sample_count self.now.dims }
    {
        self.dims.as_slice()
    }

    /// The bytes of the samples, the most significant byte of each first.
    pub fn bytes(&self) -> &[u8]
        ensures samples { samples_of self.now.kind result.now ≡ self.now.samples }
        ensures count { length result.now ≡ length self.now.samples * width self.now.kind }
    {
        self.bytes.list()
    }

    /// The sample at place `i`.
    pub fn sample(&self, i: usize) -> i64
        requires { i < length self.now.samples }
        ensures { slice_get self.now.samples i ≡ Some result }
    {
        number_at(self.kind, self.bytes.list(), i * self.kind.width())
    }
}
