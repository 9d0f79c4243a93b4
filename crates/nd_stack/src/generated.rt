//! Stacks that are made by a rule, for trials and measurements.

ghost use Rattle.std.specs.Prelude.{◌≡◌, ℕ, ◌≤◌, ◌<◌, ◌*◌, ◌++◌, [], ◌∷◌, None, map, IfOk, OnOk, IfErr};
ghost use Rattle.std.specs.List.{range_with_len, flat_map};
ghost use Rattle.nd_base.specs.declared.array.SampleType.{SampleType};
ghost use Rattle.nd_base.specs.Samples.{width, sample_bytes, bytes_of};
ghost use Rattle.nd_stack.specs.declared.generated.GenFault.TheVariants as refusal;
ghost use Rattle.nd_stack.specs.Generated.{next_number, number_after, sample_for, sample, frame_name, whole_dim, frame_head};
ghost use Rattle.nd_stack.specs.Generated.{generated_shape, generated, generated_stack, is_size, gen_fault, named_refusal};
ghost use Rattle.nd_stack.specs.KeptStacks.{IsKeptStack};

use crate::frames::MOST_FRAMES;
use nd_base::{
    AttrColumn, AttrKind, AttrValue, Attrs, Bytes, Dim, FileShape, Form, Head, Name, Names,
    OutOfMemory, SampleType, Seq, Stack,
};
use std::alloc::Global;
use thiserror::Error;

/// Why no stack is made, in the order in which it is tested.
#[derive(Clone, Copy, Debug, PartialEq, Eq, Error)]
pub enum GenFault {
    /// There would be more than 65,536 frames, or the width or the height isn't 1 to 8,192.
    #[error("no stack is made of so many frames or of frames of this size")]
    GenRange,
    /// The samples would take so many bytes, more than 536,870,912.
    #[error("the samples would take {bytes} bytes")]
    GenBytes { bytes: u64 },
    #[error("out of memory")]
    OutOfMemory,
}

impl From<OutOfMemory> for GenFault {
    ghost from_gives = { λ _ e. e ≡ refusal.OutOfMemory };

    fn from(_: OutOfMemory) -> Self {
        GenFault::OutOfMemory
    }
}

/// The greatest width and height.
const MOST_SIZE: u32 = 8_192;

/// The most bytes of samples.
const MOST_BYTES: u64 = 536_870_912;

/// Whether a frame can have this width or height.
fn is_size(size: u32) -> bool
    ensures { result ≡ is_size size }
{
    0 < size && size <= MOST_SIZE
}

/// What `gen_stack` refuses these numbers for, or None where it makes their stack. It takes no memory.
pub fn gen_fault(n: u32, w: u32, h: u32, kind: SampleType) -> Option<GenFault>
    ensures { result ≡ gen_fault n w h kind }
{
    if u64::from(n) > MOST_FRAMES || !is_size(w) || !is_size(h) {
        return Some(GenFault::GenRange);
    }
    let bytes = u64::from(n) * u64::from(w) * u64::from(h) * kind.width() as u64;
    if bytes > MOST_BYTES {
        return Some(GenFault::GenBytes { bytes });
    }
    None
}

/// The number that follows one of the generator.
#[inline(always)]
fn next_number(number: u32) -> u32
    ensures { result ≡ next_number number }
{
    ((u64::from(number) * 1_103_515_245 + 12_345) % 0x8000_0000) as u32
}

/// Appends the sample of a number, the most significant byte first.
#[inline(always)]
fn push_sample(bytes: &mut Vec<u8>, kind: SampleType, number: u32) -> Result<(), OutOfMemory>
    ensures { OnOk result (bytes.new.items ≡ bytes.old.items ++ sample_bytes kind (sample_for kind number)) }
{
    let high = (number / 0x1_0000) as u16;
    match kind {
        SampleType::Int8 | SampleType::UInt8 => bytes.push((high % 0x100) as u8)?,
        SampleType::Int16 | SampleType::UInt16 => bytes.extend_from_slice(&high.to_be_bytes())?,
        SampleType::Int32 | SampleType::UInt32 => {
            bytes.extend_from_slice(&u32::from(high).to_be_bytes())?
        }
    }
    Ok(())
}

/// The samples of so many numbers, from the first one on.
fn samples_from(
    alloc: Global,
    kind: SampleType,
    first: u32,
    count: usize,
) -> Result<Vec<u8>, OutOfMemory>
    requires { count * width kind ≤ 536870912 }
    ensures { IfOk result (λ bytes. bytes.items ≡ bytes_of kind (map (λ j. sample_for kind (number_after first j)) (range_with_len 0 count))) }
{
    let mut bytes = Vec::with_capacity(alloc, count * kind.width())?;
    let mut number = first;
    for _ in 0..count {
        push_sample(&mut bytes, kind, number)?;
        number = next_number(number);
    }
    Ok(bytes)
}

/// The name of the attribute that counts the frames from 0.
fn frame_name(alloc: Global) -> Result<Name, OutOfMemory>
    ensures { IfOk result (λ name. name ≡ frame_name) }
{
    Ok(Name::new(String::from_str(alloc, "Frame")?))
}

/// What this frame has beside its samples.
fn frame_head(alloc: Global, names: &Names, frame: u32) -> Result<Head, OutOfMemory>
    requires names { names.now ≡ frame_name ∷ [] }
    requires few { frame < 65536 }
    ensures { IfOk result (λ head. head ≡ frame_head frame) }
{
    let values = vec![in alloc; AttrValue::Whole(frame as i32)]?;
    Ok(Head {
        id: frame as i32 + 1,
        stamp: 0,
        sec: 0,
        nsec: 0,
        attrs: Attrs::new(names.share()?, values),
    })
}

/// The heads of so many frames.
fn frame_heads(alloc: Global, frames: u32) -> Result<Vec<Head>, OutOfMemory>
    requires { frames ≤ 65536 }
    ensures { IfOk result (λ heads. heads.items ≡ map frame_head (range_with_len 0 frames)) }
{
    let names = Names::new(alloc, vec![in alloc; frame_name(alloc)?]?)?;
    let mut heads = Vec::with_capacity(alloc, frames as usize)?;
    for frame in 0..frames {
        heads.push(frame_head(alloc, &names, frame)?)?;
    }
    Ok(heads)
}

/// A whole dimension of this size.
fn whole_dim(size: u32) -> Dim
    ensures { result ≡ whole_dim size }
{
    Dim {
        size,
        offset: 0,
        binning: 1,
        reverse: false,
    }
}

/// What frames of this width and height share.
fn generated_shape(
    alloc: Global,
    w: u32,
    h: u32,
    kind: SampleType,
) -> Result<FileShape, OutOfMemory>
    ensures { IfOk result (λ shape. shape ≡ generated_shape w h kind) }
{
    let attr = AttrColumn {
        name: frame_name(alloc)?,
        kind: AttrKind::WholeKind,
    };
    Ok(FileShape {
        form: Form::Classic,
        kind,
        dims: Seq::new(vec![in alloc; whole_dim(w), whole_dim(h)]?),
        attrs: Seq::new(vec![in alloc; attr]?),
        width: 256,
        extras: Seq::new(Vec::new(alloc)),
    })
}

/// Makes a stack of `n` frames that are `w` samples wide and `h` high. The samples are the numbers of one linear congruential
/// generator, `x = (x * 1103515245 + 12345) % 2147483648` from `x = start` on, each without its lowest 16 bits and reduced to
/// the bits of `kind`; it runs through the frames in their order, and begins anew in none. Ids count from 1, times are 0, and
/// the whole attribute `Frame` counts the frames from 0.
///
/// # Errors
///
/// `GenRange` exactly where `n` is above 65,536, or `w` or `h` is 0 or above 8,192; else `GenBytes` exactly where the samples
/// would take more than 536,870,912 bytes; else only want of memory.
pub fn gen_stack(
    alloc: Global,
    n: u32,
    w: u32,
    h: u32,
    kind: SampleType,
    start: u32,
) -> Result<Stack, GenFault>
    ensures value { IfOk result (λ stack. stack ≡ generated_stack n w h kind start) }
    ensures kept { IfOk result IsKeptStack }
    ensures accepted { OnOk result (gen_fault n w h kind ≡ None) }
    ensures refused { IfErr result (λ fault. gen_fault n w h kind ≡ named_refusal fault) }
{
    if let Some(fault) = gen_fault(n, w, h, kind) {
        return Err(fault);
    }
    let shape = generated_shape(alloc, w, h, kind)?;
    let heads = frame_heads(alloc, n)?;
    let count = w as usize * h as usize;
    let bytes = samples_from(alloc, kind, next_number(start), n as usize * count)?;
    let (heads, bytes) = (Seq::new(heads), Bytes::new(bytes));
    let step = (count * kind.width()) as u64;
    Ok(Stack::new(shape, heads, bytes, 0, step))
}

/// The samples of a generated stack, those of all frames in their order, are the generator's from the first one on.
pub fn generated_frames_go_on()
    ensures { (n w h : ℕ) (kind : SampleType) (start : ℕ)
        → flat_map (λ a. a.samples) (generated n w h kind start) ≡ map (sample kind start) (range_with_len 0 (n * (w * h))) }
{}
