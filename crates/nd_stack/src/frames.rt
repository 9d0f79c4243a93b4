//! Which variable has the frames, what type their samples have, and whether the others fit them.

ghost use Rattle.std.specs.Prelude.{◌≡◌, ◌≤◌, ◌<◌, ◌^◌, length, All, Option};
ghost use Rattle.cdf_read.specs.Places.{var_size};
ghost use Rattle.nd_stack.specs.Answers.{Gives};
ghost use Rattle.nd_stack.specs.SampleTypes.{numbered, stored_as, type_numbered, type_stored, sample_type};
ghost use Rattle.nd_stack.specs.FrameVars.{counts_frames, misfit, earlier, frame_misfit};
ghost use Rattle.nd_stack.specs.AttrVars.{attr_rank, attr_misfit};
ghost use Rattle.nd_stack.specs.StackRules.{frames_of};

use crate::StackFault;
use crate::attributes::is_attr_var;
use crate::column::{frame_count, frame_values, variable_of};
use crate::integers::{int_at, int_bytes};
use cdf_read::{HeadVar, Header};
use nd_base::{MOST_SAMPLES, SampleType};

/// The value types, by their numbers.
const CHAR: u32 = 2;

const INT: u32 = 4;

const DOUBLE: u32 = 6;

/// The most frames.
pub(crate) const MOST_FRAMES: u64 = 65_536;

/// The sample type of this number.
fn numbered(number: i32) -> Option<SampleType>
    ensures { result ≡ numbered number }
{
    match number {
        0 => Some(SampleType::Int8),
        1 => Some(SampleType::UInt8),
        2 => Some(SampleType::Int16),
        3 => Some(SampleType::UInt16),
        4 => Some(SampleType::Int32),
        5 => Some(SampleType::UInt32),
        _ => None,
    }
}

/// The value type that samples are stored as.
fn stored_as(kind: SampleType) -> u32
    ensures { result ≡ stored_as kind }
{
    match kind {
        SampleType::Int8 | SampleType::UInt8 => 1,
        SampleType::Int16 | SampleType::UInt16 => 3,
        SampleType::Int32 | SampleType::UInt32 => INT,
    }
}

/// The type of this number, where values of this value type can have it.
fn type_numbered(number: i32, kind: u32) -> Result<SampleType, StackFault>
    ensures { result ≡ type_numbered (numbered number) number kind }
{
    match numbered(number) {
        Some(sample_type) if stored_as(sample_type) == kind => Ok(sample_type),
        _ => Err(StackFault::SampleType(number)),
    }
}

/// The type of values that have no number: byte, short and int are signed.
fn type_stored(kind: u32) -> Result<SampleType, StackFault>
    ensures { result ≡ type_stored kind }
{
    match kind {
        1 => Ok(SampleType::Int8),
        3 => Ok(SampleType::Int16),
        4 => Ok(SampleType::Int32),
        2 => Err(StackFault::SampleType(-2)),
        5 => Err(StackFault::SampleType(-5)),
        _ => Err(StackFault::SampleType(-6)),
    }
}

/// The sample type of values of this value type.
fn sample_type(header: &Header, kind: u32) -> Result<SampleType, StackFault>
    ensures { result ≡ sample_type header.now kind }
{
    let numbers = int_bytes(header, "dataType");
    if numbers.len() < 4 {
        return type_stored(kind);
    }
    type_numbered(int_at(numbers, 0), kind)
}

/// Whether the variable has this rank, and values for so many frames.
fn counts_frames(header: &Header, frames: u64, rank: usize, var: &HeadVar) -> bool
    ensures { result ≡ counts_frames header.now frames rank var.now }
{
    var.dims.as_slice().len() == rank && frame_count(header, var) == frames
}

/// The number of the first variable of this name, where it is there and hasn't one value of this value
/// type for each frame.
fn misfit(header: &Header, frames: u64, name: &str, kind: u32) -> Option<usize>
    ensures { result ≡ misfit header.now frames name.now kind }
{
    let var = variable_of(header, name)?;
    if counts_frames(header, frames, 1, var) && var.kind == kind {
        return None;
    }
    header.var(name)
}

/// The smaller of two numbers, where they are there.
fn earlier(one: Option<usize>, other: Option<usize>) -> Option<usize>
    ensures { result ≡ earlier one other }
{
    match (one, other) {
        (Some(m), Some(n)) => Some(m.min(n)),
        (None, other) => other,
        (one, None) => one,
    }
}

/// The first of the four per-frame variables, in the header's order, that hasn't its form.
fn frame_misfit(header: &Header, frames: u64) -> Option<usize>
    ensures { result ≡ frame_misfit header.now frames }
{
    let times = earlier(
        misfit(header, frames, "uniqueId", INT),
        misfit(header, frames, "timeStamp", DOUBLE),
    );
    let seconds = earlier(
        misfit(header, frames, "epicsTSSec", INT),
        misfit(header, frames, "epicsTSNsec", INT),
    );
    earlier(times, seconds)
}

/// The rank of an attribute variable of this value type.
fn attr_rank(kind: u32) -> usize
    ensures { result ≡ attr_rank kind }
{
    if kind == CHAR { 2 } else { 1 }
}

/// The first attribute variable that hasn't its form.
fn attr_misfit(header: &Header, frames: u64) -> Option<usize>
    ensures { result ≡ attr_misfit header.now frames }
{
    header.vars.as_slice().iter().position(|var| {
        is_attr_var(var) && !counts_frames(header, frames, attr_rank(var.kind), var)
    })
}

/// The variable that has the frames, and the type of their samples.
#[tactic(auto, unfolding(crate::specs::StackRules::frames_of))]
pub(crate) fn frames_of(header: &Header) -> Result<(&HeadVar, SampleType), StackFault>
    requires few { length header.now.vars < 2 ^ 32 }
    requires ranks { All (λ v. length v.dims ≤ 2147483647) header.now.vars }
    requires small { All (λ v. var_size header.now.dims v ≤ 4294967296) header.now.vars }
    ensures { Gives (λ found. (found.0.now, found.1)) result (frames_of header.now) }
{
    let var = variable_of(header, "array_data").ok_or(StackFault::NoArrayData)?;
    let kind = sample_type(header, var.kind)?;
    let rank = var.dims.as_slice().len();
    if rank < 2 || rank > 11 {
        return Err(StackFault::Rank(rank as u32));
    }
    let frames = frame_count(header, var);
    if frames > MOST_FRAMES {
        return Err(StackFault::TooManyFrames(frames));
    }
    let samples = frame_values(header, var);
    if samples > MOST_SAMPLES {
        return Err(StackFault::TooManySamples(samples));
    }
    if let Some(var) = frame_misfit(header, frames) {
        return Err(StackFault::FrameCount { var: var as u32 });
    }
    if let Some(var) = attr_misfit(header, frames) {
        return Err(StackFault::AttrShape { var: var as u32 });
    }
    Ok((var, kind))
}
