//! Reading a stack.

ghost use Rattle.std.specs.Prelude.{◌≡◌, ◌↔◌, ℕ, List, length, Ok, IfOk};
ghost use Rattle.cdf_read.specs.declared.head.HeadVar.{HeadVar};
ghost use Rattle.cdf_read.specs.declared.head.Header.{Header};
ghost use Rattle.cdf_read.specs.Grammar.{Reads};
ghost use Rattle.cdf_read.specs.HeaderReading.{header_of};
ghost use Rattle.nd_stack.specs.Answers.{Gives};
ghost use Rattle.nd_stack.specs.ColumnLaws.{FrameStands};
ghost use Rattle.nd_stack.specs.Columns.{frame_count};
ghost use Rattle.nd_stack.specs.FrameShape.{shape_of};
ghost use Rattle.nd_stack.specs.Sound.{IsSoundHeader};
ghost use Rattle.nd_stack.specs.StackRules.{frames_of, heads_of, stack_of};

use crate::StackFault;
use crate::attributes::attr_vars;
use crate::column::{column_of, frame_count};
use crate::frames::frames_of;
use crate::heads::{heads, times_of};
use crate::shape::shape_of;
use cdf_read::{HeadVar, Header, read_header};
use nd_base::{Bytes, FileShape, Head, OutOfMemory, SampleType, Seq, Stack};
use std::alloc::Global;

/// The shape and the heads of a header's frames.
fn parts_of(
    alloc: Global,
    bytes: &[u8],
    header: &Header,
    var: &HeadVar,
    kind: SampleType,
) -> Result<(FileShape, Vec<Head>), OutOfMemory>
    requires sound { IsSoundHeader (length bytes.now) header.now }
    requires frames { frames_of header.now ≡ Ok (var.now, kind) }
    ensures shape { IfOk result (λ parts. parts.0 ≡ shape_of header.now var.now kind) }
    ensures heads { IfOk result (λ parts. parts.1.items ≡ heads_of bytes.now header.now (frame_count header.now var.now)) }
{
    let attrs = attr_vars(alloc, header)?;
    let shape = shape_of(alloc, header, var, kind, &attrs)?;
    let frames = frame_count(header, var) as u32;
    let heads = heads(alloc, bytes, &times_of(header), &attrs, frames)?;
    Ok((shape, heads))
}

/// Reads the stack of a file from all of the file's bytes. The stack keeps these bytes, and copies no
/// samples.
///
/// # Errors
///
/// The first refusal, which no other answer replaces but want of memory.
#[tactic(auto, unfolding(crate::specs::StackRules::stack_of))]
pub fn read_stack(alloc: Global, bytes: Vec<u8>) -> Result<Stack, StackFault>
    ensures { Gives (λ stack. stack) result (stack_of bytes.items) }
{
    let header = read_header(alloc, &bytes)?;
    let (var, kind) = frames_of(&header)?;
    let (shape, heads) = parts_of(alloc, &bytes, &header, var, kind)?;
    let column = column_of(&header, var);
    let (heads, bytes) = (Seq::new(heads), Bytes::new(bytes));
    Ok(Stack::new(shape, heads, bytes, column.first, column.step))
}

/// The bytes for a frame begin at the place of its first value: in the frame's record, or after the values
/// of the frames before it.
pub fn frames_stand_where_their_values_do()
    ensures { (h : Header) (v : HeadVar) (k : ℕ) → FrameStands h v k }
{}

/// There is a header, from which the rules of stacks begin, exactly where the grammar of headers reads this one from the bytes.
pub fn headers_are_those_of_the_grammar()
    ensures { (bytes : List ℕ) (h : Header) → (header_of bytes ≡ Ok h) ↔ Reads bytes h }
{}
