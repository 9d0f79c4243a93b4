//! `correct DARK STACK NAME OFFSET NUM DEN LOW HIGH`: takes a dark frame from each frame of a stack, and scales what is left.

ghost use Rattle.std.specs.Prelude.{◌≡◌, true, false, slice_get, Some, IfOk, OnOk, IfErr, IfSome};
ghost use Rattle.nd_base.specs.Array.{StackValue};
ghost use Rattle.nd_orient.specs.Correction.{IsCorrectRule};
ghost use Rattle.nd_stack.specs.KeptStacks.{IsKeptStack};
ghost use Rattle.tool_commands.specs.Answers.{objects_of, Ends, status_of};
ghost use Rattle.tool_commands.specs.Causes.{IsCause};
ghost use Rattle.tool_commands.specs.Command.{Correct};
ghost use Rattle.tool_commands.specs.Inputs.{AsStack, IsReadAs, IsRefusedAs, most_stack_bytes};
ghost use Rattle.tool_commands.specs.Stages.{ReadStops, WritesAll};
ghost use Rattle.tool_commands.specs.Unread.{NoneFailed, FailedAt, FailsIn, IfUnread};
ghost use Rattle.tool_commands.specs.Works.{same_sizes, outcome_of};
ghost use Rattle.tool_commands.specs.declared.status.Status.TheVariants as statuses;

use crate::sources::load_stack;
use crate::stack_files::write_changed;
use crate::status::Status;
use edge_traits::{Library, Shelf, Sink};
use nd_base::{Dim, NdArray};
use nd_orient::CorrectRule;
use nd_stack::array;
use stack_file::Corrected;
use std::alloc::Global;

/// Whether dimensions have the same sizes.
fn same_sizes(dims: &[Dim], others: &[Dim]) -> bool
    ensures { result ≡ same_sizes dims.now others.now }
{
    match (dims, others) {
        ([], []) => true,
        ([first, dims @ ..], [other, others @ ..]) => {
            first.size == other.size && same_sizes(dims, others)
        }
        ([], [_, ..]) => false,
        ([_, ..], []) => false,
    }
}

/// Reads a stack, of which its first frame is kept, where it has one.
fn load_dark<L: Library>(
    alloc: Global,
    library: &mut L,
    name: &str,
) -> Result<Option<NdArray>, Status>
    ensures ok { IfOk result (λ dark. (s : StackValue) × IsReadAs (L.holds library.old) AsStack name.now s × IsKeptStack s
        × (dark ≡ slice_get s.arrays 0)) }
    ensures stays { OnOk result (L.faults library.new ≡ L.faults library.old) }
    ensures files { L.holds library.new ≡ L.holds library.old }
    ensures err { IfErr result (λ s. ReadStops (IsRefusedAs (L.holds library.old) AsStack name.now) s (L.faults library.old) (L.faults library.new)) }
    ensures none_failed { OnOk result (NoneFailed (L.faults_at library.old) (L.faults_at library.new)) }
    ensures unread { IfErr result (λ s. IfUnread s (FailedAt (L.holds library.old) most_stack_bytes (L.faults_at library.old) (L.faults_at library.new) name.now)) }
{
    let stack = load_stack(alloc, library, name)?;
    if stack.frames() == 0 {
        return Ok(None);
    }
    Ok(Some(array(alloc, &stack, 0)?))
}

/// The frame that corrects a stack whose arrays have these dimensions: one of their sizes.
fn fitting(dark: Option<NdArray>, dims: &[Dim]) -> Result<NdArray, Status>
    ensures ok { IfOk result (λ a. (dark ≡ Some a) × (same_sizes a.dims dims.now ≡ true)) }
    ensures err { IfErr result (λ s. (s ≡ statuses.Sizes) × IfSome dark (λ a. same_sizes a.dims dims.now ≡ false)) }
{
    match dark {
        Some(dark) if same_sizes(dark.dims(), dims) => Ok(dark),
        _ => Err(Status::Sizes),
    }
}

/// Writes the frames of a stack, corrected by the first frame of another one, to a file of this name, and prints how many there are.
pub(crate) fn correct<L: Library, K: Shelf, T: Sink>(
    alloc: Global,
    rule: &CorrectRule,
    dark: &str,
    stack: &str,
    name: &str,
    library: &mut L,
    shelf: &mut K,
    out: &mut T,
) -> Result<(), Status>
    requires { IsCorrectRule rule.now }
    ensures ends { Ends (status_of result) (Some (Correct rule.now dark.now stack.now name.now))
        (objects_of (L.holds library.old) (K.held shelf.old) (K.held shelf.new) (T.written out.old) (T.written out.new)) }
    ensures cause { IsCause (status_of result) (record { library = L.faults library.old; shelf = K.faults shelf.old; sink = T.faults out.old })
        (record { library = L.faults library.new; shelf = K.faults shelf.new; sink = T.faults out.new }) }
    ensures unread { IfUnread (status_of result)
        (FailsIn (L.holds library.old) (L.faults_at library.old) (L.faults_at library.new) (outcome_of (Some (Correct rule.now dark.now stack.now name.now)))) }
    ensures finished { WritesAll (status_of result) → K.all_finished shelf.old → K.all_finished shelf.new }
    ensures library { L.holds library.new ≡ L.holds library.old }
{
    let dark = load_dark(alloc, library, dark)?;
    let stack = load_stack(alloc, library, stack)?;
    let dims = stack.shape().dims.as_slice();
    let dark = fitting(dark, dims)?;
    let change = Corrected { rule, dark: &dark };
    write_changed(alloc, shelf, out, name, &stack, dims, &change)
}
