//! Writing a stack, each of its frames changed in one way, to one file.

ghost use Rattle.std.specs.Prelude.{◌≡◌, ℕ, length, None, OnOk, IfErr, IfOk};
ghost use Rattle.edge_traits.specs.Written.{with_written};
ghost use Rattle.cdf_write.specs.Writable.{IsWritable};
ghost use Rattle.nd_stack.specs.KeptStacks.{IsKeptStack};
ghost use Rattle.nd_stack.specs.LayoutShape.{HasSmallDims};
ghost use Rattle.graph_conf.specs.Loads.{answer};
ghost use Rattle.stack_file.specs.ChangedStacks.{changed_shape, changed_stack};
ghost use Rattle.tool_commands.specs.Answers.{status_of};
ghost use Rattle.tool_commands.specs.Causes.{IsCause};
ghost use Rattle.tool_commands.specs.Printed.{frames_line};
ghost use Rattle.tool_commands.specs.Stages.{PrintStops, WritesAll};
ghost use Rattle.tool_commands.specs.StackEnds.{EndsAs};
ghost use Rattle.tool_commands.specs.StackFiles.{stack_limit};
ghost use Rattle.tool_commands.specs.Works.{changed_outcome};

use crate::printing::print;
use crate::status::Status;
use cdf_write::file_length;
use edge_traits::{Shelf, Sink};
use graph_conf::LimitFault;
use nd_base::{Dim, FileShape, Form, OutOfMemory, Seq, Stack};
use nd_stack::shape_for;
use stack_file::{Change, save_stack};
use std::alloc::Global;

/// The most bytes of a file in form classic.
const MOST_BYTES: u128 = 2_147_483_647;

/// Prints the number of frames.
pub(crate) fn print_frames<T: Sink>(alloc: Global, out: &mut T, frames: u32) -> Result<(), Status>
    ensures ok { OnOk result (T.written out.new ≡ with_written (T.written out.old) (frames_line frames)) }
    ensures stays { OnOk result (T.faults out.new ≡ T.faults out.old) }
    ensures err { IfErr result (λ s. PrintStops s (T.written out.old) (frames_line frames) (T.written out.new) (T.faults out.old) (T.faults out.new)) }
{
    let line = format!(in alloc; "frames {frames}\n")?;
    print(out, line.as_str())
}

/// Refuses a file of so many arrays of a shape that would be too long.
fn within_limit(shape: &FileShape, count: u32) -> Result<(), LimitFault>
    requires { IsWritable shape.now }
    ensures { result ≡ answer (stack_limit shape.now count) }
{
    let bytes = file_length(shape, u64::from(count));
    if bytes > MOST_BYTES {
        return Err(LimitFault::FileTooLarge { node: 0, bytes });
    }
    Ok(())
}

/// The stack's shape in form classic, with other dimensions.
fn shape_with(alloc: Global, stack: &Stack, dims: &[Dim]) -> Result<FileShape, OutOfMemory>
    ensures { IfOk result (λ shape. shape ≡ changed_shape (λ _. dims.now) stack.now.shape) }
{
    let shape = shape_for(alloc, stack, stack.shape().kind, dims)?;
    Ok(FileShape {
        form: Form::Classic,
        ..shape
    })
}

/// Writes what comes of each frame of a stack to a file of this name, and prints how many frames there are. The changed arrays have these dimensions.
pub(crate) fn write_changed<K: Shelf, T: Sink, C: Change>(
    alloc: Global,
    shelf: &mut K,
    out: &mut T,
    name: &str,
    stack: &Stack,
    dims: &[Dim],
    change: &C,
) -> Result<(), Status>
    requires kept { IsKeptStack stack.now }
    requires fits { C.fits change.now stack.now.shape }
    requires dims { dims.now ≡ C.dims change.now stack.now.shape.dims }
    requires writable { IsWritable (changed_shape (C.dims change.now) stack.now.shape) }
    requires small { HasSmallDims (changed_shape (C.dims change.now) stack.now.shape) }
    ensures ends { EndsAs (status_of result) (changed_outcome name.now (changed_stack (C.change change.now) (C.dims change.now) stack.now))
        (K.held shelf.old) (K.held shelf.new) (T.written out.old) (T.written out.new) }
    ensures cause { (faults : ℕ) → IsCause (status_of result) (record { library = faults; shelf = K.faults shelf.old; sink = T.faults out.old })
        (record { library = faults; shelf = K.faults shelf.new; sink = T.faults out.new }) }
    ensures finished { WritesAll (status_of result) → K.all_finished shelf.old → K.all_finished shelf.new }
{
    let shape = shape_with(alloc, stack, dims)?;
    within_limit(&shape, stack.frames())?;
    save_stack(alloc, shelf, name, &shape, stack, change)?;
    print_frames(alloc, out, stack.frames())
}
