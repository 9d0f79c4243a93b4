//! `orient MODE STACK NAME`: turns and mirrors each frame of a stack.

ghost use Rattle.std.specs.Prelude.{◌≡◌, ◌<◌, Some};
ghost use Rattle.tool_commands.specs.Answers.{objects_of, Ends, status_of};
ghost use Rattle.tool_commands.specs.Stages.{WritesAll};
ghost use Rattle.tool_commands.specs.Causes.{IsCause};
ghost use Rattle.tool_commands.specs.Command.{Orient};
ghost use Rattle.tool_commands.specs.Unread.{FailsIn, IfUnread};
ghost use Rattle.tool_commands.specs.Works.{outcome_of};

use crate::sources::load_stack;
use crate::stack_files::write_changed;
use crate::status::Status;
use edge_traits::{Library, Shelf, Sink};
use nd_orient::orient_dims;
use stack_file::Oriented;
use std::alloc::Global;

/// Writes the frames of a stack, oriented by a mode, to a file of this name, and prints how many there are.
pub(crate) fn orient<L: Library, K: Shelf, T: Sink>(
    alloc: Global,
    mode: u32,
    stack: &str,
    name: &str,
    library: &mut L,
    shelf: &mut K,
    out: &mut T,
) -> Result<(), Status>
    requires { mode < 8 }
    ensures ends { Ends (status_of result) (Some (Orient mode stack.now name.now))
        (objects_of (L.holds library.old) (K.held shelf.old) (K.held shelf.new) (T.written out.old) (T.written out.new)) }
    ensures cause { IsCause (status_of result) (record { library = L.faults library.old; shelf = K.faults shelf.old; sink = T.faults out.old })
        (record { library = L.faults library.new; shelf = K.faults shelf.new; sink = T.faults out.new }) }
    ensures unread { IfUnread (status_of result)
        (FailsIn (L.holds library.old) (L.faults_at library.old) (L.faults_at library.new) (outcome_of (Some (Orient mode stack.now name.now)))) }
    ensures finished { WritesAll (status_of result) → K.all_finished shelf.old → K.all_finished shelf.new }
    ensures library { L.holds library.new ≡ L.holds library.old }
{
    let stack = load_stack(alloc, library, stack)?;
    let dims = stack.shape().dims.as_slice();
    if dims.len() < 2 {
        return Err(Status::Sizes);
    }
    let dims = orient_dims(alloc, mode, dims)?;
    write_changed(alloc, shelf, out, name, &stack, &dims, &Oriented { mode })
}
