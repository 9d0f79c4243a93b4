//! `copy STACK PREFIX`: reads a stack, and writes it in the file layout.

ghost use Rattle.std.specs.Prelude.{◌≡◌, Some, IfOk};
ghost use Rattle.tool_commands.specs.Answers.{objects_of, Ends, status_of};
ghost use Rattle.tool_commands.specs.Stages.{WritesAll};
ghost use Rattle.tool_commands.specs.Causes.{IsCause};
ghost use Rattle.tool_commands.specs.Command.{Copy};
ghost use Rattle.tool_commands.specs.Copy.{copy_graph};
ghost use Rattle.tool_commands.specs.Unread.{FailsIn, IfUnread};
ghost use Rattle.tool_commands.specs.Works.{outcome_of};

use crate::plain::save_plain;
use crate::sources::{load_stack, plan_within};
use crate::stack_files::print_frames;
use crate::status::Status;
use edge_traits::{Library, Shelf, Sink};
use nd_base::{FileRule, Form, Graph, Kind, Mode, Name, NodeRule, OutOfMemory, Seq};
use std::alloc::Global;

/// The graph of a copy: one file node named `copy` on the driver, which puts all frames of a stack into one file.
fn copy_graph(alloc: Global) -> Result<Graph, OutOfMemory>
    ensures { IfOk result (λ graph. graph ≡ copy_graph) }
{
    let node = NodeRule {
        name: Name::new(String::from_str(alloc, "copy")?),
        kind: Kind::File(FileRule {
            mode: Mode::Capture,
            count: 65_536,
            form: Form::Classic,
        }),
        input: 0,
        queue: 20,
        threads: 1,
        sort: 0,
        sort_time: 100,
    };
    Ok(Graph {
        wait: false,
        limit: 0,
        nodes: Seq::new(vec![in alloc; node]?),
    })
}

/// Copies a stack to the file `<prefix>copy_000.nc`, and prints how many frames it has: the plain run of a graph of one file node.
pub(crate) fn copy<L: Library, K: Shelf, T: Sink>(
    alloc: Global,
    name: &str,
    prefix: &str,
    library: &mut L,
    shelf: &mut K,
    out: &mut T,
) -> Result<(), Status>
    ensures ends { Ends (status_of result) (Some (Copy name.now prefix.now))
        (objects_of (L.holds library.old) (K.held shelf.old) (K.held shelf.new) (T.written out.old) (T.written out.new)) }
    ensures cause { IsCause (status_of result) (record { library = L.faults library.old; shelf = K.faults shelf.old; sink = T.faults out.old })
        (record { library = L.faults library.new; shelf = K.faults shelf.new; sink = T.faults out.new }) }
    ensures unread { IfUnread (status_of result)
        (FailsIn (L.holds library.old) (L.faults_at library.old) (L.faults_at library.new) (outcome_of (Some (Copy name.now prefix.now)))) }
    ensures finished { WritesAll (status_of result) → K.all_finished shelf.old → K.all_finished shelf.new }
    ensures library { L.holds library.new ≡ L.holds library.old }
{
    let stack = load_stack(alloc, library, name)?;
    let graph = copy_graph(alloc)?;
    let plan = plan_within(alloc, graph, &stack)?;
    save_plain(alloc, shelf, prefix, &plan, &stack)?;
    print_frames(alloc, out, stack.frames())
}
