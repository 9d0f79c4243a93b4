//! `plain GRAPH STACK PREFIX`: runs a graph over a stack in one thread, without drops.

ghost use Rattle.std.specs.Prelude.{◌≡◌, None, Some, OnOk, IfErr};
ghost use Rattle.edge_traits.specs.Written.{with_written};
ghost use Rattle.nd_base.specs.GraphRules.{IsGraph};
ghost use Rattle.nd_stack.specs.KeptStacks.{IsKeptStack};
ghost use Rattle.chain_plain.specs.Plans.{plan_of};
ghost use Rattle.graph_conf.specs.Loads.{limit_fault};
ghost use Rattle.tool_commands.specs.Answers.{objects_of, Ends, status_of};
ghost use Rattle.tool_commands.specs.Causes.{IsCause};
ghost use Rattle.tool_commands.specs.Command.{Plain};
ghost use Rattle.graph_files.specs.OutFiles.{plain_files, with_files};
ghost use Rattle.tool_commands.specs.PlainText.{plain_text};
ghost use Rattle.tool_commands.specs.Stages.{SaveStops, PrintStops, WritesAll};
ghost use Rattle.tool_commands.specs.Unread.{FailsIn, IfUnread};
ghost use Rattle.tool_commands.specs.Works.{outcome_of};

use crate::printing::{finish_all, print};
use crate::prints::plain_text;
use crate::sources::load_sources;
use crate::status::Status;
use edge_traits::{Library, Shelf, Sink};
use nd_base::{Plan, Stack};
use plain_saver::save_files;
use std::alloc::Global;

/// Writes the files of all nodes.
pub(crate) fn save_plain<K: Shelf>(
    alloc: Global,
    shelf: &mut K,
    prefix: &str,
    plan: &Plan,
    stack: &Stack,
) -> Result<(), Status>
    requires graph { IsGraph plan.now.graph }
    requires plan { plan.now ≡ plan_of plan.now.graph stack.now }
    requires kept { IsKeptStack stack.now }
    requires within { limit_fault plan.now.graph stack.now ≡ None }
    ensures ok { OnOk result (K.held shelf.new ≡ with_files (K.held shelf.old) (plain_files plan.now.graph stack.now prefix.now)) }
    ensures finished { OnOk result (K.all_finished shelf.new) }
    ensures stays { OnOk result (K.faults shelf.new ≡ K.faults shelf.old) }
    ensures err { IfErr result (λ s. SaveStops s (K.held shelf.old) (plain_files plan.now.graph stack.now prefix.now)
        (Some (record { graph = plan.now.graph; stack = stack.now; prefix = prefix.now })) (K.held shelf.new) (K.faults shelf.old) (K.faults shelf.new)) }
{
    save_files(alloc, shelf, prefix, plan, stack)?;
    finish_all(shelf)
}

/// Prints how many frames there are, and how many arrays went out of each node.
fn print_plain<T: Sink>(
    alloc: Global,
    out: &mut T,
    plan: &Plan,
    stack: &Stack,
) -> Result<(), Status>
    requires graph { IsGraph plan.now.graph }
    ensures ok { OnOk result (T.written out.new ≡ with_written (T.written out.old) (plain_text plan.now.graph stack.now)) }
    ensures stays { OnOk result (T.faults out.new ≡ T.faults out.old) }
    ensures err { IfErr result
        (λ s. PrintStops s (T.written out.old) (plain_text plan.now.graph stack.now) (T.written out.new) (T.faults out.old) (T.faults out.new)) }
{
    let text = plain_text(alloc, plan, stack)?;
    print(out, text.as_str())
}

/// Runs a graph over a stack in one thread: writes the files of each node, and prints how many arrays went out of it.
pub(crate) fn plain<L: Library, K: Shelf, T: Sink>(
    alloc: Global,
    graph: &str,
    name: &str,
    prefix: &str,
    library: &mut L,
    shelf: &mut K,
    out: &mut T,
) -> Result<(), Status>
    ensures ends { Ends (status_of result) (Some (Plain graph.now name.now prefix.now))
        (objects_of (L.holds library.old) (K.held shelf.old) (K.held shelf.new) (T.written out.old) (T.written out.new)) }
    ensures cause { IsCause (status_of result) (record { library = L.faults library.old; shelf = K.faults shelf.old; sink = T.faults out.old })
        (record { library = L.faults library.new; shelf = K.faults shelf.new; sink = T.faults out.new }) }
    ensures unread { IfUnread (status_of result)
        (FailsIn (L.holds library.old) (L.faults_at library.old) (L.faults_at library.new) (outcome_of (Some (Plain graph.now name.now prefix.now)))) }
    ensures finished { WritesAll (status_of result) → K.all_finished shelf.old → K.all_finished shelf.new }
    ensures library { L.holds library.new ≡ L.holds library.old }
{
    let (plan, stack) = load_sources(alloc, library, graph, name)?;
    save_plain(alloc, shelf, prefix, &plan, &stack)?;
    print_plain(alloc, out, &plan, &stack)
}
