//! Results of jobs: what their node keeps of them.

ghost use Rattle.std.specs.Prelude.{◌≡◌, ◌<◌, ◌-◌, ◌∷◌, [], true, length, Some, ◌+◌, ◌++◌, vec_len, vec_capacity};
ghost use Rattle.std.specs.VecDeque.{deque_capacity};
ghost use Rattle.queue_sort.specs.Sorting.{keeps_step};
ghost use Rattle.nd_base.specs.declared.measure.Measure.{Measure};
ghost use Rattle.course_parts.specs.SortLists.{IsListed};
ghost use Rattle.nd_base.specs.declared.frame.FrameName.{FrameName};
ghost use Rattle.chain_plain.specs.OneThread.{listed};

use crate::{Kept, NodeState};
use nd_base::{FrameName, Measure};
use queue_sort::Placed;

/// What became of a result at a node with a sort list.
#[derive(Clone, Copy, Debug, PartialEq, Eq)]
pub enum Placement {
    /// It keeps step, and goes out.
    Out,
    /// It waits in the list.
    Waits,
    /// The list is full, and it is dropped.
    Full,
}

/// A job of the node is done, and its result was put.
pub fn count_put(node: &mut NodeState)
    requires some { 0 < node.old.jobs }
    requires few { node.old.puts < 4294967295 }
    ensures { node.new ≡ record node.old { jobs = node.old.jobs - 1; puts = node.old.puts + 1 } }
{
    node.jobs -= 1;
    node.puts += 1;
}

/// A job of a file node is done, and its array is to be saved.
pub fn keep_unsaved(node: &mut NodeState, name: FrameName)
    requires some { 0 < node.old.jobs }
    requires few { node.old.puts < 4294967295 }
    requires room { length node.old.unsaved.items < deque_capacity node.old.unsaved }
    ensures node { node.new ≡ record node.old { jobs = node.old.jobs - 1; puts = node.old.puts + 1; unsaved = node.new.unsaved } }
    ensures items { node.new.unsaved.items ≡ node.old.unsaved.items ++ name ∷ [] }
    ensures room { deque_capacity node.new.unsaved ≡ deque_capacity node.old.unsaved }
{
    let Ok(()) = node.unsaved.push_back(name) else {
        unreachable!()
    };
    count_put(node);
}

/// Keeps the measure of an array that goes out, where there is one.
pub fn keep_measure(measures: &mut Vec<Measure>, measured: Option<Measure>)
    requires { (m : Measure) → measured ≡ Some m → vec_len measures.old < vec_capacity measures.old }
    ensures items { measures.new.items ≡ measures.old.items ++ listed measured }
    ensures capacity { vec_capacity measures.new ≡ vec_capacity measures.old }
{
    if let Some(measured) = measured {
        measures.push_reserved(measured);
    }
}

/// A job of a node with a sort list is done, and its result is placed.
pub fn place(
    node: &mut NodeState,
    id: i64,
    tick: u64,
    name: FrameName,
    measured: Option<Measure>,
) -> Placement
    requires some { 0 < node.old.jobs }
    requires few { node.old.puts < 4294967295 }
    requires room { (m : Measure) → keeps_step node.old.list.last id ≡ true → measured ≡ Some m → vec_len node.old.measures < vec_capacity node.old.measures }
    ensures { IsListed id tick (record { name = name; measured = measured }) node.old node.new result }
{
    count_put(node);
    match node.list.put(id, tick, Kept { name, measured }) {
        Ok(Placed::Out(kept)) => {
            keep_measure(&mut node.measures, kept.measured);
            Placement::Out
        }
        Ok(Placed::Listed) => Placement::Waits,
        Err(_full) => Placement::Full,
    }
}
