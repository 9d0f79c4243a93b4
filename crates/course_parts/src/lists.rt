//! What goes out of the sort list of a node.

ghost use Rattle.std.specs.Prelude.{◌≡◌, ◌<◌, ◌≤◌, ◌∷◌, [], List, Some, None, vec_len, vec_capacity};
ghost use Rattle.std.specs.List.{All};
ghost use Rattle.nd_base.specs.declared.frame.FrameName.{FrameName};
ghost use Rattle.nd_base.specs.declared.measure.Measure.{Measure};
ghost use Rattle.queue_sort.specs.declared.sort_lists.Waiting.{Waiting};
ghost use Rattle.flow_journal.specs.declared.entry.Why.{Why};
ghost use Rattle.course_parts.specs.declared.node.Kept.{Kept};
ghost use Rattle.course_parts.specs.SortLists.{NothingDue, IsLetOut, why_due, IsFlushed};

use crate::results::keep_measure;
use crate::{Kept, NodeState};
use flow_journal::Why;
use nd_base::FrameName;

/// Lets the least waiting one out of the list of a node where it keeps step or is late, and keeps its measure.
pub fn let_out(node: &mut NodeState, now: u64, sort_time: u64) -> Option<(FrameName, Why)>
    requires ticks { All (λ w. w.tick ≤ now) node.old.list.waiting }
    requires room { (w : Waiting Kept) (ws : List (Waiting Kept)) (m : Measure) (why : Why) → node.old.list.waiting ≡ w ∷ ws
        → why_due node.old.list.last now sort_time w ≡ Some why → w.item.measured ≡ Some m → vec_len node.old.measures < vec_capacity node.old.measures }
    ensures none { result ≡ None → NothingDue now sort_time node.old × (node.new ≡ node.old) }
    ensures some { (name : FrameName) (why : Why) → result ≡ Some (name, why) → IsLetOut now sort_time node.old node.new name why }
{
    let due = node.list.due(now, sort_time)?;
    let Kept { name, measured } = due.item;
    keep_measure(&mut node.measures, measured);
    Some((name, if due.late { Why::Late } else { Why::Step }))
}

/// Takes the least waiting one out of the list of a node, and keeps its measure.
pub fn take_least(node: &mut NodeState) -> Option<FrameName>
    requires { (w : Waiting Kept) (ws : List (Waiting Kept)) (m : Measure) → node.old.list.waiting ≡ w ∷ ws → w.item.measured ≡ Some m
        → vec_len node.old.measures < vec_capacity node.old.measures }
    ensures none { result ≡ None → (node.old.list.waiting ≡ []) × (node.new ≡ node.old) }
    ensures some { (name : FrameName) → result ≡ Some name → IsFlushed node.old node.new name }
{
    let Kept { name, measured } = node.list.flush_next()?;
    keep_measure(&mut node.measures, measured);
    Some(name)
}
