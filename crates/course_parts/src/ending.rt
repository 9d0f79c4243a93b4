//! What is left at the end of a run.

ghost use Rattle.std.specs.Prelude.{◌≡◌, ◌≤◌, [], length, map, vec_capacity};
ghost use Rattle.std.specs.List.{list_all};
ghost use Rattle.course_parts.specs.Endings.{is_over, has_free_hand};

use crate::{NodeState, RoleState};
use nd_base::{Measure, OutOfMemory, Seq};
use std::alloc::Global;

/// Room for the lists of measures of all nodes.
#[derive(Drop)]
pub struct MeasureRoom {
    lists: Vec<Seq<Measure>>,
    ghost empty: { lists.items ≡ [] },
    ghost room: { 32 ≤ vec_capacity lists },
}

impl MeasureRoom {
    /// # Errors
    ///
    /// Only for want of memory.
    pub fn new(alloc: Global) -> Result<MeasureRoom, OutOfMemory> {
        Ok(MeasureRoom {
            lists: Vec::with_capacity(alloc, 32)?,
        })
    }
}

/// The node is settled, with nothing queued and nothing to save.
fn is_over(node: &NodeState) -> bool
    ensures { result ≡ is_over node.now }
{
    node.settled && node.inbox.len() == 0 && node.unsaved.is_empty()
}

/// The role has nothing in hand.
fn has_free_hand(role: &RoleState) -> bool
    ensures { result ≡ has_free_hand role.now }
{
    role.hand.is_free()
}

/// Each node is settled, with nothing queued and nothing to save.
pub fn all_are_over(nodes: &[NodeState]) -> bool
    ensures { result ≡ list_all is_over nodes.now }
{
    nodes.iter().all(is_over)
}

/// No role has anything in hand.
pub fn all_have_free_hands(roles: &[RoleState]) -> bool
    ensures { result ≡ list_all has_free_hand roles.now }
{
    roles.iter().all(has_free_hand)
}

/// The measures of a node.
fn measures_of(node: NodeState) -> Seq<Measure>
    ensures { result ≡ node.measures.items }
{
    let NodeState {
        inbox: _,
        jobs: _,
        settled: _,
        list: _,
        window: _,
        unsaved: _,
        puts: _,
        saves: _,
        saving: _,
        turn: _,
        measures,
    } = node;
    Seq::new(measures)
}

/// The measures of all nodes, in their order.
pub fn all_measures(nodes: Vec<NodeState>, room: MeasureRoom) -> Vec<Seq<Measure>>
    requires { length nodes.items ≤ 32 }
    ensures { result.items ≡ map (λ n. n.measures.items) nodes.items }
{
    let MeasureRoom { mut lists } = room;
    for node in nodes {
        lists.push_reserved(measures_of(node));
    }
    lists
}
