//! One emission: the entry, and the offers to the children of its node.

ghost use Rattle.std.specs.Prelude.{◌≡◌, ◌<◌, ◌≤◌, ◌%◌, ◌==◌, ◌∷◌, [], true, false, length, drop, take, map, slice_get, Some};
ghost use Rattle.std.specs.List.{All, position};
ghost use Rattle.nd_base.specs.declared.frame.FrameName.{FrameName};
ghost use Rattle.nd_base.specs.declared.measure.Measure.{Measure};
ghost use Rattle.flow_journal.specs.Setting.{is_node, is_sorted, children, node};
ghost use Rattle.flow_journal.specs.Queued.{has_room, queued};
ghost use Rattle.flow_journal.specs.Histories.{is_legal};
ghost use Rattle.flow_journal.specs.Following.{offer, emit};
ghost use Rattle.flow_journal.specs.Turns.{deals, turn, place_after, offered_to, dealt_to, round_from};
ghost use Rattle.board_rules.specs.States.{past};
ghost use Rattle.board_rules.specs.Moving.{with_all};
ghost use Rattle.board_rules.specs.RunMeasures.{run_setting, run_measure};
ghost use Rattle.flow_emit.specs.Emissions.{HasEmitted, before_emission};

use flow_journal::Why;
use nd_base::{FrameName, Held, Measure};
use run_course::Course;
use scatter_rule::{Choice, next_child};

/// The queues of some nodes: how many arrays are queued at each, and how many its queue takes. A graph has at most 32 nodes.
#[derive(Drop)]
struct Queues {
    queued: [u32; 32],
    sizes: [u32; 32],
}

/// The place of a child.
fn place_of(children: &[u32], child: u32) -> Option<usize>
    ensures { result ≡ position (λ other. other == child) children.now }
{
    children.iter().position(|other| *other == child)
}

/// The place after that of a child, round the children.
fn place_after(children: &[u32], child: u32) -> u32
    requires some { 0 < length children.now }
    requires few { length children.now ≤ 32 }
    ensures { result ≡ place_after (Some child) children.now % length children.now }
{
    let count = children.len();
    let place = place_of(children, child).unwrap_or(count);
    ((place + 1) % count) as u32
}

/// Offers the array on its way to each child of the node.
fn offer_all<F: Held>(course: &mut Course<F>, from: u32, name: FrameName)
    requires from { HasEmitted from name course.old.told }
    requires every { deals (run_setting F.Of.graph F.Of.stack) from ≡ false }
    requires node { from ≤ length (run_setting F.Of.graph F.Of.stack).nodes }
    requires next { slice_get course.old.transit 0 ≡ Some name }
    requires legal { is_legal (run_setting F.Of.graph F.Of.stack)
        (past (with_all (run_setting F.Of.graph F.Of.stack) 0 1
        (map (offer name) (children (run_setting F.Of.graph F.Of.stack) from)) course.old.told)) ≡ true }
    ensures { course.new ≡ record course.old {
      told = with_all (run_setting F.Of.graph F.Of.stack) 0 1
          (map (offer name) (children (run_setting F.Of.graph F.Of.stack) from)) course.old.told;
    } }
{
    for place in 0..course.children(from).len() {
        let child = course.children(from)[place];
        if course.has_room(child) {
            course.accept(child, name);
        } else {
            course.fill(child, name);
        }
    }
}

/// The queues of some nodes.
fn queues_of<F: Held>(course: &Course<F>, nodes: &[u32]) -> Queues
    requires few { length nodes.now ≤ 32 }
    requires nodes { All (λ v. is_node (run_setting F.Of.graph F.Of.stack) v ≡ true) nodes.now }
    ensures queued { take (length nodes.now) result.queued ≡ map (λ v. length (queued v (past course.now.told))) nodes.now }
    ensures sizes { take (length nodes.now) result.sizes ≡ map (λ v. (node (run_setting F.Of.graph F.Of.stack) v).queue) nodes.now }
{
    let mut queues = Queues {
        queued: [0; 32],
        sizes: [0; 32],
    };
    for place in 0..nodes.len() {
        queues.queued[place] = course.queued_at(nodes[place]);
        queues.sizes[place] = course.queue_of(nodes[place]);
    }
    queues
}

/// The first of these children, from this place on round, whose queue has room; where none has, the one at this place.
fn first_in_turn<F: Held>(course: &Course<F>, children: &[u32], turn: u32) -> Option<u32>
    requires few { length children.now ≤ 32 }
    requires nodes { All (λ v. is_node (run_setting F.Of.graph F.Of.stack) v ≡ true) children.now }
    requires turn { 0 < length children.now → turn < length children.now }
    ensures { result ≡ slice_get (dealt_to (run_setting F.Of.graph F.Of.stack) (past course.now.told) (round_from turn children.now)) 0 }
{
    if children.is_empty() {
        return None;
    }
    let count = children.len();
    let queues = queues_of(course, children);
    match next_child(turn, &queues.queued[..count], &queues.sizes[..count]) {
        Choice::Give(place) => Some(children[place]),
        Choice::AllFull => Some(children[turn as usize]),
    }
}

/// The child to which a node that deals offers the array that has just gone out of it.
fn next_in_turn<F: Held>(course: &Course<F>, from: u32) -> Option<u32>
    requires from { is_node (run_setting F.Of.graph F.Of.stack) from ≡ true }
    requires deals { deals (run_setting F.Of.graph F.Of.stack) from ≡ true }
    requires emitted { (a : FrameName) × HasEmitted from a course.now.told }
    requires legal { is_legal (run_setting F.Of.graph F.Of.stack) (past course.now.told) ≡ true }
    ensures { result ≡ slice_get (offered_to (run_setting F.Of.graph F.Of.stack) (before_emission course.now.told) from) 0 }
{
    let children = course.children(from);
    first_in_turn(course, children, course.turn(from))
}

/// Offers the array on its way to the child whose turn it is, or the next one with room.
fn deal<F: Held>(course: &mut Course<F>, from: u32, name: FrameName)
    requires from { HasEmitted from name course.old.told }
    requires deals { deals (run_setting F.Of.graph F.Of.stack) from ≡ true }
    requires node { is_node (run_setting F.Of.graph F.Of.stack) from ≡ true }
    requires next { slice_get course.old.transit 0 ≡ Some name }
    requires legal { is_legal (run_setting F.Of.graph F.Of.stack)
        (past (with_all (run_setting F.Of.graph F.Of.stack) 0 1
        (map (offer name) (offered_to (run_setting F.Of.graph F.Of.stack) (before_emission course.old.told) from)) course.old.told)) ≡ true }
    ensures { course.new ≡ record course.old {
      told = with_all (run_setting F.Of.graph F.Of.stack) 0 1
          (map (offer name) (offered_to (run_setting F.Of.graph F.Of.stack) (before_emission course.old.told) from)) course.old.told;
    } }
{
    let Some(child) = next_in_turn(course, from) else {
        return;
    };
    let turn = place_after(course.children(from), child);
    if course.has_room(child) {
        course.deal_to(from, turn, child, name);
    } else {
        course.deal_full(from, turn, child, name);
    }
}

/// Offers the array on its way, which has just gone out of the node, to the node's children, or by a node that deals to one, and
/// lets go of its hold.
pub(crate) fn pass_on<F: Held>(course: &mut Course<F>, from: u32, name: FrameName)
    requires from { HasEmitted from name course.old.told }
    requires node { from ≤ length (run_setting F.Of.graph F.Of.stack).nodes }
    requires next { slice_get course.old.transit 0 ≡ Some name }
    requires legal { is_legal (run_setting F.Of.graph F.Of.stack)
        (past (with_all (run_setting F.Of.graph F.Of.stack) 0 1
        (map (offer name) (offered_to (run_setting F.Of.graph F.Of.stack) (before_emission course.old.told) from)) course.old.told)) ≡ true }
    ensures { course.new ≡ record course.old {
      told = with_all (run_setting F.Of.graph F.Of.stack) 0 1
          (map (offer name) (offered_to (run_setting F.Of.graph F.Of.stack) (before_emission course.old.told) from)) course.old.told;
      transit = drop 1 course.old.transit;
    } }
{
    if course.deals(from) {
        deal(course, from, name);
    } else {
        offer_all(course, from, name);
    }
    course.release();
}

/// An array on its way goes out of the driver, or of a node without a sort list, with its measure at a statistics node.
pub fn emit<F: Held>(
    course: &mut Course<F>,
    from: u32,
    name: FrameName,
    why: Why,
    measured: Option<Measure>,
)
    requires from { from ≤ length (run_setting F.Of.graph F.Of.stack).nodes }
    requires unsorted { is_sorted (run_setting F.Of.graph F.Of.stack) from ≡ false }
    requires measured { measured ≡ run_measure F.Of.graph F.Of.stack from name }
    requires next { slice_get course.old.transit 0 ≡ Some name }
    requires legal { is_legal (run_setting F.Of.graph F.Of.stack)
        (past (with_all (run_setting F.Of.graph F.Of.stack) 0 2 (emit from why name ∷ []) course.old.told)) ≡ true }
    ensures { course.new ≡ record course.old {
      told = with_all (run_setting F.Of.graph F.Of.stack) 0 2 (emit from why name ∷ []) course.old.told;
      transit = drop 1 course.old.transit;
    } }
{
    if from == 0 {
        course.leave_driver(name, why);
    } else {
        course.leave_node(from, name, why, measured);
    }
    pass_on(course, from, name);
}
