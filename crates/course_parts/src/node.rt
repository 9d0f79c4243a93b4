//! What is kept of a node.

ghost use Rattle.std.specs.Prelude.{◌≡◌, ◌≤◌, ◌<ℤ◌, ◌-ℤ◌, ℕ, pos, [], Option, IfOk, if◌then◌else◌};
ghost use Rattle.nd_base.specs.declared.frame.FrameName.{FrameName};
ghost use Rattle.nd_base.specs.declared.measure.Measure.{Measure};
ghost use Rattle.flow_journal.specs.Setting.{Setting, first_prev, node};
ghost use Rattle.flow_journal.specs.Unsaved.{is_file};
ghost use Rattle.board_rules.specs.RunMeasures.{run_measure, run_setting};
ghost use Rattle.course_parts.specs.NodeStates.{AreNodes, IsNode, IsRing};
ghost use Rattle.course_parts.specs.RunRules.{AreRules, IsWorkWithin, as_work};
ghost use Rattle.course_parts.specs.Starts.{Starts, may_measure};

use crate::{NodeRules, NodeWork, Rules};
use nd_base::{FrameName, Measure, OutOfMemory, Run};
use queue_sort::{Inbox, SortList};
use std::alloc::Global;
use std::collections::VecDeque;
use trig_window::Window;

/// A result that waits in a sort list, with its measure at a statistics node.
#[derive(Debug, Drop)]
pub struct Kept {
    pub name: FrameName,
    pub measured: Option<Measure>,
}

/// What is kept of a node. What its kind has no use for stays empty.
#[derive(Drop)]
pub struct NodeState {
    /// What is queued.
    pub inbox: Inbox<FrameName>,
    /// How many jobs are in hand.
    pub jobs: u32,
    pub settled: bool,
    /// What waits at a sorted node, and the previous id.
    pub list: SortList<Kept>,
    /// The ring of a circular node.
    pub window: Window<FrameName>,
    /// What a file node has to save.
    pub unsaved: VecDeque<FrameName>,
    /// How many results were put.
    pub puts: u32,
    /// How many pieces were handed out and stand.
    pub saves: u32,
    /// A piece is in a hand.
    pub saving: bool,
    /// The place of the child whose turn it is, at a node that deals.
    pub turn: u32,
    /// The measures of what went out, in the order of emission.
    pub measures: Vec<Measure>,
}

/// The windows of a node, before any put; only a circular one has any.
fn window_of(alloc: Global, work: NodeWork) -> Result<Window<FrameName>, OutOfMemory>
    requires { IsWorkWithin work }
    ensures { IfOk result (λ w. (s : Setting) (v : ℕ) → as_work work ≡ (node s v).work → IsRing s v [] (node s v).work w) }
{
    match work {
        NodeWork::Watches { pre, post, preset } => Window::new(alloc, pre, post, preset),
        NodeWork::Makes | NodeWork::Passes | NodeWork::Deals | NodeWork::Saves { .. } => {
            Window::new(alloc, 0, 1, 0)
        }
    }
}

/// How many arrays a node may have to save, of so many frames.
fn room_to_save(work: NodeWork, frames: u32) -> usize
    ensures { result ≡ (if is_file (as_work work) then frames else 0) }
{
    match work {
        NodeWork::Saves { .. } => frames as usize,
        NodeWork::Makes | NodeWork::Passes | NodeWork::Deals | NodeWork::Watches { .. } => 0,
    }
}

/// How many arrays a node may have to measure, of so many frames.
fn room_to_measure(work: NodeWork, frames: u32) -> usize
    ensures { result ≡ (if may_measure (as_work work) then frames else 0) }
{
    match work {
        NodeWork::Passes => frames as usize,
        NodeWork::Makes | NodeWork::Deals | NodeWork::Watches { .. } | NodeWork::Saves { .. } => 0,
    }
}

/// The id of the first frame; 1 where there is none.
fn first_id(ids: &[i32]) -> i64
    ensures least { i64.MIN <ℤ result }
    ensures first { result -ℤ pos 1 ≡ first_prev ids.now }
{
    match ids.first() {
        Some(id) => i64::from(*id),
        None => 1,
    }
}

impl NodeState {
    /// A node of these rules before any entry, with all the room that it needs in a run of so many frames. `first` is
    /// the id of the first frame.
    ///
    /// # Errors
    ///
    /// Only for want of memory.
    fn new(
        alloc: Global,
        rules: &NodeRules,
        frames: u32,
        first: i64,
    ) -> Result<NodeState, OutOfMemory>
        requires queue { rules.now.queue ≤ 65535 }
        requires threads { rules.now.threads ≤ 16 }
        requires work { IsWorkWithin rules.now.work }
        requires first { i64.MIN <ℤ first }
        ensures { IfOk result (λ n. (measure : ℕ → FrameName → Option Measure) (s : Setting) (v : ℕ) → Starts measure s v rules.now frames first
            → IsNode measure s v [] n) }
    {
        Ok(NodeState {
            inbox: Inbox::new(alloc, rules.queue, rules.threads)?,
            jobs: 0,
            settled: false,
            list: SortList::new(alloc, rules.sort, first)?,
            window: window_of(alloc, rules.work)?,
            unsaved: VecDeque::with_capacity(alloc, room_to_save(rules.work, frames))?,
            puts: 0,
            saves: 0,
            saving: false,
            turn: 0,
            measures: Vec::with_capacity(alloc, room_to_measure(rules.work, frames))?,
        })
    }
}

/// The nodes of a run before any entry.
///
/// # Errors
///
/// Only for want of memory.
pub fn start_nodes<R: Run>(alloc: Global, rules: &Rules) -> Result<Vec<NodeState>, OutOfMemory>
    requires { AreRules rules.now (run_setting R.graph R.stack) }
    ensures { IfOk result (λ nodes. AreNodes (run_measure R.graph R.stack) (run_setting R.graph R.stack) [] nodes.items) }
{
    let frames = rules.ids.as_slice().len() as u32;
    let first = first_id(rules.ids.as_slice());
    let mut nodes = Vec::with_capacity(alloc, rules.nodes.as_slice().len())?;
    for node in rules.nodes.as_slice() {
        nodes.push(NodeState::new(alloc, node, frames, first)?)?;
    }
    Ok(nodes)
}
