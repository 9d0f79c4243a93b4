//! The course of a run.

ghost use Rattle.std.specs.Prelude.{◌≡◌, ◌≤◌, ◌<◌, ◌*◌, ◌+◌, ◌∷◌, ℕ, [], true, length, reverse, slice_get, slice_index_or, Some};
ghost use Rattle.flow_journal.specs.Setting.{is_node};
ghost use Rattle.flow_journal.specs.Queued.{has_room, queued};
ghost use Rattle.board_rules.specs.States.{past};
ghost use Rattle.board_rules.specs.RunMeasures.{run_setting};
ghost use Rattle.flow_journal.specs.Accounts.{block_of};

mod asking;
mod emission;
mod ending;
mod grants;
mod holding;
mod lists;
mod moves;
mod puts;
mod reclaims;
mod setting;
mod starting;

use course_parts::{Facts, NodeState, RoleState, Rules};
use flow_journal::Entry;
use nd_base::{FrameName, Held};
use pool_ledger::Pool;
use std::collections::VecDeque;
use std::marker::Model;
use told_log::ToldLog;

/// The log of a run, and what follows from it.
#[derive(Drop)]
pub struct Course<F: Held> {
    rules: Rules,
    log: ToldLog<F>,
    nodes: Vec<NodeState>,
    roles: Vec<RoleState>,
    pool: Pool,
    /// The block of each frame, by name.
    blocks: Vec<u32>,
    facts: Facts,
    /// The arrays that are on their way from one place to another, the next one first. Each has a hold.
    transit: VecDeque<FrameName>,
}

impl<F: Held> Model for Course<F> {
    ghost use Rattle.std.specs.VecDeque.{deque_capacity};
    ghost use Rattle.board_rules.specs.RunMeasures.{run_setting, run_measure};
    ghost use Rattle.run_course.specs.Courses.{Coursed, IsCourse};

    ghost Value = { Coursed };

    ghost view = { λ c. record { told = c.log.told; transit = c.transit.items } };

    ghost invariant = { λ c. IsCourse (run_measure F.Of.graph F.Of.stack) (run_setting F.Of.graph F.Of.stack)
        (record {
          log = c.log;
          rules = c.rules;
          nodes = c.nodes.items;
          roles = c.roles.items;
          pool = c.pool;
          blocks = c.blocks.items;
          facts = c.facts;
          transit = c.transit.items;
          room = deque_capacity c.transit;
        }) };
}

/// The block of a frame, where these are the blocks of so many frames for each maker.
fn block_at(blocks: &[u32], frames: u32, name: FrameName) -> u32
    requires few { frames ≤ 65536 }
    ensures { result ≡ slice_index_or blocks.now (name.maker * frames + name.index) 0 }
{
    let place = u64::from(name.maker) * u64::from(frames) + u64::from(name.index);
    match blocks.get(place as usize) {
        Some(block) => *block,
        None => 0,
    }
}

impl<F: Held> Course<F> {
    /// The block of a frame that has one.
    pub fn block(&self, name: FrameName) -> u32
        ensures { (b : ℕ) → block_of (past self.now.told) name ≡ b ∷ [] → result ≡ b }
    {
        let frames = self.rules.ids.as_slice().len() as u32;
        block_at(&self.blocks, frames, name)
    }

    /// How many arrays are on their way.
    pub fn moving(&self) -> usize
        ensures { result ≡ length self.now.transit }
    {
        self.transit.len()
    }

    /// The next array that is on its way.
    pub fn next_moving(&self) -> FrameName
        requires { 0 < length self.now.transit }
        ensures { slice_get self.now.transit 0 ≡ Some result }
    {
        let Some(name) = self.transit.front() else {
            unreachable!()
        };
        *name
    }

    /// How many arrays are queued at a node.
    pub fn queued_at(&self, v: u32) -> u32
        requires { is_node (run_setting F.Of.graph F.Of.stack) v ≡ true }
        ensures { result ≡ length (queued v (past self.now.told)) }
    {
        self.nodes[v as usize - 1].inbox.len()
    }

    /// Whether the queue of a node takes one more.
    pub fn has_room(&self, node: u32) -> bool
        requires { is_node (run_setting F.Of.graph F.Of.stack) node ≡ true }
        ensures { result ≡ has_room (run_setting F.Of.graph F.Of.stack) (past self.now.told) node }
    {
        self.queued_at(node) < self.queue_of(node)
    }

    /// The entries so far, the oldest first.
    pub fn entries(&self) -> &[Entry]
        ensures { result.now ≡ reverse (past self.now.told) }
    {
        self.log.entries()
    }
}
