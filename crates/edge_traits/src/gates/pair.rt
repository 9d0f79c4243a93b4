//! A gate that holds a node at one index until it comes to another.

ghost use Rattle.std.specs.Prelude.{◌≡◌};

use super::turns::{Turns, wait_for};
use crate::Gate;
use std::marker::Model;
use std::sync::atomic::{AtomicBool, AtomicU64, Ordering};
use std::thread;

/// Holds a node's work on the frame of one index until its work on the frame of another begins, or
/// until so many turns of other threads went by.
#[derive(Drop)]
pub struct PairGate {
    node: u32,
    first: u32,
    second: u32,
    turns: u64,
    opened: AtomicU64,
    gave_up: AtomicBool,
}

impl Model for PairGate {
    ghost use Rattle.edge_traits.specs.Waiting.{Pair};

    ghost Value = { Pair };

    ghost view = { λ s. record {
      node = s.node;
      first = s.first;
      second = s.second;
      turns = s.turns;
    } };
}

impl PairGate {
    /// A gate that holds `before(node, first)` until `before(node, second)`, or for so many turns.
    pub fn new(node: u32, first: u32, second: u32, turns: u64) -> PairGate
        ensures { result ≡ record { node = node; first = first; second = second; turns = turns } }
    {
        PairGate {
            node,
            first,
            second,
            turns,
            opened: AtomicU64::new(0),
            gave_up: AtomicBool::new(false),
        }
    }

    /// Whether its turns went by while it held.
    pub fn gave_up(&self) -> bool {
        self.gave_up.load(Ordering::SeqCst)
    }

    /// Lets the first index pass from now on: the second one is there.
    fn open(&self, node: u32, index: u32)
        requires node { node ≡ self.now.node }
        requires second { index ≡ self.now.second }
    {
        self.opened.store(1, Ordering::SeqCst);
    }

    /// Lets the first index pass though the second one isn't there: the turns are spent.
    fn give_up(&self, spent: Turns)
        requires all { spent.all ≡ self.now.turns }
        requires none_left { spent.left ≡ 0 }
    {
        self.gave_up.store(true, Ordering::SeqCst);
    }

    /// Holds the first index.
    fn hold(&self, node: u32, index: u32)
        requires node { node ≡ self.now.node }
        requires first { index ≡ self.now.first }
    {
        if let Some(spent) = wait_for(&self.opened, 1, self.turns) {
            self.give_up(spent);
        }
    }
}

impl Gate for PairGate {
    fn before(&self, node: u32, index: u32) {
        if node == self.node && index == self.second {
            self.open(node, index);
        } else if node == self.node && index == self.first {
            self.hold(node, index);
        }
    }

    fn after(&self, _node: u32, _index: u32) {}

    fn idle(&self) {
        thread::yield_now();
    }
}
