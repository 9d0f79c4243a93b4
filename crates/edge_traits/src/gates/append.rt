//! A gate that holds a node until a word says that enough was appended.

ghost use Rattle.std.specs.Prelude.{◌≡◌};

use super::turns::{Turns, wait_for};
use crate::Gate;
use std::marker::Model;
use std::sync::atomic::{AtomicBool, AtomicU64, Ordering};
use std::thread;

/// Holds a node's work on the frame of one index until a word, as a told shelf raises it, is at
/// least a number, or until so many turns of other threads went by.
#[derive(Drop)]
pub struct AppendGate<'a> {
    node: u32,
    index: u32,
    word: &'a AtomicU64,
    appends: u64,
    turns: u64,
    gave_up: AtomicBool,
}

impl<'a> Model for AppendGate<'a> {
    ghost use Rattle.edge_traits.specs.Waiting.{Awaiting};

    ghost Value = { Awaiting };

    ghost view = { λ s. record {
      node = s.node;
      index = s.index;
      appends = s.appends;
      turns = s.turns;
    } };
}

impl<'a> AppendGate<'a> {
    /// A gate that holds `before(node, index)` until the word is at least `appends`, or for so
    /// many turns.
    pub fn new(
        node: u32,
        index: u32,
        word: &'a AtomicU64,
        appends: u64,
        turns: u64,
    ) -> AppendGate<'a>
        ensures { result ≡ record {
          node = node;
          index = index;
          appends = appends;
          turns = turns;
        } }
    {
        AppendGate {
            node,
            index,
            word,
            appends,
            turns,
            gave_up: AtomicBool::new(false),
        }
    }

    /// Whether its turns went by while it held.
    pub fn gave_up(&self) -> bool {
        self.gave_up.load(Ordering::SeqCst)
    }

    /// Lets the node go on though the word is less: the turns are spent.
    fn give_up(&self, spent: Turns)
        requires all { spent.all ≡ self.now.turns }
        requires none_left { spent.left ≡ 0 }
    {
        self.gave_up.store(true, Ordering::SeqCst);
    }

    /// Holds the node at the index.
    fn hold(&self, node: u32, index: u32)
        requires node { node ≡ self.now.node }
        requires index { index ≡ self.now.index }
    {
        if let Some(spent) = wait_for(self.word, self.appends, self.turns) {
            self.give_up(spent);
        }
    }
}

impl<'a> Gate for AppendGate<'a> {
    fn before(&self, node: u32, index: u32) {
        if node == self.node && index == self.index {
            self.hold(node, index);
        }
    }

    fn after(&self, _node: u32, _index: u32) {}

    fn idle(&self) {
        thread::yield_now();
    }
}
