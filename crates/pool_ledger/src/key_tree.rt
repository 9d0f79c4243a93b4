//! A search tree over keys.
//!
//! Each fork splits the range of keys that it stands for: keys below its split go to the low side, the others to the high side,
//! and the fork itself keeps the least. Splits are picked so that the keys spread, and nothing is ever rebalanced.
ghost use Rattle.std.specs.Prelude.{◌≡◌, ◌≢◌, ◌==◌, [], ◌∷◌, true};
ghost use Rattle.std.specs.List.{AllByRecursion, list_any};
ghost use Rattle.pool_ledger.specs.Keys.{with_key, without_key, least_from, greatest_below};

use crate::key_range::KeyRange;
use std::marker::Model;
use std::mem;

/// The keys in rising order.
#[cycle(key_tree)]
#[derive(Drop)]
pub struct KeyTree {
    node: Node,
}

#[cycle(key_tree)]
#[derive(Drop)]
enum Node {
    Leaf,
    // The low side, the least key, the split, the high side.
    Fork(Box<KeyTree>, u64, u64, Box<KeyTree>),
}

/// A key that was taken out, and the storage of its fork.
#[derive(Drop)]
pub struct Taken {
    pub key: u64,
    pub low: Box<KeyTree>,
    pub high: Box<KeyTree>,
}

impl Model for KeyTree {
    ghost use Rattle.std.specs.Prelude.{ℕ, List, length};

    ghost Value = { List ℕ };

    ghost use Rattle.pool_ledger.specs.KeyTrees.{keys, IsSplit};

    ghost view = { λ a. keys a.node };

    ghost invariant = { λ a. IsSplit a.node };

    ghost size = { length };

    ghost use Rattle.pool_ledger.specs.KeyTreeFalls.{depth_le-length-keys};

    ghost size_decreases = { λ a h. depth_le-length-keys a.node };
}

impl KeyTree {
    /// No keys.
    pub fn new() -> KeyTree
        ensures { result ≡ [] }
    {
        KeyTree { node: Node::Leaf }
    }

    /// The least key.
    pub fn first(&self) -> Option<u64>
        ensures { result ≡ least_from 0 self.now }
    {
        match &self.node {
            Node::Leaf => None,
            Node::Fork(_, least, _, _) => Some(*least),
        }
    }

    /// The least key from `bound` on.
    pub fn least_from(&self, bound: u64) -> Option<u64>
        ensures { result ≡ least_from bound self.now }
    {
        match &self.node {
            Node::Leaf => None,
            Node::Fork(low, least, split, high) => {
                if bound <= *least {
                    Some(*least)
                } else if bound < *split {
                    match low.least_from(bound) {
                        Some(key) => Some(key),
                        None => high.first(),
                    }
                } else {
                    high.least_from(bound)
                }
            }
        }
    }

    /// The greatest key below `bound`.
    pub fn greatest_below(&self, bound: u64) -> Option<u64>
        ensures { result ≡ greatest_below bound self.now }
    {
        match &self.node {
            Node::Leaf => None,
            Node::Fork(low, least, _, high) => {
                if bound <= *least {
                    return None;
                }
                if let Some(key) = high.greatest_below(bound) {
                    return Some(key);
                }
                match low.greatest_below(bound) {
                    Some(key) => Some(key),
                    None => Some(*least),
                }
            }
        }
    }

    /// Puts a key in, where the tree stands for this range.
    pub fn insert(&mut self, key: u64, range: KeyRange, low: Box<KeyTree>, high: Box<KeyTree>)
        requires absent { AllByRecursion (λ k. k ≢ key) self.old }
        requires low_empty { low.value ≡ [] }
        requires high_empty { high.value ≡ [] }
        ensures { self.new ≡ with_key key self.old }
    {
        match &mut self.node {
            Node::Leaf => {
                self.node = Node::Fork(low, key, range.split(key), high);
            }
            Node::Fork(below, least, middle, above) => {
                let greater = key.max(*least);
                *least = key.min(*least);
                if greater < *middle {
                    below.insert(greater, range.below(*middle), low, high);
                } else {
                    above.insert(greater, range.above(*middle), low, high);
                }
            }
        }
    }

    /// Takes the least key out.
    pub fn take_first(&mut self) -> Taken
        requires { self.old ≢ [] }
        ensures { self.old ≡ result.key ∷ self.new }
    {
        match mem::replace(&mut self.node, Node::Leaf) {
            Node::Leaf => unreachable!(),
            Node::Fork(mut low, key, split, mut high) => {
                if low.first().is_some() {
                    let next = low.take_first();
                    self.node = Node::Fork(low, next.key, split, high);
                    return Taken {
                        key,
                        low: next.low,
                        high: next.high,
                    };
                }
                if high.first().is_some() {
                    let next = high.take_first();
                    self.node = Node::Fork(low, next.key, split, high);
                    return Taken {
                        key,
                        low: next.low,
                        high: next.high,
                    };
                }
                Taken { key, low, high }
            }
        }
    }

    /// Takes a key out.
    pub fn remove(&mut self, key: u64) -> Taken
        requires { list_any (λ k. k == key) self.old ≡ true }
        ensures { self.new ≡ without_key key self.old }
    {
        match &mut self.node {
            Node::Leaf => unreachable!(),
            Node::Fork(low, least, split, high) => {
                if key != *least {
                    if key < *split {
                        return low.remove(key);
                    }
                    return high.remove(key);
                }
            }
        }
        self.take_first()
    }
}
