//! A set of numbers in order, which takes memory only where room is made.
ghost use Rattle.std.specs.Prelude.{◌≡◌, ◌≢◌, ◌==◌, ◌<◌, ◌≤◌, ◌+◌, max, [], length, true, OnOk, OnErr, vec_len, vec_capacity};
ghost use Rattle.std.specs.List.{AllByRecursion, list_any};
ghost use Rattle.pool_ledger.specs.Keys.{IsRising, with_key, without_key, least_from, greatest_below};

use crate::key_range::KeyRange;
use crate::key_tree::KeyTree;
use nd_base::OutOfMemory;
use std::alloc::{AllocError, Global};
use std::marker::Model;

/// A set with room for so many keys.
#[derive(Drop)]
pub struct KeySet {
    room: u32,
    tree: KeyTree,
    // Two for each key that the set has room for and doesn't hold.
    spare: Vec<Box<KeyTree>>,
}

impl Model for KeySet {
    ghost use Rattle.std.specs.Prelude.{◌≡◌, ◌≤◌, ◌+◌, ◌*◌, length, vec_len, vec_capacity};
    ghost use Rattle.pool_ledger.specs.Keys.{Keys, IsRising};

    ghost Value = { Keys };

    ghost view = { λ s. record { room = s.room; keys = s.tree } };

    ghost invariant = { λ s. IsRising s.tree × (vec_len s.spare + 2 * length s.tree ≡ 2 * s.room) × (2 * s.room ≤ vec_capacity s.spare) };
}

fn empty_tree(alloc: Global) -> Result<Box<KeyTree>, AllocError> {
    Ok(Box::new(alloc, KeyTree::new())?)
}

// Takes storage that is there, and empties it.
fn take_spare(spare: &mut Vec<Box<KeyTree>>) -> Box<KeyTree>
    requires { 0 < vec_len spare.old }
    ensures empty { result.value ≡ [] }
    ensures len { vec_len spare.new + 1 ≡ vec_len spare.old }
    ensures capacity { vec_capacity spare.new ≡ vec_capacity spare.old }
{
    let Some(mut tree) = spare.pop() else {
        unreachable!()
    };
    *tree = KeyTree::new();
    tree
}

impl KeySet {
    /// An empty set without room.
    pub fn new(alloc: Global) -> KeySet
        ensures { result ≡ record { room = 0; keys = [] } }
    {
        KeySet {
            room: 0,
            tree: KeyTree::new(),
            spare: Vec::new(alloc),
        }
    }

    /// Makes room for so many keys, which are one more than it has room for at most.
    pub fn make_room(&mut self, alloc: Global, room: u32) -> Result<(), OutOfMemory>
        requires { room ≤ self.old.room + 1 }
        ensures made { OnOk result (self.new ≡ record self.old { room = max self.old.room room }) }
        ensures refused { OnErr result (self.new ≡ self.old) }
    {
        if room <= self.room {
            return Ok(());
        }
        let low = empty_tree(alloc)?;
        let high = empty_tree(alloc)?;
        self.spare.reserve(2 * room as usize - self.spare.len())?;
        self.spare.push_reserved(low);
        self.spare.push_reserved(high);
        self.room = room;
        Ok(())
    }

    /// The least key from `bound` on.
    pub fn least_from(&self, bound: u64) -> Option<u64>
        ensures { result ≡ least_from bound self.now.keys }
    {
        self.tree.least_from(bound)
    }

    /// The greatest key below `bound`.
    pub fn greatest_below(&self, bound: u64) -> Option<u64>
        ensures found { result ≡ greatest_below bound self.now.keys }
        ensures rising { IsRising self.now.keys }
    {
        self.tree.greatest_below(bound)
    }

    /// Puts one more key in.
    pub fn insert(&mut self, key: u64)
        requires room { length self.old.keys < self.old.room }
        requires absent { AllByRecursion (λ k. k ≢ key) self.old.keys }
        ensures { self.new ≡ record self.old { keys = with_key key self.old.keys } }
    {
        let low = take_spare(&mut self.spare);
        let high = take_spare(&mut self.spare);
        self.tree.insert(key, KeyRange::all(), low, high);
    }

    /// Takes a key out.
    pub fn remove(&mut self, key: u64)
        requires { list_any (λ k. k == key) self.old.keys ≡ true }
        ensures taken { self.new ≡ record self.old { keys = without_key key self.old.keys } }
        ensures rising { IsRising self.old.keys }
    {
        let taken = self.tree.remove(key);
        self.spare.push_reserved(taken.low);
        self.spare.push_reserved(taken.high);
    }
}
