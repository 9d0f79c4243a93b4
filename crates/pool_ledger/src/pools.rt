//! The blocks of a pool, and the holds that they have.
ghost use Rattle.std.specs.Prelude.{◌≡◌, ◌≢◌, ◌+◌, ◌-◌, ◌*◌, ◌/◌, ◌%◌, ◌<◌, ◌≤◌, ◌^◌, ◌↔◌, [], IsTrue, IfOk, OnOk, OnErr, length, take, drop, slice_get, true};
ghost use Rattle.pool_ledger.specs.Grants.{passes, given_up, new_number, left_after, free_in_order};
ghost use Rattle.pool_ledger.specs.Ledger.{empty_ledger, blocks, refs, is_free, held, grant_for, answered, needs_room, after, with_refs, with_block};
ghost use Rattle.pool_ledger.specs.Ledger.{without_blocks, largest_first, has_block};

use crate::grants::{Grant, Refused};
use crate::key_range::NUMBERS;
use crate::key_set::KeySet;
use nd_base::OutOfMemory;
use std::alloc::Global;
use std::collections::VecDeque;
use std::marker::Model;

/// What is kept of a number: the size and the holds of its block. Size 0 means that the number names no block.
#[derive(Clone, Copy, Debug)]
struct Slot {
    size: u32,
    count: u32,
}

/// A pool of blocks, each with a number, a size in bytes and a count of holds.
///
/// A block without a hold is free. No call but `make_room` takes memory.
#[derive(Drop)]
pub struct Pool {
    limit: u64,
    room: u32,
    // By number.
    slots: Vec<Slot>,
    // The keys of the free blocks.
    free: KeySet,
    // The numbers of slots without a block.
    unused: KeySet,
    // The numbers of blocks that were given up and not yet named.
    unnamed: VecDeque<u32>,
    // The bytes of all blocks.
    standing: u64,
    // The bytes of all blocks with a hold.
    held: u64,
}

impl Model for Pool {
    ghost use Rattle.pool_ledger.specs.Ledger.{Ledger};

    ghost Value = { Ledger };

    ghost use Rattle.pool_ledger.specs.Inside.{ledger_of, IsSound};

    ghost view = { ledger_of };

    ghost invariant = { IsSound };
}

// The key of a free block. Keys are in the order of sizes, and of one size in that of numbers.
fn key_of(size: u32, number: u32) -> u64
    ensures { result ≡ size * NUMBERS + number }
{
    u64::from(size) * NUMBERS + u64::from(number)
}

impl Pool {
    /// An empty pool with a limit in bytes, where 0 is no limit. It has no room for a block yet.
    pub fn new(alloc: Global, limit: u64) -> Result<Pool, OutOfMemory>
        ensures { IfOk result (λ p. p ≡ empty_ledger limit 0) }
    {
        Ok(Pool {
            limit,
            room: 0,
            slots: Vec::new(alloc),
            free: KeySet::new(alloc),
            unused: KeySet::new(alloc),
            unnamed: VecDeque::new(alloc),
            standing: 0,
            held: 0,
        })
    }

    /// Takes the memory that one more new block needs. It changes nothing but the room.
    pub fn make_room(&mut self, alloc: Global) -> Result<(), OutOfMemory>
        requires { length self.old.known < 4294967295 }
        ensures made { OnOk result (length self.new.known < self.new.room) }
        ensures rest { self.new ≡ record self.old { room = self.new.room } }
        ensures refused { OnErr result (self.new ≡ self.old) }
    {
        if self.slots.len() < self.room as usize || self.room == u32::MAX {
            return Ok(());
        }
        let room = self.room + 1;
        self.slots.reserve(1)?;
        self.unnamed.reserve(room as usize - self.unnamed.len())?;
        self.free.make_room(alloc, room)?;
        self.unused.make_room(alloc, room)?;
        self.room = room;
        Ok(())
    }

    /// The holds of a block, 0 where no block has this number.
    pub fn refs(&self, b: u32) -> u32
        ensures { result ≡ refs self.now b }
    {
        match self.slots.get(b as usize) {
            Some(slot) => slot.count,
            None => 0,
        }
    }

    /// The bytes of all blocks that have a hold.
    pub fn held(&self) -> u64
        ensures { result ≡ held self.now }
    {
        self.held
    }

    /// Adds a hold to a block that has one.
    pub fn hold(&mut self, b: u32)
        requires has_hold { 0 < refs self.old b }
        requires below_max { refs self.old b < 4294967295 }
        ensures { self.new ≡ with_refs b (refs self.old b + 1) self.old }
    {
        self.slots[b as usize].count += 1;
    }

    /// Takes a hold away, and tells whether the block became free.
    pub fn drop_hold(&mut self, b: u32) -> bool
        requires { 0 < refs self.old b }
        ensures freed { IsTrue result ↔ (refs self.old b ≡ 1) }
        ensures after { self.new ≡ with_refs b (refs self.old b - 1) self.old }
    {
        let Slot { size, count } = self.slots[b as usize];
        let count = count - 1;
        self.slots[b as usize] = Slot { size, count };
        if count != 0 {
            return false;
        }
        self.held -= u64::from(size);
        self.free.insert(key_of(size, b));
        true
    }

    /// What `ask` would answer now.
    pub fn peek(&self, n: u32) -> Result<Grant, Refused>
        requires { n ≢ 0 }
        ensures { result ≡ answered (held self.now) (grant_for n self.now) }
    {
        if self.passes_limit(self.held, n) {
            return Err(Refused { held: self.held });
        }
        if let Some(key) = self.free.least_from(u64::from(n) * NUMBERS) {
            return Ok(Grant {
                block: (key % NUMBERS) as u32,
                size: (key / NUMBERS) as u32,
                fresh: false,
                given_up: 0,
            });
        }
        Ok(self.fresh_grant(n))
    }

    /// Grants a block of at least `n` bytes, and gives it one hold.
    ///
    /// A free block that is large enough serves first. Else a new block is made, for which there has to be room, and
    /// free blocks are given up where the limit asks for it; `given_next` names them.
    pub fn ask(&mut self, n: u32) -> Result<Grant, Refused>
        requires some { n ≢ 0 }
        requires room { needs_room (grant_for n self.old) ≡ true → length self.old.known < self.old.room }
        requires named { self.old.unnamed ≡ [] }
        ensures answer { result ≡ answered (held self.old) (grant_for n self.old) }
        ensures after { self.new ≡ after self.old (grant_for n self.old) }
        ensures refused { OnErr result (self.new ≡ self.old) }
    {
        let grant = self.peek(n)?;
        if grant.fresh {
            self.give_up(grant.given_up);
            self.add(grant.block, n);
        } else {
            self.reuse(grant.block, grant.size);
        }
        Ok(grant)
    }

    /// The number of the next block that the last `ask` gave up, in the order in which they were given up: the largest
    /// first, and of one size the one with the greatest number. None where all of them are named.
    pub fn given_next(&mut self) -> Option<u32>
        ensures named { result ≡ slice_get self.old.unnamed 0 }
        ensures rest { self.new ≡ record self.old { unnamed = drop 1 self.old.unnamed } }
    {
        self.unnamed.pop_front()
    }

    // Whether `n` more bytes pass the limit.
    fn passes_limit(&self, bytes: u64, n: u32) -> bool
        requires { bytes + n < 2 ^ 64 }
        ensures { result ≡ passes self.now.limit (bytes + n) }
    {
        self.limit != 0 && bytes + u64::from(n) > self.limit
    }

    // The grant of a new block of `n` bytes.
    fn fresh_grant(&self, n: u32) -> Grant
        ensures { let given = given_up self.now.limit n (is_free self.now) (blocks self.now) in
            result ≡ record { block = new_number (left_after given (is_free self.now) (blocks self.now)); size = n; fresh = true; given_up = given } }
    {
        let mut standing = self.standing;
        let mut number = match self.unused.least_from(0) {
            Some(number) => number,
            None => self.slots.len() as u64,
        };
        let mut below = u64::MAX;
        let mut given_up = 0;
        while self.passes_limit(standing, n) {
            let Some(key) = self.free.greatest_below(below) else {
                break;
            };
            standing = standing.saturating_sub(key / NUMBERS);
            number = number.min(key % NUMBERS);
            below = key;
            given_up += 1;
        }
        Grant {
            block: number as u32,
            size: n,
            fresh: true,
            given_up,
        }
    }

    // Gives up so many of the largest free blocks.
    fn give_up(&mut self, count: u32)
        requires { count ≤ length (largest_first self.old) }
        ensures given { self.new ≡ without_blocks (take count (largest_first self.old)) self.old }
        ensures room { length self.new.known + length self.new.unnamed ≡ length self.old.known + length self.old.unnamed }
    {
        for _ in 0..count {
            self.give_largest();
        }
    }

    // Gives up the largest free block.
    fn give_largest(&mut self)
        requires { 0 < length (largest_first self.old) }
        ensures given { self.new ≡ without_blocks (take 1 (largest_first self.old)) self.old }
        ensures rest { largest_first self.new ≡ drop 1 (largest_first self.old) }
        ensures room { length self.new.known + length self.new.unnamed ≡ length self.old.known + length self.old.unnamed }
    {
        let Some(key) = self.free.greatest_below(u64::MAX) else {
            unreachable!()
        };
        let number = key % NUMBERS;
        self.free.remove(key);
        self.unused.insert(number);
        self.slots[number as usize] = Slot { size: 0, count: 0 };
        self.standing -= key / NUMBERS;
        self.unnamed.push_back_reserved(number as u32);
    }

    // Makes a new block with one hold.
    fn add(&mut self, number: u32, size: u32)
        requires some { size ≢ 0 }
        requires room { length self.old.known + length self.old.unnamed < self.old.room }
        requires number { number ≡ new_number (blocks self.old) }
        ensures { self.new ≡ with_block number size self.old }
    {
        let slot = Slot { size, count: 1 };
        self.standing += u64::from(size);
        self.held += u64::from(size);
        if number as usize == self.slots.len() {
            self.slots.push_reserved(slot);
            return;
        }
        self.unused.remove(u64::from(number));
        self.slots[number as usize] = slot;
    }

    // Gives the first hold to a free block.
    fn reuse(&mut self, number: u32, size: u32)
        requires { has_block number size (free_in_order (is_free self.old) (blocks self.old)) ≡ true }
        ensures { self.new ≡ with_refs number 1 self.old }
    {
        self.free.remove(key_of(size, number));
        self.slots[number as usize] = Slot { size, count: 1 };
        self.held += u64::from(size);
    }
}
