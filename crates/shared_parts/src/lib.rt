//! A value on the heap that is read through parts, in any number of threads, and that is whole again once all its
//! parts are together.
//!
//! The parts are counted by proofs alone: a part is one pointer, memory has no counter, and no call makes a step on shared
//! memory.
#![tactic(auto)]

ghost use Rattle.std.specs.Prelude.{◌≡◌, ℕ, ◌+◌, ◌-◌, ◌^◌, ◌<◌, ◌≤◌};
ghost use Rattle.shared_parts.specs.Ownership.{part_owns, part_shares};

use std::alloc::Allocator;
use std::marker::{Model, PhantomData};

/// Some of the 4,294,967,296 parts of a value that lies in a block of the heap. It shows the value for as long as it is held.
/// All parts of the block together are the block; one that is dropped never comes back, and the block stays taken.
///
/// Contracts see which block it is, by a number of its own, how many parts are here, the value, and the allocator that the
/// block is given back to.
#[derive(Drop)]
pub struct Part<T, A: Allocator> {
    at: *mut T,
    freed_by: PhantomData<*const A>,
    pub ghost heap: { A },
    pub ghost value: { T },
    pub ghost block: { ℕ },
    ghost life: { ℕ },
    pub ghost count: { ℕ },
}

impl<T, A: Allocator> Model for Part<T, A> {
    ghost also_owns = { λ p. part_owns (A.dealloc_token p.heap) T.row p.at p.value p.block p.life p.count };

    ghost also_shares = { λ p _ κ. part_shares T.row p.at p.value p.life κ };
}

/// All parts of the box's value, and its allocator.
pub fn freeze<T: Drop, A: Allocator>(whole: Box<T, A>) -> (A, Part<T, A>)
    ensures allocator { (result.0 ≡ whole.alloc) × (result.1.heap ≡ whole.alloc) }
    ensures value { result.1.value ≡ whole.value }
    ensures all { result.1.count ≡ 2 ^ 32 }
{
    let (at, alloc) = Box::into_raw_with_allocator(whole);
    let all = Part {
        at,
        freed_by: PhantomData,
    };
    (alloc, all)
}

/// The box again, of all parts and the allocator that it came from.
pub fn thaw<T, A: Allocator>(alloc: A, all: Part<T, A>) -> Box<T, A>
    requires allocator { alloc ≡ all.heap }
    requires all { all.count ≡ 2 ^ 32 }
    ensures { (result.value ≡ all.value) × (result.alloc ≡ all.heap) }
{
    let Part { at, freed_by: _ } = all;
    unsafe { Box::from_raw(alloc, at) }
}

impl<T, A: Allocator> Part<T, A> {
    /// The value.
    pub fn get(&self) -> &T
        ensures { result.now ≡ self.now.value }
    {
        unsafe { &*self.at }
    }

    /// One part, of the two or more that are here.
    pub fn split_one(&mut self) -> Part<T, A>
        requires { 1 < self.old.count }
        ensures rest { self.new ≡ record self.old { count = self.old.count - 1 } }
        ensures one { result ≡ record self.old { count = 1 } }
    {
        Part {
            at: self.at,
            freed_by: PhantomData,
        }
    }

    /// Takes parts of the same block back.
    pub fn join(&mut self, other: Part<T, A>)
        requires { other.block ≡ self.old.block }
        ensures sum { self.new ≡ record self.old { count = self.old.count + other.count } }
        ensures few { self.old.count + other.count ≤ 2 ^ 32 }
    {
        let Part { at: _, freed_by: _ } = other;
    }
}

unsafe impl<T: Send + Sync, A: Allocator + Send> Send for Part<T, A> {}

unsafe impl<T: Sync, A: Allocator> Sync for Part<T, A> {}
