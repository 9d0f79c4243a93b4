//! The queue in front of a node.
ghost use Rattle.std.specs.Prelude.{◌≡◌, ◌<◌, ◌≤◌, ◌+◌, ◌^◌, ◌↔◌, List, [], length, slice_get, IfOk, IfErr, OnOk, IsErr, IsNone};
ghost use Rattle.queue_sort.specs.Inboxes.{InboxState, with_last, with_front, without_front};
ghost use Rattle.queue_sort.specs.InboxRuns.{Call, Queues};

use nd_base::OutOfMemory;
use std::alloc::Global;
use std::collections::VecDeque;
use std::marker::Model;
use thiserror::Error;

/// The inbox is full, and here is the item that it did not take.
#[derive(Debug, PartialEq, Eq, Drop, Error)]
#[error("the queue is full")]
pub struct Full<T> {
    pub item: T,
}

/// What waits for the workers of a node, the oldest in front.
///
/// It takes offers up to its size. Items that were popped can be put back in front beyond that.
#[derive(Debug, Drop)]
pub struct Inbox<T> {
    size: u32,
    extra: u32,
    items: VecDeque<T>,
}

impl<T> Model for Inbox<T> {
    ghost use Rattle.std.specs.Prelude.{◌≤◌, ◌<◌, ◌+◌, ◌^◌};
    ghost use Rattle.std.specs.VecDeque.{deque_len, deque_capacity};
    ghost use Rattle.queue_sort.specs.Inboxes.{InboxState};

    ghost Value = { InboxState T };

    ghost view = { λ b. record { size = b.size; extra = b.extra; items = b.items.items } };

    ghost invariant = { λ b. (deque_len b.items ≤ b.size + b.extra)
        × (b.size + b.extra ≤ deque_capacity b.items)
        × (b.size + b.extra < 2 ^ 32) };
}

impl<T> Inbox<T> {
    /// An empty inbox that takes offers up to `size`, with room for `extra` more.
    ///
    /// This is its only call that takes memory.
    pub fn new(alloc: Global, size: u32, extra: u32) -> Result<Inbox<T>, OutOfMemory>
        requires { size + extra < 2 ^ 32 }
        ensures { IfOk result (λ b. b ≡ record { size = size; extra = extra; items = [] }) }
    {
        let items = VecDeque::with_capacity(alloc, (size + extra) as usize)?;
        Ok(Inbox { size, extra, items })
    }

    /// How many items are here.
    pub fn len(&self) -> u32
        ensures len { result ≡ length self.now.items }
        ensures room { result ≤ self.now.size + self.now.extra }
    {
        self.items.len() as u32
    }

    /// Puts an item behind all others, or hands it back where the inbox holds its size or more.
    pub fn offer(&mut self, item: T) -> Result<(), Full<T>>
        ensures full { IsErr result ↔ (self.old.size ≤ length self.old.items) }
        ensures ok { OnOk result (self.new ≡ with_last self.old item) }
        ensures err { IfErr result (λ e. (e.item ≡ item) × (self.new ≡ self.old)) }
    {
        if self.items.len() >= self.size as usize {
            return Err(Full { item });
        }
        self.items.push_back_reserved(item);
        Ok(())
    }

    /// Takes the front, if the inbox isn't empty.
    pub fn pop(&mut self) -> Option<T>
        ensures empty { IsNone result ↔ (self.old.items ≡ []) }
        ensures front { result ≡ slice_get self.old.items 0 }
        ensures rest { self.new ≡ without_front self.old }
    {
        self.items.pop_front()
    }

    /// Makes an item the front, also where the inbox holds its size.
    pub fn put_back(&mut self, item: T)
        requires { length self.old.items < self.old.size + self.old.extra }
        ensures { self.new ≡ with_front self.old item }
    {
        self.items.push_front_reserved(item);
    }
}

/// First in, first out: what any list of offers and pops takes out, and then what is left, are what was here and then
/// what was accepted.
pub fn queues_every_run<T>()
    ensures { (b : InboxState T) (calls : List (Call T)) → Queues b calls }
{}
