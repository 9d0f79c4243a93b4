//! The ring and the counters of a circular node: which arrays it passes on, keeps and lets go.
ghost use Rattle.std.specs.Prelude.{◌≡◌, ◌-◌, ◌≤◌, List, [], ◌++◌, Bool, length, drop, slice_get, IfOk};
ghost use Rattle.trig_window.specs.Watch.{Watch, new_watch};
ghost use Rattle.trig_window.specs.Watching.{IsAfter, Pushes, SameRule};

use circular_buffer::HeapCircularBuffer;
use nd_base::OutOfMemory;
use std::alloc::Global;
use std::marker::Model;

/// What became of an item that was pushed.
#[derive(Debug, Drop)]
pub enum Passed<T> {
    /// It is kept for a window to come.
    Kept,
    /// It is kept, and the oldest of those that were kept is let go.
    KeptFor(T),
    /// It is passed on, behind what is pending.
    Now(T),
    /// No window has it and none that comes can have it.
    LetGo(T),
}

/// The windows of a circular node, over the items that it puts.
///
/// The first item that fires is a trigger, and after each trigger the first that fires from `post` items later on.
/// With a `preset` above 0 only so many triggers count. A window has up to `pre` items before its trigger, none of
/// them in the window before, and `post` items from the trigger on.
///
/// No call but `new` takes memory.
#[derive(Drop)]
pub struct Window<T> {
    pre: u32,
    post: u32,
    preset: u32,
    // how many items of the last window are still to come
    left: u32,
    // how many triggers are still to count, where `preset` isn't 0
    wanted: u32,
    // how many of the stored items, the oldest, are to go out
    pending: u32,
    stored: HeapCircularBuffer<T>,
}

impl<T> Model for Window<T> {
    ghost use Rattle.trig_window.specs.Watch.{Watch};
    ghost use Rattle.trig_window.specs.WatchFields.{watch_of, IsWatch};

    ghost Value = { Watch T };

    ghost view = { λ w. watch_of w.pre w.post w.preset w.left w.wanted w.pending w.stored };

    ghost invariant = { λ w. IsWatch w.pre w.post w.preset w.left w.wanted w.pending w.stored };
}

impl<T> Window<T> {
    /// The windows of a rule, before any item.
    pub fn new(alloc: Global, pre: u32, post: u32, preset: u32) -> Result<Window<T>, OutOfMemory>
        requires { 1 ≤ post }
        ensures window { IfOk result (λ w. w ≡ new_watch pre post preset) }
        ensures after { IfOk result (λ w. IsAfter w []) }
    {
        let stored = HeapCircularBuffer::with_capacity(alloc, pre as usize)?;
        Ok(Window {
            pre,
            post,
            preset,
            left: 0,
            wanted: preset,
            pending: 0,
            stored,
        })
    }

    /// Puts an item that fired or didn't. Where it is a counted trigger, what was kept becomes pending.
    pub fn push(&mut self, item: T, fired: bool) -> Passed<T>
        requires { self.old.pending ≡ [] }
        ensures rule { SameRule self.old self.new }
        ensures push { (flags : List Bool) → IsAfter self.old flags → Pushes flags fired item self.old self.new result }
    {
        if self.left > 0 {
            self.left -= 1;
            return Passed::Now(item);
        }
        if self.preset > 0 && self.wanted == 0 {
            return Passed::LetGo(item);
        }
        if fired {
            self.left = self.post - 1;
            self.wanted = self.wanted.saturating_sub(1);
            self.pending = self.stored.len() as u32;
            return Passed::Now(item);
        }
        match self.stored.push_back(item) {
            None => Passed::Kept,
            Some(oldest) if self.pre == 0 => Passed::LetGo(oldest),
            Some(oldest) => Passed::KeptFor(oldest),
        }
    }

    /// How many items go out before the one that was passed on last.
    pub fn pending(&self) -> u32
        ensures { result ≡ length self.now.pending }
    {
        self.pending
    }

    /// Takes the oldest item that is pending, or None where none is.
    pub fn ring_next(&mut self) -> Option<T>
        ensures value { result ≡ slice_get self.old.pending 0 }
        ensures rest { self.new ≡ record self.old { pending = drop 1 self.old.pending } }
    {
        if self.pending == 0 {
            return None;
        }
        self.pending -= 1;
        self.stored.pop_front()
    }

    /// Takes the oldest item that is stored, pending ones first, or None where nothing is left. It is for the end,
    /// when no window comes any more.
    pub fn clear_next(&mut self) -> Option<T>
        ensures value { result ≡ slice_get (self.old.pending ++ self.old.ring) 0 }
        ensures rest { self.new ≡ record self.old { pending = drop 1 self.old.pending; ring = drop (1 - length self.old.pending) self.old.ring } }
    {
        self.pending = self.pending.saturating_sub(1);
        self.stored.pop_front()
    }
}
