//! The list that puts the results of a node back in the order of their ids.
ghost use Rattle.std.specs.Prelude.{ℕ, ℤ, List};
ghost use Rattle.queue_sort.specs.Runs.{Call, Sorts};

use nd_base::OutOfMemory;
use std::alloc::Global;
use std::collections::VecDeque;
use std::marker::Model;
use thiserror::Error;

/// One that waits in a sort list, as contracts see it.
#[derive(Debug, Drop)]
pub struct Waiting<T> {
    pub id: i64,
    pub tick: u64,
    pub item: T,
}

/// What became of an item that was put.
#[derive(Debug, PartialEq, Eq, Drop)]
pub enum Placed<T> {
    /// Its id keeps step, so it goes out at once.
    Out(T),
    /// It waits in the list.
    Listed,
}

/// As many wait as may, and here is the item that found no place.
#[derive(Debug, PartialEq, Eq, Drop, Error)]
#[error("the sort list is full")]
pub struct SortFull<T> {
    pub item: T,
}

/// One that goes out of the list.
#[derive(Debug, PartialEq, Eq, Drop)]
pub struct Due<T> {
    pub id: i64,
    pub item: T,
    /// Whether it goes out for its age alone: it keeps no step, and waited for longer than the sort time.
    pub late: bool,
}

/// What waits for its turn at a sorted node, in the order of ids, and of one id in the order of puts.
///
/// A put takes time by the logarithm of what waits, and moves the fewer of those before and behind its place:
/// none where ids come in order or in reverse. Taking the least one out moves nothing.
#[derive(Debug, Drop)]
pub struct SortList<T> {
    size: u32,
    last: i64,
    disordered: u64,
    waiting: VecDeque<Waiting<T>>,
}

impl<T> Model for SortList<T> {
    ghost use Rattle.std.specs.Prelude.{◌≤◌};
    ghost use Rattle.std.specs.VecDeque.{deque_capacity};
    ghost use Rattle.queue_sort.specs.Sorting.{SortState, IsWaitingList};

    ghost Value = { SortState T };

    ghost view = { λ s.
        record { size = s.size; last = s.last; disordered = s.disordered; waiting = s.waiting.items } };

    ghost invariant = { λ s. IsWaitingList s.size s.waiting.items × (s.size ≤ deque_capacity s.waiting) };
}

impl<T> SortList<T> {
    ghost use Rattle.std.specs.Prelude.{◌≡◌, ◌-ℤ◌, ◌<ℤ◌, ◌≤◌, pos, [], if◌then◌else◌, ◌<◌, length, slice_get, IfOk, is_some};
    ghost use Rattle.std.specs.List.{All};
    ghost use Rattle.std.specs.Option.{option_map};
    ghost use Rattle.queue_sort.specs.Sorting.{IsWaitingList, IsPlaceOf, keeps_step, emitted, placed, after_put, let_out};
    ghost use Rattle.queue_sort.specs.PutAnswers.{put_answer};
    ghost use Rattle.queue_sort.specs.DueAnswers.{due_answer};

    /// An empty list that holds up to `size`, where the id `first` is expected next.
    ///
    /// This is its only call that takes memory.
    pub fn new(alloc: Global, size: u32, first: i64) -> Result<SortList<T>, OutOfMemory>
        requires { i64.MIN <ℤ first }
        ensures { IfOk result (λ s. s ≡ record { size = size; last = first -ℤ pos 1; disordered = 0; waiting = [] }) }
    {
        let waiting = VecDeque::with_capacity(alloc, size as usize)?;
        Ok(SortList {
            size,
            last: first - 1,
            disordered: 0,
            waiting,
        })
    }

    /// The id that went out last, or at first the one before the first.
    pub fn last(&self) -> i64
        ensures { result ≡ self.now.last }
    {
        self.last
    }

    /// How many went out of here with an id that kept no step, up to the greatest count.
    pub fn disordered(&self) -> u64
        ensures { result ≡ self.now.disordered }
    {
        self.disordered
    }

    /// Whether an id is the previous one or the next.
    fn keeps_step(&self, id: i64) -> bool
        ensures { result ≡ keeps_step self.now.last id }
    {
        id == self.last || self.last.checked_add(1) == Some(id)
    }

    /// Makes an id the previous one, and counts a break where it keeps no step.
    fn emit(&mut self, id: i64)
        ensures after { self.new ≡ emitted self.old id }
        ensures in_order { IsWaitingList self.new.size self.new.waiting }
    {
        let breaks = u64::from(!self.keeps_step(id));
        self.disordered = self.disordered.saturating_add(breaks);
        self.last = id;
    }

    /// Where an id goes among those that wait: behind each id that is at most this one.
    fn place_of(&self, id: i64) -> usize
        ensures { IsPlaceOf id self.now.waiting result }
    {
        self.waiting.partition_point(|other| other.id <= id)
    }

    /// Adds one at its place among those that wait.
    fn place(&mut self, one: Waiting<T>)
        requires { length self.old.waiting < self.old.size }
        ensures after { self.new ≡ record self.old { waiting = placed one self.old.waiting } }
        ensures in_order { IsWaitingList self.new.size self.new.waiting }
    {
        let place = self.place_of(one.id);
        match self.waiting.insert(place, one) {
            Ok(()) => (),
            Err(_refused) => unreachable!(),
        }
    }

    /// Lets an item out at once where its id keeps step, and else lists it with its tick.
    ///
    /// It hands the item back where the id keeps no step and as many wait as may.
    pub fn put(&mut self, id: i64, tick: u64, item: T) -> Result<Placed<T>, SortFull<T>>
        ensures answer { result ≡ put_answer self.old id item }
        ensures after { self.new ≡ after_put self.old (record { id = id; tick = tick; item = item }) }
        ensures in_order { IsWaitingList self.new.size self.new.waiting }
    {
        if self.keeps_step(id) {
            self.emit(id);
            return Ok(Placed::Out(item));
        }
        if self.waiting.len() >= self.size as usize {
            return Err(SortFull { item });
        }
        self.place(Waiting { id, tick, item });
        Ok(Placed::Listed)
    }

    /// Takes the least one out, if any waits.
    fn take_least(&mut self) -> Option<Waiting<T>>
        ensures least { result ≡ slice_get self.old.waiting 0 }
        ensures rest { self.new ≡ let_out self.old }
        ensures in_order { IsWaitingList self.new.size self.new.waiting }
    {
        let least = self.waiting.pop_front()?;
        self.emit(least.id);
        Some(least)
    }

    /// Takes the least one out where it keeps step, or else where it has waited for longer than the sort time.
    pub fn due(&mut self, now: u64, sort_time: u64) -> Option<Due<T>>
        requires { All (λ w. w.tick ≤ now) self.old.waiting }
        ensures answer { result ≡ due_answer self.old now sort_time }
        ensures after { self.new ≡ (if is_some result then let_out self.old else self.old) }
        ensures in_order { IsWaitingList self.new.size self.new.waiting }
    {
        let least = self.waiting.front()?;
        let late = !self.keeps_step(least.id);
        if late && now - least.tick <= sort_time {
            return None;
        }
        let due = self.take_least()?;
        Some(Due {
            id: due.id,
            item: due.item,
            late,
        })
    }

    /// Takes the least one out, whatever its id and age, if any waits.
    pub fn flush_next(&mut self) -> Option<T>
        ensures answer { result ≡ option_map (λ w. w.item) (slice_get self.old.waiting 0) }
        ensures after { self.new ≡ let_out self.old }
        ensures in_order { IsWaitingList self.new.size self.new.waiting }
    {
        let least = self.take_least()?;
        Some(least.item)
    }
}

/// What any list of calls on a fresh sort list comes to: what waits is in the order of ids, the items of each id leave
/// in the order in which they came, each that leaves has the least id, and the breaks are counted.
pub fn sorts_every_run<T>()
    ensures { (size : ℕ) (last : ℤ) (calls : List (Call T)) → Sorts size last calls }
{}
