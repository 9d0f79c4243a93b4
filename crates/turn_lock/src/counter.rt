//! The smallest object: it counts, and knows who has counted. Tests and benchmarks use it, and it shows how an object is written.

use crate::object::Object;
use std::alloc::Global;
use std::marker::Model;

/// One count, and the role that made it.
#[derive(Clone, Copy, Debug, PartialEq, Eq)]
pub struct Count {
    pub role: u32,
}

/// What a role may ask of the counter.
#[derive(Clone, Copy, Debug, PartialEq, Eq)]
pub enum CounterOp {
    /// Count one.
    Add { role: u32 },
    /// How many have been counted?
    Total { role: u32 },
    /// Who has counted first? For a role that has counted itself.
    First { role: u32 },
}

#[derive(Clone, Copy, Debug, PartialEq, Eq)]
pub enum CounterReply {
    /// So many had been counted, before this count where it is one.
    Counted(u64),
    FirstRole(u32),
    NoMemory,
}

/// It means the list of its counts.
#[derive(Drop)]
pub struct Counter {
    log: Vec<Count>,
}

impl Model for Counter {
    ghost use Rattle.std.specs.Prelude.{List};
    ghost use Rattle.turn_lock.specs.declared.counter.Count.{Count};

    ghost Value = { List Count };

    ghost view = { λ c. c.log.items };
}

impl Counter {
    ghost use Rattle.std.specs.Prelude.{◌≡◌, []};

    pub fn new(alloc: Global) -> Counter
        ensures { result ≡ [] }
    {
        Counter {
            log: Vec::new(alloc),
        }
    }

    pub fn counts(&self) -> &[Count]
        ensures { result.now ≡ self.now }
    {
        self.log.as_slice()
    }
}

impl Object for Counter {
    type Op = CounterOp;

    type Reply = CounterReply;

    type Entry = Count;

    ghost use Rattle.turn_lock.specs.Counting.{asked_by, counted_by, MayAsk, Answers};

    ghost entries = { λ c. c };

    ghost role = { asked_by };

    ghost begins = { counted_by };

    ghost may = { MayAsk };

    ghost answers = { Answers };

    #[tactic(auto, using(crate::proofs::Growth::moves_few))]
    fn play(&mut self, alloc: Global, op: CounterOp) -> CounterReply {
        match op {
            CounterOp::Add { role } => {
                let before = self.log.len() as u64;
                match self.log.push(Count { role }) {
                    Ok(()) => CounterReply::Counted(before),
                    Err(_) => CounterReply::NoMemory,
                }
            }
            CounterOp::Total { role: _ } => CounterReply::Counted(self.log.len() as u64),
            CounterOp::First { role: _ } => CounterReply::FirstRole(self.log[0].role),
        }
    }
}
