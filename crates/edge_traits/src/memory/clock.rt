//! A clock in memory.

ghost use Rattle.std.specs.Prelude.{◌≡◌, IfOk};
ghost use Rattle.edge_traits.specs.Ticks.{last_tick};

use crate::{Clock, OutOfMemory};
use std::alloc::Global;
use std::marker::Model;

/// A clock that gives the ticks of a list, and then its last one for ever.
#[derive(Drop)]
pub struct MemClock {
    ticks: Vec<u64>,
    given: usize,
    last: u64,
}

impl Model for MemClock {
    ghost use Rattle.std.specs.Prelude.{drop};
    ghost use Rattle.edge_traits.specs.Ticks.{Coming};

    ghost Value = { Coming };

    ghost view = { λ s. record { ticks = drop s.given s.ticks.items; last = s.last } };
}

/// The last tick of a list, 0 where it is empty.
fn last_of(ticks: &[u64]) -> u64
    ensures { result ≡ last_tick ticks.now }
{
    match ticks.last() {
        Some(tick) => *tick,
        None => 0,
    }
}

impl MemClock {
    /// A clock with these ticks; an empty list gives 0 for ever.
    pub fn new(_alloc: Global, ticks: Vec<u64>) -> Result<MemClock, OutOfMemory>
        ensures { IfOk result (λ s. s ≡ record {
          ticks = ticks.items;
          last = last_tick ticks.items;
        }) }
    {
        let last = last_of(&ticks);
        Ok(MemClock {
            ticks,
            given: 0,
            last,
        })
    }
}

impl Clock for MemClock {
    ghost use Rattle.std.specs.Prelude.{Some};

    ghost coming = { λ s. Some s };

    fn tick(&mut self) -> u64 {
        match self.ticks.get(self.given) {
            Some(tick) => {
                let tick = *tick;
                self.given += 1;
                tick
            }
            None => self.last,
        }
    }
}
