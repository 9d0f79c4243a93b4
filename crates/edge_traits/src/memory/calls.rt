//! The calls of an object in memory.

ghost use Rattle.std.specs.Prelude.{◌≡◌, is_ok};
ghost use Rattle.edge_traits.specs.Faults.{Counts};
ghost use Rattle.edge_traits.specs.Memory.{no_calls, is_listed, counted};

use crate::Failed;
use std::marker::Model;

/// Counts calls and faults, and knows which calls fail.
#[derive(Drop)]
pub struct CallCount {
    fails: Vec<u64>,
    made: u64,
    faults: u64,
}

impl Model for CallCount {
    ghost use Rattle.edge_traits.specs.Memory.{Calls};

    ghost Value = { Calls };

    ghost view = { λ s. record { fails = s.fails.items; made = s.made; faults = s.faults } };
}

impl CallCount {
    /// The calls with these numbers, from 0, fail.
    pub fn new(fails: Vec<u64>) -> CallCount
        ensures { result ≡ no_calls fails.items }
    {
        CallCount {
            fails,
            made: 0,
            faults: 0,
        }
    }

    /// Whether the coming call is one that fails.
    pub fn is_listed(&self) -> bool
        ensures { result ≡ is_listed self.now }
    {
        self.fails.contains(&self.made)
    }

    /// Counts a call with its answer.
    pub fn count<T>(&mut self, answer: Result<T, Failed>) -> Result<T, Failed>
        ensures same { result ≡ answer }
        ensures calls { self.new ≡ counted self.old (is_ok answer) }
        ensures cause { Counts self.old.faults self.new.faults answer }
    {
        self.made = self.made.saturating_add(1);
        if answer.is_err() {
            self.faults = self.faults.saturating_add(1);
        }
        answer
    }

    /// How many calls were made.
    pub fn made(&self) -> u64
        ensures { result ≡ self.now.made }
    {
        self.made
    }

    /// How many of them failed.
    pub fn faults(&self) -> u64
        ensures { result ≡ self.now.faults }
    {
        self.faults
    }
}
