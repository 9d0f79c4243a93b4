//! The gate of a run.

use edge_traits::{AppendGate, Gate, PairGate};
use std::sync::atomic::AtomicU64;
use std::thread;

/// The turns of other threads that a gate holds a role for at most.
const TURNS: u64 = 100_000_000;

/// Which role is held.
#[derive(Clone, Copy)]
pub enum GateRule {
    /// None.
    Open,
    /// A node at one index, until it comes to another.
    Pair { node: u32, first: u32, second: u32 },
    /// A node at an index, until so many appends were made.
    Append { node: u32, index: u32, appends: u64 },
}

/// A gate by a rule.
#[derive(Drop)]
pub enum CaseGate<'a> {
    Open,
    Pair(PairGate),
    Append(AppendGate<'a>),
}

impl<'a> CaseGate<'a> {
    /// The gate of a rule. The word counts the appends.
    pub fn new(rule: GateRule, word: &'a AtomicU64) -> CaseGate<'a> {
        match rule {
            GateRule::Open => CaseGate::Open,
            GateRule::Pair {
                node,
                first,
                second,
            } => CaseGate::Pair(PairGate::new(node, first, second, TURNS)),
            GateRule::Append {
                node,
                index,
                appends,
            } => CaseGate::Append(AppendGate::new(node, index, word, appends, TURNS)),
        }
    }

    /// Whether it held a role until its turns were spent; None where it holds none.
    pub fn gave_up(&self) -> Option<bool> {
        match self {
            CaseGate::Open => None,
            CaseGate::Pair(gate) => Some(gate.gave_up()),
            CaseGate::Append(gate) => Some(gate.gave_up()),
        }
    }
}

impl<'a> Gate for CaseGate<'a> {
    fn before(&self, node: u32, index: u32) {
        match self {
            CaseGate::Open => {}
            CaseGate::Pair(gate) => gate.before(node, index),
            CaseGate::Append(gate) => gate.before(node, index),
        }
    }

    fn after(&self, node: u32, index: u32) {
        match self {
            CaseGate::Open => {}
            CaseGate::Pair(gate) => gate.after(node, index),
            CaseGate::Append(gate) => gate.after(node, index),
        }
    }

    fn idle(&self) {
        thread::yield_now();
    }
}
