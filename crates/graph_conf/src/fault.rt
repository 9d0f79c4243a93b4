//! Why a text is no graph.

use nd_base::{Name, OutOfMemory};
use std::alloc::{AllocError, AllocFailed};
use thiserror::Error;
use trig_window::CalcFault;

/// The first fault of a graph's text. `key` is the text of a key, and `node` the number of a node from 1.
#[derive(Debug, Drop, Error)]
pub enum GraphFault {
    /// The bytes are no TOML.
    #[error("no TOML")]
    Text,
    /// A key that its table doesn't have.
    #[error("unknown key {}", .key.text())]
    UnknownKey { key: Name },
    /// The key's value isn't of its form.
    #[error("{} has another form", .key.text())]
    KeyType { key: Name },
    /// The key's value, or the number of its items, is out of range.
    #[error("{} {value} is out of range", .key.text())]
    Range { key: Name, value: i64 },
    /// A key that has to be given isn't.
    #[error("{} is missing", .key.text())]
    Missing { key: Name },
    /// The node is of no kind that there is.
    #[error("node {node} is of unknown kind")]
    UnknownKind { node: u32 },
    /// A circular, file or scatter node with more than one thread.
    #[error("node {0} may have only one thread")]
    Threads(u32),
    /// The trigger is no expression.
    #[error("trigger: {0}")]
    Calc(CalcFault),
    /// An earlier node has the same name.
    #[error("node {node} has an earlier node's name")]
    DoubleName { node: u32 },
    /// The node's input is neither the driver nor a node that may feed others.
    #[error("node {node} has an unknown input")]
    UnknownInput { node: u32 },
    /// The node's inputs lead in a circle.
    #[error("the inputs of node {node} never reach the driver")]
    Cycle { node: u32 },
    #[error("out of memory")]
    OutOfMemory,
}

impl From<AllocError> for GraphFault {
    ghost use Rattle.std.specs.Prelude.{◌≡◌};
    ghost use Rattle.graph_conf.specs.declared.fault.GraphFault.TheVariants as fault;

    ghost from_gives = { λ _ e. e ≡ fault.OutOfMemory };

    fn from(_: AllocError) -> Self {
        GraphFault::OutOfMemory
    }
}

impl<T: Drop> From<AllocFailed<T>> for GraphFault {
    ghost use Rattle.std.specs.Prelude.{◌≡◌};
    ghost use Rattle.graph_conf.specs.declared.fault.GraphFault.TheVariants as fault;

    ghost from_gives = { λ _ e. e ≡ fault.OutOfMemory };

    fn from(_: AllocFailed<T>) -> Self {
        GraphFault::OutOfMemory
    }
}

impl From<OutOfMemory> for GraphFault {
    ghost use Rattle.std.specs.Prelude.{◌≡◌};
    ghost use Rattle.graph_conf.specs.declared.fault.GraphFault.TheVariants as fault;

    ghost from_gives = { λ _ e. e ≡ fault.OutOfMemory };

    fn from(_: OutOfMemory) -> Self {
        GraphFault::OutOfMemory
    }
}

impl From<CalcFault> for GraphFault {
    ghost use Rattle.std.specs.Prelude.{◌≡◌};
    ghost use Rattle.graph_conf.specs.Answers.{calc_fault};

    ghost from_gives = { λ fault e. e ≡ calc_fault fault };

    fn from(fault: CalcFault) -> Self {
        match fault {
            CalcFault::OutOfMemory => GraphFault::OutOfMemory,
            fault => GraphFault::Calc(fault),
        }
    }
}
