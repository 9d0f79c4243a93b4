//! What the moves of a log are made from.

ghost use Rattle.std.specs.Prelude.{◌≡◌};
ghost use Rattle.flow_journal.specs.Pasts.{frame};

use nd_base::{FrameName, Plan, Stack};
use std::alloc::Global;

/// The plan of the run and the stack that it goes over, and memory.
#[derive(Clone, Copy)]
pub(crate) struct Source<'a> {
    pub(crate) alloc: Global,
    pub(crate) plan: &'a Plan,
    pub(crate) stack: &'a Stack,
}

/// The frame of this index, which a role loads with this tick.
#[derive(Clone, Copy)]
pub(crate) struct Feed {
    pub(crate) role: u32,
    pub(crate) tick: u64,
    pub(crate) index: u32,
}

/// An array at a node, and the role that acts on it.
#[derive(Clone, Copy)]
pub(crate) struct Act {
    pub(crate) role: u32,
    pub(crate) node: u32,
    pub(crate) name: FrameName,
}

impl Act {
    pub(crate) fn new(role: u32, node: u32, maker: u32, index: u32) -> Act
        ensures role { result.role ≡ role }
        ensures node { result.node ≡ node }
        ensures name { result.name ≡ frame maker index }
    {
        Act {
            role,
            node,
            name: FrameName { maker, index },
        }
    }
}
