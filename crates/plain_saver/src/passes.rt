//! Which arrays go out of each node, and how many of them have gone.

ghost use Rattle.std.specs.Prelude.{◌≡◌, ◌+◌, ◌<◌, ◌==◌, ℕ, Some, false, length, slice_get, IfOk};
ghost use Rattle.std.specs.Option.{option_map_or};
ghost use Rattle.plain_saver.specs.Passes.{ArePasses, pass_at};

use crate::source::Source;
use nd_base::{OutOfMemory, Seq};
use std::alloc::Global;

/// The positions of the frames that go out of a node in a plain run, in order, and how many of them have gone.
#[derive(Debug, Drop)]
pub(crate) struct Pass {
    pub(crate) positions: Seq<u32>,
    pub(crate) gone: u32,
}

impl Pass {
    /// Whether this position goes out next.
    pub(crate) fn is_next(&self, index: u32) -> bool
        ensures { result ≡ option_map_or (λ p. p == index) (slice_get self.now.positions self.now.gone) false }
    {
        match self.positions.as_slice().get(self.gone as usize) {
            Some(&position) => position == index,
            None => false,
        }
    }

    /// The position that goes out after `ahead` others.
    pub(crate) fn after(&self, ahead: u32) -> u32
        requires { self.now.gone + ahead < length self.now.positions }
        ensures { slice_get self.now.positions (self.now.gone + ahead) ≡ Some result }
    {
        self.positions.as_slice()[self.gone as usize + ahead as usize]
    }
}

/// What goes out of each node of the graph, of which nothing has gone.
pub(crate) fn passes(alloc: Global, source: &Source) -> Result<Vec<Pass>, OutOfMemory>
    ensures positions { IfOk result (λ v. ArePasses source.now.graph source.now.stack v.items) }
    ensures none { IfOk result (λ v. (node : ℕ) → (pass_at v.items node).gone ≡ 0) }
{
    let mut passes = Vec::new(alloc);
    for place in 0..source.rules().len() {
        let positions = source.passed(alloc, place as u32 + 1)?;
        passes.push(Pass {
            positions: Seq::new(positions),
            gone: 0,
        })?;
    }
    Ok(passes)
}
