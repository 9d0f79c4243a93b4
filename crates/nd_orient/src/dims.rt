//! The dimensions of an oriented array.

ghost use Rattle.std.specs.Prelude.{◌≡◌, ◌<◌, IfOk};
ghost use Rattle.nd_orient.specs.Orientation.{run_over, oriented_dims};

use crate::turn::turn_of;
use nd_base::{Dim, OutOfMemory};
use std::alloc::Global;

/// The dimension, run over as it stands or down.
fn run_over(down: bool, dim: &Dim) -> Dim
    ensures { result ≡ run_over down dim.now }
{
    Dim {
        reverse: if down { !dim.reverse } else { dim.reverse },
        ..*dim
    }
}

/// The dimensions that a mode gives an array of dimensions `dims`: where the mode swaps, the first two change places,
/// and where it runs down a dimension, that dimension's reverse is negated. A single dimension stays as it is.
///
/// # Errors
///
/// Only for want of memory.
pub fn orient_dims(alloc: Global, mode: u32, dims: &[Dim]) -> Result<Vec<Dim>, OutOfMemory>
    requires { mode < 8 }
    ensures { IfOk result (λ out. out.items ≡ oriented_dims mode dims.now) }
{
    let mut out = dims.to_vec(alloc)?;
    if let [first, second, ..] = dims {
        let turn = turn_of(mode);
        let (x, y) = if turn.swaps {
            (second, first)
        } else {
            (first, second)
        };
        out[0] = run_over(turn.x_down, x);
        out[1] = run_over(turn.y_down, y);
    }
    Ok(out)
}
