//! A sink of bytes.

ghost use Rattle.std.specs.Prelude.{◌≡◌, ◌<◌, ◌≤◌, length, take, IfOk, OnErr};
ghost use Rattle.edge_traits.specs.Faults.{Counts};
ghost use Rattle.edge_traits.specs.Written.{with_written};

use crate::Failed;

/// A sink of bytes, as standard output.
pub trait Sink {
    ghost use Rattle.std.specs.Prelude.{ℕ, List, Option};

    /// The bytes written so far, where they are told.
    ghost written: { Self → Option (List ℕ) };

    /// How often a call has failed, up to the greatest `u64`.
    ghost faults: { Self → ℕ };

    /// Writes a front of the bytes, at least one, and gives the number that it took.
    ///
    /// # Errors
    ///
    /// `Failed` where none could be written. The count of faults then rises.
    fn write(&mut self, bytes: &[u8]) -> Result<usize, Failed>
        requires { 0 < length bytes.now }
        ensures some { IfOk result (λ n. 0 < n) }
        ensures bound { IfOk result (λ n. n ≤ length bytes.now) }
        ensures ok { IfOk result (λ n. written self.new ≡
            with_written (written self.old) (take n bytes.now)) }
        ensures err { OnErr result (written self.new ≡ written self.old) }
        ensures cause { Counts (faults self.old) (faults self.new) result };
}
