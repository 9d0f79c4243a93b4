//! Files to read.

ghost use Rattle.std.specs.Prelude.{◌≡◌, ◌<◌, ◌≤◌, ℕ, List, length, take, drop, IfOk, OnOk};
ghost use Rattle.edge_traits.specs.Faults.{Counts, CountsAt, SizeCall, ReadCall};
ghost use Rattle.edge_traits.specs.Files.{Stands, IsTold};

use crate::Failed;

/// Files to read. No call changes them.
pub trait Library {
    ghost use Rattle.std.specs.Prelude.{ℕ, List, Option};
    ghost use Rattle.edge_traits.specs.Faults.{LibraryCall};
    ghost use Rattle.edge_traits.specs.Files.{Files};

    /// The names with their bytes, where they are told.
    ghost holds: { Self → Option Files };

    /// How often a call has failed, up to the greatest `u64`.
    ghost faults: { Self → ℕ };

    /// How often this call has failed at this name, up to the greatest `u64`. A library that counts its failed calls together tells all of them at each
    /// call and name.
    ghost faults_at: { Self → LibraryCall → List ℕ → ℕ };

    /// The number of bytes under a name.
    ///
    /// # Errors
    ///
    /// `Failed` where the name isn't there or can't be read. The count of faults then rises.
    fn size(&mut self, name: &str) -> Result<u64, Failed>
        ensures files { holds self.new ≡ holds self.old }
        ensures known { OnOk result (Stands (holds self.old) name.now) }
        ensures size { IfOk result (λ n. (file : List ℕ) →
            IsTold (holds self.old) name.now file → n ≡ length file) }
        ensures cause { Counts (faults self.old) (faults self.new) result }
        ensures at { CountsAt SizeCall name.now (faults_at self.old) (faults_at self.new) result };

    /// Reads bytes of a name from `off` on into the front of `buf`, and gives their number, which
    /// may be less than there are. For a `buf` that isn't empty 0 means the end. What then stands
    /// in the rest of `buf`, and after a fault in all of it, is not known.
    ///
    /// # Errors
    ///
    /// `Failed` where the name isn't there or can't be read. The count of faults then rises.
    fn read_at(&mut self, name: &str, off: u64, buf: &mut [u8]) -> Result<usize, Failed>
        ensures files { holds self.new ≡ holds self.old }
        ensures known { OnOk result (Stands (holds self.old) name.now) }
        ensures bound { IfOk result (λ n. n ≤ length buf.new) }
        ensures bytes { IfOk result (λ n. (file : List ℕ) →
            IsTold (holds self.old) name.now file → take n buf.new ≡ take n (drop off file)) }
        ensures end { IfOk result (λ n. (file : List ℕ) →
            IsTold (holds self.old) name.now file → n ≡ 0 → 0 < length buf.new →
            length file ≤ off) }
        ensures cause { Counts (faults self.old) (faults self.new) result }
        ensures at { CountsAt ReadCall name.now (faults_at self.old) (faults_at self.new) result };
}
