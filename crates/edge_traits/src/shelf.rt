//! Files to write.

ghost use Rattle.std.specs.Prelude.{◌≡◌, [], length, OnOk, OnErr};
ghost use Rattle.edge_traits.specs.Faults.{Counts};
ghost use Rattle.edge_traits.specs.Files.{with_file, with_more, with_patch, Stands, HasRange, MayCreate, MayAppend, MayPatch};

use crate::Failed;

/// Files to write. A call changes nothing but the name that it is given.
pub trait Shelf {
    ghost use Rattle.std.specs.Prelude.{ℕ, List, Option};
    ghost use Rattle.edge_traits.specs.Files.{Files};

    /// The names with their bytes, where they are told.
    ghost held: { Self → Option Files };

    /// How often a call has failed, up to the greatest `u64`.
    ghost faults: { Self → ℕ };

    /// The second state comes of the first by a `finish` of the name that succeeded.
    ghost finishes: { List ℕ → Self → Self → Type 0 };

    /// No name was created that isn't finished.
    ghost all_finished: { Self → Type 0 };

    /// Leaves the name with no bytes, whatever it had.
    ///
    /// # Errors
    ///
    /// `Failed` where it can't be made. The count of faults then rises, and the name is as
    /// before or has no bytes.
    fn create(&mut self, name: &str) -> Result<(), Failed>
        ensures ok { OnOk result (held self.new ≡ with_file (held self.old) name.now []) }
        ensures err { OnErr result (MayCreate (held self.old) name.now (held self.new)) }
        ensures cause { Counts (faults self.old) (faults self.new) result };

    /// Adds bytes at the end of a name that was created.
    ///
    /// # Errors
    ///
    /// `Failed` where not all could be added. The count of faults then rises, and a front of the
    /// bytes was added.
    fn append(&mut self, name: &str, bytes: &[u8]) -> Result<(), Failed>
        requires { Stands (held self.old) name.now }
        ensures ok { OnOk result (held self.new ≡ with_more (held self.old) name.now bytes.now) }
        ensures err { OnErr result (MayAppend (held self.old) name.now bytes.now (held self.new)) }
        ensures cause { Counts (faults self.old) (faults self.new) result };

    /// Writes bytes over those that a name has from `off` on. It has as many there.
    ///
    /// # Errors
    ///
    /// `Failed` where not all could be written. The count of faults then rises, and the bytes of
    /// the range are not known.
    fn patch(&mut self, name: &str, off: u64, bytes: &[u8]) -> Result<(), Failed>
        requires { HasRange (held self.old) name.now off (length bytes.now) }
        ensures ok { OnOk result (held self.new ≡
            with_patch (held self.old) name.now off bytes.now) }
        ensures err { OnErr result (MayPatch (held self.old) name.now off bytes.now
            (held self.new)) }
        ensures cause { Counts (faults self.old) (faults self.new) result };

    /// Ends the writing of a name that was created. It changes no bytes.
    ///
    /// # Errors
    ///
    /// `Failed` where the file could not be let go in order. The count of faults then rises.
    fn finish(&mut self, name: &str) -> Result<(), Failed>
        requires { Stands (held self.old) name.now }
        ensures files { held self.new ≡ held self.old }
        ensures finishes { OnOk result (finishes name.now self.old self.new) }
        ensures cause { Counts (faults self.old) (faults self.new) result };

    /// Ends the writing of all names that were created and not finished. It changes no bytes.
    ///
    /// # Errors
    ///
    /// `Failed` where a file could not be let go in order. The count of faults then rises.
    fn finish_all(&mut self) -> Result<(), Failed>
        ensures files { held self.new ≡ held self.old }
        ensures finished { OnOk result (all_finished self.new) }
        ensures cause { Counts (faults self.old) (faults self.new) result };
}
