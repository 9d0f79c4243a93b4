//! What holds of files in the layout. The function is a law: it does nothing, and its contract says what holds.

ghost use Rattle.std.specs.Prelude.{◌≡◌, ℕ, ◌+◌, List, length, All, Option};
ghost use Rattle.nd_base.specs.declared.attribute.FileShape.{FileShape};
ghost use Rattle.nd_base.specs.Array.{Array};
ghost use Rattle.cdf_write.specs.Layout.{header, row, layout};
ghost use Rattle.cdf_write.specs.Lengths.{length_of};
ghost use Rattle.cdf_write.specs.Writable.{HasShape};

/// The file of some arrays of one shape has as many bytes as `file_length` tells for their number: its header those of a file
/// without rows, however many records it names, and each row what one row more adds.
pub fn files_have_their_lengths()
    ensures file { (shape : FileShape) (arrays : List Array) → All (HasShape shape) arrays → length (layout shape arrays) ≡ length_of shape (length arrays) }
    ensures header { (shape : FileShape) (numrecs : Option ℕ) → length (header shape numrecs) ≡ length_of shape 0 }
    ensures row { (shape : FileShape) (a : Array) (count : ℕ) → HasShape shape a → length_of shape (count + 1) ≡ length_of shape count + length (row shape a) }
{}
