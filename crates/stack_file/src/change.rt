//! Ways to change the frames of a stack.

ghost use Rattle.std.specs.Prelude.{◌≡◌, ◌*◌, length};
ghost use Rattle.nd_base.specs.declared.array.Head.{Head};
ghost use Rattle.nd_base.specs.Samples.{width};
ghost use Rattle.nd_base.specs.Shapes.{array_of, sample_count};
ghost use Rattle.nd_base.specs.Stacks.{frame_size};
ghost use Rattle.cdf_write.specs.Writable.{IsWritable};

use nd_base::FileShape;

/// A way to change each array of a stack into another one with the same head, sample type and number of samples.
pub trait Change {
    ghost use Rattle.std.specs.Prelude.{List};
    ghost use Rattle.nd_base.specs.declared.array.Dim.{Dim};
    ghost use Rattle.nd_base.specs.declared.attribute.FileShape.{FileShape};
    ghost use Rattle.nd_base.specs.Array.{Array};

    /// The array that comes of an array.
    ghost change: { Self → Array → Array };

    /// The dimensions of the array that comes of one with these dimensions.
    ghost dims: { Self → List Dim → List Dim };

    /// That arrays of this shape can be changed.
    ghost fits: { Self → FileShape → Type 0 };

    /// Fills `out` with the samples of what comes of an array of this shape that has these samples, the most significant
    /// byte of each first. It takes no memory.
    fn fill(&self, shape: &FileShape, samples: &[u8], out: &mut [u8])
        requires fits { fits self.now shape.now }
        requires shape { IsWritable shape.now }
        requires samples { length samples.now ≡ frame_size shape.now }
        requires room { length out.old ≡ frame_size shape.now }
        ensures size { length out.new ≡ sample_count (dims self.now shape.now.dims) * width shape.now.kind }
        ensures changed { (head : Head) → change self.now (array_of head shape.now.kind shape.now.dims samples.now)
            ≡ array_of head shape.now.kind (dims self.now shape.now.dims) out.new };
}

/// Leaves each array as it is.
#[derive(Clone, Copy, Debug, PartialEq, Eq)]
pub struct Unchanged;

impl Change for Unchanged {
    ghost change = { λ _ a. a };

    ghost dims = { λ _ dims. dims };

    ghost fits = { λ _ _. Unit {0} };

    fn fill(&self, _shape: &FileShape, samples: &[u8], out: &mut [u8]) {
        out.copy_from_slice(samples);
    }
}
