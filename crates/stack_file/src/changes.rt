//! The changes of a stack's frames that the program makes.

ghost use Rattle.std.specs.Prelude.{◌≡◌, ◌<◌, ◌≤◌, length};
ghost use Rattle.nd_base.specs.Shapes.{sample_count};
ghost use Rattle.nd_orient.specs.Correction.{IsCorrectRule, corrected};
ghost use Rattle.nd_orient.specs.Orientation.{oriented, oriented_dims};

use crate::change::Change;
use nd_base::{FileShape, NdArray};
use nd_orient::{CorrectRule, Samples, correct_samples, orient_samples};

/// Turns each array to the orientation that a mode gives. It takes arrays of two or more dimensions.
#[derive(Clone, Copy, Debug, PartialEq, Eq)]
pub struct Oriented {
    /// The mode, 0 to 7.
    pub mode: u32,
}

impl Change for Oriented {
    ghost change = { λ s a. oriented s.mode a };

    ghost dims = { λ s dims. oriented_dims s.mode dims };

    ghost fits = { λ s shape. (s.mode < 8) × (2 ≤ length shape.dims) };

    fn fill(&self, shape: &FileShape, samples: &[u8], out: &mut [u8]) {
        orient_samples(self.mode, shape.kind, shape.dims.as_slice(), samples, out);
    }
}

/// Corrects each array by a dark array, which has as many samples.
#[derive(Clone, Copy, Debug)]
pub struct Corrected<'a> {
    pub rule: &'a CorrectRule,
    pub dark: &'a NdArray,
}

impl<'a> Change for Corrected<'a> {
    ghost change = { λ s a. corrected s.rule.now s.dark.now a };

    ghost dims = { λ _ dims. dims };

    ghost fits = { λ s shape. IsCorrectRule s.rule.now × (length s.dark.now.samples ≡ sample_count shape.dims) };

    fn fill(&self, shape: &FileShape, samples: &[u8], out: &mut [u8]) {
        let dark = Samples {
            kind: self.dark.kind(),
            bytes: self.dark.bytes(),
        };
        let input = Samples {
            kind: shape.kind,
            bytes: samples,
        };
        correct_samples(self.rule, &dark, &input, out);
    }
}
