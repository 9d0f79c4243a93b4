//! The place of a block.

ghost use Rattle.std.specs.Prelude.{◌≡◌, IfOk, IfErr, is_err};
ghost use Rattle.frame_table.specs.Kept.{at_home, was_used, IsLeft, IsMadeAnew};
ghost use Rattle.frame_table.specs.Places.{kept};

use nd_base::Held;

/// What is kept of a block.
#[derive(Drop)]
pub(crate) enum Place<F: Held> {
    Empty,
    Frame(F),
    Storage(F::Blank),
}

impl<F: Held> Place<F> {
    /// The storage of this size that is at home here, or else what stays here.
    pub(crate) fn into_storage(self, size: u32) -> Result<F::Blank, Place<F>>
        ensures size { IfOk result (λ blank. F.bytes_of blank ≡ size) }
        ensures used { IfOk result (λ blank. F.is_used blank ≡ was_used (kept F.name_of F.parts F.bytes_of F.is_used self)) }
        ensures home { IsMadeAnew (at_home size (kept F.name_of F.parts F.bytes_of F.is_used self)) (is_err result) }
        ensures left { IfErr result (λ p. IsLeft size (kept F.name_of F.parts F.bytes_of F.is_used self) (kept F.name_of F.parts F.bytes_of F.is_used p)) }
    {
        let blank = match self {
            Place::Storage(blank) => blank,
            Place::Frame(frame) => match frame.into_blank() {
                Ok(blank) => blank,
                Err(frame) => return Err(Place::Frame(frame)),
            },
            Place::Empty => return Err(Place::Empty),
        };
        if F::blank_size(&blank) == size {
            Ok(blank)
        } else {
            Err(Place::Storage(blank))
        }
    }
}
