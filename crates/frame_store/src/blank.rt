//! Storage that has no name yet.

ghost use Rattle.std.specs.Prelude.{◌≡◌, length, IfOk};
ghost use Rattle.std.specs.Borrow.{sem};

use nd_base::OutOfMemory;
use std::alloc::Global;
use std::marker::Model;

/// Storage for the samples of a frame, seen as its bytes. Whoever has it alone may write them.
#[derive(Drop)]
pub struct Blank {
    pub(crate) cell: Box<Vec<u8>>,
}

impl Model for Blank {
    ghost use Rattle.std.specs.Prelude.{List, ℕ, length, ◌<◌, ◌^◌};

    ghost Value = { List ℕ };

    ghost view = { λ b. b.cell.value.items };

    ghost invariant = { λ b. length b.cell.value.items < 2 ^ 32 };
}

impl Blank {
    ghost use Rattle.frame_store.specs.Lending.{LendsAll};

    /// Storage of `size` bytes.
    ///
    /// # Errors
    ///
    /// Only for want of memory.
    pub fn new(alloc: Global, size: u32) -> Result<Blank, OutOfMemory>
        ensures { IfOk result (λ blank. length blank ≡ size) }
    {
        let bytes = vec![in alloc; 0u8; size as usize]?;
        Ok(Blank {
            cell: Box::new(alloc, bytes)?,
        })
    }

    /// How many bytes there are.
    pub fn size(&self) -> u32
        ensures { result ≡ length self.now }
    {
        self.cell.len() as u32
    }

    /// All bytes, to be written.
    pub fn bytes(&mut self) -> &mut [u8]
        ensures* writes_back { sem 𝓛 (LendsAll self.entry result) }
        ensures value { result.now ≡ self.old }
    {
        self.cell.as_mut_slice()
    }
}
