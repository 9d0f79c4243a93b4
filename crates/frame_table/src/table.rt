//! The table.

ghost use Rattle.std.specs.Prelude.{◌≡◌, ◌<◌, ◌≤◌, [], length, IfOk, OnOk, OnErr};
ghost use Rattle.frame_table.specs.Kept.{Empty, Frame, Storage, kept_at, with_kept, with_room, MayLend, IsPartOf, less_one, IsUntold, MayGiveBack, united};
ghost use Rattle.frame_table.specs.Kept.{is_kept, at_home, IsMadeAnew, IsAsUsed, IsAway, IsSized, IsRefused};

use crate::place::Place;
use nd_base::{Held, OutOfMemory};
use std::alloc::Global;
use std::marker::Model;
use std::mem;

/// Storage for a block, and whether it was made anew.
#[derive(Drop)]
pub struct Taken<B> {
    pub blank: B,
    pub regrown: bool,
}

/// What a board keeps of each block, by the block's number: one frame, with the parts that aren't lent, or the storage that came back, or
/// nothing. Contracts see it as the list of these from number 0 on, as `Kept`.
#[derive(Drop)]
pub struct FrameTable<F: Held> {
    places: Vec<Place<F>>,
}

impl<F: Held> Model for FrameTable<F> {
    ghost use Rattle.std.specs.Prelude.{List, map};
    ghost use Rattle.frame_table.specs.Kept.{Kept};

    ghost Value = { List Kept };

    ghost use Rattle.frame_table.specs.Places.{kept};

    ghost view = { λ t. map (kept F.name_of F.parts F.bytes_of F.is_used) t.places.items };
}

impl<F: Held> FrameTable<F> {
    /// A table without a place. It takes no memory.
    pub fn new(alloc: Global) -> FrameTable<F>
        ensures { result ≡ [] }
    {
        FrameTable {
            places: Vec::new(alloc),
        }
    }

    /// Makes a place for a block that has one or is the next. The room doubles where it is short.
    ///
    /// # Errors
    ///
    /// Only for want of memory, and only where the block has no place yet.
    #[tactic(auto, using(crate::proofs::Views::views))]
    pub fn make_room(&mut self, block: u32) -> Result<(), OutOfMemory>
        requires { block ≤ length self.old }
        ensures ok { OnOk result (self.new ≡ with_room self.old block) }
        ensures err { OnErr result ((block ≡ length self.old) × (self.new ≡ self.old)) }
    {
        if (block as usize) < self.places.len() {
            return Ok(());
        }
        self.places.push(Place::Empty)?;
        Ok(())
    }

    /// Keeps a frame at the place of the block, and drops what was there.
    #[tactic(auto, using(crate::proofs::Views::views))]
    pub fn keep(&mut self, block: u32, frame: F)
        requires { block < length self.old }
        ensures { self.new ≡ with_kept self.old block (Frame (F.name_of frame) (F.parts frame)) }
    {
        self.places[block as usize] = Place::Frame(frame);
    }

    /// Keeps storage at the place of the block, and drops what was there.
    #[tactic(auto, using(crate::proofs::Views::views))]
    pub fn store(&mut self, block: u32, blank: F::Blank)
        requires { block < length self.old }
        ensures { self.new ≡ with_kept self.old block (Storage (F.bytes_of blank) (F.is_used blank)) }
    {
        self.places[block as usize] = Place::Storage(blank);
    }

    /// Drops what is kept of the block, if it has a place.
    #[tactic(auto, using(crate::proofs::Views::views))]
    pub fn forget(&mut self, block: u32)
        ensures { self.new ≡ with_kept self.old block Empty }
    {
        if (block as usize) < self.places.len() {
            self.places[block as usize] = Place::Empty;
        }
    }

    /// Whether anything is kept of the block.
    pub fn keeps(&self, block: u32) -> bool
        ensures { result ≡ is_kept (kept_at self.now block) }
    {
        match self.places.get(block as usize) {
            Some(Place::Frame(_) | Place::Storage(_)) => true,
            Some(Place::Empty) | None => false,
        }
    }

    /// A part of the frame that is kept.
    ///
    /// # Errors
    ///
    /// Only for want of memory, and only where the frame doesn't tell its parts.
    #[tactic(auto, using(crate::proofs::Views::views))]
    pub fn lend(&mut self, block: u32) -> Result<F, OutOfMemory>
        requires place { block < length self.old }
        requires frame { MayLend (kept_at self.old block) }
        ensures part { IfOk result (λ one. IsPartOf (kept_at self.old block) (F.name_of one) (F.parts one)) }
        ensures rest { OnOk result (self.new ≡ with_kept self.old block (less_one (kept_at self.old block))) }
        ensures err { OnErr result (IsUntold (kept_at self.old block) × (self.new ≡ self.old)) }
    {
        match &mut self.places[block as usize] {
            Place::Frame(frame) => frame.part(),
            Place::Empty | Place::Storage(_) => unreachable!(),
        }
    }

    /// Takes parts of the frame that is kept back.
    pub fn give_back(&mut self, block: u32, part: F)
        requires place { block < length self.old }
        requires frame { MayGiveBack (kept_at self.old block) (F.parts part) }
        ensures { self.new ≡ with_kept self.old block (united (kept_at self.old block) (F.parts part)) }
    {
        match &mut self.places[block as usize] {
            Place::Frame(frame) => frame.unite(part),
            Place::Empty | Place::Storage(_) => unreachable!(),
        }
    }

    /// Storage of exactly `size` bytes for the block, whose place is empty then: what is at home there, or else new storage.
    ///
    /// # Errors
    ///
    /// Only for want of memory, and only where the storage isn't at home or the frame doesn't tell its parts. The table is then as it
    /// was, but that a frame whose block has another size may have become storage of that size.
    pub fn take_storage(
        &mut self,
        alloc: Global,
        block: u32,
        size: u32,
    ) -> Result<Taken<F::Blank>, OutOfMemory>
        requires { block < length self.old }
        ensures size { IfOk result (λ taken. F.bytes_of taken.blank ≡ size) }
        ensures regrown { IfOk result (λ taken. IsMadeAnew (at_home size (kept_at self.old block)) taken.regrown) }
        ensures used { IfOk result (λ taken. IsAsUsed (kept_at self.old block) taken.regrown (F.is_used taken.blank)) }
        ensures place { OnOk result (self.new ≡ with_kept self.old block Empty) }
        ensures away { OnErr result (IsAway (at_home size (kept_at self.old block))) }
        ensures same { IsSized size (kept_at self.old block) → OnErr result (self.new ≡ self.old) }
        ensures left { OnErr result (IsRefused size block self.old self.new) }
    {
        let place = &mut self.places[block as usize];
        let left = match mem::replace(place, Place::Empty).into_storage(size) {
            Ok(blank) => {
                return Ok(Taken {
                    blank,
                    regrown: false,
                });
            }
            Err(left) => left,
        };
        let Ok(blank) = F::fresh(alloc, size) else {
            *place = left;
            return Err(OutOfMemory);
        };
        Ok(Taken {
            blank,
            regrown: true,
        })
    }
}
