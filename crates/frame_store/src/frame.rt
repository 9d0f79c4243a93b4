//! Frames: storage under a name, in parts.

ghost use Rattle.std.specs.Prelude.{◌≡◌, ◌↔◌, ◌+◌, ◌-◌, ◌≤◌, ◌^◌, length, take, IfOk, IfErr, IsOk};
ghost use Rattle.chain_plain.specs.Content.{IsContent};

use crate::Blank;
use nd_base::{FrameName, Held, Named, OutOfMemory, Run};
use shared_parts::{Part, freeze, thaw};
use std::alloc::Global;
use std::marker::{Model, PhantomData};

/// How many parts a sealed block has.
const ALL_PARTS: u64 = 4_294_967_296;

/// A frame of a run: its name, the bytes of its samples, and some of the 4,294,967,296 parts of the block that they lie in. The
/// bytes are the content of the frame of that name in the run, and through any part they are read in any thread.
///
/// Where a frame is dropped with all parts, the block is given back; where one is dropped with fewer, it stays taken.
pub struct Frame<R: Run> {
    name: FrameName,
    used: u32,
    here: u64,
    alloc: Global,
    part: Part<Vec<u8>, Global>,
    run: PhantomData<R>,
}

impl<R: Run> Model for Frame<R> {
    ghost use Rattle.std.specs.Prelude.{◌≡◌, ◌<◌, ◌≤◌, ◌^◌, length, take};
    ghost use Rattle.chain_plain.specs.Content.{IsContent};
    ghost use Rattle.frame_store.specs.Sealed.{Sealed};

    ghost Value = { Sealed };

    ghost view = { λ f. record {
      name = f.name;
      bytes = take f.used f.part.value.items;
      parts = record { block = f.part.block; size = length f.part.value.items; here = f.here };
    } };

    ghost invariant = { λ f.
        (f.part.count ≡ f.here) × (f.alloc ≡ f.part.heap) × (0 < f.here) × (f.here ≤ 2 ^ 32)
        × (f.used ≤ length f.part.value.items) × (length f.part.value.items < 2 ^ 32)
        × IsContent R.graph R.stack f.name (take f.used f.part.value.items) };
}

impl Blank {
    /// The frame of this name, whose samples are the first `n` bytes. It has all parts of a new block. It takes no memory.
    pub fn seal<R: Run>(self, name: FrameName, n: u32) -> Frame<R>
        requires within { n ≤ length self }
        requires content { IsContent R.graph R.stack name (take n self) }
        ensures name { result.name ≡ name }
        ensures bytes { result.bytes ≡ take n self }
        ensures parts { (result.parts.size ≡ length self) × (result.parts.here ≡ 2 ^ 32) }
    {
        let Blank { cell } = self;
        let (alloc, part) = freeze(cell);
        Frame {
            name,
            used: n,
            here: ALL_PARTS,
            alloc,
            part,
            run: PhantomData,
        }
    }
}

impl<R: Run> Frame<R> {
    /// The bytes of the samples.
    pub fn samples(&self) -> &[u8]
        ensures bytes { result.now ≡ self.now.bytes }
        ensures content { IsContent R.graph R.stack self.now.name result.now }
    {
        &self.part.get()[..self.used as usize]
    }

    /// One part, of the two or more that are here.
    pub fn split_one(&mut self) -> Frame<R>
        requires { 2 ≤ self.old.parts.here }
        ensures rest { self.new ≡ record self.old { parts = record self.old.parts { here = self.old.parts.here - 1 } } }
        ensures one { result ≡ record self.old { parts = record self.old.parts { here = 1 } } }
    {
        let part = self.part.split_one();
        self.here -= 1;
        Frame {
            name: self.name,
            used: self.used,
            here: 1,
            alloc: self.alloc,
            part,
            run: PhantomData,
        }
    }

    /// Takes parts of the same block back.
    pub fn join(&mut self, other: Frame<R>)
        requires { other.parts.block ≡ self.old.parts.block }
        ensures sum { self.new ≡ record self.old { parts = record self.old.parts { here = self.old.parts.here + other.parts.here } } }
        ensures few { self.old.parts.here + other.parts.here ≤ 2 ^ 32 }
    {
        let Frame {
            name: _,
            used: _,
            here,
            alloc: _,
            part,
            run: _,
        } = other;
        self.part.join(part);
        self.here += here;
    }

    /// The storage again, with the bytes as they are, where all parts are here; elsewhere the frame as it was.
    pub fn unseal(self) -> Result<Blank, Frame<R>>
        ensures all { IsOk result ↔ (self.parts.here ≡ 2 ^ 32) }
        ensures size { IfOk result (λ blank. length blank ≡ self.parts.size) }
        ensures bytes { IfOk result (λ blank. take (length self.bytes) blank ≡ self.bytes) }
        ensures err { IfErr result (λ frame. frame ≡ self) }
    {
        if self.here < ALL_PARTS {
            return Err(self);
        }
        let Frame {
            name: _,
            used: _,
            here: _,
            alloc,
            part,
            run: _,
        } = self;
        Ok(Blank {
            cell: thaw(alloc, part),
        })
    }
}

impl<R: Run> Named for Frame<R> {
    type Of = R;

    ghost name_of = { λ f. f.name };

    fn name(&self) -> FrameName {
        self.name
    }
}

impl<R: Run> Held for Frame<R> {
    type Blank = Blank;

    ghost use Rattle.std.specs.Prelude.{Some, true, length};

    ghost parts = { λ f. Some f.parts };

    ghost bytes_of = { λ blank. length blank };

    ghost is_used = { λ blank. true };

    fn fresh(alloc: Global, size: u32) -> Result<Blank, OutOfMemory> {
        Blank::new(alloc, size)
    }

    fn blank_size(blank: &Blank) -> u32 {
        blank.size()
    }

    fn part(&mut self) -> Result<Self, OutOfMemory> {
        Ok(self.split_one())
    }

    fn unite(&mut self, one: Self) {
        self.join(one);
    }

    fn into_blank(self) -> Result<Blank, Self> {
        self.unseal()
    }
}

impl<R: Run> Drop for Frame<R> {
    fn drop(self) {
        let Frame {
            name: _,
            used: _,
            here,
            alloc,
            part,
            run: _,
        } = self;
        if here == ALL_PARTS {
            drop(thaw(alloc, part));
        } else {
            drop(part);
        }
    }
}
