//! The extremes, the sums, the border and the moments of a piece, block by block, so that each pass finds a block where the one before it left it.

ghost use Rattle.std.specs.Prelude.{◌≡◌, ◌+◌, ◌/◌, ◌<◌, ◌≤◌, ◌+ℤ◌, length, take};
ghost use Rattle.nd_base.specs.Samples.{width, number, samples_of};
ghost use Rattle.nd_base.specs.Shapes.{sample_count};
ghost use Rattle.nd_stats.specs.Samples.{placed};
ghost use Rattle.nd_stats.specs.Running.{IsFrame, AreBasics, HaveMomentRooms};

use crate::border::{Edge, edge_of};
use crate::extremes::with_block;
use crate::lines::moments_of;
use crate::sample::part;
use crate::tally::{Extremes, Moments};
use lane_kernels::{sample_at, sums_bytes};
use nd_base::{Dim, SampleType, StatsRule};

/// The numbers of samples that are in none of a measure's lists.
#[derive(Drop)]
pub(crate) struct Basics {
    pub extremes: Extremes,
    pub total: i64,
    pub squares: u128,
    pub edge: Edge,
    pub moments: Moments,
}

impl Moments {
    /// Takes up the moments of later samples.
    fn join(&mut self, later: &Moments)
        requires one { HaveMomentRooms self.old }
        requires two { HaveMomentRooms later.now }
        ensures over { self.new.over ≡ self.old.over + later.now.over }
        ensures m0 { self.new.m0 ≡ self.old.m0 +ℤ later.now.m0 }
        ensures mx { self.new.mx ≡ self.old.mx +ℤ later.now.mx }
        ensures my { self.new.my ≡ self.old.my +ℤ later.now.my }
    {
        self.over += later.over;
        self.m0 += later.m0;
        self.mx += later.mx;
        self.my += later.my;
    }
}

/// How many samples a block has. Those of 32 bits fill half of a nearest cache of 32 KiB.
const BLOCK: usize = 4096;

/// The numbers of a piece that begins at place `from`.
pub(crate) fn basics_of(
    rule: &StatsRule,
    kind: SampleType,
    dims: &[Dim],
    from: u32,
    samples: &[u8],
) -> Basics
    requires frame { IsFrame rule.now dims.now }
    requires some { 0 < length samples.now / width kind }
    requires within { from + length samples.now / width kind ≤ sample_count dims.now }
    ensures { AreBasics rule.now dims.now record {
      place = from;
      value = number kind (take (width kind) samples.now);
    } (placed from (samples_of kind samples.now)) result }
{
    let count = samples.len() / kind.width();
    let first = sample_at(kind, samples, 0);
    let mut extremes = Extremes {
        min: first,
        min_at: from,
        max: first,
        max_at: from,
    };
    let mut total = 0i64;
    let mut squares = 0u128;
    let mut edge = Edge { count: 0, sum: 0 };
    let mut moments = Moments {
        over: 0,
        m0: 0,
        mx: 0,
        my: 0,
    };
    let mut done = 0;
    while done < count {
        let size = (count - done).min(BLOCK);
        let place = from + done as u32;
        let block = part(kind, samples, done, size);
        moments.join(&moments_of(rule, kind, dims, place, block));
        let (more, more_squares) = sums_bytes(kind, block);
        total += more;
        squares += more_squares;
        extremes = with_block(&extremes, kind, block, place);
        edge.extend(&edge_of(rule, kind, dims, place, block));
        done += size;
    }
    Basics {
        extremes,
        total,
        squares,
        edge,
        moments,
    }
}
