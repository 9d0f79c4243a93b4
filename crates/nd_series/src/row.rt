//! What a frame adds to a series.

use nd_base::Seq;

/// The numbers of one region of a frame.
#[derive(Clone, Copy, Debug, PartialEq, Eq)]
pub struct Part {
    pub min: i64,
    pub max: i64,
    pub total: i64,
    /// The sum over the samples at the region's border, each counted once.
    pub border: i64,
    /// How many they are.
    pub border_n: u32,
}

impl Part {
    ghost use Rattle.std.specs.Prelude.{◌≡◌, ◌+◌, ◌<◌, ◌^◌};
    ghost use Rattle.nd_series.specs.Joined.{HasRooms, joined};

    /// The numbers of some samples with those of later ones.
    pub(crate) fn joined(&self, later: &Part) -> Part
        requires one { HasRooms self.now }
        requires two { HasRooms later.now }
        ensures { result ≡ joined self.now later.now }
    {
        Part {
            min: self.min.min(later.min),
            max: self.max.max(later.max),
            total: self.total + later.total,
            border: self.border + later.border,
            border_n: self.border_n + later.border_n,
        }
    }
}

/// The numbers of each region of a frame.
#[derive(Debug, Drop)]
pub struct SeriesRow {
    /// The frame's unique id.
    pub id: i32,
    /// One for each region, in the order of the regions.
    pub parts: Seq<Part>,
}
