//! The measure of two pieces of an array.

ghost use Rattle.std.specs.Prelude.{◌≡◌, length};
ghost use Rattle.nd_stats.specs.Tallies.{HaveRoom};
ghost use Rattle.nd_stats.specs.Merging.{CanMerge, IsMerged};
ghost use Rattle.nd_stats.specs.Joined.{summed, with_extremes, with_sums, with_moments, with_lists, joined, HasRooms, HaveSumRooms, HaveMomentRooms};
ghost use Rattle.nd_stats.specs.Joined.{HaveListRooms, HaveSameLengths};

use nd_base::Measure;

/// A summary of a piece that can take up that of a later piece.
pub trait Merge {
    /// That the two are summaries of two pieces, the second of the later one.
    ghost can_merge: { Self → Self → Type 0 };

    /// That the third is the summary of both pieces.
    ghost is_merged: { Self → Self → Self → Type 0 };

    /// Takes up the summary of a later piece. It becomes that of both pieces.
    fn merge(&mut self, later: &Self)
        requires { can_merge self.old later.now }
        ensures { is_merged self.old later.now self.new };
}

impl Merge for Measure {
    ghost can_merge = { CanMerge };

    ghost is_merged = { IsMerged };

    fn merge(&mut self, later: &Self) {
        join(self, later);
    }
}

/// Adds sums to sums, place by place.
pub(crate) fn add_each(sums: &mut [i64], more: &[i64])
    requires lengths { length sums.old ≡ length more.now }
    requires room { HaveRoom sums.old }
    requires more { HaveRoom more.now }
    ensures { sums.new ≡ summed sums.old more.now }
{
    for (index, value) in more.iter().enumerate() {
        sums[index] += *value;
    }
}

/// Takes up the extremes of a later piece; of equal ones the earlier place stays.
fn join_extremes(m: &mut Measure, later: &Measure)
    ensures { m.new ≡ with_extremes m.old later.now }
{
    if later.min < m.min {
        m.min = later.min;
        m.min_at = later.min_at;
    }
    if m.max < later.max {
        m.max = later.max;
        m.max_at = later.max_at;
    }
}

/// Adds the sums over all samples and over the border.
fn join_sums(m: &mut Measure, later: &Measure)
    requires one { HaveSumRooms m.old }
    requires two { HaveSumRooms later.now }
    ensures { m.new ≡ with_sums m.old later.now }
{
    m.n += later.n;
    m.total += later.total;
    m.squares += later.squares;
    m.border += later.border;
    m.border_n += later.border_n;
}

/// Adds the sums over the samples that reach the threshold.
fn join_moments(m: &mut Measure, later: &Measure)
    requires one { HaveMomentRooms m.old }
    requires two { HaveMomentRooms later.now }
    ensures { m.new ≡ with_moments m.old later.now }
{
    m.over += later.over;
    m.m0 += later.m0;
    m.mx += later.mx;
    m.my += later.my;
}

/// Adds the histogram and the profiles.
fn join_lists(m: &mut Measure, later: &Measure)
    requires one { HaveListRooms m.old }
    requires two { HaveListRooms later.now }
    requires lengths { HaveSameLengths m.old later.now }
    ensures { m.new ≡ with_lists m.old later.now }
{
    m.below += later.below;
    m.above += later.above;
    add_each(m.bins.as_mut_slice(), later.bins.as_slice());
    add_each(m.x.as_mut_slice(), later.x.as_slice());
    add_each(m.y.as_mut_slice(), later.y.as_slice());
}

/// Adds the numbers of a later piece.
fn join(m: &mut Measure, later: &Measure)
    requires one { HasRooms m.old }
    requires two { HasRooms later.now }
    requires lengths { HaveSameLengths m.old later.now }
    ensures { m.new ≡ joined m.old later.now }
{
    join_lists(m, later);
    join_moments(m, later);
    join_sums(m, later);
    join_extremes(m, later);
}
