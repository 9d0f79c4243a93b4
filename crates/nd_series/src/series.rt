//! The last rows of a series, and the sums over them.

ghost use Rattle.std.specs.Prelude.{◌≡◌, ℕ, ◌<◌, ◌≤◌, ◌^◌, IfOk, length, slice_get, slice_index_or, option_copied, pos, ◌+ℤ◌, ◌-ℤ◌, unsigned_abs};
ghost use Rattle.nd_base.specs.GraphRules.{IsBetween};
ghost use Rattle.nd_series.specs.Kept.{no_rows, with_row, fallen, part_at, sums_over};

use crate::row::{Part, SeriesRow};
use circular_buffer::HeapCircularBuffer;
use nd_base::OutOfMemory;
use std::alloc::Global;
use std::marker::Model;

/// Adds the totals of a row to the sums.
fn add_totals(sums: &mut [i128], parts: &[Part])
    requires count { length sums.old ≡ length parts.now }
    requires room { (k : ℕ) → unsigned_abs (slice_index_or sums.old k (pos 0)) < 2 ^ 100 }
    ensures added { (k : ℕ) → k < length sums.new
        → slice_index_or sums.new k (pos 0) ≡ slice_index_or sums.old k (pos 0) +ℤ (part_at k parts.now).total }
    ensures small { (k : ℕ) → unsigned_abs (part_at k parts.now).total ≤ 2 ^ 63 }
{
    for (k, part) in parts.iter().enumerate() {
        sums[k] += i128::from(part.total);
    }
}

/// Takes the totals of a row off the sums.
fn take_totals(sums: &mut [i128], parts: &[Part])
    requires count { length sums.old ≡ length parts.now }
    requires room { (k : ℕ) → unsigned_abs (slice_index_or sums.old k (pos 0)) < 2 ^ 100 }
    ensures { (k : ℕ) → k < length sums.new
        → slice_index_or sums.new k (pos 0) ≡ slice_index_or sums.old k (pos 0) -ℤ (part_at k parts.now).total }
{
    for (k, part) in parts.iter().enumerate() {
        sums[k] -= i128::from(part.total);
    }
}

/// The last rows of some regions, up to a number of them, and of each region the sum of its totals over these rows.
///
/// No call but `new` takes memory.
#[derive(Drop)]
pub struct Series {
    kept: HeapCircularBuffer<SeriesRow>,
    sums: Vec<i128>,
}

impl Model for Series {
    ghost use Rattle.nd_series.specs.Kept.{Kept};
    ghost use Rattle.nd_series.specs.KeptFields.{kept_rows, IsSeries};

    ghost Value = { Kept };

    ghost view = { λ s. kept_rows s.kept s.sums.items };

    ghost invariant = { λ s. IsSeries s.kept s.sums.items };
}

impl Series {
    /// A series without rows, of so many regions, that keeps the last `length` rows.
    ///
    /// # Errors
    ///
    /// Only for want of memory.
    pub fn new(alloc: Global, regions: u32, length: u32) -> Result<Series, OutOfMemory>
        requires regions { IsBetween 1 32 regions }
        requires length { IsBetween 1 4096 length }
        ensures { IfOk result (λ s. s ≡ no_rows regions length) }
    {
        let kept = HeapCircularBuffer::with_capacity(alloc, length as usize)?;
        let sums = vec![in alloc; 0i128; regions as usize]?;
        Ok(Series { kept, sums })
    }

    /// Keeps a row, and gives the oldest one back where it falls out: None exactly where there was room.
    pub fn push(&mut self, row: SeriesRow) -> Option<SeriesRow>
        requires { length row.parts ≡ self.old.regions }
        ensures kept { self.new ≡ with_row self.old row }
        ensures fallen { result ≡ fallen self.old }
    {
        add_totals(&mut self.sums, row.parts.as_slice());
        let fallen = self.kept.push_back(row);
        if let Some(oldest) = &fallen {
            take_totals(&mut self.sums, oldest.parts.as_slice());
        }
        fallen
    }

    /// The sums, one for each region.
    pub fn sums(&self) -> &[i128]
        ensures { result.now ≡ sums_over self.now.regions self.now.rows }
    {
        &self.sums
    }

    /// How many rows are kept.
    pub fn rows(&self) -> u32
        ensures { result ≡ length self.now.rows }
    {
        self.kept.len() as u32
    }

    /// Row `i`, the oldest first; None exactly where `i` is at least `rows`.
    pub fn row(&self, i: u32) -> Option<&SeriesRow>
        ensures { option_copied result ≡ slice_get self.now.rows i }
    {
        self.kept.get(i as usize)
    }
}
