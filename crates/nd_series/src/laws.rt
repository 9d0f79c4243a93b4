//! The laws of series, each as a function that does nothing.

ghost use Rattle.std.specs.Prelude.{◌≡◌, ◌↔◌, ℕ, List, Some};
ghost use Rattle.circular_buffer.specs.Buffer.{keep_last};
ghost use Rattle.nd_series.specs.declared.row.SeriesRow.{SeriesRow};
ghost use Rattle.nd_series.specs.declared.region.Box4.{Box4};
ghost use Rattle.nd_series.specs.Kept.{no_rows, after_pushes};
ghost use Rattle.nd_series.specs.Spelled.{IsNumber, AreRegions};
ghost use Rattle.nd_series.specs.Words.{length_in, regions_in};

/// After every list of pushes a series keeps the last `most` of the rows that were pushed, all of them where they are fewer.
pub fn pushes_keep_the_last()
    ensures { (regions most : ℕ) (pushed : List SeriesRow)
        → after_pushes (no_rows regions most) pushed ≡ record { regions = regions; most = most; rows = keep_last most pushed } }
{}

/// A word asks for rows or for regions exactly where it spells them: a number of one to four digits, or one to 32 regions with semicolons
/// between them, each as four numbers with commas between them.
pub fn words_are_as_spelled()
    ensures rows { (text : List ℕ) (n : ℕ) → (length_in text ≡ Some n) ↔ IsNumber 4 1 4096 text n }
    ensures regions { (text : List ℕ) (boxes : List Box4) → (regions_in text ≡ Some boxes) ↔ AreRegions text boxes }
{}
