//! Where the forks of a key tree split.
//!
//! A key is a size and a number. The sizes of blocks are few, so each other fork splits where those of one size begin or end, as long as
//! its range has others, and the forks between halve the range, so that no path is long whatever the sizes are. The numbers of blocks are
//! the least that serve, so a range of one size splits at 16, 256 and so on, and in the middle where it ends before. Only how deep a
//! tree grows depends on this.

/// How many numbers there are: a key is its size times this, plus its number.
pub const NUMBERS: u64 = 4_294_967_296;

// Where the numbers of a range that begins with 0 split; else they split at so many times the first.
const FIRST_NUMBERS: u64 = 16;

/// The keys that come to one place of a tree: those from the first to the last.
#[derive(Clone, Copy)]
pub struct KeyRange {
    first: u64,
    last: u64,
    /// Whether a fork here halves a range of several sizes.
    halves: bool,
}

impl KeyRange {
    /// All keys.
    pub fn all() -> KeyRange {
        KeyRange {
            first: 0,
            last: u64::MAX,
            halves: false,
        }
    }

    /// The part below a split.
    pub fn below(self, split: u64) -> KeyRange {
        KeyRange {
            first: self.first,
            last: split.saturating_sub(1),
            halves: !self.halves,
        }
    }

    /// The part from a split on.
    pub fn above(self, split: u64) -> KeyRange {
        KeyRange {
            first: split,
            last: self.last,
            halves: !self.halves,
        }
    }

    /// Where a fork of this range splits that is made for this key.
    pub fn split(self, key: u64) -> u64 {
        let begin = key / NUMBERS * NUMBERS;
        let end = begin + (NUMBERS - 1);
        let has_less = self.first < begin;
        if (has_less || end < self.last) && !self.halves {
            return if has_less {
                begin
            } else {
                end.saturating_add(1)
            };
        }
        let numbers = (self.first % NUMBERS * FIRST_NUMBERS).max(FIRST_NUMBERS);
        let split = begin.saturating_add(numbers);
        if !has_less && split <= self.last && self.last <= end {
            return split;
        }
        self.first.midpoint(self.last).saturating_add(1)
    }
}
