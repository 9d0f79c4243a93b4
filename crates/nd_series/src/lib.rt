//! Statistics of many regions over the last frames of a stack.
//!
//! `region_row` makes a row of a frame: of each region the least and the greatest sample, the total, and the sum and the number of the samples
//! at its border. It reads the samples where they lie in the frame. A `Series` keeps the last rows and the sum of each region's totals over them.
//! `specs/Regions.antt` defines a row by the region and the measure of nd_roi and nd_stats, `specs/InPlace.antt` by the frame's own samples,
//! and `specs/Kept.antt` a series; `specs/Worked.antt` has worked rows. `series_of` is the series of a stack, `series_text` writes it as a
//! text, and `parse_regions` and `parse_length` read the words of a command line; these have `specs/Stacks.antt`, `specs/Text.antt` and
//! `specs/Words.antt`, and `specs/Spelled.antt` says how regions are spelled.
#![tactic(auto)]

mod laws;
mod line;
mod region;
mod row;
mod series;
mod span;
mod stack;
mod text;
mod words;

pub use laws::{pushes_keep_the_last, words_are_as_spelled};
pub use region::{Box4, region_row};
pub use row::{Part, SeriesRow};
pub use series::Series;
pub use stack::{series_of, stack_row};
pub use text::series_text;
pub use words::{are_regions, parse_length, parse_regions};
