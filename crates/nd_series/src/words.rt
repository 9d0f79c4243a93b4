//! The words of a series on a command line.

ghost use Rattle.std.specs.Prelude.{◌≡◌, map, length, IfOk, IfSome};
ghost use Rattle.std.specs.Option.{is_some, option_map};
ghost use Rattle.nd_base.specs.GraphRules.{IsBetween};
ghost use Rattle.nd_series.specs.Words.{side_in, length_in, box_of, region_in, regions_in};

use crate::region::Box4;
use decimal_words::number;
use nd_base::OutOfMemory;
use std::alloc::Global;

/// The most regions of a series.
const MOST_REGIONS: usize = 32;

/// A place or a size of a region.
fn side_in(text: &str) -> Option<u32>
    ensures { result ≡ side_in text.now }
{
    number(text, 8, 0, 67_108_864)
}

/// The number of rows that a word asks for: 1 to 4,096 in one to four decimal digits.
pub fn parse_length(text: &str) -> Option<u32>
    ensures value { result ≡ length_in text.now }
    ensures range { IfSome result (λ most. IsBetween 1 4096 most) }
{
    number(text, 4, 1, 4096)
}

/// The region of four numbers.
fn box_of(words: &[&str]) -> Option<Box4>
    ensures { result ≡ box_of (map (λ w. w.now) words.now) }
{
    let [x, y, w, h] = words else {
        return None;
    };
    Some(Box4 {
        x: side_in(x)?,
        y: side_in(y)?,
        w: side_in(w)?,
        h: side_in(h)?,
    })
}

/// The region of four numbers that commas join.
fn region_in(alloc: Global, text: &str) -> Result<Option<Box4>, OutOfMemory>
    ensures { IfOk result (λ found. found ≡ region_in text.now) }
{
    let words: Vec<&str> = text.split(',').collect(alloc)?;
    Ok(box_of(&words))
}

/// Whether a text is a region.
fn is_region(text: &str) -> bool
    ensures { result ≡ is_some (region_in text.now) }
{
    text.split(',').count() == 4 && text.split(',').all(|side| side_in(side).is_some())
}

/// Whether a word asks for regions: whether `parse_regions` has some for it. It takes no memory.
pub fn are_regions(text: &str) -> bool
    ensures { result ≡ is_some (regions_in text.now) }
{
    text.split(';').count() <= MOST_REGIONS && text.split(';').all(|group| is_region(group))
}

/// The regions that a word asks for: 1 to 32 that semicolons join, each of four numbers x, y, w and h that commas join, and each number of
/// one to eight decimal digits and at most 67,108,864. None exactly where the word isn't that.
///
/// # Errors
///
/// Only for want of memory.
pub fn parse_regions(alloc: Global, text: &str) -> Result<Option<Vec<Box4>>, OutOfMemory>
    ensures value { IfOk result (λ found. option_map (λ v. v.items) found ≡ regions_in text.now) }
    ensures range { IfOk result (λ found. IfSome found (λ v. IsBetween 1 32 (length v.items))) }
{
    let groups: Vec<&str> = text.split(';').collect(alloc)?;
    if groups.len() > MOST_REGIONS {
        return Ok(None);
    }
    let mut regions = Vec::with_capacity(alloc, groups.len())?;
    for group in &groups {
        let Some(region) = region_in(alloc, group)? else {
            return Ok(None);
        };
        regions.push(region)?;
    }
    Ok(Some(regions))
}
