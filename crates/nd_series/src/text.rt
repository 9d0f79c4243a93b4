//! A series as a text.

ghost use Rattle.std.specs.Prelude.{◌≡◌, ◌++◌, IfOk, OnOk, string_bytes};
ghost use Rattle.nd_series.specs.Text.{part_text, row_text, sums_text, series_text};

use crate::row::{Part, SeriesRow};
use crate::series::Series;
use nd_base::OutOfMemory;
use std::alloc::{AllocError, Global};
use std::fmt::Write;

/// Appends the numbers of a region.
fn push_part(text: &mut String, part: &Part) -> Result<(), AllocError>
    ensures { OnOk result (string_bytes text.new ≡ string_bytes text.old ++ part_text part.now) }
{
    let Part {
        min,
        max,
        total,
        border,
        border_n,
    } = *part;
    write!(text, " {min}/{max}/{total}/{border}/{border_n}")
}

/// Appends the line of a row.
fn push_row(text: &mut String, row: &SeriesRow) -> Result<(), AllocError>
    ensures { OnOk result (string_bytes text.new ≡ string_bytes text.old ++ row_text row.now) }
{
    write!(text, "{}", row.id)?;
    for part in row.parts.as_slice() {
        push_part(text, part)?;
    }
    text.push_str("\n")
}

/// Appends the line of the sums.
fn push_sums(text: &mut String, sums: &[i128]) -> Result<(), AllocError>
    ensures { OnOk result (string_bytes text.new ≡ string_bytes text.old ++ sums_text sums.now) }
{
    text.push_str("sum")?;
    for sum in sums {
        write!(text, " {sum}")?;
    }
    text.push_str("\n")
}

/// A series as a text: a line for each row, the oldest first, and a line of the sums. The line of a row has the frame's id, and of each
/// region the least and the greatest sample, the total, and the sum and the number of the samples at its border, with `/` between them.
///
/// # Errors
///
/// Only for want of memory.
pub fn series_text(alloc: Global, series: &Series) -> Result<String, OutOfMemory>
    ensures { IfOk result (λ text. string_bytes text ≡ series_text series.now) }
{
    let mut text = String::new(alloc);
    for i in 0..series.rows() {
        if let Some(row) = series.row(i) {
            push_row(&mut text, row)?;
        }
    }
    push_sums(&mut text, series.sums())?;
    Ok(text)
}
