//! The text of a log.

ghost use Rattle.std.specs.Prelude.{◌≡◌, All, IfOk, reverse, string_bytes};
ghost use Rattle.flow_journal.specs.Spelling.{text_of};
ghost use Rattle.flow_journal.specs.TextFaults.{Fits};

use crate::{Entry, Log};
use nd_base::OutOfMemory;
use std::alloc::Global;

/// The numbers of an entry are such as their fields can have.
fn entry_fits(entry: Entry)
    ensures { Fits entry }
{}

/// The text of a log: a line for each entry.
pub fn write_text(alloc: Global, log: &Log) -> Result<String, OutOfMemory>
    ensures text { IfOk result (λ text. string_bytes text ≡ text_of (reverse log.now.past)) }
    ensures fits { IfOk result (λ text. All Fits (reverse log.now.past)) }
{
    let mut text = String::new(alloc);
    for entry in log.entries() {
        entry_fits(*entry);
        writeln!(text, "{entry}")?;
    }
    Ok(text)
}
