//! The lines of a run that is watched.

ghost use Rattle.std.specs.Prelude.{◌≡◌, ◌++◌, IfOk, OnOk, string_bytes};
ghost use Rattle.flow_watch.specs.SeenLines.{seen_line};
ghost use Rattle.flow_watch.specs.Reads.{lines_after};

use flow_journal::Progress;
use std::alloc::{AllocError, Global};
use std::fmt::Write;

/// Appends the line of a note.
fn push_line(text: &mut String, note: &Progress) -> Result<(), AllocError>
    ensures { OnOk result (string_bytes text.new ≡ string_bytes text.old ++ seen_line note.now) }
{
    let Progress {
        entries,
        offered,
        dropped,
        saved,
        ..
    } = note;
    write!(text, "seen {entries} {offered} {dropped} {saved}\n")
}

/// The lines of the notes that have more entries than the line before them.
pub(crate) fn seen_text(alloc: Global, notes: &[Progress]) -> Result<String, AllocError>
    ensures { IfOk result (λ text. string_bytes text ≡ lines_after 0 notes.now) }
{
    let mut text = String::new(alloc);
    let mut entries = 0;
    for note in notes {
        if entries < note.entries {
            push_line(&mut text, note)?;
            entries = note.entries;
        }
    }
    Ok(text)
}
