//! Writing a text to a sink, and to a file.

ghost use Rattle.std.specs.Prelude.{◌≡◌, IfErr, OnOk, OnErr};
ghost use Rattle.edge_traits.specs.Faults.{Counts, Rose};
ghost use Rattle.edge_traits.specs.Files.{with_file};
ghost use Rattle.edge_traits.specs.Written.{with_written};
ghost use Rattle.file_out.specs.Saving.{IsBegun, IsSaveCause};
ghost use Rattle.tool_commands.specs.Printed.{IsCutShort};
ghost use Rattle.tool_commands.specs.Stages.{PrintStops};

use crate::status::Status;
use edge_traits::{Failed, Shelf, Sink};
use file_out::SaveFault;

/// Writes all of the text, or a proper front of it where the sink fails.
fn write_all<T: Sink>(out: &mut T, text: &[u8]) -> Result<(), Failed>
    ensures ok { OnOk result (T.written out.new ≡ with_written (T.written out.old) text.now) }
    ensures err { OnErr result (IsCutShort (T.written out.old) text.now (T.written out.new)) }
    ensures cause { Counts (T.faults out.old) (T.faults out.new) result }
{
    let mut at = 0;
    while at < text.len() {
        at += out.write(&text[at..])?;
    }
    Ok(())
}

/// Prints a text.
pub fn print<T: Sink>(out: &mut T, text: &str) -> Result<(), Status>
    ensures ok { OnOk result (T.written out.new ≡ with_written (T.written out.old) text.now) }
    ensures stays { OnOk result (T.faults out.new ≡ T.faults out.old) }
    ensures err { IfErr result (λ s. PrintStops s (T.written out.old) text.now (T.written out.new) (T.faults out.old) (T.faults out.new)) }
{
    match write_all(out, text.as_bytes()) {
        Ok(()) => Ok(()),
        Err(Failed) => Err(Status::OutFault),
    }
}

/// Ends the writing of all names that were begun.
pub fn finish_all<K: Shelf>(shelf: &mut K) -> Result<(), Status>
    ensures files { K.held shelf.new ≡ K.held shelf.old }
    ensures finished { OnOk result (K.all_finished shelf.new) }
    ensures stays { OnOk result (K.faults shelf.new ≡ K.faults shelf.old) }
    ensures err { IfErr result (λ s. (s ≡ Status.ShelfFault) × Rose (K.faults shelf.old) (K.faults shelf.new)) }
{
    match shelf.finish_all() {
        Ok(()) => Ok(()),
        Err(Failed) => Err(Status::ShelfFault),
    }
}

/// Writes a text under a name, and ends the writing of all names that were begun.
pub fn save_text<K: Shelf>(shelf: &mut K, name: &str, text: &str) -> Result<(), SaveFault>
    ensures ok { OnOk result (K.held shelf.new ≡ with_file (K.held shelf.old) name.now text.now) }
    ensures err { OnErr result (IsBegun (K.held shelf.old) name.now text.now (K.held shelf.new)) }
    ensures finished { OnOk result (K.all_finished shelf.new) }
    ensures cause { IsSaveCause result (K.faults shelf.old) (K.faults shelf.new) }
{
    shelf.create(name)?;
    shelf.append(name, text.as_bytes())?;
    shelf.finish(name)?;
    shelf.finish_all()?;
    Ok(())
}
