//! The register that shows the latest note to readers which wait for nobody. Its rule says to which log that note belongs.

ghost use Rattle.std.specs.Prelude.{◌≡◌, [], IfSome, IfOk, IsTrue, drop};
ghost use Rattle.left_right.specs.Sides.{view as known};
ghost use Rattle.flow_monitor.specs.Registers.{name_of, KnowsAtMost};

use crate::latest::Latest;
use crate::note_log::SeenNotes;
use atomic_table::{Join, Split};
use crossbeam_utils::rule::{Outcome, Protocol};
use left_right::Absorb;
use left_right::reader::Reader;
use left_right::writer::Writer;
use std::alloc::AllocError;
use std::sync::Wait;

/// To take in a latest note is to be replaced by it.
impl Absorb<Latest> for Latest {
    type State = SeenNotes;

    ghost state = { λ l. l.seen };

    ghost applied = { λ _ next. next.seen };

    ghost never_fails = { Unit {0} };

    fn absorb_first(&mut self, operation: &Latest, _other: &Latest) -> Result<(), AllocError> {
        *self = operation.copy();
        Ok(())
    }
}

/// What a seat knows: the name of a log, as a list of numbers, or nothing. It stands in proofs alone.
pub type Known = [u64; 0];

/// All that is known is the name of the log whose note is shown.
pub struct OneLog;

impl Protocol<Latest, Known> for OneLog {
    ghost use Rattle.std.specs.Prelude.{[]};
    ghost use Rattle.std.specs.List.{All};
    ghost use Rattle.flow_monitor.specs.Registers.{name_of, KnowsAtMost};

    ghost holds = { λ latest views. All (KnowsAtMost (name_of latest.seen.book)) views };

    ghost first = { [] };
}

/// The writer knows the name of the log whose note it has shown.
pub struct Stores;

impl Outcome<Latest, Known> for Stores {
    ghost use Rattle.std.specs.Prelude.{◌≡◌};
    ghost use Rattle.flow_monitor.specs.Registers.{name_of};

    ghost then = { λ _ _ shown known. known ≡ name_of shown.seen.book };
}

/// A reader finds a note of the log that it knows.
pub struct Loads;

impl Outcome<Latest, Known> for Loads {
    ghost use Rattle.std.specs.Prelude.{◌≡◌};
    ghost use Rattle.flow_monitor.specs.Registers.{name_of, KnowsAtMost};

    ghost then = { λ before _ shown known. (known ≡ before) × KnowsAtMost (name_of shown.seen.book) before };
}

/// What the one knows, both know.
pub struct Shared;

impl Split<Known> for Shared {
    ghost left = { λ known. known };

    ghost right = { λ known. known };
}

impl Join<Known> for Shared {
    ghost use Rattle.std.specs.Prelude.{[]};

    ghost both = { λ _ told. told };

    ghost spent = { [] };
}

pub type LatestReader = Reader<Latest, Known, OneLog>;

pub type LatestWriter = Writer<Latest, Latest, Known, OneLog>;

/// What is shown now. None where the register is closed.
pub fn load(reader: LatestReader) -> (LatestReader, Option<Latest>)
    ensures knows { known result.0.place ≡ known reader.place }
    ensures found { IfSome result.1 (λ l. KnowsAtMost (name_of l.seen.book) (known reader.place)) }
{
    match reader.enter_as::<Loads>() {
        Ok(reading) => {
            let latest = reading.get().copy();
            (reading.leave(), Some(latest))
        }
        Err(reader) => (reader, None),
    }
}

/// Shows another note of the same log, and says whether there was memory for it. It waits for readers that still read the note
/// before the one that was shown.
pub fn store<H: Wait>(rt: &H, mut writer: LatestWriter, latest: Latest) -> (LatestWriter, bool)
    requires idle { drop writer.behind writer.log.items ≡ [] }
    requires name { name_of latest.seen.book ≡ name_of writer.desk.shown.value.seen.book }
    ensures idle { drop result.0.behind result.0.log.items ≡ [] }
    ensures name { name_of result.0.desk.shown.value.seen.book ≡ name_of writer.desk.shown.value.seen.book }
    ensures knows { IsTrue result.1 → known result.0.desk.place ≡ name_of writer.desk.shown.value.seen.book }
{
    match writer.append(latest) {
        Ok(()) => {}
        Err(_) => return (writer, false),
    }
    let (writer, stored) = writer.publish_as::<Stores, H>(rt);
    (writer, stored.is_ok())
}

/// A reader that knows what the writer knows.
pub fn open_reader(writer: &mut LatestWriter) -> Result<LatestReader, AllocError>
    ensures shown { writer.new.desk.shown ≡ writer.old.desk.shown }
    ensures idle { drop writer.new.behind writer.new.log.items ≡ drop writer.old.behind writer.old.log.items }
    ensures writer { known writer.new.desk.place ≡ known writer.old.desk.place }
    ensures reader { IfOk result (λ r. known r.place ≡ known writer.old.desk.place) }
{
    let mut reader = writer.factory().reader()?;
    reader.learn::<Shared>(writer.tell::<Shared>());
    Ok(reader)
}
