//! A monitor, which hands out its readers.

ghost use Rattle.std.specs.Prelude.{◌≡◌, ◌+◌, ◌≤◌, [], false, drop, vec_len, IfOk, MatchOption};
ghost use Rattle.std.specs.List.{All};
ghost use Rattle.left_right.specs.Sides.{view as known};
ghost use Rattle.flow_monitor.specs.Registers.{name_of};
ghost use Rattle.flow_monitor.specs.Monitors.{peek_state};

use crate::latest::Latest;
use crate::note_log::SeenNotes;
use crate::peek::Peek;
use crate::publisher::Publisher;
use crate::register::{LatestWriter, open_reader, store};
use left_right::writer::Writer;
use logbook::{Seen, Start, Word};
use nd_base::OutOfMemory;
use std::alloc::{AllocError, Global};
use std::marker::Model;
use std::sync::Wait;

/// The readers of a monitor that weren't given out yet.
#[derive(Drop)]
pub struct Monitor {
    seen: SeenNotes,
    peeks: Vec<Peek>,
}

impl Model for Monitor {
    ghost use Rattle.std.specs.Prelude.{◌≡◌, [], vec_len};
    ghost use Rattle.std.specs.List.{All};
    ghost use Rattle.flow_monitor.specs.Registers.{name_of};
    ghost use Rattle.flow_monitor.specs.Monitors.{MonitorState, peek_state};

    ghost Value = { MonitorState };

    ghost view = { λ m. record { monitor = name_of m.seen.book; left = vec_len m.peeks } };

    ghost invariant = { λ m. All (λ p. p ≡ peek_state (name_of m.seen.book) []) m.peeks.items };
}

// So many readers, which have seen what the writer shows.
fn open_all(
    writer: &mut LatestWriter,
    alloc: Global,
    latest: &Latest,
    readers: u32,
) -> Result<Vec<Peek>, AllocError>
    requires { known writer.old.desk.place ≡ name_of latest.now.seen.book }
    ensures shown { writer.new.desk.shown ≡ writer.old.desk.shown }
    ensures idle { drop writer.new.behind writer.new.log.items ≡ drop writer.old.behind writer.old.log.items }
    ensures count { IfOk result (λ v. vec_len v ≡ readers) }
    ensures peeks { IfOk result (λ v. All (λ p. p ≡ peek_state (name_of latest.now.seen.book) latest.now.seen.log) v.items) }
{
    let count = readers as usize;
    let mut peeks = Vec::with_capacity(alloc, count)?;
    while peeks.len() < count {
        let reader = open_reader(writer)?;
        peeks.push_reserved(Peek::new(reader, latest));
    }
    Ok(peeks)
}

impl Monitor {
    /// A monitor with so many readers, and its publisher. Later calls take no memory.
    ///
    /// # Errors
    ///
    /// Only for want of memory.
    pub fn new<H: Wait>(
        rt: &H,
        alloc: Global,
        readers: u32,
    ) -> Result<(Publisher<'_, H>, Monitor), OutOfMemory>
        requires { (1 ≤ readers) × (readers ≤ 16) }
        ensures publisher { IfOk result (λ r. r.0 ≡ record { monitor = r.0.monitor; notes = []; refused = 0; overtaken = false }) }
        ensures readers { IfOk result (λ r. r.1 ≡ record { monitor = r.0.monitor; left = readers }) }
    {
        let (seen, mut pen, _second) = Seen::open(Start::alone(), 0, 0);
        let counter = Word::tracked(0, &mut pen);
        let latest = Latest::none(seen.again());
        let writer = Writer::new(alloc, latest.copy(), latest.copy(), readers as usize)?;
        // Shown once, it leaves the writer the room that each later note needs.
        let (mut writer, stored) = store(rt, writer, latest.copy());
        if !stored {
            drop(writer.take(rt));
            return Err(OutOfMemory);
        }
        match open_all(&mut writer, alloc, &latest, readers) {
            Ok(peeks) => Ok((
                Publisher::new(rt, writer, counter, latest),
                Monitor { seen, peeks },
            )),
            Err(_) => {
                drop(writer.take(rt));
                Err(OutOfMemory)
            }
        }
    }

    /// A reader that has seen no note. None exactly where all were given out.
    pub fn reader(&mut self) -> Option<Peek>
        ensures { MatchOption result ((self.old.left ≡ 0) × (self.new ≡ self.old)) (λ p. (p ≡ peek_state self.old.monitor [])
            × (self.old ≡ record { monitor = self.new.monitor; left = self.new.left + 1 })) }
    {
        self.peeks.pop()
    }
}
