//! The publisher of the notes.

ghost use Rattle.std.specs.Prelude.{◌≡◌, ◌||◌, ◌∷◌, ◌++◌, List, [], false, length, nat_lt, drop, OnOk, OnErr};
ghost use mathlib.Core.List.{IsPrefix};
ghost use Rattle.flow_journal.specs.declared.progress.Progress.{Progress};
ghost use Rattle.flow_journal.specs.Notes.{took, refused_one};
ghost use Rattle.flow_monitor.specs.NoteLogs.{counter_of};
ghost use Rattle.flow_monitor.specs.Registers.{name_of};
ghost use Rattle.flow_monitor.specs.Monitors.{HasLearned, watched_of};

use crate::latest::Latest;
use crate::note_log::NoteCount;
use crate::peek::Peek;
use crate::register::{LatestWriter, store};
use core::mem::replace_with;
use flow_journal::{Progress, Watch};
use nd_base::OutOfMemory;
use std::alloc::Global;
use std::marker::Model;
use std::sync::Wait;

/// The publisher of a monitor, a watch that tells its notes. It isn't `Drop`: end it by `end`.
pub struct Publisher<'a, H: Wait> {
    rt: &'a H,
    writer: LatestWriter,
    counter: NoteCount,
    latest: Latest,
    refused: u64,
    overtaken: bool,
}

impl<'a, H: Wait> Model for Publisher<'a, H> {
    ghost use Rattle.std.specs.Prelude.{◌≡◌, [], drop};
    ghost use Rattle.flow_monitor.specs.NoteLogs.{counter_of};
    ghost use Rattle.flow_monitor.specs.Registers.{name_of};
    ghost use Rattle.flow_monitor.specs.Monitors.{PublisherState};

    ghost Value = { PublisherState };

    ghost view = { λ p. record {
      monitor = name_of p.latest.seen.book;
      notes = p.latest.seen.log;
      refused = p.refused;
      overtaken = p.overtaken;
    } };

    ghost invariant = { λ p. (p.counter ≡ counter_of p.latest.seen.book) × (name_of p.writer.desk.shown.value.seen.book ≡ name_of p.latest.seen.book)
        × (drop p.writer.behind p.writer.log.items ≡ []) };
}

impl<'a, H: Wait> Watch for Publisher<'a, H> {
    ghost use Rattle.flow_monitor.specs.Monitors.{watched_of};

    ghost watched = { watched_of };

    ghost home = { λ p. p.monitor };

    /// Publishes one note, after all that were published. It may wait for a reader to leave. Where it answers Ok, the published notes
    /// begin with all that it has learned of readers.
    ///
    /// # Errors
    ///
    /// `OutOfMemory` where there was no memory to show it. It isn't published then.
    #[tactic(auto, using(crate::proofs::Fronts::front_more))]
    fn note(&mut self, _alloc: Global, progress: &Progress) -> Result<(), OutOfMemory>
        ensures ok { OnOk result (watched_of self.new ≡ took progress.now (watched_of self.old)) }
        ensures err { OnErr result (watched_of self.new ≡ refused_one (watched_of self.old)) }
        ensures home { self.new.monitor ≡ self.old.monitor }
        ensures learned { OnOk result ((seen : List Progress) → HasLearned self.old seen → IsPrefix seen self.new.notes) }
        ensures remembered { (seen : List Progress) → HasLearned self.old seen → HasLearned self.new seen }
    {
        match self.publish(progress) {
            Ok(()) => Ok(()),
            Err(refused) => {
                self.refused = self.refused.wrapping_add(1);
                Err(refused)
            }
        }
    }
}

impl<'a, H: Wait> Publisher<'a, H> {
    pub(crate) fn new(
        rt: &'a H,
        writer: LatestWriter,
        counter: NoteCount,
        latest: Latest,
    ) -> Publisher<'a, H>
        requires counter { counter ≡ counter_of latest.seen.book }
        requires name { name_of writer.desk.shown.value.seen.book ≡ name_of latest.seen.book }
        requires idle { drop writer.behind writer.log.items ≡ [] }
        ensures { result ≡ record { monitor = name_of latest.seen.book; notes = latest.seen.log; refused = 0; overtaken = false } }
    {
        Publisher {
            rt,
            writer,
            counter,
            latest,
            refused: 0,
            overtaken: false,
        }
    }

    // Publishes one note, unless a reader has seen more.
    fn publish(&mut self, progress: &Progress) -> Result<(), OutOfMemory>
        ensures ok { OnOk result (self.new ≡ record self.old { notes = self.old.notes ++ progress.now ∷ [] }) }
        ensures first { OnOk result (self.old.overtaken ≡ false) }
        ensures err { OnErr result (self.new ≡ self.old) }
    {
        if self.overtaken {
            return Err(OutOfMemory);
        }
        let Some(next) = self.latest.with_note(&self.counter, progress) else {
            return Err(OutOfMemory);
        };
        let stored = replace_with(
            &mut self.writer,
            (self.rt, next.copy()),
            |writer, (rt, latest)| store(rt, writer, latest),
        );
        if !stored {
            return Err(OutOfMemory);
        }
        self.latest = next;
        Ok(())
    }

    /// Lets a reader see all notes that were published so far, and lets the publisher learn what this reader has seen.
    pub fn tell(&mut self, peek: &mut Peek)
        requires { peek.old.monitor ≡ self.old.monitor }
        ensures same { (self.new ≡ record self.old { overtaken = self.new.overtaken }) × (peek.new.monitor ≡ peek.old.monitor) }
        ensures told { IsPrefix self.old.notes peek.new.seen }
        ensures later { IsPrefix peek.old.seen peek.new.seen }
        ensures overtaken { self.new.overtaken ≡ (self.old.overtaken || nat_lt (length self.old.notes) (length peek.new.seen)) }
        ensures learned { HasLearned self.new peek.new.seen }
        ensures remembered { (seen : List Progress) → HasLearned self.old seen → HasLearned self.new seen }
    {
        peek.see(&self.latest);
        let behind = self.latest.is_behind(peek.latest());
        self.overtaken = self.overtaken || behind;
    }

    /// Ends the monitor: its readers go on to read what they have seen. It may wait for a reader to leave, and takes no memory.
    pub fn end(self) {
        let Publisher {
            rt,
            writer,
            counter: _counter,
            latest: _latest,
            refused: _,
            overtaken: _,
        } = self;
        drop(writer.take(rt));
    }
}
