//! The last note of a front of the notes.

ghost use Rattle.std.specs.Prelude.{◌≡◌, ◌∷◌, ◌++◌, [], length, nat_lt, MatchBool, IfSome};
ghost use mathlib.Core.List.{IsPrefix};
ghost use Rattle.flow_monitor.specs.LastNotes.{last_note};
ghost use Rattle.flow_monitor.specs.NoteLogs.{counter_of};
ghost use Rattle.flow_monitor.specs.Registers.{name_of};

use crate::note_log::{Append, NoTrade, NoteCount, NoteRule, SeenNotes};
use flow_journal::Progress;
use logbook::Offer;

/// The last note of a front, and how many notes that front has.
#[derive(Drop)]
pub struct Latest {
    pub note: Progress,
    pub count: u64,
    pub seen: SeenNotes,
    ghost note_is: { note ≡ last_note seen.log },
    ghost count_is: { count ≡ length seen.log },
}

impl Latest {
    /// No note yet.
    pub fn none(seen: SeenNotes) -> Latest
        requires { seen.log ≡ [] }
        ensures { result.seen ≡ seen }
    {
        Latest {
            note: Progress {
                entries: 0,
                offered: 0,
                dropped: 0,
                saved: 0,
                left: false,
                done: false,
            },
            count: 0,
            seen,
        }
    }

    /// A copy.
    pub fn copy(&self) -> Latest
        ensures { result.seen ≡ self.now.seen }
    {
        Latest {
            note: self.note,
            count: self.count,
            seen: self.seen.again(),
        }
    }

    /// Whether the other has notes beyond these. Else these have all of the other's.
    pub fn is_behind(&self, other: &Latest) -> bool
        requires { name_of other.now.seen.book ≡ name_of self.now.seen.book }
        ensures fronts { MatchBool result (IsPrefix self.now.seen.log other.now.seen.log) (IsPrefix other.now.seen.log self.now.seen.log) }
        ensures count { result ≡ nat_lt (length self.now.seen.log) (length other.now.seen.log) }
    {
        let mut both = self.seen.again();
        both.learn(&other.seen);
        self.count < other.count
    }

    /// That of the two which has more notes.
    pub fn newer(&self, other: &Latest) -> Latest
        requires { name_of other.now.seen.book ≡ name_of self.now.seen.book }
        ensures name { name_of result.seen.book ≡ name_of self.now.seen.book }
        ensures this { IsPrefix self.now.seen.log result.seen.log }
        ensures that { IsPrefix other.now.seen.log result.seen.log }
    {
        if self.is_behind(other) {
            other.copy()
        } else {
            self.copy()
        }
    }

    /// With one more note. None where the log has notes beyond these, or there can be no more.
    pub fn with_note(&self, counter: &NoteCount, note: &Progress) -> Option<Latest>
        requires { counter.now ≡ counter_of self.now.seen.book }
        ensures { IfSome result (λ l. (l.seen.book ≡ self.now.seen.book) × (l.seen.log ≡ self.now.seen.log ++ note.now ∷ [])) }
    {
        if self.count == u64::MAX {
            return None;
        }
        let mut seen = self.seen.again();
        let mut offer: Offer<Progress, u64, NoteRule, NoTrade> = seen.plain::<
            NoTrade,
            Progress,
            Append,
        >(note);
        let mut pen = seen.no_pen();
        let found = counter.compare_exchange::<Append, NoTrade>(
            self.count,
            self.count + 1,
            &mut seen,
            &mut offer,
            &mut pen,
        );
        if found != self.count {
            return None;
        }
        Some(Latest {
            note: *note,
            count: self.count + 1,
            seen,
        })
    }
}
