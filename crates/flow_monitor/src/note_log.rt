//! The log of the notes. It stands in proofs alone, but for the count of the notes.

use flow_journal::Progress;
use logbook::{Gain, Plain, Play, Rule, Seen, Word};

/// The rule of the log: its word counts the notes.
pub struct NoteRule;

impl Rule<Progress, u64> for NoteRule {
    ghost use Rattle.std.specs.Prelude.{[]};
    ghost use base.Fml.{ftrue};
    ghost use Rattle.flow_monitor.specs.NoteLogs.{CountsNotes};

    ghost holds = { CountsNotes };

    ghost first = { [] };

    ghost hinted = { λ _ _. Unit {0} };

    ghost shows = { λ _. [] };

    ghost keeps = { λ _ _. ftrue };

    ghost moves = { λ _ _ _ _. Unit {0} };
}

/// A step trades nothing for its note.
pub struct NoTrade;

impl Gain<Progress, u64> for NoTrade {
    ghost use base.Fml.{ftrue};

    ghost after = { λ _ _ _. ftrue };
}

/// The step that appends a note.
pub struct Append;

impl Play<Progress, u64> for Append {
    ghost use Rattle.flow_monitor.specs.NoteLogs.{Appends};

    ghost then = { Appends };
}

impl Plain<Progress, Progress, u64> for Append {
    ghost use Rattle.std.specs.Prelude.{None};

    ghost ask = { λ note. note };

    ghost state = { λ _. None };
}

/// A front of the notes, which has no bytes.
pub type SeenNotes = Seen<Progress, u64, NoteRule>;

/// The count of the notes.
pub type NoteCount = Word<Progress, u64, NoteRule>;
