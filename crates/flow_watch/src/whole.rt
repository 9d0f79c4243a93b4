//! How far a run came whose log is whole.

ghost use Rattle.std.specs.Prelude.{◌≡◌, true};
ghost use Rattle.flow_journal.specs.Ended.{leaves};
ghost use Rattle.flow_journal.specs.Finished.{is_finished};
ghost use Rattle.flow_journal.specs.Notes.{offers, drops, saves, progress_of};
ghost use Rattle.flow_journal.specs.Setting.{Setting};

use flow_journal::{Entry, Log, Progress};

/// Whether an array came to a node.
fn offers(entry: &Entry) -> bool
    ensures { result ≡ offers entry.now }
{
    matches!(entry, Entry::Accept { .. } | Entry::Full { .. })
}

/// Whether an array was dropped at a node.
fn drops(entry: &Entry) -> bool
    ensures { result ≡ drops entry.now }
{
    matches!(
        entry,
        Entry::Full { .. } | Entry::PoolDrop { .. } | Entry::SortDrop { .. }
    )
}

/// Whether a piece was saved.
fn saves(entry: &Entry) -> bool
    ensures { result ≡ saves entry.now }
{
    matches!(entry, Entry::Saved { .. })
}

/// Whether a role left.
fn leaves(entry: &Entry) -> bool
    ensures { result ≡ leaves entry.now }
{
    matches!(entry, Entry::Leave { .. })
}

/// How far a run came that has finished with this log.
pub(crate) fn whole_progress(log: &Log) -> Progress
    ensures { (s : Setting) → is_finished s log.now.past ≡ true → result ≡ progress_of s log.now.past }
{
    let mut offered = 0u64;
    let mut dropped = 0u64;
    let mut saved = 0u64;
    let mut left = false;
    for entry in log.entries() {
        offered += u64::from(offers(entry));
        dropped += u64::from(drops(entry));
        saved += u64::from(saves(entry));
        left = left || leaves(entry);
    }
    Progress {
        entries: log.len(),
        offered,
        dropped,
        saved,
        left,
        done: true,
    }
}
