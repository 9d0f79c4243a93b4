//! What is counted of a node, where a log is read from its end.

ghost use Rattle.std.specs.Prelude.{◌≡◌, ◌+◌, ◌<◌};
ghost use Rattle.flow_journal.specs.RunSetting.{work_of};
ghost use Rattle.flow_journal.specs.Unsaved.{is_file};
ghost use Rattle.queue_sort.specs.Sorting.{keeps_step};
ghost use Rattle.run_report.specs.Tallies.{HasRoomForCounts, fresh, break_after, index_id, with_out, more, finished};

use crate::NodeCount;
use flow_journal::Entry;
use nd_base::Kind;

/// Whether an id is the previous one or the next.
fn keeps_step(last: i64, id: i64) -> bool
    ensures { result ≡ keeps_step last id }
{
    id == last || last.checked_add(1) == Some(id)
}

/// The id of the frame of this index, 0 where there is none.
fn id_of(ids: &[i32], index: u32) -> i32
    ensures { result ≡ index_id ids.now index }
{
    ids.get(index as usize).copied().unwrap_or(0)
}

/// Whether saves go out of a node of this kind.
fn saves(kind: &Kind) -> bool
    ensures { result ≡ is_file (work_of kind.now) }
{
    match kind {
        Kind::File(_) => true,
        Kind::Roi(_) | Kind::Stats(_) | Kind::Circular(_) | Kind::Scatter => false,
    }
}

/// The counts of a node so far.
#[derive(Clone, Copy)]
pub(crate) struct NodeTally {
    /// Whether saves go out of the node, and no emissions.
    saves: bool,
    offered: u64,
    full: u64,
    pool: u64,
    sort: u64,
    out: u64,
    breaks: u64,
    /// The id of the oldest array so far that went out.
    next: Option<i32>,
}

impl NodeTally {
    /// The tally of a node of which nothing is counted yet.
    pub(crate) fn new(saves: bool) -> NodeTally
        ensures { result ≡ fresh saves }
    {
        NodeTally {
            saves,
            offered: 0,
            full: 0,
            pool: 0,
            sort: 0,
            out: 0,
            breaks: 0,
            next: None,
        }
    }

    /// The tally of a node of this kind.
    pub(crate) fn of_kind(kind: &Kind) -> NodeTally
        ensures { result ≡ fresh (is_file (work_of kind.now)) }
    {
        NodeTally::new(saves(kind))
    }

    /// 1 where the oldest that went out keeps no step with this id before it.
    fn break_after(&self, last: i64) -> u64
        ensures value { result ≡ break_after self.now.next last }
        ensures few { result < 2 }
    {
        match self.next {
            Some(id) => u64::from(!keeps_step(last, i64::from(id))),
            None => 0,
        }
    }

    /// Counts an array of this id that went out.
    fn let_out(&mut self, id: i32)
        requires { HasRoomForCounts self.old }
        ensures { self.new ≡ with_out id self.old }
    {
        self.out += 1;
        self.breaks += self.break_after(i64::from(id));
        self.next = Some(id);
    }

    /// Counts an entry at the node, which stands or was taken back.
    pub(crate) fn count(&mut self, ids: &[i32], entry: &Entry, stands: bool)
        requires { HasRoomForCounts self.old }
        ensures { self.new ≡ more ids.now stands entry.now self.old }
    {
        match *entry {
            Entry::Accept { .. } => self.offered += 1,
            Entry::Full { .. } => {
                self.offered += 1;
                self.full += 1;
            }
            Entry::PoolDrop { .. } => self.pool += 1,
            Entry::SortDrop { .. } => self.sort += 1,
            Entry::Emit { index, .. } if !self.saves => self.let_out(id_of(ids, index)),
            Entry::Save { index, .. } if self.saves && stands => self.let_out(id_of(ids, index)),
            _ => (),
        }
    }

    /// The counts of the node once the whole log is read, where this id is before the first.
    pub(crate) fn finished(&self, first_prev: i64) -> NodeCount
        requires { HasRoomForCounts self.now }
        ensures { result ≡ finished first_prev self.now }
    {
        let dropped = self.full + self.pool + self.sort;
        NodeCount {
            offered: self.offered,
            accepted: self.offered.saturating_sub(dropped),
            full: self.full,
            pool: self.pool,
            sort: self.sort,
            out: self.out,
            breaks: self.breaks + self.break_after(first_prev),
        }
    }
}
