//! What the calls of a role were answered.

ghost use Rattle.std.specs.Prelude.{◌≡◌};
ghost use Rattle.flow_roles.specs.Lasts.{said_load, said_given, said_take, said_progress};
ghost use Rattle.flow_roles.specs.Operations.{said_reply};

use crate::DeskReply;
use board_rules::{Load, NotYours, Settled, Take};
use flow_journal::Progress;
use nd_base::Held;

/// What the last call answered, as far as a role that ends tells it.
#[derive(Clone, Copy, Debug, PartialEq, Eq)]
pub enum Last {
    /// There was no call yet.
    Fresh,
    /// `Left`, or a progress that says so.
    Left,
    /// `Ended`, or a progress that says that the run is done.
    Ended,
    /// `Done` of `close`.
    Closed,
    /// `NotYours`.
    NotYours,
    /// The role made its leave.
    Gone,
    /// Any other answer.
    Other,
}

/// What the calls of a role were answered, and what its loads were handed.
#[derive(Clone, Copy, Debug, PartialEq, Eq)]
pub struct Said {
    pub last: Last,
    /// No call was answered `NotYours`.
    pub owned: bool,
    /// How many of the calls were loads. It stands still at `u64::MAX`.
    pub loads: u64,
    /// What the last load was handed, and 0 before the first one.
    pub tick: u64,
    /// How many of the loads and takes found no memory. It stands still at `u64::MAX`.
    pub wanted: u64,
    /// How many of the calls were `progress`. It stands still at `u64::MAX`.
    pub asked: u64,
}

/// One call more.
impl Said {
    /// A call that was answered so. `tick` is what a load was handed.
    pub fn note<F: Held>(&mut self, tick: u64, reply: &DeskReply<F>)
        ensures { self.new ≡ said_reply tick reply.now self.old }
    {
        match reply {
            DeskReply::Load(answer) => self.load(answer, tick),
            DeskReply::Issue(answer) => self.given(answer),
            DeskReply::Take(answer) => self.take(answer),
            DeskReply::Put(answer) => self.given(answer),
            DeskReply::Settle(_) => self.last = Last::Other,
            DeskReply::Close(Settled::Done) => self.last = Last::Closed,
            DeskReply::Close(Settled::NotYet) => self.last = Last::Other,
            DeskReply::Leave => self.last = Last::Gone,
            DeskReply::Save(_) => self.last = Last::Other,
            DeskReply::Saved(answer) => self.given(answer),
            DeskReply::Progress(answer) => self.progress(answer),
        }
    }

    fn load<B>(&mut self, answer: &Load<B>, tick: u64)
        ensures { self.new ≡ said_load answer.now tick self.old }
    {
        self.last = match answer {
            Load::Left => Last::Left,
            Load::Ended => Last::Ended,
            _ => Last::Other,
        };
        self.loads = self.loads.saturating_add(1);
        if matches!(answer, Load::OutOfMemory) {
            self.wanted = self.wanted.saturating_add(1);
        }
        self.tick = tick;
    }

    // `issue`, `put` or `saved`.
    fn given<F>(&mut self, answer: &Result<(), NotYours<F>>)
        ensures { self.new ≡ said_given answer.now self.old }
    {
        match answer {
            Ok(()) => self.last = Last::Other,
            Err(_) => {
                self.last = Last::NotYours;
                self.owned = false;
            }
        }
    }

    fn take<F: Held>(&mut self, answer: &Take<F>)
        ensures { self.new ≡ said_take answer.now self.old }
    {
        self.last = match answer {
            Take::Left => Last::Left,
            Take::Ended => Last::Ended,
            _ => Last::Other,
        };
        if matches!(answer, Take::OutOfMemory) {
            self.wanted = self.wanted.saturating_add(1);
        }
    }

    fn progress(&mut self, answer: &Progress)
        ensures { self.new ≡ said_progress answer.now self.old }
    {
        self.last = if answer.done {
            Last::Ended
        } else if answer.left {
            Last::Left
        } else {
            Last::Other
        };
        self.asked = self.asked.saturating_add(1);
    }
}
