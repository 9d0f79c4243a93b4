//! How an entry is written.

ghost use Rattle.std.specs.Prelude.{◌≡◌, true, Some};
ghost use Rattle.std.specs.Fmt.{WritesOnOk};
ghost use Rattle.flow_journal.specs.Spelling.{flag, why_word, grant_words, group_words, spaced, spelling, tells_of_array, tells_of_frame, tells_of_take};
ghost use Rattle.flow_journal.specs.Spelling.{tells_of_work};

use crate::{Entry, Why};
use std::fmt;

/// A truth value as an entry tells it.
fn flag_text(value: bool) -> &'static str
    ensures { result.now ≡ flag value }
{
    if value { "1" } else { "0" }
}

impl fmt::Display for Why {
    ghost output = { λ why. Some (why_word why) };

    fn fmt<W: fmt::Write>(&self, f: &mut fmt::Formatter<W>) -> fmt::Result {
        f.write_str(match self {
            Why::Plain => "plain",
            Why::Step => "step",
            Why::Late => "late",
            Why::Flush => "flush",
            Why::Ring => "ring",
            Why::Now => "now",
        })
    }
}

/// A grant, as an entry tells it.
#[derive(Clone, Copy)]
struct Grant {
    block: u32,
    size: u32,
    fresh: bool,
    given: u32,
    regrown: bool,
}

impl fmt::Display for Grant {
    ghost output = { λ g. Some (spaced (grant_words g.block g.size g.fresh g.given g.regrown)) };

    fn fmt<W: fmt::Write>(&self, f: &mut fmt::Formatter<W>) -> fmt::Result {
        let (fresh, regrown) = (flag_text(self.fresh), flag_text(self.regrown));
        let (block, size, given) = (self.block, self.size, self.given);
        write!(
            f,
            "block {block} size {size} fresh {fresh} given {given} regrown {regrown}"
        )
    }
}

/// The group of a piece, as an entry tells it.
#[derive(Clone, Copy)]
struct Group {
    number: u32,
}

impl fmt::Display for Group {
    ghost output = { λ g. Some (spaced (group_words g.number)) };

    fn fmt<W: fmt::Write>(&self, f: &mut fmt::Formatter<W>) -> fmt::Result {
        let number = self.number;
        write!(f, "group {number}")
    }
}

/// Writes an entry that tells of a frame, up to its issue.
fn write_of_frame<W: fmt::Write>(entry: Entry, f: &mut fmt::Formatter<W>) -> fmt::Result
    requires { tells_of_frame entry ≡ true }
    ensures { WritesOnOk W.write_str_gives f.old result (spelling entry) f.new }
{
    match entry {
        Entry::Load {
            role,
            index,
            block,
            size,
            fresh,
            given,
            regrown,
        } => {
            let grant = Grant {
                block,
                size,
                fresh,
                given,
                regrown,
            };
            write!(f, "load {role} {index} {grant}")
        }
        Entry::LoadRefused {
            role,
            index,
            need,
            held,
        } => write!(f, "loadrefused {role} {index} need {need} held {held}"),
        Entry::Tick { tick } => write!(f, "tick {tick}"),
        Entry::Issue { role, index } => write!(f, "issue {role} {index}"),
        _ => unreachable!(),
    }
}

/// Writes an entry that tells where an array came, or that it was dropped.
fn write_of_array<W: fmt::Write>(entry: Entry, f: &mut fmt::Formatter<W>) -> fmt::Result
    requires { tells_of_array entry ≡ true }
    ensures { WritesOnOk W.write_str_gives f.old result (spelling entry) f.new }
{
    match entry {
        Entry::Emit {
            node,
            maker,
            index,
            why,
        } => write!(f, "emit {node} {maker} {index} {why}"),
        Entry::Accept { node, maker, index } => write!(f, "accept {node} {maker} {index}"),
        Entry::Full { node, maker, index } => write!(f, "full {node} {maker} {index}"),
        Entry::PoolDrop {
            role,
            node,
            maker,
            index,
            need,
            held,
        } => write!(
            f,
            "pooldrop {role} {node} {maker} {index} need {need} held {held}"
        ),
        Entry::SortDrop { node, maker, index } => write!(f, "sortdrop {node} {maker} {index}"),
        _ => unreachable!(),
    }
}

/// Writes an entry that tells of a job that was taken.
fn write_of_take<W: fmt::Write>(entry: Entry, f: &mut fmt::Formatter<W>) -> fmt::Result
    requires { tells_of_take entry ≡ true }
    ensures { WritesOnOk W.write_str_gives f.old result (spelling entry) f.new }
{
    match entry {
        Entry::Take {
            role,
            node,
            maker,
            index,
        } => write!(f, "take {role} {node} {maker} {index}"),
        Entry::TakeBlock {
            role,
            node,
            maker,
            index,
            block,
            size,
            fresh,
            given,
            regrown,
        } => {
            let grant = Grant {
                block,
                size,
                fresh,
                given,
                regrown,
            };
            write!(f, "takeblock {role} {node} {maker} {index} {grant}")
        }
        _ => unreachable!(),
    }
}

/// Writes an entry that tells of a result, or of a piece to save.
fn write_of_work<W: fmt::Write>(entry: Entry, f: &mut fmt::Formatter<W>) -> fmt::Result
    requires { tells_of_work entry ≡ true }
    ensures { WritesOnOk W.write_str_gives f.old result (spelling entry) f.new }
{
    match entry {
        Entry::Put {
            role,
            node,
            maker,
            index,
            fired,
        } => {
            let fired = flag_text(fired);
            write!(f, "put {role} {node} {maker} {index} fired {fired}")
        }
        Entry::Save {
            role,
            node,
            maker,
            index,
            group,
        } => {
            let group = Group { number: group };
            write!(f, "save {role} {node} {maker} {index} {group}")
        }
        Entry::Saved {
            role,
            node,
            maker,
            index,
        } => write!(f, "saved {role} {node} {maker} {index}"),
        _ => unreachable!(),
    }
}

impl fmt::Display for Entry {
    ghost output = { λ entry. Some (spelling entry) };

    fn fmt<W: fmt::Write>(&self, f: &mut fmt::Formatter<W>) -> fmt::Result {
        match *self {
            Entry::Load { .. }
            | Entry::LoadRefused { .. }
            | Entry::Tick { .. }
            | Entry::Issue { .. } => write_of_frame(*self, f),
            Entry::Emit { .. }
            | Entry::Accept { .. }
            | Entry::Full { .. }
            | Entry::PoolDrop { .. }
            | Entry::SortDrop { .. } => write_of_array(*self, f),
            Entry::Take { .. } | Entry::TakeBlock { .. } => write_of_take(*self, f),
            Entry::Put { .. } | Entry::Save { .. } | Entry::Saved { .. } => write_of_work(*self, f),
            Entry::Settle { role, node } => write!(f, "settle {role} {node}"),
            Entry::Close { role } => write!(f, "close {role}"),
            Entry::Leave { role } => write!(f, "leave {role}"),
            Entry::Reclaim { role } => write!(f, "reclaim {role}"),
        }
    }
}
