//! The lines of a table.

use anyhow::{Context, Result, bail};
use std::alloc::Global;

/// A call of the feeder, which has role 0.
#[derive(Clone, Copy, Debug)]
pub enum FeedCall {
    /// `load 0 TICK`
    Load { tick: u64 },
    /// `issue 0`: fills the frame that was loaded, and issues it.
    Issue,
    /// `close 0`
    Close,
    /// `leave 0`
    Leave,
}

/// A call of a worker, at the node of its role.
#[derive(Clone, Copy, Debug)]
pub enum WorkCall {
    /// `take ROLE`
    Take,
    /// `put ROLE`: the result of the array that was taken.
    Put,
    /// `settle ROLE`
    Settle,
    /// `leave ROLE`
    Leave,
}

/// A call of the last role, which saves.
#[derive(Clone, Copy, Debug)]
pub enum SaveCall {
    /// `save NODE`
    Save { node: u32 },
    /// `saved`
    Saved,
    /// `progress`
    Progress,
}

/// A call.
#[derive(Clone, Copy, Debug)]
pub enum Call {
    Feed(FeedCall),
    Work { role: u32, call: WorkCall },
    Save(SaveCall),
}

/// A call with its line.
#[derive(Drop)]
pub struct NamedCall {
    pub line: String,
    pub call: Call,
}

/// How a list of calls ends.
#[derive(Clone, Copy, Debug)]
pub enum Ending {
    /// `end TICK`: all roles end with what they have in hand, and the last one does what is left, with this tick.
    Drained { tick: u64 },
    /// `stop`: nothing more is done.
    Stopped,
}

/// An end with its line.
#[derive(Drop)]
pub struct NamedEnding {
    pub line: String,
    pub ending: Ending,
}

/// A line of a table. A case is a line `case NAME` and those after it, up to the next.
#[derive(Debug, Drop)]
pub enum Line<'a> {
    /// `# WORDS`
    Remark,
    /// An empty line, which is printed as it is.
    Empty,
    /// `case NAME`
    Case,
    /// `board GRAPH STACK`: a board over these files, with which the calls after it are made.
    Board { graph: &'a str, stack: &'a str },
    Call(Call),
    Ending(Ending),
}

/// A number that a word spells.
fn number(word: &str) -> Result<u64> {
    word.parse::<u64>()
        .context(format_args!("{word} is no number"))
}

/// The same up to 4,294,967,295.
fn short_number(word: &str) -> Result<u32> {
    word.parse::<u32>()
        .context(format_args!("{word} is no short number"))
}

impl<'a> Line<'a> {
    /// What a line says.
    pub fn read(alloc: Global, line: &'a str) -> Result<Line<'a>> {
        let words: Vec<&'a str> = line.split_whitespace().collect(alloc)?;
        let line = match words.as_slice() {
            [] => Line::Empty,
            ["#", ..] => Line::Remark,
            ["case", ..] => Line::Case,
            ["board", graph, stack] => Line::Board { graph, stack },
            ["end", tick] => Line::Ending(Ending::Drained {
                tick: number(tick)?,
            }),
            ["stop"] => Line::Ending(Ending::Stopped),
            words => Line::Call(Call::read(words)?),
        };
        Ok(line)
    }
}

/// A call of the worker of this role.
fn worker_call(role: &str, call: WorkCall) -> Result<Call> {
    let role = short_number(role)?;
    Ok(Call::Work { role, call })
}

impl Call {
    /// The call that the words of a line make.
    fn read(words: &[&str]) -> Result<Call> {
        match words {
            ["load", "0", tick] => Ok(Call::Feed(FeedCall::Load {
                tick: number(tick)?,
            })),
            ["issue", "0"] => Ok(Call::Feed(FeedCall::Issue)),
            ["close", "0"] => Ok(Call::Feed(FeedCall::Close)),
            ["leave", "0"] => Ok(Call::Feed(FeedCall::Leave)),
            ["take", role] => worker_call(role, WorkCall::Take),
            ["put", role] => worker_call(role, WorkCall::Put),
            ["settle", role] => worker_call(role, WorkCall::Settle),
            ["leave", role] => worker_call(role, WorkCall::Leave),
            ["save", node] => Ok(Call::Save(SaveCall::Save {
                node: short_number(node)?,
            })),
            ["saved"] => Ok(Call::Save(SaveCall::Saved)),
            ["progress"] => Ok(Call::Save(SaveCall::Progress)),
            _ => bail!("no line of a table"),
        }
    }
}
