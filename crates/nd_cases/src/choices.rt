//! Lines that say how the next command is called.

use crate::gate::GateRule;
use crate::line::{first_word, number, short_number};
use crate::questions::Question;
use anyhow::{Result, bail};

/// An object that a command is given.
#[derive(Clone, Copy, PartialEq, Eq)]
pub enum Object {
    Library,
    Shelf,
    Sink,
}

impl Object {
    /// The object that a word names.
    fn read(word: &str) -> Result<Object> {
        match word {
            "library" => Ok(Object::Library),
            "shelf" => Ok(Object::Shelf),
            "sink" => Ok(Object::Sink),
            _ => bail!("{word} is no object"),
        }
    }

    /// What the object is called in a table.
    pub fn name(self) -> &'static str {
        match self {
            Object::Library => "library",
            Object::Shelf => "shelf",
            Object::Sink => "sink",
        }
    }
}

/// A call that fails, by its number from 0.
#[derive(Clone, Copy)]
pub struct FailingCall {
    pub object: Object,
    pub call: u64,
}

/// One thing that a line says of the next command.
#[derive(Drop)]
pub enum Choice<'a> {
    /// `fail OBJECT NUMBER`: this call of the object fails.
    Fail(FailingCall),
    /// `each OBJECT`: the command is called again and again, and fails at call 0, 1, .. until it is done.
    Each(Object),
    /// `slow`: the library gives a byte a read.
    Slow,
    /// `quiet`: neither what was printed nor the files are told.
    Quiet,
    /// `run_top`: the words go to the call for runs, whatever they are.
    Run,
    /// `room BYTES`: what the shelf has room for.
    Room(u64),
    /// `holds NAME TEXT`: the shelf holds such a file before.
    Holds { name: &'a str, text: &'a str },
    /// `printed TEXT`: the sink has got this before.
    Printed(&'a str),
    /// `clock TICK ..`: what the clock gives; the last tick again and again.
    Clock(&'a str),
    /// `gate pair NODE FIRST SECOND` or `gate append NODE INDEX APPENDS`: which role is held, and until when.
    Gate(GateRule),
    /// `show calls`, `show roles`, `show accepted`, `show refused` or `show seen`: what more is told.
    Show(Question),
}

/// The rule that the words after `gate` spell.
fn gate_rule(rest: &str) -> Result<GateRule> {
    let (kind, rest) = first_word(rest)?;
    let (node, rest) = first_word(rest)?;
    let (index, end) = first_word(rest)?;
    let node = short_number(node)?;
    let index = short_number(index)?;
    match kind {
        "pair" => Ok(GateRule::Pair {
            node,
            first: index,
            second: short_number(end)?,
        }),
        "append" => Ok(GateRule::Append {
            node,
            index,
            appends: number(end)?,
        }),
        _ => bail!("{kind} is no gate"),
    }
}

/// The call that the words after `fail` name.
fn failing_call(rest: &str) -> Result<FailingCall> {
    let (object, call) = first_word(rest)?;
    Ok(FailingCall {
        object: Object::read(object)?,
        call: number(call)?,
    })
}

impl<'a> Choice<'a> {
    /// The choice that a line with this first word and this rest makes.
    pub fn read(word: &str, rest: &'a str) -> Result<Choice<'a>> {
        match word {
            "fail" => Ok(Choice::Fail(failing_call(rest)?)),
            "each" => Ok(Choice::Each(Object::read(rest)?)),
            "slow" => Ok(Choice::Slow),
            "quiet" => Ok(Choice::Quiet),
            "run_top" => Ok(Choice::Run),
            "room" => Ok(Choice::Room(number(rest)?)),
            "holds" => {
                let (name, text) = first_word(rest)?;
                Ok(Choice::Holds { name, text })
            }
            "printed" => Ok(Choice::Printed(rest)),
            "clock" => Ok(Choice::Clock(rest)),
            "gate" => Ok(Choice::Gate(gate_rule(rest)?)),
            "show" => Ok(Choice::Show(Question::read(rest)?)),
            _ => bail!("{word} begins no line"),
        }
    }
}
