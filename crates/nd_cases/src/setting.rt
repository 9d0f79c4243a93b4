//! How a command is called.

use crate::choices::{Choice, FailingCall, Object};
use crate::gate::GateRule;
use crate::line::number;
use crate::questions::Question;
use anyhow::Result;
use std::alloc::{AllocError, Global};

/// A file that stands on the shelf before the command.
#[derive(Drop)]
pub struct HeldFile {
    pub name: String,
    pub text: String,
}

/// How a command is called.
#[derive(Drop)]
pub struct Setting {
    alloc: Global,
    pub fails: Option<FailingCall>,
    pub each: Option<Object>,
    pub slow: bool,
    pub quiet: bool,
    pub run: bool,
    pub room: u64,
    pub holds: Option<HeldFile>,
    pub printed: Option<String>,
    pub ticks: Vec<u64>,
    pub gate: GateRule,
    pub questions: Vec<Question>,
}

/// The room of a shelf where no line says another.
const ROOM: u64 = 200_000;

impl Setting {
    /// Nothing fails, nothing is held, and the clock stands.
    pub fn new(alloc: Global) -> Setting {
        Setting {
            alloc,
            fails: None,
            each: None,
            slow: false,
            quiet: false,
            run: false,
            room: ROOM,
            holds: None,
            printed: None,
            ticks: Vec::new(alloc),
            gate: GateRule::Open,
            questions: Vec::new(alloc),
        }
    }

    /// Takes up what a line says.
    pub fn choose(&mut self, choice: &Choice<'_>) -> Result<()> {
        match choice {
            Choice::Fail(call) => self.fails = Some(*call),
            Choice::Each(object) => self.each = Some(*object),
            Choice::Slow => self.slow = true,
            Choice::Quiet => self.quiet = true,
            Choice::Run => self.run = true,
            Choice::Room(room) => self.room = *room,
            Choice::Holds { name, text } => {
                let name = String::from_str(self.alloc, name)?;
                let text = String::from_str(self.alloc, text)?;
                self.holds = Some(HeldFile { name, text });
            }
            Choice::Printed(text) => self.printed = Some(String::from_str(self.alloc, text)?),
            Choice::Clock(ticks) => self.ticks = self.ticks_of(ticks)?,
            Choice::Gate(rule) => self.gate = *rule,
            Choice::Show(question) => self.questions.push(*question)?,
        }
        Ok(())
    }

    /// The ticks that the words of a text spell.
    fn ticks_of(&self, text: &str) -> Result<Vec<u64>> {
        let mut ticks = Vec::new(self.alloc);
        for word in text.split_whitespace() {
            ticks.push(number(word)?)?;
        }
        Ok(ticks)
    }

    /// How many calls the shelf gets before the command, for the file that it holds.
    pub fn shelf_calls(&self) -> u64 {
        if self.holds.is_some() { 2 } else { 0 }
    }

    /// How many calls the sink gets before the command, for what it has got.
    pub fn sink_calls(&self) -> u64 {
        if self.printed.is_some() { 1 } else { 0 }
    }

    /// The number of the call of an object that fails.
    pub fn failing(&self, object: Object) -> Option<u64> {
        match self.fails {
            Some(fails) if fails.object == object => Some(fails.call),
            _ => None,
        }
    }

    /// The same as a list, where the object gets so many calls before.
    pub fn failing_after(&self, object: Object, before: u64) -> Result<Vec<u64>, AllocError> {
        self.failing(object)
            .map(|call| call.saturating_add(before))
            .into_iter()
            .collect(self.alloc)
    }
}
