//! Plays the lines of a table.

use crate::choices::{FailingCall, Object};
use crate::files::{CaseFile, Files};
use crate::line::{Line, command_words};
use crate::objects::Objects;
use crate::outcome::Outcome;
use crate::setting::Setting;
use anyhow::{Result, bail};
use std::alloc::Global;
use std::rt::Files as RealFiles;
use std::sync::Wait;
use std::sync::atomic::AtomicU64;
use std::thread::Threads;
use std::{fs, mem};

/// The most calls of an object that fail in turn.
const MOST_CALLS: u64 = 1_000;

/// Calls a command with objects over these files.
fn call<W: Threads + Wait + Sync>(
    rt: &W,
    alloc: Global,
    words: &[String],
    files: &[CaseFile],
    setting: &Setting,
) -> Result<Outcome> {
    let word = AtomicU64::new(0);
    let mut objects = Objects::new(alloc, files, setting, &word)?;
    let ending = objects.call(rt, alloc, words, setting.run);
    objects.outcome(alloc, setting, ending)
}

/// Plays a table. It has the files of the case, and how the next command is called.
#[derive(Drop)]
pub struct Player {
    files: Files,
    setting: Setting,
}

impl Player {
    /// A player with no file and no choice.
    pub fn new(alloc: Global) -> Player {
        Player {
            files: Files::new(alloc),
            setting: Setting::new(alloc),
        }
    }

    /// Does what a line says, and prints what a command left.
    pub fn play<W: RealFiles + Print + Threads + Wait + Sync + AllocGlobal>(
        &mut self,
        rt: &W,
        line: &str,
    ) -> Result<()> {
        let alloc = rt.alloc();
        match Line::read(alloc, line)? {
            Line::Remark => {}
            Line::Empty => rt.println("")?,
            Line::Case => {
                rt.println(line)?;
                *self = Player::new(alloc);
            }
            Line::Edit(edit) => edit.apply(alloc, &mut self.files)?,
            Line::Choice(choice) => self.setting.choose(&choice)?,
            Line::Command(words) => {
                rt.println(line)?;
                self.command(rt, &command_words(alloc, words)?)?;
            }
        }
        Ok(())
    }

    /// Takes the files of the data folder that the words name and the case doesn't have.
    fn take_in(&mut self, rt: &(impl RealFiles + AllocGlobal), words: &[String]) -> Result<()> {
        for word in words.iter().skip(1) {
            if !self.files.holds(word.as_str())
                && let Ok(bytes) = fs::read(rt, word.as_str())
            {
                self.files.put(word.as_str(), bytes)?;
            }
        }
        Ok(())
    }

    /// Calls a command as the lines before it say, prints what it leaves, and hands its files on; with `each` none are handed on.
    fn command<W: RealFiles + Print + Threads + Wait + Sync + AllocGlobal>(
        &mut self,
        rt: &W,
        words: &[String],
    ) -> Result<()> {
        self.take_in(rt, words)?;
        let alloc = rt.alloc();
        let setting = mem::replace(&mut self.setting, Setting::new(alloc));
        if let Some(object) = setting.each {
            return self.each(rt, words, setting, object);
        }
        let outcome = call(rt, alloc, words, self.files.list(), &setting)?;
        outcome.print(rt, setting.quiet)?;
        for question in &setting.questions {
            question.answer(rt, &outcome)?;
        }
        outcome.hand_on(&mut self.files)
    }

    /// Calls a command again and again, so that call 0, 1 and so on of an object fails, until it is done.
    fn each<W: Print + Threads + Wait + Sync + AllocGlobal>(
        &self,
        rt: &W,
        words: &[String],
        mut setting: Setting,
        object: Object,
    ) -> Result<()> {
        for number in 0..MOST_CALLS {
            let fails = FailingCall {
                object,
                call: number,
            };
            setting.fails = Some(fails);
            let outcome = call(rt, rt.alloc(), words, self.files.list(), &setting)?;
            outcome.print_short(rt, fails)?;
            if outcome.is_done() {
                return Ok(());
            }
        }
        bail!("the command is never done")
    }
}
