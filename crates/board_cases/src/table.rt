//! Plays the lines of a table.

use crate::board::play_board;
use crate::line::{Call, Ending, Line, NamedCall, NamedEnding};
use crate::sources::read_run;
use anyhow::{Context, Result, bail, ensure};
use std::alloc::Global;
use std::mem;
use std::rt::Files;
use std::sync::Wait;

/// A board that the lines so far describe, with the calls that are made with it.
#[derive(Drop)]
struct Game {
    graph: String,
    stack: String,
    calls: Vec<NamedCall>,
}

/// Plays a table. The calls of a board are gathered up to their end, and made then.
#[derive(Drop)]
pub struct Player {
    alloc: Global,
    game: Option<Game>,
}

impl Player {
    /// A player without a board.
    pub fn new(alloc: Global) -> Player {
        Player { alloc, game: None }
    }

    /// Does what a line says, and prints what comes of it.
    pub fn play<W: Files + Print + Wait + AllocGlobal>(
        &mut self,
        rt: &W,
        line: &str,
    ) -> Result<()> {
        match Line::read(self.alloc, line)? {
            Line::Remark => {}
            Line::Call(call) => self.add(line, call)?,
            Line::Ending(ending) => self.end(rt, line, ending)?,
            Line::Empty | Line::Case => {
                self.done()?;
                rt.println(line)?;
            }
            Line::Board { graph, stack } => {
                self.done()?;
                rt.println(line)?;
                self.begin(graph, stack)?;
            }
        }
        Ok(())
    }

    /// No board waits for its end.
    pub fn done(&self) -> Result<()> {
        ensure!(self.game.is_none(), "the calls of a board have no end");
        Ok(())
    }

    /// Begins a board over these files.
    fn begin(&mut self, graph: &str, stack: &str) -> Result<()> {
        self.game = Some(Game {
            graph: String::from_str(self.alloc, graph)?,
            stack: String::from_str(self.alloc, stack)?,
            calls: Vec::new(self.alloc),
        });
        Ok(())
    }

    /// Adds a call with its line to those of the board.
    fn add(&mut self, line: &str, call: Call) -> Result<()> {
        let line = String::from_str(self.alloc, line)?;
        let game = self.game.as_mut().context("a call has no board")?;
        game.calls.push(NamedCall { line, call })?;
        Ok(())
    }

    /// Ends the board: makes its calls and this end, or prints why its files give no run.
    fn end<W: Files + Print + Wait + AllocGlobal>(
        &mut self,
        rt: &W,
        line: &str,
        ending: Ending,
    ) -> Result<()> {
        let Some(game) = mem::replace(&mut self.game, None) else {
            bail!("an end has no board");
        };
        let ending = NamedEnding {
            line: String::from_str(self.alloc, line)?,
            ending,
        };
        match read_run(rt, self.alloc, game.graph.as_str(), game.stack.as_str())? {
            Ok((plan, stack)) => play_board(rt, &plan, &stack, &game.calls, &ending),
            Err(refusal) => {
                rt.println(refusal)?;
                Ok(())
            }
        }
    }
}
