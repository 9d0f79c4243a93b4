//! The objects that a command is given.

use crate::choices::Object;
use crate::files::CaseFile;
use crate::gate::CaseGate;
use crate::library::CaseLibrary;
use crate::outcome::{Calls, Ending, Outcome, left_files};
use crate::setting::Setting;
use crate::shelf::NotedShelf;
use anyhow::{Context, Result};
use edge_traits::{MemClock, MemShelf, MemSink, Sink, ToldShelf};
use replay_top::{CheckStatus, check_top, run_top, tool_top};
use std::alloc::Global;
use std::sync::Wait;
use std::sync::atomic::AtomicU64;
use std::thread::Threads;

/// The room of a sink.
const SINK_ROOM: u64 = 4_000;

/// How many names a shelf has room for.
const NAMES: u32 = 16;

/// The objects of a command.
#[derive(Drop)]
pub struct Objects<'a> {
    library: CaseLibrary<'a>,
    shelf: NotedShelf<'a>,
    sink: MemSink,
    clock: MemClock,
    gate: CaseGate<'a>,
}

/// The shelf of a command. The word counts its appends.
fn shelf<'a>(alloc: Global, setting: &Setting, word: &'a AtomicU64) -> Result<NotedShelf<'a>> {
    let fails = setting.failing_after(Object::Shelf, setting.shelf_calls())?;
    let shelf = MemShelf::new(alloc, setting.room, NAMES, fails)?;
    let mut shelf = NotedShelf::new(alloc, ToldShelf::new(shelf, word));
    if let Some(file) = &setting.holds {
        shelf.hold(file.name.as_str(), file.text.as_bytes())?;
    }
    Ok(shelf)
}

/// The sink of a command.
fn sink(alloc: Global, setting: &Setting) -> Result<MemSink> {
    let fails = setting.failing_after(Object::Sink, setting.sink_calls())?;
    let mut sink = MemSink::new(alloc, SINK_ROOM, fails)?;
    if let Some(text) = &setting.printed
        && !text.is_empty()
    {
        let done = sink.write(text.as_bytes());
        done.ok().context("the sink has no room")?;
    }
    Ok(sink)
}

/// Whether the words are for the call that runs graphs in threads.
fn is_run(words: &[String]) -> bool {
    let first = words.first().map(|word| word.as_str());
    matches!(first, Some("run" | "run-log" | "watch" | "demo"))
}

/// Whether the words are for the call that checks a log.
fn is_check(words: &[String]) -> bool {
    words.first().is_some_and(|word| word.as_str() == "check")
}

impl<'a> Objects<'a> {
    /// The objects that a setting says, over these files. The word counts the shelf's appends.
    pub fn new(
        alloc: Global,
        files: &'a [CaseFile],
        setting: &Setting,
        word: &'a AtomicU64,
    ) -> Result<Objects<'a>> {
        let fails = setting.failing(Object::Library);
        Ok(Objects {
            library: CaseLibrary::new(files, fails, setting.slow),
            shelf: shelf(alloc, setting, word)?,
            sink: sink(alloc, setting)?,
            clock: MemClock::new(alloc, setting.ticks.clone()?)?,
            gate: CaseGate::new(setting.gate, word),
        })
    }

    /// Calls the program's top call for these words, or that for runs where `run` says so.
    pub fn call<W: Threads + Wait + Sync>(
        &mut self,
        rt: &W,
        alloc: Global,
        words: &[String],
        run: bool,
    ) -> Ending {
        let library = &mut self.library;
        let shelf = &mut self.shelf;
        let sink = &mut self.sink;
        if run || is_run(words) {
            let clock = &mut self.clock;
            let exit = run_top(rt, alloc, words, library, shelf, sink, clock, &self.gate);
            return Ending {
                status: CheckStatus::Common(exit.status),
                log: exit.log,
            };
        }
        let status = if is_check(words) {
            check_top(alloc, words, library, sink)
        } else {
            CheckStatus::Common(tool_top(alloc, words, library, shelf, sink))
        };
        Ending { status, log: None }
    }

    /// What a command left that ended so.
    pub fn outcome(&self, alloc: Global, setting: &Setting, ending: Ending) -> Result<Outcome> {
        let shelf_calls = self.shelf.shelf().calls();
        let sink_calls = self.sink.calls();
        Ok(Outcome {
            status: ending.status,
            log: ending.log,
            calls: Calls {
                library: self.library.calls(),
                shelf: shelf_calls.saturating_sub(setting.shelf_calls()),
                sink: sink_calls.saturating_sub(setting.sink_calls()),
            },
            printed: Vec::from_slice(alloc, self.sink.bytes())?,
            files: left_files(alloc, &self.shelf)?,
            gave_up: self.gate.gave_up(),
        })
    }
}
