//! What a command leaves.

use crate::files::Files;
use crate::shelf::NotedShelf;
use anyhow::{Result, ensure};
use flow_journal::{Log, write_text};
use replay_top::{CheckStatus, Status, check_status_text};
use std::alloc::Global;

/// How many calls each object got.
#[derive(Clone, Copy)]
pub struct Calls {
    pub library: u64,
    pub shelf: u64,
    pub sink: u64,
}

/// A file that a command left.
#[derive(Drop)]
pub struct LeftFile {
    pub name: String,
    pub bytes: Vec<u8>,
}

/// How a top call ended.
#[derive(Drop)]
pub struct Ending {
    pub status: CheckStatus,
    /// The log of a run that has finished.
    pub log: Option<Log>,
}

/// What a command leaves.
#[derive(Drop)]
pub struct Outcome {
    pub status: CheckStatus,
    /// The log of a run that has finished.
    pub log: Option<Log>,
    pub calls: Calls,
    /// What the sink got.
    pub printed: Vec<u8>,
    /// The files of the shelf, in the order in which they were first created.
    pub files: Vec<LeftFile>,
    /// Whether the gate held a role until its turns were spent.
    pub gave_up: Option<bool>,
}

/// The files of a shelf.
pub fn left_files(alloc: Global, shelf: &NotedShelf<'_>) -> Result<Vec<LeftFile>> {
    let mut files = Vec::new(alloc);
    for name in shelf.names() {
        if let Some(bytes) = shelf.shelf().bytes(name.as_str()) {
            let name = name.clone()?;
            let bytes = Vec::from_slice(alloc, bytes)?;
            files.push(LeftFile { name, bytes })?;
        }
    }
    let count = shelf.shelf().names_count();
    ensure!(files.len() == count as usize, "some names weren't noted");
    Ok(files)
}

impl Outcome {
    /// The text of the status.
    pub fn status_text(&self, alloc: Global) -> Result<String> {
        Ok(check_status_text(alloc, &self.status)?)
    }

    /// Whether the command did its work.
    pub fn is_done(&self) -> bool {
        matches!(self.status, CheckStatus::Common(Status::Done))
    }

    /// The text of the log.
    pub fn log_text(&self, alloc: Global) -> Result<Option<String>> {
        match &self.log {
            Some(log) => Ok(Some(write_text(alloc, log)?)),
            None => Ok(None),
        }
    }

    /// Hands the files on to the commands after it.
    pub fn hand_on(self, files: &mut Files) -> Result<()> {
        for file in self.files {
            let LeftFile { name, bytes } = file;
            files.put(name.as_str(), bytes)?;
        }
        Ok(())
    }
}
