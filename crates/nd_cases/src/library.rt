//! The library of a command.

ghost use Rattle.std.specs.Prelude.{◌≡◌, ◌≤◌, length, Some, IfOk};
ghost use Rattle.edge_traits.specs.Faults.{Counts};

use crate::files::CaseFile;
use edge_traits::{Failed, Library};

/// The files of a case. One call may fail, the reads of a long file fail all, and a slow library gives a byte a read.
#[derive(Drop)]
pub struct CaseLibrary<'a> {
    files: &'a [CaseFile],
    fails: Option<u64>,
    slow: bool,
    calls: u64,
    faults: u64,
}

/// Reads of some bytes, from a place on, as many as there are and fit.
fn read_part(bytes: &[u8], off: u64, buf: &mut [u8]) -> usize
    ensures { (result ≤ length buf.old) × (length buf.new ≡ length buf.old) }
{
    let start = off.min(bytes.len() as u64) as usize;
    let left = &bytes[start..];
    let count = left.len().min(buf.len());
    buf[..count].copy_from_slice(&left[..count]);
    count
}

impl<'a> CaseLibrary<'a> {
    /// A library of these files, of whose calls that with this number, from 0, fails.
    pub fn new(files: &'a [CaseFile], fails: Option<u64>, slow: bool) -> CaseLibrary<'a> {
        CaseLibrary {
            files,
            fails,
            slow,
            calls: 0,
            faults: 0,
        }
    }

    /// How many calls were made.
    pub fn calls(&self) -> u64 {
        self.calls
    }

    /// The file of a name; None in the call that fails.
    fn find(&self, name: &str) -> Option<&'a CaseFile> {
        if self.fails == Some(self.calls) {
            return None;
        }
        self.files.iter().find(|file| file.name.as_str() == name)
    }

    /// Counts a call with its answer.
    fn count<T>(&mut self, answer: Option<T>) -> Result<T, Failed>
        ensures value { IfOk result (λ value. answer ≡ Some value) }
        ensures cause { Counts self.old.faults self.new.faults result }
    {
        self.calls = self.calls.saturating_add(1);
        match answer {
            Some(value) => Ok(value),
            None => {
                self.faults = self.faults.saturating_add(1);
                Err(Failed)
            }
        }
    }
}

impl<'a> Library for CaseLibrary<'a> {
    ghost use Rattle.std.specs.Prelude.{None};

    ghost holds = { λ s. None };

    ghost faults = { λ s. s.faults };

    ghost faults_at = { λ s call name. s.faults };

    fn size(&mut self, name: &str) -> Result<u64, Failed> {
        let size = self
            .find(name)
            .map(|file| file.long.unwrap_or(file.bytes.len() as u64));
        self.count(size)
    }

    fn read_at(&mut self, name: &str, off: u64, buf: &mut [u8]) -> Result<usize, Failed> {
        let most = if self.slow { 1 } else { buf.len() };
        let most = most.min(buf.len());
        let read = match self.find(name) {
            Some(file) if file.long.is_none() => {
                Some(read_part(&file.bytes, off, &mut buf[..most]))
            }
            _ => None,
        };
        self.count(read)
    }
}
