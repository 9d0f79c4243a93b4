//! Prints what a command left.

use crate::choices::FailingCall;
use crate::outcome::{LeftFile, Outcome};
use anyhow::Result;
use sha2::{Digest, Sha256};
use std::io;
use std::str::from_utf8;

/// The longest file whose bytes are printed.
const SHORT: usize = 160;

/// Prints the lines of a text, each after a mark.
fn print_lines(rt: &impl Print, mark: &str, bytes: &[u8]) -> io::Result<()> {
    let text = from_utf8(bytes).unwrap_or("no text");
    for line in text.lines() {
        println!(rt; "{mark}{line}")?;
    }
    Ok(())
}

/// Prints a file: a text by its lines, a short file by its bytes, and another by its digest. Of a file that is the run's log only that
/// is said, since a log follows the schedule of the threads.
fn print_file(rt: &(impl Print + AllocGlobal), file: &LeftFile, log: Option<&str>) -> Result<()> {
    let name = file.name.as_str();
    let bytes = file.bytes.as_slice();
    let length = bytes.len();
    if log.is_some_and(|log| log.as_bytes() == bytes) {
        println!(rt; "{name}: the log of the run")?;
    } else if name.ends_with(".txt") {
        println!(rt; "{name}: {length} bytes")?;
        print_lines(rt, "  ", bytes)?;
    } else if length <= SHORT {
        let digits = hex::encode(rt.alloc(), bytes)?;
        println!(rt; "{name}: {length} bytes {digits}")?;
    } else {
        let digits = hex::encode(rt.alloc(), Sha256::digest(bytes).as_slice())?;
        println!(rt; "{name}: {length} bytes, sha256 {digits}")?;
    }
    Ok(())
}

impl Outcome {
    /// Prints how many calls each object got, and whether there is a log.
    pub fn print_calls(&self, rt: &impl Print) -> io::Result<()> {
        let calls = self.calls;
        println!(rt;
            "calls: library {}, shelf {}, sink {}; log: {}",
            calls.library,
            calls.shelf,
            calls.sink,
            self.log.is_some()
        )
    }

    /// Prints what the sink got and the files.
    fn print_work(&self, rt: &(impl Print + AllocGlobal)) -> Result<()> {
        let log = self.log_text(rt.alloc())?;
        print_lines(rt, "> ", &self.printed)?;
        for file in &self.files {
            print_file(rt, file, log.as_ref().map(|log| log.as_str()))?;
        }
        Ok(())
    }

    /// Prints the status; what the sink got and the files, but for a quiet command; and the calls where it isn't done.
    pub fn print(&self, rt: &(impl Print + AllocGlobal), quiet: bool) -> Result<()> {
        rt.println(self.status_text(rt.alloc())?)?;
        if !quiet {
            self.print_work(rt)?;
        }
        if !self.is_done() {
            self.print_calls(rt)?;
        }
        if let Some(gave_up) = self.gave_up {
            println!(rt; "gate gave up: {gave_up}")?;
        }
        Ok(())
    }

    /// Prints in one line what the command left whose call failed.
    pub fn print_short(&self, rt: &(impl Print + AllocGlobal), fails: FailingCall) -> Result<()> {
        let alloc = rt.alloc();
        let log = self.log_text(alloc)?;
        let mut line = format!(in alloc;
            "{} {}: {}; calls {} {} {}; log {}; printed {}",
            fails.object.name(),
            fails.call,
            self.status_text(alloc)?,
            self.calls.library,
            self.calls.shelf,
            self.calls.sink,
            self.log.is_some(),
            self.printed.len()
        )?;
        for file in &self.files {
            let length = file.bytes.len();
            let name = file.name.as_str();
            let part = match &log {
                Some(log) if log.as_bytes() == file.bytes.as_slice() => {
                    format!(in alloc; "; {name} the log")?
                }
                _ => format!(in alloc; "; {name} {length}")?,
            };
            line.push_str(part.as_str())?;
        }
        rt.println(line)?;
        Ok(())
    }
}
