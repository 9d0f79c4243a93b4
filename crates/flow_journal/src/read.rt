//! A log from its text.

ghost use Rattle.std.specs.Prelude.{◌≡◌, ◌<◌, ◌^◌, ◌==◌, length, reverse, position, IfOk, OnOk, All, ℕ};
ghost use Rattle.std.specs.Option.{option_map};
ghost use Rattle.flow_journal.specs.Spelling.{text_of};
ghost use Rattle.flow_journal.specs.Reading.{numbers_in, why_in};
ghost use Rattle.flow_journal.specs.TextFaults.{Fits, IsFirstBadLine, IsReading, IsLineRead};

use crate::kind::Kind;
use crate::{Entry, Log, Why};
use nd_base::OutOfMemory;
use std::alloc::{AllocError, AllocFailed, Global};
use thiserror::Error;

/// Why a text is none of a log.
#[derive(Clone, Copy, Debug, PartialEq, Eq, Error)]
pub enum LogFault {
    /// Line `n`, from 1, is the first that isn't an entry as it is written, with its newline.
    #[error("line {n} is no entry")]
    Line { n: u32 },
    #[error("out of memory")]
    OutOfMemory,
}

impl From<AllocError> for LogFault {
    ghost use Rattle.flow_journal.specs.declared.read.LogFault.TheVariants.{OutOfMemory};

    ghost from_gives = { λ _ fault. fault ≡ OutOfMemory };

    fn from(_: AllocError) -> Self {
        LogFault::OutOfMemory
    }
}

impl<T: Drop> From<AllocFailed<T>> for LogFault {
    ghost use Rattle.flow_journal.specs.declared.read.LogFault.TheVariants.{OutOfMemory};

    ghost from_gives = { λ _ fault. fault ≡ OutOfMemory };

    fn from(_: AllocFailed<T>) -> Self {
        LogFault::OutOfMemory
    }
}

/// The decimal numbers in a line, in order, each up to the greatest of 64 bits.
fn read_numbers(line: &[u8], numbers: &mut Vec<u64>) -> Result<(), AllocError>
    ensures { OnOk result (numbers.new.items ≡ numbers_in line.now) }
{
    numbers.clear();
    let mut so_far: Option<u64> = None;
    for byte in line {
        if byte.is_ascii_digit() {
            let digit = u64::from(*byte - b'0');
            let number = so_far.unwrap_or(0).saturating_mul(10).saturating_add(digit);
            so_far = Some(number);
        } else if let Some(number) = so_far.take() {
            numbers.push(number)?;
        }
    }
    if let Some(number) = so_far {
        numbers.push(number)?;
    }
    Ok(())
}

/// The reason at the end of a line; Plain where there is none.
fn why_at_end(line: &[u8]) -> Why
    ensures { result ≡ why_in line.now }
{
    match line.last().copied() {
        Some(b'p') => Why::Step,
        Some(b'e') => Why::Late,
        Some(b'h') => Why::Flush,
        Some(b'g') => Why::Ring,
        Some(b'w') => Why::Now,
        _ => Why::Plain,
    }
}

/// The place of the first newline.
fn line_end(text: &[u8]) -> Option<usize>
    ensures { result ≡ position (λ c. c == 10) text.now }
{
    text.iter().position(|byte| *byte == b'\n')
}

/// Room for what is kept of one line.
#[derive(Drop)]
struct Lines {
    numbers: Vec<u64>,
    spelling: String,
}

impl Lines {
    /// The entry that is spelled so, if there is one.
    fn entry(&mut self, line: &[u8]) -> Result<Option<Entry>, AllocError>
        ensures { IfOk result (IsReading line.now) }
    {
        let Some(kind) = Kind::of_line(line) else {
            return Ok(None);
        };
        read_numbers(line, &mut self.numbers)?;
        let entry = kind.entry(&self.numbers, why_at_end(line));
        self.spelling.clear();
        write!(self.spelling, "{entry}")?;
        if self.spelling.as_bytes() == line {
            Ok(Some(entry))
        } else {
            Ok(None)
        }
    }

    /// The entry whose line the text begins with, and the text behind it, if there is one.
    fn first_entry<'a>(&mut self, text: &'a [u8]) -> Result<Option<(Entry, &'a [u8])>, AllocError>
        ensures { IfOk result (λ read. IsLineRead text.now (option_map (λ p. record { entry = p.0; rest = p.1.now }) read)) }
    {
        let Some(end) = line_end(text) else {
            return Ok(None);
        };
        let Some(entry) = self.entry(&text[..end])? else {
            return Ok(None);
        };
        Ok(Some((entry, &text[end + 1..])))
    }
}

/// The log that has this text. It has room for its entries and no more.
pub fn read_text(alloc: Global, text: &[u8]) -> Result<Log, LogFault>
    requires { length text.now < 2 ^ 32 }
    ensures text { IfOk result (λ log. text.now ≡ text_of (reverse log.past)) }
    ensures fits { IfOk result (λ log. All Fits (reverse log.past)) }
    ensures room { IfOk result (λ log. log.room ≡ length log.past) }
    ensures line { (n : ℕ) → result ≡ Err (LogFault.Line n) → IsFirstBadLine text.now n }
{
    let mut lines = Lines {
        numbers: Vec::new(alloc),
        spelling: String::new(alloc),
    };
    let mut entries = Vec::new(alloc);
    let mut rest = text;
    while !rest.is_empty() {
        let Some((entry, after)) = lines.first_entry(rest)? else {
            return Err(LogFault::Line {
                n: entries.len() as u32 + 1,
            });
        };
        entries.push(entry)?;
        rest = after;
    }
    Ok(Log::from_entries(entries))
}
