//! What more is told of a command, where it is the same whatever the schedule of its threads.

use crate::line::{first_word, number};
use crate::outcome::Outcome;
use anyhow::{Context, Result, bail};
use flow_journal::{Entry, Log};
use std::alloc::{AllocError, Global};
use std::collections::BTreeSet;
use std::io;

/// What is told.
#[derive(Clone, Copy)]
pub enum Question {
    /// How many calls each object got.
    Calls,
    /// Which roles took an array as a job, and whether one left.
    Roles,
    /// How many arrays were accepted or found a queue full, and whether there are as many rows as were accepted.
    Accepted,
    /// Which frames the pool refused, and how much was held then.
    Refused,
    /// How far a watched run had come at the last of its lines, and whether these tell of fronts that grow and end with the log.
    Seen,
}

impl Question {
    /// The question that a word names.
    pub fn read(word: &str) -> Result<Question> {
        match word {
            "calls" => Ok(Question::Calls),
            "roles" => Ok(Question::Roles),
            "accepted" => Ok(Question::Accepted),
            "refused" => Ok(Question::Refused),
            "seen" => Ok(Question::Seen),
            _ => bail!("{word} isn't told"),
        }
    }

    /// Prints what is told of an outcome.
    pub fn answer(self, rt: &(impl Print + AllocGlobal), outcome: &Outcome) -> Result<()> {
        match self {
            Question::Calls => outcome.print_calls(rt)?,
            Question::Roles => print_roles(rt, log_of(outcome)?)?,
            Question::Accepted => print_accepted(rt, log_of(outcome)?, outcome)?,
            Question::Refused => print_refused(rt, log_of(outcome)?)?,
            Question::Seen => print_seen(rt, log_of(outcome)?, outcome)?,
        }
        Ok(())
    }
}

/// The log that the command left.
fn log_of(outcome: &Outcome) -> Result<&Log> {
    outcome.log.as_ref().context("there is no log")
}

/// The role that an entry says took an array.
fn taker(entry: &Entry) -> Option<u32> {
    match *entry {
        Entry::Take { role, .. } | Entry::TakeBlock { role, .. } => Some(role),
        _ => None,
    }
}

/// The numbers of the roles, from the least on, each after a blank.
fn role_words(alloc: Global, roles: &BTreeSet<u32>) -> Result<String, AllocError> {
    let mut words = String::new(alloc);
    for role in roles {
        words.push_str(format!(in alloc; " {role}")?.as_str())?;
    }
    Ok(words)
}

/// Prints which roles took an array as a job, and whether one left.
fn print_roles(rt: &(impl Print + AllocGlobal), log: &Log) -> Result<()> {
    let mut roles = BTreeSet::new(rt.alloc());
    for role in log.entries().iter().filter_map(taker) {
        roles.insert(role)?;
    }
    let left = log.entries().iter().any(|entry| matches!(
        entry,
        Entry::Leave { .. } | Entry::Reclaim { .. }
    ));
    let words = role_words(rt.alloc(), &roles)?;
    println!(rt; "roles that took:{words}; one left: {left}")?;
    Ok(())
}

/// How many lines a text has.
fn lines(text: &[u8]) -> usize {
    text.iter().filter(|byte| **byte == b'\n').count()
}

/// Prints how many arrays were accepted or found a queue full, and whether there are as many rows as were accepted.
fn print_accepted(rt: &impl Print, log: &Log, outcome: &Outcome) -> io::Result<()> {
    let entries = log.entries();
    let accepted = entries
        .iter()
        .filter(|entry| matches!(entry, Entry::Accept { .. }))
        .count();
    let full = entries
        .iter()
        .filter(|entry| matches!(entry, Entry::Full { .. }))
        .count();
    let rows = outcome
        .files
        .iter()
        .map(|file| lines(&file.bytes))
        .fold(0usize, |sum, count| sum.saturating_add(count));
    let sum = accepted.saturating_add(full);
    let all = rows == accepted;
    println!(rt; "accepted or full: {sum}; a row for each that was accepted: {all}")
}

/// Prints which frames the pool refused, and how much was held then.
fn print_refused(rt: &impl Print, log: &Log) -> io::Result<()> {
    for entry in log.entries() {
        if let Entry::LoadRefused {
            index,
            need,
            held,
            ..
        } = entry
        {
            println!(rt; "frame {index} of {need} bytes refused with {held} held")?;
        }
    }
    Ok(())
}

/// How far a watched run had come at one of its lines.
#[derive(Clone, Copy)]
struct Front {
    entries: u64,
    offered: u64,
    dropped: u64,
    saved: u64,
}

/// What a line tells behind its first word.
fn front_of(told: &str) -> Result<Front> {
    let (entries, rest) = first_word(told)?;
    let (offered, rest) = first_word(rest)?;
    let (dropped, saved) = first_word(rest)?;
    Ok(Front {
        entries: number(entries)?,
        offered: number(offered)?,
        dropped: number(dropped)?,
        saved: number(saved)?,
    })
}

/// Prints what the last line of a watched run tells behind its entries, and whether the lines are of fronts that grow and end with the log.
fn print_seen(rt: &impl Print, log: &Log, outcome: &Outcome) -> Result<()> {
    let text = str::from_utf8(&outcome.printed).context("what was printed is no text")?;
    let mut last = Front {
        entries: 0,
        offered: 0,
        dropped: 0,
        saved: 0,
    };
    let mut grow = true;
    for line in text.lines() {
        if let Some(told) = line.strip_prefix("seen ") {
            let front = front_of(told)?;
            grow = grow && last.entries < front.entries;
            last = front;
        }
    }
    let Front {
        entries,
        offered,
        dropped,
        saved,
    } = last;
    let whole = entries == log.entries().len() as u64;
    println!(rt;
        "seen last: {offered} {dropped} {saved}; fronts that grow: {grow}; to the whole log: {whole}"
    )?;
    Ok(())
}
