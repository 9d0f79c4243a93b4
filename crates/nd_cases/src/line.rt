//! The lines of a table.

use crate::choices::Choice;
use crate::edits::Edit;
use anyhow::{Context, Result};
use std::alloc::{AllocError, Global};

/// A line of a table. A case is a line `case NAME` and those after it, up to the next.
#[derive(Drop)]
pub enum Line<'a> {
    /// `# WORDS`
    Remark,
    /// An empty line, which is printed as it is.
    Empty,
    /// `case NAME`: begins with no file, and with no choice.
    Case,
    /// `$ WORDS`: what the program is called with.
    Command(&'a str),
    /// A line that makes or changes a file of the case.
    Edit(Edit<'a>),
    /// A line that says how the next command is called.
    Choice(Choice<'a>),
}

impl<'a> Line<'a> {
    /// What a line says.
    pub fn read(alloc: Global, line: &'a str) -> Result<Line<'a>> {
        let (word, rest) = line.split_once(' ').unwrap_or((line, ""));
        match word {
            "" => return Ok(Line::Empty),
            "#" => return Ok(Line::Remark),
            "case" => return Ok(Line::Case),
            "$" => return Ok(Line::Command(rest)),
            _ => {}
        }
        match Edit::read(alloc, word, rest)? {
            Some(edit) => Ok(Line::Edit(edit)),
            None => Ok(Line::Choice(Choice::read(word, rest)?)),
        }
    }
}

/// The words of a command. `%20` in a word stands for a blank.
pub fn command_words(alloc: Global, text: &str) -> Result<Vec<String>, AllocError> {
    text.split_whitespace()
        .map(|word| word.replace(alloc, "%20", " "))
        .try_collect(alloc)
}

/// The first word of a text, and the rest after one blank.
pub fn first_word(text: &str) -> Result<(&str, &str)> {
    text.split_once(' ').context("a word is missing")
}

/// A number that a word spells.
pub fn number(word: &str) -> Result<u64> {
    word.parse::<u64>()
        .context(format_args!("{word} is no number"))
}

/// The same up to 4,294,967,295.
pub fn short_number(word: &str) -> Result<u32> {
    word.parse::<u32>()
        .context(format_args!("{word} is no short number"))
}
