//! Lines that make or change a file of the case.

use crate::files::Files;
use crate::line::{first_word, number};
use crate::stacks::StackFile;
use anyhow::{Context, Result};
use std::alloc::Global;

/// What a line does with a file.
#[derive(Drop)]
pub enum Edit<'a> {
    /// `file NAME`: a text, of the lines after it.
    Text {
        name: &'a str,
    },
    /// `| TEXT`: one more line of it.
    More {
        text: &'a str,
    },
    /// `stack NAME KEY=VALUE ..`: a stack.
    Stack(StackFile<'a>),
    /// `change NAME PLACE BYTES`: these bytes, in hexadecimal, in place of those that stand there.
    Change {
        name: &'a str,
        place: u64,
        bytes: Vec<u8>,
    },
    /// `cut NAME LENGTH`: no more than so many bytes.
    Cut {
        name: &'a str,
        length: u64,
    },
    /// `long NAME SIZE`: a file that is said to have so many bytes, and of which no read succeeds.
    Long {
        name: &'a str,
        size: u64,
    },
}

/// The edit that the words after `change` ask for.
fn change<'a>(alloc: Global, rest: &'a str) -> Result<Edit<'a>> {
    let (name, rest) = first_word(rest)?;
    let (place, bytes) = first_word(rest)?;
    Ok(Edit::Change {
        name,
        place: number(place)?,
        bytes: hex::decode(alloc, bytes).context("no bytes in hexadecimal")?,
    })
}

impl<'a> Edit<'a> {
    /// The edit that a line asks for; None where its first word is no edit's.
    pub fn read(alloc: Global, word: &str, rest: &'a str) -> Result<Option<Edit<'a>>> {
        let edit = match word {
            "file" => Edit::Text { name: rest },
            "|" => Edit::More { text: rest },
            "stack" => Edit::Stack(StackFile::read(alloc, rest)?),
            "change" => change(alloc, rest)?,
            "cut" => {
                let (name, length) = first_word(rest)?;
                let length = number(length)?;
                Edit::Cut { name, length }
            }
            "long" => {
                let (name, size) = first_word(rest)?;
                let size = number(size)?;
                Edit::Long { name, size }
            }
            _ => return Ok(None),
        };
        Ok(Some(edit))
    }

    /// Does to the files what the line says.
    pub fn apply(&self, alloc: Global, files: &mut Files) -> Result<()> {
        match self {
            Edit::Text { name } => files.put(name, Vec::new(alloc))?,
            Edit::More { text } => files.add_line(text)?,
            Edit::Stack(stack) => files.put(stack.name(), stack.bytes(alloc)?)?,
            Edit::Change { name, place, bytes } => files.change(name, *place, bytes)?,
            Edit::Cut { name, length } => files.cut(name, *length)?,
            Edit::Long { name, size } => files.put_long(name, *size)?,
        }
        Ok(())
    }
}
