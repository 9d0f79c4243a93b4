//! The files of a case.

use anyhow::{Context, Result, ensure};
use std::alloc::{AllocError, Global};

/// A file of a case, for its library.
#[derive(Drop)]
pub struct CaseFile {
    pub name: String,
    pub bytes: Vec<u8>,
    /// The size of a file of which no read succeeds.
    pub long: Option<u64>,
}

/// The files of a case, no two of which have one name.
#[derive(Drop)]
pub struct Files {
    alloc: Global,
    list: Vec<CaseFile>,
}

impl Files {
    /// No files.
    pub fn new(alloc: Global) -> Files {
        Files {
            alloc,
            list: Vec::new(alloc),
        }
    }

    /// The files, in the order in which they were put.
    pub fn list(&self) -> &[CaseFile] {
        &self.list
    }

    /// Whether there is a file of this name.
    pub fn holds(&self, name: &str) -> bool {
        self.list.iter().any(|file| file.name.as_str() == name)
    }

    /// The file of this name.
    fn find(&mut self, name: &str) -> Result<&mut CaseFile> {
        self.list
            .iter_mut()
            .find(|file| file.name.as_str() == name)
            .context(format_args!("there is no {name}"))
    }

    /// Adds a file as the last one, in place of one that has its name.
    fn add(&mut self, name: &str, bytes: Vec<u8>, long: Option<u64>) -> Result<(), AllocError> {
        let name = String::from_str(self.alloc, name)?;
        self.list.retain(|file| file.name.as_str() != name.as_str());
        self.list.push(CaseFile { name, bytes, long })?;
        Ok(())
    }

    /// Puts a file, in place of one that has its name.
    pub fn put(&mut self, name: &str, bytes: Vec<u8>) -> Result<(), AllocError> {
        self.add(name, bytes, None)
    }

    /// Puts a file that is said to have so many bytes, and of which no read succeeds.
    pub fn put_long(&mut self, name: &str, size: u64) -> Result<(), AllocError> {
        self.add(name, Vec::new(self.alloc), Some(size))
    }

    /// Adds a line to the file that was put last.
    pub fn add_line(&mut self, text: &str) -> Result<()> {
        let file = self.list.last_mut().context("a text has no file")?;
        file.bytes.extend_from_slice(text.as_bytes())?;
        file.bytes.push(b'\n')?;
        Ok(())
    }

    /// Writes bytes over those that the file has from a place on.
    pub fn change(&mut self, name: &str, place: u64, bytes: &[u8]) -> Result<()> {
        let file = self.find(name)?;
        let end = place.saturating_add(bytes.len() as u64);
        ensure!(end <= file.bytes.len() as u64, "{name} ends before {end}");
        let old = file.bytes.iter_mut().skip(place as usize);
        for (byte, new) in old.zip(bytes) {
            *byte = *new;
        }
        Ok(())
    }

    /// Leaves so many bytes of a file.
    pub fn cut(&mut self, name: &str, length: u64) -> Result<()> {
        let file = self.find(name)?;
        ensure!(
            length <= file.bytes.len() as u64,
            "{name} is shorter than {length}"
        );
        file.bytes.truncate(length as usize);
        Ok(())
    }
}
