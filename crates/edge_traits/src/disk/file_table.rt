//! The files that were begun and not finished.

ghost use Rattle.std.specs.Prelude.{◌≡◌, ◌<◌, ◌+◌, ◌∷◌, ◌++◌, [], None, Some, length, take, drop, is_ok, if◌then◌else◌, IfOk, IfSome, IfNone};
ghost use Rattle.edge_traits.specs.RealFiles.{Begun, find_begun, without_begun, MayClose};

use super::begun_file::BegunFile;
use super::kept_file::NAME_LIMIT;
use super::make_sure;
use crate::OutOfMemory;
use std::alloc::{AllocError, Global};
use std::fs::OpenFile;
use std::io;
use std::marker::Model;

/// How many files are open at once: more than a graph has nodes.
const OPEN_LIMIT: usize = 64;

/// Files by their names, the one that was used last first. There is memory from the start for as
/// many as may be open, and for their names.
#[derive(Drop)]
pub struct FileTable<F: Drop> {
    alloc: Global,
    files: Vec<BegunFile<F>>,
    rooms: Vec<Vec<u8>>,
}

impl<F: Drop> Model for FileTable<F> {
    ghost use Rattle.std.specs.Prelude.{List};
    ghost use Rattle.edge_traits.specs.RealFiles.{Begun};

    ghost Value = { List (Begun F) };

    ghost view = { λ s. s.files.items };
}

impl<F: Drop> FileTable<F> {
    /// None yet.
    pub fn new(alloc: Global) -> Result<FileTable<F>, OutOfMemory>
        ensures { IfOk result (λ t. t ≡ []) }
    {
        let mut rooms = Vec::with_capacity(alloc, OPEN_LIMIT)?;
        for _ in 0..OPEN_LIMIT {
            rooms.push(Vec::with_capacity(alloc, NAME_LIMIT)?)?;
        }
        Ok(FileTable {
            alloc,
            files: Vec::with_capacity(alloc, OPEN_LIMIT)?,
            rooms,
        })
    }

    /// An open file that is at its end, under a name. Beyond as many as may be open it may want memory.
    pub fn begun(&mut self, name: &str, file: F, ends: u64) -> Result<BegunFile<F>, OutOfMemory>
        ensures begun { IfOk result (λ b. b ≡ record { name = name.now; ends = ends; file = Some (file, ends) }) }
        ensures same { self.new ≡ self.old }
    {
        let room = match self.rooms.pop() {
            Some(room) => room,
            None => Vec::new(self.alloc),
        };
        BegunFile::at_end(room, name, file, ends)
    }

    /// Lets a file go that was taken out, and keeps the memory of its name. It is given back where it is open.
    pub fn let_go(&mut self, file: BegunFile<F>) -> Option<F>
        ensures same { self.new ≡ self.old }
    {
        let (room, open) = file.into_parts();
        if self.rooms.len() < self.rooms.capacity() {
            self.rooms.push_reserved(room);
        }
        open
    }

    fn index_of(&self, name: &str) -> Option<usize>
        ensures found { IfSome result (λ i. (file : Begun F) ×
            (drop i self.now ≡ file ∷ drop (i + 1) self.now) ×
            (find_begun self.now name.now ≡ Some file) ×
            (without_begun self.now name.now ≡ take i self.now ++ drop (i + 1) self.now)) }
        ensures within { IfSome result (λ i. i < length self.now) }
        ensures none { IfNone result ((find_begun self.now name.now ≡ None) ×
            (without_begun self.now name.now ≡ self.now)) }
    {
        for (index, file) in self.files.iter().enumerate() {
            if file.has_name(name) {
                return Some(index);
            }
        }
        None
    }

    /// Takes the file of a name out.
    pub fn take(&mut self, name: &str) -> Option<BegunFile<F>>
        ensures file { result ≡ find_begun self.old name.now }
        ensures rest { self.new ≡ without_begun self.old name.now }
    {
        let index = self.index_of(name)?;
        Some(self.files.remove(index))
    }

    /// Takes the file out that was used longest ago.
    pub fn pop(&mut self) -> Option<BegunFile<F>>
        ensures fewer { IfSome result (λ file. self.old ≡ self.new ++ (file ∷ [])) }
        ensures none { IfNone result ((self.old ≡ []) × (self.new ≡ [])) }
    {
        self.files.pop()
    }

    /// Puts a file in, as the one that was used last. Beyond the files that have memory it may
    /// want some.
    pub fn keep(&mut self, file: BegunFile<F>) -> Result<(), OutOfMemory>
        ensures { self.new ≡ (if is_ok result then file ∷ self.old else self.old) }
    {
        match self.files.insert(0, file) {
            Ok(()) => Ok(()),
            Err(_) => Err(AllocError),
        }
    }

    /// The open file that was used longest ago, where no more may be opened.
    fn oldest_too_many(&self) -> Option<usize>
        ensures { IfSome result (λ i. i < length self.now) }
    {
        let mut open = 0;
        let mut oldest = None;
        for (index, file) in self.files.iter().enumerate() {
            if file.is_open() {
                open += 1;
                oldest = Some(index);
            }
        }
        if open < OPEN_LIMIT { None } else { oldest }
    }
}

impl<F: OpenFile + Drop> FileTable<F> {
    /// Where no more may be opened, makes sure of the one that was used longest ago, and closes it.
    pub fn make_room(&mut self) -> io::Result<()>
        ensures { MayClose self.old self.new }
    {
        let Some(index) = self.oldest_too_many() else {
            return Ok(());
        };
        match self.files[index].close() {
            Some(file) => make_sure(&file),
            None => Ok(()),
        }
    }
}
