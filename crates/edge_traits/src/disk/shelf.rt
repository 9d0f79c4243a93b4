//! Real files to write.

ghost use Rattle.std.specs.Prelude.{◌≡◌, ◌≤◌, ◌∷◌, List, None, Some, [], length, IfOk, OnOk, IsSome};
ghost use Rattle.edge_traits.specs.Faults.{Counts};
ghost use Rattle.edge_traits.specs.RealFiles.{Begun, emptying, keeping, find_begun, without_begun, MayClose, Takes, Writes, WritesTo};

use super::begun_file::BegunFile;
use super::file_table::FileTable;
use super::{counted, fault, make_sure, open};
use crate::{Failed, OutOfMemory, Shelf};
use std::alloc::Global;
use std::fs::OpenOptions;
use std::io::{Seek, SeekFrom};
use std::marker::Model;
use std::rt::Files;

/// The files of the running machine, by their paths. A name that was created stays open until it
/// is finished, beside up to 63 others; of more names those that were used longest ago are closed,
/// and opened again when they are written. A write goes to the place where the bytes end that this
/// shelf gave the name, whatever others add to the file. To finish a name makes sure of its bytes, of
/// the first 64 names and of each that has 64 KiB or more; a smaller one is left to the system then.
#[derive(Drop)]
pub struct DiskShelf<'a, R: Files> {
    rt: &'a R,
    files: FileTable<R::File>,
    unsure: u32,
    faults: u64,
}

/// How many names are made sure of whatever their size, and from which size on each is: to do it for thousands of small files
/// would take many times as long as writing them.
const SURE_NAMES: u32 = 64;

const SURE_SIZE: u64 = 65_536;

impl<'a, R: Files> Model for DiskShelf<'a, R> {
    ghost use Rattle.edge_traits.specs.RealFiles.{BegunFiles};

    ghost Value = { BegunFiles R.File };

    ghost view = { λ s. record { files = s.files; faults = s.faults } };
}

/// Opens a file that is to be empty, and makes it where it isn't there.
fn emptying() -> OpenOptions
    ensures { result ≡ emptying }
{
    let mut how = OpenOptions::new();
    how.write(true).create(true).truncate(true);
    how
}

/// Opens a file that is there and keeps what it has.
fn keeping() -> OpenOptions
    ensures { result ≡ keeping }
{
    let mut how = OpenOptions::new();
    how.write(true);
    how
}

impl<'a, R: Files> DiskShelf<'a, R> {
    /// No call has failed yet. It takes the memory for 64 names that are begun and not finished.
    pub fn new(alloc: Global, rt: &'a R) -> Result<DiskShelf<'a, R>, OutOfMemory>
        ensures { IfOk result (λ s. s ≡ record { files = []; faults = 0 }) }
    {
        Ok(DiskShelf {
            rt,
            files: FileTable::new(alloc)?,
            unsure: SURE_NAMES,
            faults: 0,
        })
    }

    /// How many calls failed.
    pub fn faults(&self) -> u64
        ensures { result ≡ self.now.faults }
    {
        self.faults
    }

    /// Opens a file, where need be in place of another.
    fn opened(&mut self, how: &OpenOptions, name: &str) -> Result<R::File, Failed>
        ensures fits { OnOk result (length name.now ≤ 4096) }
        ensures files { MayClose self.old.files self.new.files }
        ensures cause { Counts self.old.faults self.new.faults result }
    {
        counted(&mut self.faults, self.files.make_room())?;
        open(self.rt, how, name, &mut self.faults)
    }

    /// An open file that is at its end, with its name.
    fn begun(&mut self, name: &str, file: R::File, ends: u64) -> Result<BegunFile<R::File>, Failed>
        ensures begun { IfOk result (λ b. b ≡ record { name = name.now; ends = ends; file = Some (file, ends) }) }
        ensures files { self.new.files ≡ self.old.files }
        ensures cause { Counts self.old.faults self.new.faults result }
    {
        match self.files.begun(name, file, ends) {
            Ok(begun) => Ok(begun),
            Err(_) => Err(fault(&mut self.faults)),
        }
    }

    /// Whether the next name that is finished with so many bytes is made sure of.
    fn is_sure(&mut self, size: u64) -> bool
        ensures same { self.new ≡ self.old }
    {
        let is_early = self.unsure > 0;
        self.unsure = self.unsure.saturating_sub(1);
        is_early || size >= SURE_SIZE
    }

    /// Lets a file go that was taken out, with its bytes made sure of where they are to be.
    fn ended(&mut self, file: BegunFile<R::File>) -> Result<(), Failed>
        ensures files { self.new.files ≡ self.old.files }
        ensures cause { Counts self.old.faults self.new.faults result }
    {
        let is_sure = self.is_sure(file.ends());
        match self.files.let_go(file) {
            Some(open) if is_sure => counted(&mut self.faults, make_sure(&open)),
            _ => Ok(()),
        }
    }

    /// Keeps a file for the next call on its name.
    fn kept(&mut self, file: BegunFile<R::File>) -> Result<(), Failed>
        ensures kept { OnOk result (self.new.files ≡ file ∷ self.old.files) }
        ensures cause { Counts self.old.faults self.new.faults result }
    {
        match self.files.keep(file) {
            Ok(()) => Ok(()),
            Err(_) => Err(fault(&mut self.faults)),
        }
    }

    /// A file that was closed, open again; where it can't be it is kept as it was.
    fn reopened(
        &mut self,
        mut file: BegunFile<R::File>,
        name: &str,
    ) -> Result<BegunFile<R::File>, Failed>
        ensures again { IfOk result (λ b. (f : R.File) × (b ≡ record {
          name = file.name;
          ends = file.ends;
          file = Some (f, 0);
        })) }
        ensures others { OnOk result (MayClose self.old.files self.new.files) }
        ensures cause { Counts self.old.faults self.new.faults result }
    {
        match self.opened(&keeping(), name) {
            Ok(open) => {
                file.reopen(open);
                Ok(file)
            }
            Err(failed) => {
                let _ = self.files.keep(file);
                Err(failed)
            }
        }
    }

    /// A file that this shelf hasn't begun: the one that is there, at its end.
    fn found(&mut self, name: &str) -> Result<BegunFile<R::File>, Failed>
        ensures takes { IfOk result (λ b. Takes R.File.stream_position R.File.stream_bytes None
            name.now b) }
        ensures others { OnOk result (MayClose self.old.files self.new.files) }
        ensures cause { Counts self.old.faults self.new.faults result }
    {
        let mut file = self.opened(&keeping(), name)?;
        let ends = counted(&mut self.faults, file.seek(SeekFrom::End(0)))?;
        self.begun(name, file, ends)
    }

    /// The file of a name, open and taken out.
    #[tactic(auto, using(crate::proofs::BegunFiles::begun))]
    fn taken(&mut self, name: &str) -> Result<BegunFile<R::File>, Failed>
        ensures takes { IfOk result (λ b. Takes R.File.stream_position R.File.stream_bytes
            (find_begun self.old.files name.now) name.now b) }
        ensures name { IfOk result (λ b. b.name ≡ name.now) }
        ensures is_open { IfOk result (λ b. IsSome b.file) }
        ensures others { OnOk result (MayClose (without_begun self.old.files name.now)
            self.new.files) }
        ensures cause { Counts self.old.faults self.new.faults result }
    {
        match self.files.take(name) {
            Some(file) if file.is_open() => Ok(file),
            Some(file) => self.reopened(file, name),
            None => self.found(name),
        }
    }

    /// Writes a piece to an open file from a byte on, and keeps the file.
    fn write_kept(
        &mut self,
        mut file: BegunFile<R::File>,
        at: u64,
        bytes: &[u8],
    ) -> Result<(), Failed>
        requires { IsSome file.file }
        ensures writes { OnOk result ((to : Begun R.File) × Writes R.File.stream_position
            R.File.stream_bytes R.File.contents at bytes.now file to ×
            (self.new.files ≡ to ∷ self.old.files)) }
        ensures cause { Counts self.old.faults self.new.faults result }
    {
        if bytes.len() as u64 > u64::MAX - at {
            self.kept(file)?;
            return Err(fault(&mut self.faults));
        }
        let written = file.write_from(at, bytes);
        self.kept(file)?;
        counted(&mut self.faults, written)
    }
}

impl<'a, R: Files> Shelf for DiskShelf<'a, R> {
    ghost use Rattle.std.specs.Prelude.{◌≡◌, [], None};
    ghost use Rattle.edge_traits.specs.RealFiles.{without_begun};

    ghost held = { λ s. None };

    ghost faults = { λ s. s.faults };

    ghost finishes = { λ name old new. new.files ≡ without_begun old.files name };

    ghost all_finished = { λ s. s.files ≡ [] };

    #[tactic(auto, using(crate::proofs::BegunFiles::begun))]
    fn create(&mut self, name: &str) -> Result<(), Failed>
        ensures begun { OnOk result ((file : R.File) × (others : List (Begun R.File)) ×
            (self.new.files ≡ record {
              name = name.now;
              ends = 0;
              file = Some (file, 0);
            } ∷ others) × MayClose (without_begun self.old.files name.now) others) }
        ensures cause { Counts self.old.faults self.new.faults result }
    {
        if let Some(file) = self.files.take(name) {
            drop(self.files.let_go(file));
        }
        let file = self.opened(&emptying(), name)?;
        let begun = self.begun(name, file, 0)?;
        self.kept(begun)
    }

    fn append(&mut self, name: &str, bytes: &[u8]) -> Result<(), Failed>
        ensures writes { OnOk result (WritesTo R.File.stream_position R.File.stream_bytes
            R.File.contents (λ from. from.ends) bytes.now self.old.files self.new.files name.now) }
        ensures cause { Counts self.old.faults self.new.faults result }
    {
        let file = self.taken(name)?;
        let at = file.ends();
        self.write_kept(file, at, bytes)?;
        Ok(())
    }

    fn patch(&mut self, name: &str, off: u64, bytes: &[u8]) -> Result<(), Failed>
        ensures writes { OnOk result (WritesTo R.File.stream_position R.File.stream_bytes
            R.File.contents (λ from. off) bytes.now self.old.files self.new.files name.now) }
        ensures cause { Counts self.old.faults self.new.faults result }
    {
        let file = self.taken(name)?;
        self.write_kept(file, off, bytes)?;
        Ok(())
    }

    fn finish(&mut self, name: &str) -> Result<(), Failed>
        ensures let_go { self.new.files ≡ without_begun self.old.files name.now }
        ensures cause { Counts self.old.faults self.new.faults result }
    {
        match self.files.take(name) {
            Some(file) => self.ended(file),
            None => Ok(()),
        }
    }

    fn finish_all(&mut self) -> Result<(), Failed>
        ensures let_go { OnOk result (self.new.files ≡ []) }
        ensures cause { Counts self.old.faults self.new.faults result }
    {
        while let Some(file) = self.files.pop() {
            self.ended(file)?;
        }
        Ok(())
    }
}
