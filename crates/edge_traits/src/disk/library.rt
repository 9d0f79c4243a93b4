//! Real files to read.

ghost use Rattle.std.specs.Prelude.{◌≡◌, ◌≤◌, None, length, pos, IfOk, OnOk};
ghost use Rattle.std.specs.declared.io.traits.SeekFrom.TheVariants.{Start, End};
ghost use Rattle.edge_traits.specs.Faults.{Counts};
ghost use Rattle.edge_traits.specs.RealFiles.{Steps, Seeks, ReadsAfterSeek};

use super::kept_file::KeptFile;
use super::{counted, fault, file_of, interrupted};
use crate::{Failed, Library};
use std::fs::{OpenFile, OpenOptions};
use std::io::{Seek, SeekFrom};
use std::marker::Model;
use std::rt::Files;

/// The files of the running machine, by their paths. The last one that was read stays open.
#[derive(Drop)]
pub struct DiskLibrary<'a, R: Files> {
    rt: &'a R,
    kept: KeptFile<R::File>,
    faults: u64,
}

impl<'a, R: Files> Model for DiskLibrary<'a, R> {
    ghost use Rattle.edge_traits.specs.RealFiles.{Adapter};

    ghost Value = { Adapter R.File };

    ghost view = { λ s. record { last = s.kept; faults = s.faults } };
}

impl<'a, R: Files> DiskLibrary<'a, R> {
    /// No call has failed yet.
    pub fn new(rt: &'a R) -> DiskLibrary<'a, R>
        ensures { result ≡ record { last = None; faults = 0 } }
    {
        DiskLibrary {
            rt,
            kept: KeptFile::new(),
            faults: 0,
        }
    }

    /// How many calls failed.
    pub fn faults(&self) -> u64
        ensures { result ≡ self.now.faults }
    {
        self.faults
    }
}

impl<'a, R: Files> Library for DiskLibrary<'a, R> {
    ghost use Rattle.std.specs.Prelude.{None};

    ghost holds = { λ s. None };

    ghost faults = { λ s. s.faults };

    ghost faults_at = { λ s call name. s.faults };

    fn size(&mut self, name: &str) -> Result<u64, Failed>
        ensures seeks { IfOk result (λ n. Steps self.old.last self.new.last name.now
            (Seeks R.File.stream_position R.File.stream_bytes (End (pos 0)) n)) }
        ensures cause { Counts self.old.faults self.new.faults result }
    {
        let mut file = file_of(
            self.rt,
            &mut self.kept,
            OpenOptions::new().read(true),
            name,
            &mut self.faults,
        )?;
        if counted(&mut self.faults, file.metadata())?.is_dir() {
            return Err(fault(&mut self.faults));
        }
        let size = counted(&mut self.faults, file.seek(SeekFrom::End(0)))?;
        self.kept.keep(name, file);
        Ok(size)
    }

    fn read_at(&mut self, name: &str, off: u64, buf: &mut [u8]) -> Result<usize, Failed>
        ensures bound { IfOk result (λ n. n ≤ length buf.new) }
        ensures reads { OnOk result (Steps self.old.last self.new.last name.now
            (ReadsAfterSeek R.File.stream_position R.File.stream_bytes R.File.remaining (Start off) result buf.new)) }
        ensures cause { Counts self.old.faults self.new.faults result }
    {
        let mut file = file_of(
            self.rt,
            &mut self.kept,
            OpenOptions::new().read(true),
            name,
            &mut self.faults,
        )?;
        counted(&mut self.faults, file.seek(SeekFrom::Start(off)))?;
        let count = counted(&mut self.faults, interrupted::read(&mut file, buf))?;
        self.kept.keep(name, file);
        Ok(count)
    }
}
