//! Libraries in memory.

ghost use Rattle.std.specs.Prelude.{◌≡◌, ◌<◌, ◌≤◌, ◌-◌, ◌&&◌, ℕ, List, length, take, drop, min, map, not, is_ok, is_some, string_bytes, IfOk, OnOk, Some};
ghost use Rattle.std.specs.Prelude.{if◌then◌else◌};
ghost use Rattle.edge_traits.specs.Faults.{Counts};
ghost use Rattle.edge_traits.specs.Files.{Stands, IsTold};
ghost use Rattle.edge_traits.specs.Memory.{told, find_file, no_calls, is_listed, counted, one_more};

use super::calls::CallCount;
use super::file_list::{FileList, read_part};
use crate::{Failed, Library, OutOfMemory};
use std::alloc::Global;
use std::marker::Model;

/// A library in memory, whose calls fail at a name that it doesn't hold and where a list says so.
/// Of two files with one name it holds the first.
#[derive(Drop)]
pub struct MemLibrary {
    files: FileList,
    calls: CallCount,
}

impl Model for MemLibrary {
    ghost use Rattle.edge_traits.specs.Memory.{MemFiles};

    ghost Value = { MemFiles };

    ghost view = { λ s. record { files = s.files; calls = s.calls } };
}

impl MemLibrary {
    /// A library of these files, whose calls with these numbers, from 0, fail.
    pub fn new(
        _alloc: Global,
        files: Vec<(String, Vec<u8>)>,
        fails: Vec<u64>,
    ) -> Result<MemLibrary, OutOfMemory>
        ensures { IfOk result (λ s. s ≡ record {
          files = map (λ f.
              (string_bytes f.0, f.1.items)) files.items;
          calls = no_calls fails.items;
        }) }
    {
        Ok(MemLibrary {
            files: FileList::new(files),
            calls: CallCount::new(fails),
        })
    }

    /// How many calls were made.
    pub fn calls(&self) -> u64
        ensures { result ≡ self.now.calls.made }
    {
        self.calls.made()
    }

    /// How many calls failed.
    pub fn faults(&self) -> u64
        ensures { result ≡ self.now.calls.faults }
    {
        self.calls.faults()
    }
}

impl Library for MemLibrary {
    ghost use Rattle.edge_traits.specs.Memory.{told};

    ghost holds = { λ s. told s.files };

    ghost faults = { λ s. s.calls.faults };

    ghost faults_at = { λ s call name. s.calls.faults };

    fn size(&mut self, name: &str) -> Result<u64, Failed>
        ensures files { told self.new.files ≡ told self.old.files }
        ensures known { OnOk result (Stands (told self.old.files) name.now) }
        ensures size { IfOk result (λ n. (file : List ℕ) →
            IsTold (told self.old.files) name.now file → n ≡ length file) }
        ensures cause { Counts self.old.calls.faults self.new.calls.faults result }

        // It fails exactly in a call of the list and at a name that isn't held.
        ensures exact { is_ok result ≡ (not (is_listed self.old.calls) &&
            is_some (find_file self.old.files name.now)) }
        ensures calls { self.new.calls ≡ counted self.old.calls (is_ok result) }
        ensures same { self.new.files ≡ self.old.files }
    {
        let found = if self.calls.is_listed() {
            None
        } else {
            self.files.find(name)
        };
        let answer = match found {
            Some(held) => Ok(held.len() as u64),
            None => Err(Failed),
        };
        self.calls.count(answer)
    }

    fn read_at(&mut self, name: &str, off: u64, buf: &mut [u8]) -> Result<usize, Failed>
        ensures files { told self.new.files ≡ told self.old.files }
        ensures known { OnOk result (Stands (told self.old.files) name.now) }
        ensures bound { IfOk result (λ n. n ≤ length buf.new) }
        ensures bytes { IfOk result (λ n. (file : List ℕ) →
            IsTold (told self.old.files) name.now file → take n buf.new ≡ take n (drop off file)) }
        ensures end { IfOk result (λ n. (file : List ℕ) →
            IsTold (told self.old.files) name.now file → n ≡ 0 → 0 < length buf.new →
            length file ≤ off) }
        ensures cause { Counts self.old.calls.faults self.new.calls.faults result }

        // It fails exactly in a call of the list and at a name that isn't held, and else reads
        // as much as there is and fits.
        ensures exact { is_ok result ≡ (not (is_listed self.old.calls) &&
            is_some (find_file self.old.files name.now)) }
        ensures full { IfOk result (λ n. (file : List ℕ) →
            find_file self.old.files name.now ≡ Some file →
            n ≡ min (length buf.old) (length file - off)) }
        ensures calls { self.new.calls ≡ counted self.old.calls (is_ok result) }
        ensures same { self.new.files ≡ self.old.files }
    {
        let found = if self.calls.is_listed() {
            None
        } else {
            self.files.find(name)
        };
        let answer = match found {
            Some(file) => Ok(read_part(file, off, buf)),
            None => Err(Failed),
        };
        self.calls.count(answer)
    }
}

/// A library in memory, whose calls fail at a name that it doesn't hold and never else. Of two
/// files with one name it holds the first.
#[derive(Drop)]
pub struct SureLibrary {
    files: FileList,
    faults: u64,
}

impl Model for SureLibrary {
    ghost use Rattle.edge_traits.specs.Memory.{SureFiles};

    ghost Value = { SureFiles };

    ghost view = { λ s. record { files = s.files; faults = s.faults } };
}

impl SureLibrary {
    /// A library of these files.
    pub fn new(_alloc: Global, files: Vec<(String, Vec<u8>)>) -> Result<SureLibrary, OutOfMemory>
        ensures { IfOk result (λ s. s ≡ record {
          files = map (λ f.
              (string_bytes f.0, f.1.items)) files.items;
          faults = 0;
        }) }
    {
        Ok(SureLibrary {
            files: FileList::new(files),
            faults: 0,
        })
    }

    /// How many calls failed.
    pub fn faults(&self) -> u64
        ensures { result ≡ self.now.faults }
    {
        self.faults
    }
}

impl Library for SureLibrary {
    ghost use Rattle.edge_traits.specs.Memory.{told};

    ghost holds = { λ s. told s.files };

    ghost faults = { λ s. s.faults };

    ghost faults_at = { λ s call name. s.faults };

    fn size(&mut self, name: &str) -> Result<u64, Failed>
        ensures files { told self.new.files ≡ told self.old.files }
        ensures known { OnOk result (Stands (told self.old.files) name.now) }
        ensures size { IfOk result (λ n. (file : List ℕ) →
            IsTold (told self.old.files) name.now file → n ≡ length file) }
        ensures cause { Counts self.old.faults self.new.faults result }

        // It fails exactly at a name that isn't held.
        ensures exact { is_ok result ≡ is_some (find_file self.old.files name.now) }
        ensures faults { self.new.faults ≡
            (if is_ok result then self.old.faults else one_more self.old.faults) }
        ensures same { self.new.files ≡ self.old.files }
    {
        match self.files.find(name) {
            Some(file) => Ok(file.len() as u64),
            None => {
                self.faults = self.faults.saturating_add(1);
                Err(Failed)
            }
        }
    }

    fn read_at(&mut self, name: &str, off: u64, buf: &mut [u8]) -> Result<usize, Failed>
        ensures files { told self.new.files ≡ told self.old.files }
        ensures known { OnOk result (Stands (told self.old.files) name.now) }
        ensures bound { IfOk result (λ n. n ≤ length buf.new) }
        ensures bytes { IfOk result (λ n. (file : List ℕ) →
            IsTold (told self.old.files) name.now file → take n buf.new ≡ take n (drop off file)) }
        ensures end { IfOk result (λ n. (file : List ℕ) →
            IsTold (told self.old.files) name.now file → n ≡ 0 → 0 < length buf.new →
            length file ≤ off) }
        ensures cause { Counts self.old.faults self.new.faults result }

        // It fails exactly at a name that isn't held, and else reads as much as there is and fits.
        ensures exact { is_ok result ≡ is_some (find_file self.old.files name.now) }
        ensures full { IfOk result (λ n. (file : List ℕ) →
            find_file self.old.files name.now ≡ Some file →
            n ≡ min (length buf.old) (length file - off)) }
        ensures faults { self.new.faults ≡
            (if is_ok result then self.old.faults else one_more self.old.faults) }
        ensures same { self.new.files ≡ self.old.files }
    {
        match self.files.find(name) {
            Some(file) => Ok(read_part(file, off, buf)),
            None => {
                self.faults = self.faults.saturating_add(1);
                Err(Failed)
            }
        }
    }
}
