//! A file that was begun, and writes to it.

ghost use Rattle.std.specs.Prelude.{◌≡◌, ◌+◌, ◌<◌, ◌≤◌, ◌^◌, ◌++◌, ℕ, List, [], None, Some, length, max, is_some, bytes_eq, IsSome, IfOk, OnOk};
ghost use Rattle.std.specs.Option.{option_map};
ghost use Rattle.std.specs.Io.KnownBytes.{Appends};
ghost use Rattle.edge_traits.specs.RealFiles.{GoesTo, Writes, closed};

use super::interrupted;
use crate::OutOfMemory;
use std::io;
use std::io::{ErrorKind, Seek, SeekFrom, Write};
use std::marker::Model;

/// Moves a file to a byte, where it isn't there.
fn go_to<F: Seek>(file: &mut F, place: &mut u64, at: u64) -> io::Result<()>
    ensures place { OnOk result (place.new ≡ at) }
    ensures goes { OnOk result (GoesTo F.stream_position F.stream_bytes place.old at file.old
        file.new) }
{
    if *place != at {
        file.seek(SeekFrom::Start(at))?;
        *place = at;
    }
    Ok(())
}

/// Writes a front of the bytes where the file is, and all of them unless it fails.
fn write_front<F: Write>(file: &mut F, place: &mut u64, bytes: &[u8]) -> io::Result<()>
    requires fits { place.old + length bytes.now < 2 ^ 64 }
    ensures front { (done rest : List ℕ) × (bytes.now ≡ done ++ rest) ×
        (place.new ≡ place.old + length done) ×
        Appends (F.contents file.old) (F.contents file.new) done × OnOk result (rest ≡ []) }
{
    let mut rest = bytes;
    while !rest.is_empty() {
        let count = interrupted::write(file, rest)?;
        if count == 0 {
            return Err(io::Error::from(ErrorKind::WriteZero));
        }
        rest = &rest[count..];
        *place += count as u64;
    }
    Ok(())
}

/// Writes all bytes from the byte `at` of the file on. It seeks only where the file isn't there.
fn write_at<F: Seek + Write>(file: &mut F, place: &mut u64, at: u64, bytes: &[u8]) -> io::Result<()>
    requires fits { at + length bytes.now < 2 ^ 64 }
    ensures place { OnOk result (place.new ≡ at + length bytes.now) }
    ensures writes { OnOk result ((there : F) × GoesTo F.stream_position F.stream_bytes place.old at
        file.old there × Appends (F.contents there) (F.contents file.new) bytes.now) }
{
    go_to(file, place, at)?;
    write_front(file, place, bytes)
}

/// An open file, and the byte that it is at.
#[derive(Drop)]
struct Placed<F: Drop> {
    file: F,
    place: u64,
}

/// A file that was begun: its name, where the bytes that it was given end, and where it is open
/// the file.
#[derive(Drop)]
pub struct BegunFile<F: Drop> {
    name: Vec<u8>,
    ends: u64,
    placed: Option<Placed<F>>,
}

impl<F: Drop> Model for BegunFile<F> {
    ghost use Rattle.std.specs.Option.{option_map};
    ghost use Rattle.edge_traits.specs.RealFiles.{Begun};

    ghost Value = { Begun F };

    ghost view = { λ s. record {
      name = s.name.items;
      ends = s.ends;
      file = option_map (λ p. (p.file, p.place)) s.placed;
    } };
}

impl<F: Drop> BegunFile<F> {
    /// An open file that is at its end. The name goes into a list whose memory is used again; it takes some where that is too little.
    pub fn at_end(
        room: Vec<u8>,
        name: &str,
        file: F,
        ends: u64,
    ) -> Result<BegunFile<F>, OutOfMemory>
        ensures { IfOk result (λ b. b ≡ record { name = name.now; ends = ends; file = Some (file, ends) }) }
    {
        let mut held = room;
        held.clear();
        held.extend_from_slice(name.as_bytes())?;
        let place = ends;
        Ok(BegunFile {
            name: held,
            ends,
            placed: Some(Placed { file, place }),
        })
    }

    /// Lets the file go: the list that has its name, and the file where it is open.
    pub fn into_parts(self) -> (Vec<u8>, Option<F>) {
        let BegunFile {
            name,
            ends: _,
            placed,
        } = self;
        (name, placed.map(|it| it.file))
    }

    /// Whether it is the one of this name.
    pub fn has_name(&self, name: &str) -> bool
        ensures { result ≡ bytes_eq self.now.name name.now }
    {
        self.name.as_slice() == name.as_bytes()
    }

    /// Whether it is open.
    pub fn is_open(&self) -> bool
        ensures { result ≡ is_some self.now.file }
    {
        self.placed.is_some()
    }

    /// Where the bytes that it was given end.
    pub fn ends(&self) -> u64
        ensures { result ≡ self.now.ends }
    {
        self.ends
    }

    /// Takes the open file out.
    pub fn close(&mut self) -> Option<F>
        ensures file { result ≡ option_map (λ p. p.0) self.old.file }
        ensures closed { self.new ≡ closed self.old }
    {
        let placed = self.placed.take()?;
        Some(placed.file)
    }

    /// Puts in the file that was opened again.
    pub fn reopen(&mut self, file: F)
        ensures { self.new ≡ record {
          name = self.old.name;
          ends = self.old.ends;
          file = Some (file, 0);
        } }
    {
        self.placed = Some(Placed { file, place: 0 });
    }
}

impl<F: Seek + Write + Drop> BegunFile<F> {
    /// Writes bytes from the byte `at` of the open file on. It seeks only where the file isn't
    /// there.
    pub fn write_from(&mut self, at: u64, bytes: &[u8]) -> io::Result<()>
        requires is_open { IsSome self.old.file }
        requires fits { at + length bytes.now < 2 ^ 64 }
        ensures writes { OnOk result (Writes F.stream_position F.stream_bytes F.contents at
            bytes.now self.old self.new) }
        ensures name { self.new.name ≡ self.old.name }
    {
        let Some(placed) = self.placed.take() else {
            unreachable!()
        };
        let Placed {
            mut file,
            mut place,
        } = placed;
        let done = write_at(&mut file, &mut place, at, bytes);
        self.ends = self.ends.max(place);
        self.placed = Some(Placed { file, place });
        done
    }
}
