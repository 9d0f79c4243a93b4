//! Names and bytes one after the other in storage that was reserved at the start.

ghost use Rattle.std.specs.Prelude.{◌≡◌, ◌+◌, ◌<◌, ◌≤◌, ◌++◌, [], length, take, drop, is_ok, IsSome, IfSome, IfNone, None, Some, IfOk, OnOk, OnErr};
ghost use Rattle.std.specs.Prelude.{vec_len, vec_capacity};
ghost use Rattle.std.specs.Option.{option_copied};
ghost use Rattle.edge_traits.specs.Files.{overwritten};
ghost use Rattle.edge_traits.specs.Memory.{find_file, bytes_of, with_bytes, takes_name, takes_bytes};
ghost use Rattle.edge_traits.specs.Arena.{parts, total_size, IsPlace};

use crate::Failed;
use std::alloc::{AllocError, Global};
use std::marker::Model;

/// How long a name is, and how many bytes are under it.
#[derive(Clone, Copy)]
pub struct Extent {
    pub name: usize,
    pub bytes: usize,
}

/// Where a file lies: its index, where its name begins, and its lengths.
#[derive(Clone, Copy)]
struct Place {
    index: usize,
    start: usize,
    extent: Extent,
}

fn find_place(extents: &[Extent], storage: &[u8], name: &[u8]) -> Option<Place>
    requires { total_size extents.now ≤ length storage.now }
    ensures found { IfSome result (λ p. IsPlace extents.now storage.now name.now p.extent
        p.index p.start) }
    ensures within { IfSome result (λ p. p.index < length extents.now) }
    ensures ends { IfSome result (λ p. p.start +
        (p.extent.name + p.extent.bytes) ≤ length storage.now) }
    ensures none { IfNone result (find_file (parts extents.now storage.now) name.now ≡ None) }
{
    let mut start = 0;
    for (index, extent) in extents.iter().enumerate() {
        let end = start + extent.name;
        if &storage[start..end] == name {
            return Some(Place {
                index,
                start,
                extent: *extent,
            });
        }
        start = end + extent.bytes;
    }
    None
}

/// Takes bytes out.
fn cut(storage: &mut Vec<u8>, start: usize, count: usize)
    requires { start + count ≤ vec_len storage.old }
    ensures items { storage.new.items ≡
        take start storage.old.items ++ drop (start + count) storage.old.items }
    ensures capacity { vec_capacity storage.old ≤ vec_capacity storage.new }
{
    let rest = storage.len() - count;
    storage[start..].rotate_left(count);
    storage.truncate(rest);
}

/// Puts bytes in.
fn put_in(storage: &mut Vec<u8>, at: usize, bytes: &[u8])
    requires within { at ≤ vec_len storage.old }
    requires room { vec_len storage.old + length bytes.now ≤ vec_capacity storage.old }
    ensures items { storage.new.items ≡
        take at storage.old.items ++ (bytes.now ++ drop at storage.old.items) }
    ensures capacity { vec_capacity storage.old ≤ vec_capacity storage.new }
{
    if storage.extend_from_slice(bytes).is_ok() {
        storage[at..].rotate_right(bytes.len());
    }
}

/// Puts bytes behind all others.
fn add_bytes(storage: &mut Vec<u8>, bytes: &[u8])
    requires { vec_len storage.old + length bytes.now ≤ vec_capacity storage.old }
    ensures items { storage.new.items ≡ storage.old.items ++ bytes.now }
    ensures capacity { vec_capacity storage.old ≤ vec_capacity storage.new }
{
    let _ = storage.extend_from_slice(bytes);
}

/// Writes bytes over others.
fn write_over(storage: &mut Vec<u8>, at: usize, bytes: &[u8])
    requires { at + length bytes.now ≤ vec_len storage.old }
    ensures items { storage.new.items ≡
        take at storage.old.items ++ (bytes.now ++ drop (at + length bytes.now) storage.old.items) }
    ensures capacity { vec_capacity storage.old ≤ vec_capacity storage.new }
{
    storage[at..at + bytes.len()].copy_from_slice(bytes);
}

/// Files in storage that was reserved at the start, in the order of their first creates. Bytes
/// that come to a file that isn't the last move those behind it.
#[derive(Drop)]
pub struct Arena {
    extents: Vec<Extent>,
    storage: Vec<u8>,
    room: u64,
    names: u32,
}

impl Model for Arena {
    ghost use Rattle.std.specs.Prelude.{vec_capacity};
    ghost use Rattle.edge_traits.specs.Memory.{Store};
    ghost use Rattle.edge_traits.specs.Arena.{parts, IsReserved};

    ghost Value = { Store };

    ghost view = { λ s. record {
      files = parts s.extents.items s.storage.items;
      room = s.room;
      names = s.names;
    } };

    ghost invariant = { λ s. IsReserved s.extents.items s.storage.items s.room s.names
        (vec_capacity s.storage) (vec_capacity s.extents) };
}

impl Arena {
    /// Room for so many bytes, those of names among them, and for so many names.
    pub fn new(alloc: Global, room: u64, names: u32) -> Result<Arena, AllocError>
        ensures { IfOk result (λ s. s ≡ record { files = []; room = room; names = names }) }
    {
        let extents = Vec::with_capacity(alloc, names as usize)?;
        let storage = Vec::with_capacity(alloc, room as usize)?;
        Ok(Arena {
            extents,
            storage,
            room,
            names,
        })
    }

    /// The bytes of a file.
    pub fn bytes(&self, name: &str) -> Option<&[u8]>
        ensures { option_copied result ≡ find_file self.now.files name.now }
    {
        let place = find_place(&self.extents, &self.storage, name.as_bytes())?;
        let start = place.start + place.extent.name;
        Some(&self.storage[start..start + place.extent.bytes])
    }

    /// How many names there are.
    pub fn names_count(&self) -> u32
        ensures { result ≡ length self.now.files }
    {
        self.extents.len() as u32
    }

    /// Leaves the name with no bytes; fails where a new one goes beyond the room or the places.
    pub fn create(&mut self, name: &str) -> Result<(), Failed>
        ensures fits { is_ok result ≡ takes_name self.old name.now }
        ensures ok { OnOk result (self.new ≡ with_bytes self.old name.now []) }
        ensures err { OnErr result (self.new ≡ self.old) }
    {
        match find_place(&self.extents, &self.storage, name.as_bytes()) {
            Some(place) => {
                let start = place.start + place.extent.name;
                cut(&mut self.storage, start, place.extent.bytes);
                self.extents[place.index] = Extent {
                    name: place.extent.name,
                    bytes: 0,
                };
                Ok(())
            }
            None => self.add_name(name),
        }
    }

    /// Puts a new name behind the others.
    fn add_name(&mut self, name: &str) -> Result<(), Failed>
        requires { find_file self.old.files name.now ≡ None }
        ensures fits { is_ok result ≡ takes_name self.old name.now }
        ensures ok { OnOk result (self.new ≡ with_bytes self.old name.now []) }
        ensures err { OnErr result (self.new ≡ self.old) }
    {
        let room = self.room - self.storage.len() as u64;
        if name.len() as u64 > room || self.extents.len() as u32 >= self.names {
            return Err(Failed);
        }
        let extent = Extent {
            name: name.len(),
            bytes: 0,
        };
        add_bytes(&mut self.storage, name.as_bytes());
        self.extents.push_reserved(extent);
        Ok(())
    }

    /// Adds bytes to a file; fails where they go beyond the room.
    pub fn append(&mut self, name: &str, bytes: &[u8]) -> Result<(), Failed>
        requires { IsSome (find_file self.old.files name.now) }
        ensures fits { is_ok result ≡ takes_bytes self.old (length bytes.now) }
        ensures ok { OnOk result (self.new ≡
            with_bytes self.old name.now (bytes_of self.old name.now ++ bytes.now)) }
        ensures err { OnErr result (self.new ≡ self.old) }
    {
        if bytes.len() as u64 > self.room - self.storage.len() as u64 {
            return Err(Failed);
        }
        let Some(place) = find_place(&self.extents, &self.storage, name.as_bytes()) else {
            unreachable!()
        };
        let end = place.start + place.extent.name + place.extent.bytes;
        put_in(&mut self.storage, end, bytes);
        self.extents[place.index] = Extent {
            name: place.extent.name,
            bytes: place.extent.bytes + bytes.len(),
        };
        Ok(())
    }

    /// Writes bytes over those of a file.
    pub fn patch(&mut self, name: &str, off: u64, bytes: &[u8])
        requires held { IsSome (find_file self.old.files name.now) }
        requires inside { off + length bytes.now ≤ length (bytes_of self.old name.now) }
        ensures { self.new ≡ with_bytes self.old name.now (overwritten
            (bytes_of self.old name.now) off bytes.now) }
    {
        let Some(place) = find_place(&self.extents, &self.storage, name.as_bytes()) else {
            unreachable!()
        };
        let start = place.start + place.extent.name + off as usize;
        write_over(&mut self.storage, start, bytes);
    }
}
