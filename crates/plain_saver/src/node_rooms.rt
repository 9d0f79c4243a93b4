//! Rooms for the samples of frames as they go out of one node.

ghost use Rattle.std.specs.Prelude.{◌≡◌, ◌+◌, ◌*◌, ◌≤◌, ◌↔◌, None, Some, [], length, All, IfOk, OnOk, OnErr, IsTrue};
ghost use Rattle.plain_saver.specs.Rooms.{HasOwn, own_room, with_own};

use nd_base::{Bytes, OutOfMemory};
use std::alloc::Global;
use std::marker::Model;
use std::mem;

/// How many bytes of rows are enough for one write.
pub(crate) const ENOUGH: usize = 16_384;

/// The bytes that each row has beside its samples, at least: the id and the times of its array.
const BESIDE: usize = 20;

/// How many rows of so many bytes of samples, at most, are gathered for one write.
pub(crate) fn most_ahead(need: u32) -> usize
    ensures some { 1 ≤ result }
    ensures enough { 16384 ≤ result * (need + 20) }
    ensures few { result * need ≤ 16384 + need }
{
    ENOUGH / (need as usize + BESIDE) + 1
}

/// Room for the samples of one frame as they go out of a node.
#[derive(Drop)]
pub struct Room {
    /// The frame that they are of, if there is one.
    pub index: Option<u32>,
    pub bytes: Bytes,
}

impl Room {
    /// Room that has no frame yet. It takes no memory.
    fn empty(alloc: Global) -> Room
        ensures { result ≡ record { index = None; bytes = [] } }
    {
        Room {
            index: None,
            bytes: Bytes::new(Vec::new(alloc)),
        }
    }
}

/// The rooms of a node: that of frame k is number k modulo their count. Contracts see the list of them.
#[derive(Drop)]
pub struct NodeRooms {
    rooms: Vec<Room>,
}

impl Model for NodeRooms {
    ghost use Rattle.std.specs.Prelude.{List};
    ghost use Rattle.plain_saver.specs.declared.node_rooms.Room.{Room};

    ghost Value = { List Room };

    ghost view = { λ r. r.rooms.items };
}

impl NodeRooms {
    /// No rooms. They take no memory.
    pub(crate) fn none(alloc: Global) -> NodeRooms
        ensures { result ≡ [] }
    {
        NodeRooms {
            rooms: Vec::new(alloc),
        }
    }

    /// As many empty rooms as frames of so many bytes are read ahead at most.
    ///
    /// # Errors
    ///
    /// Only for want of memory.
    pub(crate) fn for_frames(alloc: Global, need: u32) -> Result<NodeRooms, OutOfMemory>
        ensures some { IfOk result (λ rooms. 1 ≤ length rooms) }
        ensures few { IfOk result (λ rooms. length rooms * need ≤ 16384 + need) }
        ensures empty { IfOk result (λ rooms. All (λ room. room.index ≡ None) rooms) }
    {
        let count = most_ahead(need);
        let mut rooms = Vec::with_capacity(alloc, count)?;
        for _place in 0..count {
            rooms.push(Room::empty(alloc))?;
        }
        Ok(NodeRooms { rooms })
    }

    /// How many there are.
    pub(crate) fn count(&self) -> usize
        ensures { result ≡ length self.now }
    {
        self.rooms.len()
    }

    /// Whether the room of a frame has it.
    pub(crate) fn has(&self, index: u32) -> bool
        ensures { IsTrue result ↔ HasOwn self.now index }
    {
        if self.rooms.is_empty() {
            return false;
        }
        self.rooms[index as usize % self.rooms.len()].index == Some(index)
    }

    /// The bytes in the room of a frame.
    pub(crate) fn bytes(&self, index: u32) -> &[u8]
        requires { 1 ≤ length self.now }
        ensures { (room : Room) → own_room self.now index ≡ Some room → result.now ≡ room.bytes }
    {
        self.rooms[index as usize % self.rooms.len()].bytes.list()
    }

    /// The storage of the room of a frame, made anew where it isn't of this size. The room is empty then.
    ///
    /// # Errors
    ///
    /// Only for want of memory, and then the rooms are as they were.
    pub(crate) fn take(
        &mut self,
        alloc: Global,
        index: u32,
        size: u32,
    ) -> Result<Vec<u8>, OutOfMemory>
        requires { 1 ≤ length self.old }
        ensures size { IfOk result (λ bytes. length bytes.items ≡ size) }
        ensures room { OnOk result (self.new ≡ with_own self.old index (record { index = None; bytes = [] })) }
        ensures err { OnErr result (self.new ≡ self.old) }
    {
        let place = index as usize % self.rooms.len();
        let room = &mut self.rooms[place];
        if room.bytes.list().len() != size as usize {
            room.bytes = Bytes::new(vec![in alloc; 0; size as usize]?);
        }
        Ok(mem::replace(room, Room::empty(alloc)).bytes.into_list())
    }

    /// Puts the samples of a frame into its room.
    pub(crate) fn put(&mut self, index: u32, bytes: Vec<u8>)
        requires { 1 ≤ length self.old }
        ensures { self.new ≡ with_own self.old index (record { index = Some index; bytes = bytes.items }) }
    {
        let place = index as usize % self.rooms.len();
        self.rooms[place] = Room {
            index: Some(index),
            bytes: Bytes::new(bytes),
        };
    }
}
