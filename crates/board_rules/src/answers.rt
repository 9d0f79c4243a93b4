//! What the calls of a board answer.

ghost use Rattle.std.specs.Prelude.{◌≡◌};
ghost use Rattle.board_rules.specs.InHand.{just};

use nd_base::{FrameName, Held, Measure};
use thiserror::Error;

/// What `load` answers.
#[derive(Debug, PartialEq, Eq, Drop)]
pub enum Load<B> {
    /// Some role has left, and this one isn't the drain.
    Left,
    /// A loaded frame wasn't issued yet, or this role has something in hand.
    Busy,
    /// Every frame was offered.
    Ended,
    /// The feed waits for room at the driver's children.
    NotYet,
    /// The pool refused the frame of this index while so many bytes were held.
    Refused { index: u32, held: u64 },
    /// There was no memory for the block.
    OutOfMemory,
    /// The frame of this index is to be filled into this storage, and then issued.
    Loaded { index: u32, blank: B },
}

/// What `take` answers.
#[derive(Drop)]
pub enum Take<F: Held> {
    /// Some role has left, and this one isn't the drain.
    Left,
    /// This role has something in hand.
    Busy,
    /// The node is settled.
    Ended,
    /// Nothing is queued, or as many jobs are in hand as the node has threads.
    Idle,
    /// The pool refused the output of the frame of this index while so many bytes were held, and it was dropped.
    PoolDrop {
        index: u32,
        held: u64,
    },
    /// There was no memory for the block or for the part.
    OutOfMemory,
    /// The array to work on, and at a node that makes arrays the storage for its own.
    Job {
        node: u32,
        input: F,
        blank: Option<F::Blank>,
    },
}

/// What `save` answers.
#[derive(Drop)]
pub enum Save<F> {
    /// This role has something in hand.
    Busy,
    /// Nothing is due at the node, or a piece of it is in a hand.
    NotYet,
    /// There was no memory for the part.
    OutOfMemory,
    /// The array to save. It is number `place` of its group, from 0; `of` is how many the group has, once that is
    /// known.
    Piece {
        input: F,
        group: u32,
        place: u32,
        of: Option<u32>,
    },
}

/// What `settle` and `close` answer.
#[derive(Clone, Copy, Debug, PartialEq, Eq)]
pub enum Settled {
    Done,
    NotYet,
}

/// The result of a job: its input comes back, with what the node made of it or measured, and whether it fired.
#[derive(Drop)]
pub struct Done<F> {
    pub node: u32,
    pub input: F,
    pub made: Option<F>,
    pub measured: Option<Measure>,
    pub fired: bool,
}

/// What a role has in hand: an array at a node, where 0 is the driver.
#[derive(Clone, Copy, Debug, PartialEq, Eq)]
pub struct HandName {
    pub node: u32,
    pub name: FrameName,
}

/// What came back isn't what the role has in hand.
#[derive(Drop, Error)]
#[error("what came back isn't what the role has in hand")]
pub struct NotYours<F> {
    /// What the role has in hand.
    pub kept: Option<HandName>,
    pub given: HandName,
    pub back: Done<F>,
}

impl<F> NotYours<F> {
    /// A frame that came alone goes back.
    pub fn of_frame(kept: Option<HandName>, given: HandName, frame: F) -> NotYours<F>
        ensures { result ≡ record { kept = kept; given = given; back = just given.node frame } }
    {
        NotYours {
            kept,
            given,
            back: Done {
                node: given.node,
                input: frame,
                made: None,
                measured: None,
                fired: false,
            },
        }
    }
}

/// What comes back when a role is done: what it had of its hand, sealed or not.
#[derive(Drop)]
pub struct Left<F: Held> {
    pub input: Option<F>,
    pub made: Option<F>,
    pub blank: Option<F::Blank>,
}

/// Why nothing can be taken back.
#[derive(Clone, Copy, Debug, PartialEq, Eq)]
pub enum NoWhy {
    /// The role has nothing in hand.
    NoHand,
    /// A hand of the role was taken back before, or the role is the drain.
    Spent,
}

/// Nothing was taken back.
#[derive(Drop, Error)]
#[error("nothing was taken back")]
pub struct NoReclaim<F: Held> {
    pub why: NoWhy,
    pub back: Left<F>,
}
