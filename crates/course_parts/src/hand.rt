//! What a role has in hand.

ghost use Rattle.std.specs.Prelude.{◌≡◌, false, replicate, IfOk};
ghost use Rattle.course_parts.specs.declared.hand.Hand.TheVariants.{Free};
ghost use Rattle.course_parts.specs.HandWords.{has_nothing, array_of, node_of, loads, works_on, saves_on, shares, grant_of};

use board_rules::HandName;
use nd_base::{FrameName, OutOfMemory};
use std::alloc::Global;

/// A block that was granted, with its size in bytes.
#[derive(Clone, Copy, Debug, PartialEq, Eq)]
pub struct Block {
    pub number: u32,
    pub size: u32,
}

/// What a role has in hand.
#[derive(Clone, Copy, Debug, PartialEq, Eq)]
pub enum Hand {
    Free,
    /// The frame of this index is to be filled into this block.
    Loaded {
        index: u32,
        block: Block,
    },
    /// The array is to be worked on at the node; at a maker the result goes into this block.
    Job {
        node: u32,
        name: FrameName,
        block: Option<Block>,
    },
    /// The array is to be saved.
    Piece {
        node: u32,
        name: FrameName,
    },
}

/// What is kept of a role.
#[derive(Clone, Copy, Debug, PartialEq, Eq)]
pub struct RoleState {
    pub hand: Hand,
    pub has_left: bool,
    pub was_reclaimed: bool,
}

impl Hand {
    /// Whether there is nothing in hand.
    pub fn is_free(self) -> bool
        ensures { result ≡ has_nothing self }
    {
        matches!(self, Hand::Free)
    }

    /// The array, and its node.
    pub fn array(self) -> Option<HandName>
        ensures { result ≡ array_of self }
    {
        match self {
            Hand::Free => None,
            Hand::Loaded { index, .. } => Some(HandName {
                node: 0,
                name: FrameName { maker: 0, index },
            }),
            Hand::Job { node, name, .. } | Hand::Piece { node, name } => {
                Some(HandName { node, name })
            }
        }
    }

    /// The node, or 0 without one.
    pub fn node(self) -> u32
        ensures { result ≡ node_of self }
    {
        match self {
            Hand::Free | Hand::Loaded { .. } => 0,
            Hand::Job { node, .. } | Hand::Piece { node, .. } => node,
        }
    }

    /// Whether this frame is loaded.
    pub fn is_load_of(self, frame: FrameName) -> bool
        ensures { result ≡ loads frame self }
    {
        match self {
            Hand::Loaded { index, .. } => frame == FrameName { maker: 0, index },
            Hand::Free | Hand::Job { .. } | Hand::Piece { .. } => false,
        }
    }

    /// Whether it is a job of the node on this array.
    pub fn is_job_on(self, at: u32, array: FrameName) -> bool
        ensures { result ≡ works_on at array self }
    {
        match self {
            Hand::Job { node, name, .. } => node == at && array == name,
            Hand::Free | Hand::Loaded { .. } | Hand::Piece { .. } => false,
        }
    }

    /// Whether it is a piece of this array.
    pub fn is_piece_on(self, array: FrameName) -> bool
        ensures { result ≡ saves_on array self }
    {
        match self {
            Hand::Piece { name, .. } => array == name,
            Hand::Free | Hand::Loaded { .. } | Hand::Job { .. } => false,
        }
    }

    /// Whether it is a job or a piece of this array.
    pub fn has_part_of(self, array: FrameName) -> bool
        ensures { result ≡ shares array self }
    {
        match self {
            Hand::Job { name, .. } | Hand::Piece { name, .. } => array == name,
            Hand::Free | Hand::Loaded { .. } => false,
        }
    }

    /// The block that was granted with it.
    pub fn granted(self) -> Option<Block>
        ensures { result ≡ grant_of self }
    {
        match self {
            Hand::Loaded { block, .. } => Some(block),
            Hand::Job { block, .. } => block,
            Hand::Free | Hand::Piece { .. } => None,
        }
    }
}

/// The role has nothing in hand any more.
pub fn let_go(state: &mut RoleState)
    ensures { state.new ≡ record state.old { hand = Free } }
{
    state.hand = Hand::Free;
}

/// So many roles, which have nothing in hand.
pub fn start_roles(alloc: Global, count: u32) -> Result<Vec<RoleState>, OutOfMemory>
    ensures { IfOk result (λ roles. roles.items ≡ replicate count (record { hand = Free; has_left = false; was_reclaimed = false })) }
{
    let free = RoleState {
        hand: Hand::Free,
        has_left: false,
        was_reclaimed: false,
    };
    Ok(vec![in alloc; free; count as usize]?)
}
