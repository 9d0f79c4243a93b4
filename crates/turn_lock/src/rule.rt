//! What a seat of the lock's table knows, and the rule of the table.

use crate::object::Object;
use atomic_table::TableRule;
use std::collections::LinkedList;

/// Where a seat stands in the queue.
pub enum Stage<E> {
    Idle,
    /// With its ticket.
    Waiting(u64),
    /// It has the state.
    Serving(u64),
    /// Idle, and just told of another seat's prefix of the log.
    Joined(LinkedList<E>),
}

/// The entries that a role has made.
pub struct Moves<E> {
    pub role: u32,
    pub entries: LinkedList<E>,
}

/// What a seat knows. It stands in proofs alone: no value of it is made.
pub struct View<E> {
    pub stage: Stage<E>,
    pub seen: LinkedList<E>,
    pub made: LinkedList<Moves<E>>,
}

/// The rule, over the number of roles.
pub struct Turns;

impl<S: Object> TableRule<S, View<S::Entry>, u32> for Turns {
    ghost use Rattle.turn_lock.specs.Rule.{TurnRule};
    ghost use Rattle.turn_lock.specs.Views.{first_view};

    ghost holds = { λ seats. TurnRule S.entries S.begins seats };

    ghost first = { λ seats. first_view seats };
}
