//! The steps of the lock, by what each tells its seat.

use crate::object::Object;
use crate::rule::View;
use atomic_table::{Join, Play, Split};

/// The seat gets the next ticket.
pub struct Draw;

impl<S: Object> Play<S, View<S::Entry>> for Draw {
    ghost use Rattle.turn_lock.specs.Steps.{Draws};

    ghost then = { Draws };
}

/// A look at the ticket that is served. At its own, the seat takes the state out of the slot.
pub struct Poll;

impl<S: Object> Play<S, View<S::Entry>> for Poll {
    ghost use Rattle.turn_lock.specs.Steps.{Polls};

    ghost then = { Polls S.entries S.begins };
}

/// The seat puts the state back and ends its turn.
pub struct End;

impl<S: Object> Play<S, View<S::Entry>> for End {
    ghost use Rattle.turn_lock.specs.Steps.{Ends};

    ghost then = { Ends S.entries S.begins };
}

/// A step on a word of which the rule says nothing.
pub struct Stay;

impl<S: Object> Play<S, View<S::Entry>> for Stay {
    ghost use Rattle.turn_lock.specs.Steps.{Stays};

    ghost then = { Stays };
}

/// After a join, the seat keeps the longer of the two prefixes.
pub struct Settle;

impl<S: Object> Play<S, View<S::Entry>> for Settle {
    ghost use Rattle.turn_lock.specs.Steps.{Settles};

    ghost then = { Settles };
}

/// The seat keeps its first role, and a new seat gets the others.
pub struct SplitFirst;

impl<E> Split<View<E>> for SplitFirst {
    ghost use Rattle.turn_lock.specs.Views.{first_role, other_roles};

    ghost left = { first_role };

    ghost right = { other_roles };
}

/// The seat gets the other's roles, and is told what the other has seen.
pub struct JoinBoth;

impl<E> Join<View<E>> for JoinBoth {
    ghost use Rattle.turn_lock.specs.Views.{joined, spent};

    ghost both = { joined };

    ghost spent = { spent };
}
