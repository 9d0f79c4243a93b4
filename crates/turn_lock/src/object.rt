//! What lies under the lock.

use std::alloc::Global;

/// A value that is used by one call at a time, and that keeps a log of what was done to it.
pub trait Object {
    /// An operation. It tells the role that makes it.
    type Op;

    type Reply;

    type Entry;

    ghost use Rattle.std.specs.Prelude.{◌≡◌, ℕ, List, ◌++◌, Option};
    ghost use Rattle.turn_lock.specs.Logs.{moves_of, IsMove};

    /// The log.
    ghost entries: { Self → List Self.Entry };

    ghost role: { Self.Op → ℕ };

    /// The role whose move the entry begins; none where it goes on with the move before it.
    ghost begins: { Self.Entry → Option ℕ };

    /// Whether an operation may be played, by the entries that its role has made.
    ghost may: { List Self.Entry → Self.Op → Type 0 };

    /// What an operation may reply after these entries, and which entries it then adds.
    ghost answers: { List Self.Entry → Self.Op → Self.Reply → List Self.Entry → Type 0 };

    /// Adds nothing to the log, or one move of the operation's role. Want of memory is one of the replies.
    fn play(&mut self, alloc: Global, op: Self::Op) -> Self::Reply
        requires { may (moves_of begins (role op) (entries self.old)) op }
        ensures { (added : List Self.Entry) × (entries self.new ≡ entries self.old ++ added) × IsMove begins (role op) added
            × answers (entries self.old) op result added };
}
