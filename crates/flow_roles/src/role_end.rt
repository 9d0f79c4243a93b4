//! How roles end.

ghost use Rattle.std.specs.Prelude.{◌≡◌, None, false};

use board_rules::Left;
use nd_base::Held;

/// The end of a role: its pass, what it has of what was handed out for its hand, and whether memory was wanting.
#[derive(Drop)]
pub struct RoleEnd<F: Held, P> {
    pub pass: P,
    pub left: Left<F>,
    pub want: bool,
}

/// What a round of a role comes to.
#[derive(Drop)]
pub(crate) enum Round<F: Held, N> {
    /// The role goes on, with what its last call answered.
    Again(N),
    /// It has ended.
    End { left: Left<F>, want: bool },
}

/// What a role without a hand leaves.
pub fn nothing<F: Held>() -> Left<F>
    ensures { result ≡ record { input = None; made = None; blank = None } }
{
    Left {
        input: None,
        made: None,
        blank: None,
    }
}

/// The end of a role that needs nothing more.
pub(crate) fn ended<F: Held, N>() -> Round<F, N>
    ensures { result ≡ Round.End (record { input = None; made = None; blank = None }) false }
{
    Round::End {
        left: nothing(),
        want: false,
    }
}
