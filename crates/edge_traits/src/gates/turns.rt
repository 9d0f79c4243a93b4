//! Waiting by turns of other threads.

ghost use Rattle.std.specs.Prelude.{◌≡◌, ◌<◌, ◌-◌, IfSome};

use std::marker::Model;
use std::sync::atomic::{AtomicU64, Ordering};
use std::thread;

/// Turns of other threads that are waited for at most.
#[derive(Drop)]
pub struct Turns {
    all: u64,
    left: u64,
}

impl Model for Turns {
    ghost use Rattle.edge_traits.specs.Waiting.{TurnCount};

    ghost Value = { TurnCount };

    ghost view = { λ t. record { all = t.all; left = t.left } };
}

impl Turns {
    pub fn new(all: u64) -> Turns
        ensures { result ≡ record { all = all; left = all } }
    {
        Turns { all, left: all }
    }

    /// Lets another thread run.
    fn pass(&mut self)
        requires { 0 < self.old.left }
        ensures { self.new ≡ record { all = self.old.all; left = self.old.left - 1 } }
    {
        thread::yield_now();
        self.left -= 1;
    }
}

/// Lets other threads run until the word is at least `least`. Where so many turns went by before,
/// it answers them as spent.
pub fn wait_for(word: &AtomicU64, least: u64, turns: u64) -> Option<Turns>
    ensures { IfSome result (λ spent. spent ≡ record { all = turns; left = 0 }) }
{
    let mut waited = Turns::new(turns);
    while word.load(Ordering::SeqCst) < least {
        if waited.left == 0 {
            return Some(waited);
        }
        waited.pass();
    }
    None
}
