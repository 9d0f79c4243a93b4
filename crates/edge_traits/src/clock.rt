//! A clock.

ghost use Rattle.edge_traits.specs.Ticks.{Ticks};

/// A clock that is asked for the time. Its answers may be any numbers, in any order.
pub trait Clock {
    ghost use Rattle.std.specs.Prelude.{Option};
    ghost use Rattle.edge_traits.specs.Ticks.{Coming};

    /// The answers that are to come, where they are told.
    ghost coming: { Self → Option Coming };

    /// The next answer.
    fn tick(&mut self) -> u64
        ensures { Ticks (coming self.old) result (coming self.new) };
}
