//! The blocks of which something stayed away.

ghost use Rattle.std.specs.Prelude.{◌≡◌, ◌++◌};
ghost use Rattle.std.specs.Option.{option_to_list};

use std::marker::Model;

/// The blocks of a hand of which something stayed away when it was taken back: the one that was granted with the hand, and that of its
/// array. Contracts see the list of those that there are, in this order.
#[derive(Debug, Drop)]
pub struct LostBlocks {
    granted: Option<u32>,
    array: Option<u32>,
}

impl Model for LostBlocks {
    ghost use Rattle.std.specs.Prelude.{ℕ, List, ◌++◌};
    ghost use Rattle.std.specs.Option.{option_to_list};

    ghost Value = { List ℕ };

    ghost view = { λ l. option_to_list l.granted ++ option_to_list l.array };
}

impl LostBlocks {
    /// The granted block and the array's, where something of them stayed away.
    pub fn new(granted: Option<u32>, array: Option<u32>) -> LostBlocks
        ensures { result ≡ option_to_list granted ++ option_to_list array }
    {
        LostBlocks { granted, array }
    }
}
