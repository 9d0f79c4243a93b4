//! Lists of bytes.

ghost use Rattle.std.specs.Prelude.{◌≡◌};

use std::marker::Model;

/// A list of bytes, which contracts see as that list.
#[derive(Clone, Debug, Drop)]
pub struct Bytes {
    list: Vec<u8>,
}

impl Model for Bytes {
    ghost use Rattle.std.specs.Prelude.{List, ℕ};

    ghost Value = { List ℕ };

    ghost view = { λ b. b.list.items };
}

impl Bytes {
    /// Takes the list over.
    pub fn new(list: Vec<u8>) -> Bytes
        ensures { result ≡ list.items }
    {
        Bytes { list }
    }

    /// The bytes.
    pub fn list(&self) -> &[u8]
        ensures { result.now ≡ self.now }
    {
        &self.list
    }

    /// Gives the list back.
    pub fn into_list(self) -> Vec<u8>
        ensures { result.items ≡ self }
    {
        let Bytes { list } = self;
        list
    }
}
