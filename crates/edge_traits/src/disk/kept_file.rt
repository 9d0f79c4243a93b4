//! The file that was used last, kept open for the next call on its name.

ghost use Rattle.std.specs.Prelude.{◌≡◌, ◌≤◌, None, Some, length, OnSome};
ghost use Rattle.edge_traits.specs.RealFiles.{file_named, without};

use std::marker::Model;

/// The most bytes of a name. The system takes fewer.
pub const NAME_LIMIT: usize = 4096;

/// An open file with its name, where one is kept.
#[derive(Drop)]
pub struct KeptFile<F: Drop> {
    name: [u8; NAME_LIMIT],
    len: usize,
    file: Option<F>,
}

impl<F: Drop> Model for KeptFile<F> {
    ghost use Rattle.std.specs.Prelude.{◌≤◌, List, ℕ, Option, take};
    ghost use Rattle.std.specs.Option.{option_map};

    ghost Value = { Option (List ℕ × F) };

    ghost view = { λ s. option_map (λ file. (take s.len s.name, file)) s.file };

    ghost invariant = { λ s. s.len ≤ 4096 };
}

impl<F: Drop> KeptFile<F> {
    /// Keeps none yet.
    pub fn new() -> KeptFile<F>
        ensures { result ≡ None }
    {
        KeptFile {
            name: [0; NAME_LIMIT],
            len: 0,
            file: None,
        }
    }

    /// Takes the file out where it is the one of this name.
    pub fn take(&mut self, name: &str) -> Option<F>
        ensures file { result ≡ file_named self.old name.now }
        ensures rest { self.new ≡ without self.old name.now }
        ensures fits { OnSome result (length name.now ≤ 4096) }
    {
        if &self.name[..self.len] == name.as_bytes() {
            self.file.take()
        } else {
            None
        }
    }

    /// Keeps the file in place of the one before.
    pub fn keep(&mut self, name: &str, file: F)
        requires { length name.now ≤ 4096 }
        ensures { self.new ≡ Some (name.now, file) }
    {
        self.len = name.len();
        self.name[..self.len].copy_from_slice(name.as_bytes());
        self.file = Some(file);
    }
}
