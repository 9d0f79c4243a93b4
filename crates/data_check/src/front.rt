//! A file that is compared from its start on.

ghost use Rattle.std.specs.Prelude.{◌≡◌, ◌++◌, ◌↔◌, [], List, ℕ, length, IsTrue, IfOk};
ghost use Rattle.edge_traits.specs.Faults.{SizeCall, ReadCall, Counts, CountsAt};
ghost use Rattle.data_check.specs.Fronts.{HasFront, GoesOn};

use crate::part::has_part;
use edge_traits::{Failed, Library};
use std::marker::Model;

/// A file of a library: its name, how many bytes it has, and how many of them were compared and are as they are to be.
#[derive(Drop)]
pub(crate) struct Front<'a> {
    name: &'a str,
    size: u64,
    at: u64,
}

impl<'a> Model for Front<'a> {
    ghost use Rattle.std.specs.Prelude.{◌≤◌};
    ghost use Rattle.data_check.specs.Fronts.{FrontValue};

    ghost Value = { FrontValue };

    ghost view = { λ f. record { name = f.name.now; size = f.size; at = f.at } };

    ghost invariant = { λ f. f.at ≤ f.size };
}

impl<'a> Front<'a> {
    /// A file of which nothing was compared.
    ///
    /// # Errors
    ///
    /// `Failed` where the library failed, as it does where the file isn't there: its count of faults rose.
    pub(crate) fn of<L: Library>(library: &mut L, name: &'a str) -> Result<Front<'a>, Failed>
        ensures files { L.holds library.new ≡ L.holds library.old }
        ensures name { IfOk result (λ f. f.name ≡ name.now) }
        ensures front { IfOk result (λ f. HasFront (L.holds library.old) f []) }
        ensures cause { Counts (L.faults library.old) (L.faults library.new) result }
        ensures at { CountsAt SizeCall name.now (L.faults_at library.old) (L.faults_at library.new) result }
    {
        let size = library.size(name)?;
        Ok(Front { name, size, at: 0 })
    }

    /// How many bytes it has.
    pub(crate) fn size(&self) -> u64
        ensures { result ≡ self.now.size }
    {
        self.size
    }

    /// Whether all of its bytes were compared.
    pub(crate) fn is_at_end(&self) -> bool
        ensures { IsTrue result ↔ (self.now.at ≡ self.now.size) }
    {
        self.at == self.size
    }

    /// Whether it goes on with these bytes, which are then compared. Where it has fewer, nothing is read.
    ///
    /// # Errors
    ///
    /// `Failed` where the library failed, whose count of faults rose.
    pub(crate) fn goes_on<L: Library>(
        &mut self,
        library: &mut L,
        bytes: &[u8],
    ) -> Result<bool, Failed>
        ensures files { L.holds library.new ≡ L.holds library.old }
        ensures name { self.new.name ≡ self.old.name }
        ensures size { self.new.size ≡ self.old.size }
        ensures goes { IfOk result (λ same. (front : List ℕ) → HasFront (L.holds library.old) self.old front
            → GoesOn same (L.holds library.old) self.new (front ++ bytes.now)) }
        ensures cause { Counts (L.faults library.old) (L.faults library.new) result }
        ensures at { CountsAt ReadCall self.old.name (L.faults_at library.old) (L.faults_at library.new) result }
    {
        let count = bytes.len() as u64;
        if count > self.size - self.at || !has_part(library, self.name, self.at, bytes)? {
            return Ok(false);
        }
        self.at += count;
        Ok(true)
    }
}
