//! A writer as a sink.

ghost use Rattle.std.specs.Prelude.{◌≡◌, ◌<◌, ◌≤◌, length, IfOk};
ghost use Rattle.std.specs.Io.KnownBytes.{WriteAppends};
ghost use Rattle.edge_traits.specs.Faults.{Counts};

use super::{counted, fault, interrupted};
use crate::{Failed, Sink};
use std::io;
use std::io::{Printer, Write};
use std::marker::Model;

/// A sink over a writer: standard output, where `new` makes it.
#[derive(Drop)]
pub struct OutSink<W: Write + Drop> {
    writer: W,
    faults: u64,
}

impl<W: Write + Drop> Model for OutSink<W> {
    ghost use Rattle.edge_traits.specs.RealFiles.{Output};

    ghost Value = { Output W };

    ghost view = { λ s. record { writer = s.writer; faults = s.faults } };
}

impl<'a, R: Print> OutSink<Printer<'a, R>> {
    /// Standard output. No call has failed yet.
    pub fn new(rt: &'a R) -> OutSink<Printer<'a, R>>
        ensures { result.faults ≡ 0 }
    {
        OutSink {
            writer: io::writer(rt),
            faults: 0,
        }
    }
}

impl<W: Write + Drop> OutSink<W> {
    /// How many calls failed.
    pub fn faults(&self) -> u64
        ensures { result ≡ self.now.faults }
    {
        self.faults
    }
}

impl<W: Write + Drop> Sink for OutSink<W> {
    ghost use Rattle.std.specs.Prelude.{None};

    ghost written = { λ s. None };

    ghost faults = { λ s. s.faults };

    fn write(&mut self, bytes: &[u8]) -> Result<usize, Failed>
        requires { 0 < length bytes.now }
        ensures some { IfOk result (λ n. 0 < n) }
        ensures bound { IfOk result (λ n. n ≤ length bytes.now) }
        ensures writes { WriteAppends (W.contents self.old.writer) (W.contents self.new.writer)
            result bytes.now }
        ensures cause { Counts self.old.faults self.new.faults result }
    {
        match counted(
            &mut self.faults,
            interrupted::write(&mut self.writer, bytes),
        )? {
            0 => Err(fault(&mut self.faults)),
            count => Ok(count),
        }
    }
}
