//! Standard input and output, as a source and a sink that tell no bytes.
//!
//! They tell exactly what their reader gave and their writer took, as their clauses say wherever those tell their
//! bytes. The system's own tell none: which bytes pass between them and the system is trusted.

ghost use Rattle.std.specs.Prelude.{◌≡◌, ◌+◌, ◌<◌, ◌≤◌, None, length, IfOk, OnOk, OnErr};
ghost use Rattle.std.specs.Io.KnownBytes.{ReadConsumes, WriteAppends};
ghost use Rattle.store_io.specs.Standard.{InputState, OutputState};

use crate::counts::FaultCount;
use crate::traits::{Failed, Sink, Source};
use std::io;
use std::io::{Input, Print, Printer, Read, Write};
use std::marker::Model;

/// Standard input. Each read is one read of its reader's, of as many bytes as the buffer takes.
#[derive(Drop)]
pub struct StdinSource<R: Input> {
    reader: R::Reader,
    faults: FaultCount,
}

impl<R: Input> Model for StdinSource<R> {
    ghost Value = { InputState };

    ghost view = { λ s. record { left = R.Reader.remaining s.reader; faults = s.faults.faults } };
}

impl<R: Input> StdinSource<R> {
    /// The standard input of a runtime.
    pub fn new(rt: &R) -> StdinSource<R>
        ensures { result.faults ≡ 0 }
    {
        StdinSource {
            reader: rt.reader(),
            faults: FaultCount::none(),
        }
    }
}

impl<R: Input> Source for StdinSource<R> {
    ghost left = { λ _. None };

    ghost faults = { λ s. s.faults };

    fn read(&mut self, buf: &mut [u8]) -> Result<usize, Failed>
        requires { 0 < length buf.old }
        ensures within { IfOk result (λ count. count ≤ length buf.old) }
        // What was read is what the reader gave.
        ensures given { ReadConsumes self.old.left self.new.left result buf.new }
        ensures steady { OnOk result (self.new.faults ≡ self.old.faults) }
        ensures fault { OnErr result (self.new.faults ≡ self.old.faults + 1) }
    {
        match self.reader.read(buf) {
            Ok(count) => Ok(count),
            Err(_) => {
                self.faults = self.faults.one_more();
                Err(Failed)
            }
        }
    }
}

/// Standard output. Each write is one write of its writer's, and no byte is kept back.
#[derive(Drop)]
pub struct StdoutSink<W: Write + Drop> {
    writer: W,
    faults: FaultCount,
}

impl<W: Write + Drop> Model for StdoutSink<W> {
    ghost Value = { OutputState };

    ghost view = { λ s. record { held = W.contents s.writer; faults = s.faults.faults } };
}

impl<'a, R: Print> StdoutSink<Printer<'a, R>> {
    /// The standard output of a runtime.
    pub fn new(rt: &'a R) -> StdoutSink<Printer<'a, R>>
        ensures { result.faults ≡ 0 }
    {
        StdoutSink {
            writer: io::writer(rt),
            faults: FaultCount::none(),
        }
    }
}

impl<W: Write + Drop> Sink for StdoutSink<W> {
    ghost held = { λ _. None };

    ghost faults = { λ s. s.faults };

    /// A write that took nothing is a fault.
    fn write(&mut self, piece: &[u8]) -> Result<usize, Failed>
        requires { 0 < length piece.now }
        ensures within { IfOk result (λ count. (1 ≤ count) × (count ≤ length piece.now)) }
        // What is told as written is what the writer took.
        ensures taken { WriteAppends self.old.held self.new.held result piece.now }
        ensures steady { OnOk result (self.new.faults ≡ self.old.faults) }
        ensures fault { OnErr result (self.new.faults ≡ self.old.faults + 1) }
    {
        match self.writer.write(piece) {
            Ok(count) if count > 0 => Ok(count),
            _ => {
                self.faults = self.faults.one_more();
                Err(Failed)
            }
        }
    }
}
