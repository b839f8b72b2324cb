// What stands between the traits and the system. None of them tells its content.
ghost use Rattle.std.specs.Prelude.{◌≡◌, ◌<◌, ◌≤◌, None, IsFalse, length};
ghost use Rattle.peg_io.specs.Outside.{Rose, Reads, Writes};
ghost use Rattle.peg_io.specs.Adapted.{ReadsFrom, WritesTo};

use crate::{Got, Heard, Sink, Source, Took, Wire};
use std::io::{Read, Write};
use std::marker::Model;

/// A source over a reader.
#[derive(Drop)]
pub struct StdSource<R> {
    reader: R,
    faults: u64,
}

impl<R: Read> StdSource<R> {
    /// The source of what the reader gives.
    pub fn make(reader: R) -> StdSource<R>
        ensures none { ⟦<StdSource<R> as Source>⟧.faults result ≡ 0 }
        ensures holds { result.reader ≡ reader }
    {
        StdSource { reader, faults: 0 }
    }
}

impl<R: Read> Source for StdSource<R> {
    ghost left = { λ _. None };

    ghost faults = { λ s. s.faults };

    fn read(&mut self, buf: &mut [u8]) -> Got
        requires { 0 < length buf.old }
        ensures content { Reads result buf.new None None }
        ensures later { self.old.faults ≤ self.new.faults }
        ensures cause { result ≡ Got.Failed → Rose self.old.faults self.new.faults }
        ensures passes_on { ReadsFrom (R.remaining self.old.reader) (R.remaining self.new.reader)
            result buf.new }
    {
        match self.reader.read(buf) {
            Ok(0) => Got::End,
            Ok(count) => Got::Bytes(count),
            Err(_) => {
                self.faults = self.faults.saturating_add(1);
                Got::Failed
            }
        }
    }
}

/// A sink over a writer.
#[derive(Drop)]
pub struct StdSink<W> {
    writer: W,
    faults: u64,
}

impl<W: Write> StdSink<W> {
    /// The sink that hands on to the writer.
    pub fn make(writer: W) -> StdSink<W>
        ensures none { ⟦<StdSink<W> as Sink>⟧.faults result ≡ 0 }
        ensures holds { result.writer ≡ writer }
    {
        StdSink { writer, faults: 0 }
    }
}

impl<W: Write> Sink for StdSink<W> {
    ghost held = { λ _. None };

    ghost faults = { λ s. s.faults };

    /// A write that takes nothing counts as a fault.
    fn write(&mut self, bytes: &[u8]) -> Took
        requires { 0 < length bytes.now }
        ensures content { Writes result bytes.now None None }
        ensures later { self.old.faults ≤ self.new.faults }
        ensures cause { result ≡ Took.Failed → Rose self.old.faults self.new.faults }
        ensures passes_on { WritesTo (W.contents self.old.writer) (W.contents self.new.writer)
            result bytes.now }
    {
        match self.writer.write(bytes) {
            Ok(count) if count > 0 => Took::Bytes(count),
            _ => {
                self.faults = self.faults.saturating_add(1);
                Took::Failed
            }
        }
    }
}

/// A wire that binds no port, so that nothing is sent or heard over it.
#[derive(Drop)]
pub struct NoWire {
    faults: u64,
    lost: u64,
}

impl Model for NoWire {
    ghost use Rattle.peg_io.specs.Outside.{FaultCounts};

    ghost Value = { FaultCounts };

    ghost view = { λ w. record { faults = w.faults; lost = w.lost } };
}

impl NoWire {
    /// The wire.
    pub fn make() -> NoWire
        ensures { result ≡ record { faults = 0; lost = 0 } }
    {
        NoWire { faults: 0, lost: 0 }
    }
}

impl Wire for NoWire {
    ghost carried = { λ _. None };

    ghost slots = { λ _. 0 };

    ghost faults = { λ w. w.faults };

    ghost lost = { λ w. w.lost };

    fn bind(&mut self, _port: u16) -> Option<u32>
        ensures answer { result ≡ None }
        ensures cause { Rose self.old.faults self.new.faults }
        ensures later { self.old.faults ≤ self.new.faults }
        ensures lost { self.new.lost ≡ self.old.lost }
    {
        self.faults = self.faults.saturating_add(1);
        None
    }

    fn receive(&mut self, _slot: u32, _buf: &mut [u8]) -> Heard
        ensures answer { result ≡ Heard.Failed }
        ensures cause { Rose self.old.faults self.new.faults }
        ensures later { self.old.faults ≤ self.new.faults }
        ensures lost { self.new.lost ≡ self.old.lost }
    {
        self.faults = self.faults.saturating_add(1);
        Heard::Failed
    }

    fn send(&mut self, _slot: u32, _port: u16, _bytes: &[u8]) -> bool
        ensures answer { IsFalse result }
        ensures faults { self.new.faults ≡ self.old.faults }
        ensures cause { Rose self.old.lost self.new.lost }
        ensures later { self.old.lost ≤ self.new.lost }
    {
        self.lost = self.lost.saturating_add(1);
        false
    }
}
