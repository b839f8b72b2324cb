//! The outside: sources, sinks and wires, each with its counts of faults, the forms of them in
//! memory, and the reader of lines.
#![tactic(auto)]

ghost use Rattle.std.specs.Prelude.{◌≡◌, ℕ, ◌+◌, ◌<◌, ◌≤◌, List, length, Option, IsFalse, IsNone};
ghost use Rattle.std.specs.Prelude.{IfSome, MatchBool};
ghost use Rattle.std.specs.Bool.{OnFalse};
ghost use Rattle.peg_io.specs.Outside.{Rose, Reads, Writes, WritesSome, Appends, HasTurn};
ghost use Rattle.peg_meaning.specs.Wire.{Carried};
ghost use Rattle.peg_io.specs.Outside.{HeardIn, Binds, Attempts, Tells};

mod adapters;
mod lines;
mod memory;
mod script;
#[cfg(test)]
mod tests;
mod udp;

pub use adapters::{NoWire, StdSink, StdSource};
pub use lines::{Lines, NextLine};
pub use memory::{MemorySink, MemorySource};
pub use peg_name::OutOfMemory;
pub use script::{MemoryWire, Scripted};
pub use udp::UdpWire;

/// What a read gave.
#[derive(Clone, Copy, Debug, PartialEq, Eq)]
pub enum Got {
    /// So many bytes, at least one.
    Bytes(usize),
    /// Nothing is left.
    End,
    /// The source failed, and nothing was taken.
    Failed,
}

/// What a write took.
#[derive(Clone, Copy, Debug, PartialEq, Eq)]
pub enum Took {
    /// So many bytes, at least one.
    Bytes(usize),
    /// The sink failed, and nothing was appended.
    Failed,
}

/// What a receive gave.
#[derive(Clone, Copy, Debug, PartialEq, Eq)]
pub enum Heard {
    /// A datagram of so many bytes, cut to the buffer.
    Bytes(usize),
    /// A pause.
    Nothing,
    /// The wire failed.
    Failed,
}

/// A source of bytes.
pub trait Source {
    /// The bytes that are left, where it tells.
    ghost left: { Self → Option (List ℕ) };

    /// How many reads failed.
    ghost faults: { Self → ℕ };

    /// Gives the next bytes, into the front of the buffer.
    fn read(&mut self, buf: &mut [u8]) -> Got
        requires { 0 < length buf.old }
        ensures content { Reads result buf.new (left self.old) (left self.new) }
        ensures later { faults self.old ≤ faults self.new }
        ensures cause { result ≡ Got.Failed → Rose (faults self.old) (faults self.new) };
}

/// A sink of bytes.
pub trait Sink {
    /// What it holds, where it tells.
    ghost held: { Self → Option (List ℕ) };

    /// How many writes failed.
    ghost faults: { Self → ℕ };

    /// Appends the first of the bytes.
    fn write(&mut self, bytes: &[u8]) -> Took
        requires { 0 < length bytes.now }
        ensures content { Writes result bytes.now (held self.old) (held self.new) }
        ensures later { faults self.old ≤ faults self.new }
        ensures cause { result ≡ Took.Failed → Rose (faults self.old) (faults self.new) };
}

/// A wire that carries datagrams. A bound port is named by its slot.
pub trait Wire {
    /// What was bound, received and attempted, where it tells.
    ghost carried: { Self → Option Carried };

    /// How many binds succeeded.
    ghost slots: { Self → ℕ };

    /// How many binds and receives failed.
    ghost faults: { Self → ℕ };

    /// How many sends failed.
    ghost lost: { Self → ℕ };

    /// Binds a port, and answers its slot; `None` where that failed, and past 4,000,000,000 of them.
    fn bind(&mut self, port: u16) -> Option<u32>
        ensures content { Tells (carried self.old) (carried self.new) (Binds port result) }
        ensures slot { IfSome result (λ slot. slot ≡ slots self.old) }
        ensures bound { IfSome result (λ _. slots self.new ≡ slots self.old + 1) }
        ensures most { 4000000000 ≤ slots self.old → IsNone result }
        ensures refused { IsNone result → slots self.new ≡ slots self.old }
        ensures cause { IsNone result → Rose (faults self.old) (faults self.new) }
        ensures later { faults self.old ≤ faults self.new }
        ensures later_lost { lost self.old ≤ lost self.new };

    /// Takes the next datagram of a slot, into the front of the buffer.
    fn receive(&mut self, slot: u32, buf: &mut [u8]) -> Heard
        requires bound { slot < slots self.old }
        requires room { 0 < length buf.old }
        ensures content { Tells (carried self.old) (carried self.new)
            (HasTurn slot buf.new result) }
        ensures fits { HeardIn result (length buf.new) }
        ensures bound { slots self.new ≡ slots self.old }
        ensures cause { result ≡ Heard.Failed → Rose (faults self.old) (faults self.new) }
        ensures later { faults self.old ≤ faults self.new }
        ensures later_lost { lost self.old ≤ lost self.new };

    /// Sends a datagram from a slot to a port; false where that failed. It is attempted from any
    /// slot, and fails from one that isn't bound.
    fn send(&mut self, slot: u32, port: u16, bytes: &[u8]) -> bool
        ensures content { Tells (carried self.old) (carried self.new)
            (Attempts slot port bytes.now) }
        ensures bound { slots self.new ≡ slots self.old }
        ensures cause { IsFalse result → Rose (lost self.old) (lost self.new) }
        ensures later { faults self.old ≤ faults self.new }
        ensures later_lost { lost self.old ≤ lost self.new };
}

/// Writes all the bytes; false where the sink failed, and fewer than all are written then, from the
/// first on.
pub fn write_all<K: Sink>(sink: &mut K, bytes: &[u8]) -> bool
    ensures content { MatchBool result
        (Tells (K.held sink.old) (K.held sink.new) (Appends bytes.now))
        (Tells (K.held sink.old) (K.held sink.new) (WritesSome bytes.now)) }
    ensures cause { OnFalse result (Rose (K.faults sink.old) (K.faults sink.new)) }
    ensures later { K.faults sink.old ≤ K.faults sink.new }
{
    let mut rest = bytes;
    while !rest.is_empty() {
        match sink.write(rest) {
            Took::Bytes(count) => rest = &rest[count..],
            Took::Failed => return false,
        }
    }
    true
}
