// What is printed and not written yet.
ghost use Rattle.std.specs.Prelude.{◌≡◌, ◌<◌, ◌≤◌, ◌+◌, ◌∷◌, ◌++◌, [], length, true};
ghost use Rattle.std.specs.Bool.{OnTrue, OnFalse};
ghost use Rattle.peg_io.specs.Outside.{Rose};
ghost use Rattle.peg_session.specs.Pages.{Passes};

use arrayvec::ArrayVec;
use peg_io::{Sink, write_all};
use std::marker::Model;

/// The text that is gathered: up to 16 KiB, in place.
#[derive(Drop)]
pub struct Page {
    gathered: ArrayVec<u8, 16384>,
}

impl Model for Page {
    ghost use Rattle.std.specs.Prelude.{List, ℕ};

    ghost Value = { List ℕ };

    ghost view = { λ p. p.gathered.items };
}

impl Page {
    /// A page with no byte.
    pub fn make() -> Page
        ensures { result ≡ [] }
    {
        Page {
            gathered: ArrayVec::new(),
        }
    }

    /// Writes all that is gathered; false where the sink failed.
    pub fn flush<K: Sink>(&mut self, sink: &mut K) -> bool
        ensures content { Passes result [] self.old self.new (K.held sink.old) (K.held sink.new) }
        ensures empty { OnTrue result (self.new ≡ []) }
        ensures nothing { self.old ≡ [] → result ≡ true }
        ensures untouched { self.old ≡ [] → sink.new ≡ sink.old }
        ensures cause { OnFalse result (Rose (K.faults sink.old) (K.faults sink.new)) }
        ensures later { K.faults sink.old ≤ K.faults sink.new }
    {
        flush(&mut self.gathered, sink)
    }

    /// Adds a line and its line feed; false where the sink failed.
    pub fn push<K: Sink>(&mut self, line: &[u8], sink: &mut K) -> bool
        requires { length line.now ≤ 4096 }
        ensures content { Passes result (line.now ++ 10 ∷ [])
            self.old self.new (K.held sink.old) (K.held sink.new) }
        ensures cause { OnFalse result (Rose (K.faults sink.old) (K.faults sink.new)) }
        ensures later { K.faults sink.old ≤ K.faults sink.new }
    {
        gather(&mut self.gathered, line, sink)
    }
}

// Writes all that is gathered; false where the sink failed.
#[tactic(auto, using(crate::proofs::Passing::part_written))]
fn flush<K: Sink>(gathered: &mut ArrayVec<u8, 16384>, sink: &mut K) -> bool
    ensures content { Passes result []
        gathered.old.items gathered.new.items (K.held sink.old) (K.held sink.new) }
    ensures empty { OnTrue result (gathered.new.items ≡ []) }
    ensures nothing { gathered.old.items ≡ [] → result ≡ true }
    ensures untouched { gathered.old.items ≡ [] → sink.new ≡ sink.old }
    ensures cause { OnFalse result (Rose (K.faults sink.old) (K.faults sink.new)) }
    ensures later { K.faults sink.old ≤ K.faults sink.new }
{
    if gathered.is_empty() {
        return true;
    }
    if !write_all(sink, gathered.as_slice()) {
        return false;
    }
    gathered.clear();
    true
}

// Writes what is gathered where so many more bytes have no room behind it.
fn make_room<K: Sink>(gathered: &mut ArrayVec<u8, 16384>, count: usize, sink: &mut K) -> bool
    requires { count ≤ 16384 }
    ensures content { Passes result []
        gathered.old.items gathered.new.items (K.held sink.old) (K.held sink.new) }
    ensures room { OnTrue result (length gathered.new.items + count ≤ 16384) }
    ensures cause { OnFalse result (Rose (K.faults sink.old) (K.faults sink.new)) }
    ensures later { K.faults sink.old ≤ K.faults sink.new }
{
    if count <= 16384 - gathered.len() {
        return true;
    }
    flush(gathered, sink)
}

// Gathers a line and its line feed.
fn gather<K: Sink>(gathered: &mut ArrayVec<u8, 16384>, line: &[u8], sink: &mut K) -> bool
    requires { length line.now ≤ 4096 }
    ensures content { Passes result (line.now ++ 10 ∷ [])
        gathered.old.items gathered.new.items (K.held sink.old) (K.held sink.new) }
    ensures cause { OnFalse result (Rose (K.faults sink.old) (K.faults sink.new)) }
    ensures later { K.faults sink.old ≤ K.faults sink.new }
{
    if !make_room(gathered, line.len() + 1, sink) {
        return false;
    }
    gathered.try_extend_from_slice(line).unwrap();
    gathered.push(b'\n');
    true
}
