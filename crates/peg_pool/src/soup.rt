//! The packets in flight.

ghost use Rattle.std.specs.Prelude.{◌≡◌, ◌+◌, ◌<◌, ◌≤◌, ◌==◌, [], ◌∷◌, ◌++◌, length, slice_get};
ghost use Rattle.std.specs.Prelude.{IfOk, OnOk, OnErr, IsOk, IsSome, Some};
ghost use Rattle.peg_name.specs.Name.{packet_most};
ghost use Rattle.peg_pool.specs.Sent.{content_of};
ghost use Rattle.peg_pool.specs.declared.soup.Place.{Place as ThePlace};

use crate::SlotPool;
use peg_name::{Format, Node, OutOfMemory};
use std::alloc::Global;
use std::marker::Model;

/// The most bytes of a packet that lies in a short slot.
const SHORT: usize = 128;

/// The most packets, whose numbers a `u32` holds.
const MOST: usize = 4_000_000_000;

/// The packets that were sent, with the node that each is for, in the order of sending. Most are
/// short, and would fill a fraction of a slot that is long enough for any.
#[derive(Drop)]
pub struct Soup {
    format: Format,
    rows: Vec<Sent>,
    short: SlotPool,
    long: SlotPool,
}

/// The node that a packet is for, and where its bytes lie.
#[derive(Clone, Copy)]
struct Sent {
    to: Node,
    place: Place,
}

/// A slot of one of the two sizes.
#[derive(Clone, Copy)]
enum Place {
    Short(u32),
    Long(u32),
}

impl Model for Soup {
    ghost use Rattle.peg_pool.specs.Flight.{Flight};

    ghost Value = { Flight };

    ghost use Rattle.peg_pool.specs.Sent.{flight_of, IsSoup};

    ghost view = { flight_of };

    ghost invariant = { IsSoup };
}

impl Soup {
    /// No packets yet, of a format. It takes no memory.
    pub fn make(alloc: Global, format: Format) -> Soup
        ensures { result ≡ record { format = format; items = []; spare = 0 } }
    {
        Soup {
            format,
            rows: Vec::new(alloc),
            short: SlotPool::make(alloc, SHORT),
            long: SlotPool::make(alloc, format.most_of_packet()),
        }
    }

    /// How many more packets there is memory for.
    pub fn spare(&self) -> usize
        ensures { result ≡ self.now.spare }
    {
        let room = self.rows.capacity().min(MOST) - self.rows.len();
        room.min(self.short.spare()).min(self.long.spare())
    }

    /// Makes room for `n` more packets. It succeeds where there is room already. The packets that
    /// were sent stay, also after `OutOfMemory`.
    pub fn reserve(&mut self, n: usize) -> Result<(), OutOfMemory>
        ensures room { OnOk result (n ≤ self.new.spare) }
        ensures format { self.new.format ≡ self.old.format }
        ensures same { self.new.items ≡ self.old.items }
        ensures succeeds { n ≤ self.old.spare → IsOk result }
        ensures later { self.old.spare ≤ self.new.spare }
    {
        if n > MOST - self.rows.len() {
            return Err(OutOfMemory);
        }
        self.rows.reserve(n)?;
        self.short.reserve(n)?;
        self.long.reserve(n)
    }

    /// Adds a packet for a node: at most 640 bytes, and 1,152 in the second format. It answers the
    /// packet's number, the next one from 0, and succeeds where there is spare room. After
    /// `OutOfMemory` nothing was added.
    pub fn push(&mut self, to: Node, bytes: &[u8]) -> Result<u32, OutOfMemory>
        requires { length bytes.now ≤ packet_most self.old.format }
        ensures number { IfOk result (λ number. number ≡ length self.old.items) }
        ensures format { self.new.format ≡ self.old.format }
        ensures ok { OnOk result (self.new.items ≡ self.old.items ++ (to, bytes.now) ∷ []) }
        ensures err { OnErr result (self.new.items ≡ self.old.items) }
        ensures succeeds { 0 < self.old.spare → IsOk result }
        ensures spare { self.old.spare ≤ self.new.spare + 1 }
    {
        let number = self.rows.len();
        if number == MOST {
            return Err(OutOfMemory);
        }
        self.rows.reserve(1)?;
        let place = keep(&mut self.short, &mut self.long, bytes)?;
        self.rows.push_reserved(Sent { to, place });
        Ok(number as u32)
    }

    /// How many packets were sent.
    pub fn len(&self) -> u32
        ensures len { result ≡ length self.now.items }
        ensures most { result ≤ 4000000000 }
    {
        self.rows.len() as u32
    }

    /// Whether no packet was sent.
    pub fn is_empty(&self) -> bool
        ensures { result ≡ (length self.now.items == 0) }
    {
        self.rows.is_empty()
    }

    /// A packet, by its number: its node and its bytes.
    pub fn get(&self, number: u32) -> (Node, &[u8])
        requires { number < length self.now.items }
        ensures item { Some (result.0, result.1.now) ≡ slice_get self.now.items number }
        ensures most { length result.1.now ≤ packet_most self.now.format }
    {
        let sent = self.rows[number as usize];
        let bytes = match sent.place {
            Place::Short(slot) => self.short.get(slot),
            Place::Long(slot) => self.long.get(slot),
        };
        (sent.to, bytes)
    }
}

// Keeps the bytes in the shorter slot that has room for them.
fn keep(short: &mut SlotPool, long: &mut SlotPool, bytes: &[u8]) -> Result<Place, OutOfMemory>
    requires short { short.old.slots.size ≡ 128 }
    requires long { length bytes.now ≤ long.old.slots.size }
    ensures kept { IfOk result
        (λ place. content_of short.new.slots long.new.slots place ≡ Some bytes.now) }
    ensures others { OnOk result ((other : ThePlace)
        → IsSome (content_of short.old.slots long.old.slots other)
        → content_of short.new.slots long.new.slots other
        ≡ content_of short.old.slots long.old.slots other) }
    ensures short_err { OnErr result (short.new.slots ≡ short.old.slots) }
    ensures long_err { OnErr result (long.new.slots ≡ long.old.slots) }
    ensures short_size { short.new.slots.size ≡ short.old.slots.size }
    ensures long_size { long.new.slots.size ≡ long.old.slots.size }
    ensures succeeds { 0 < short.old.spare → 0 < long.old.spare → IsOk result }
    ensures short_spare { short.old.spare ≤ short.new.spare + 1 }
    ensures long_spare { long.old.spare ≤ long.new.spare + 1 }
{
    let place = if bytes.len() <= SHORT {
        Place::Short(short.put(bytes)?)
    } else {
        Place::Long(long.put(bytes)?)
    };
    Ok(place)
}
