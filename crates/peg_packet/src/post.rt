//! The outbox that a node puts its packets in.

ghost use Rattle.std.specs.Prelude.{◌≡◌, ◌≤◌, ◌<◌, ◌↔◌, [], ◌∷◌, ◌++◌, length, slice_get, true};
ghost use Rattle.std.specs.Prelude.{Some, IfOk, IsTrue};
ghost use Rattle.peg_name.specs.Name.{packet_most};
ghost use Rattle.peg_model.specs.Packet.{spelling, in_range};
ghost use Rattle.peg_packet.specs.Seen.{seen};
ghost use Rattle.peg_packet.specs.Posted.{FitsSlot};
ghost use Rattle.std.specs.List.{AllByRecursion};

use crate::puts::put_slice;
use crate::{Packet, encode};
use peg_name::{Format, Node, OutOfMemory};
use std::alloc::Global;
use std::marker::Model;

/// A place for one packet.
#[derive(Clone, Copy)]
struct Slot {
    to: Node,
    len: usize,
    bytes: [u8; 1152],
}

/// An outbox of packets in one format. It takes its memory when it is made, a slot for each packet
/// that it can hold.
#[derive(Drop)]
pub struct Post {
    format: Format,
    slots: Vec<Slot>,
    used: usize,
}

impl Model for Post {
    ghost use Rattle.peg_packet.specs.Outbox.{Outbox};

    ghost Value = { Outbox };

    ghost use Rattle.peg_packet.specs.Posted.{outbox_of, IsPost};

    ghost view = { outbox_of };

    ghost invariant = { IsPost };
}

impl Post {
    /// An empty outbox with as many slots. `OutOfMemory` where there is no memory for them.
    pub fn make(alloc: Global, format: Format, slots: usize) -> Result<Post, OutOfMemory>
        ensures { IfOk result
            (λ post. post ≡ record { format = format; slots = slots; items = [] }) }
    {
        let empty = Slot {
            to: Node::Controller,
            len: 0,
            bytes: [0; 1152],
        };
        Ok(Post {
            format,
            slots: vec![in alloc; empty; slots]?,
            used: 0,
        })
    }

    /// The format of the packets in it.
    pub fn format(&self) -> Format
        ensures { result ≡ self.now.format }
    {
        self.format
    }

    /// The most packets that it can hold.
    pub fn slots(&self) -> usize
        ensures { result ≡ self.now.slots }
    {
        self.slots.len()
    }

    /// The number of packets in it.
    pub fn len(&self) -> usize
        ensures len { result ≡ length self.now.items }
        ensures room { length self.now.items ≤ self.now.slots }
    {
        self.used
    }

    /// Whether nothing is in it.
    pub fn is_empty(&self) -> bool
        ensures { IsTrue result ↔ (length self.now.items ≡ 0) }
    {
        self.used == 0
    }

    /// Puts in a packet for a node. A slot has to be free, and the packet in range in the format.
    pub fn put(&mut self, to: Node, packet: &Packet<'_>)
        requires room { length self.old.items < self.old.slots }
        requires in_range { in_range self.old.format (seen packet.now) ≡ true }
        ensures { self.new ≡ record self.old {
          items = self.old.items
              ++ (to, spelling self.old.format (seen packet.now)) ∷ [];
        } }
    {
        let slot = &mut self.slots[self.used];
        slot.to = to;
        slot.len = encode(self.format, packet, &mut slot.bytes);
        self.used += 1;
    }

    /// Puts in bytes for a node as they are, such as a reply that is passed on. A slot has to be
    /// free, and the bytes are at most those of a packet: 640, and 1,152 in the second format.
    pub fn forward(&mut self, to: Node, bytes: &[u8])
        requires room { length self.old.items < self.old.slots }
        requires most { length bytes.now ≤ packet_most self.old.format }
        ensures { self.new ≡ record self.old { items = self.old.items ++ (to, bytes.now) ∷ [] } }
    {
        let slot = &mut self.slots[self.used];
        slot.to = to;
        slot.len = put_slice(&mut slot.bytes, 0, bytes);
        self.used += 1;
    }

    /// The packet at a place, counted from 0: its node and its bytes.
    pub fn item(&self, i: usize) -> (Node, &[u8])
        requires { i < length self.now.items }
        ensures item { slice_get self.now.items i ≡ Some (result.0, result.1.now) }
        ensures most { length result.1.now ≤ packet_most self.now.format }
    {
        let slot = &self.slots[i];
        (slot.to, &slot.bytes[..slot.len])
    }

    /// Takes everything out. The slots stay.
    pub fn clear(&mut self)
        ensures { self.new ≡ record self.old { items = [] } }
    {
        self.used = 0;
    }
}
