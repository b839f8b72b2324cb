//! An index of the packets in flight, which finds the least number of one by its node and its bytes.
#![tactic(auto)]

ghost use Rattle.std.specs.Prelude.{◌≡◌, ◌≤◌, ◌<◌, ◌+◌, length, OnOk, OnErr, IfOk, IsOk, [], List, take};
ghost use Rattle.std.specs.Prelude.{ℕ, Some, None};
ghost use Rattle.peg_name.specs.declared.Format.{Format};
ghost use Rattle.peg_name.specs.declared.Node.{Node};
ghost use Rattle.peg_model.specs.Packet.{Packet};
ghost use Rattle.peg_model.specs.Datagrams.{spelled};
ghost use Rattle.peg_meaning.specs.RackWord as book;
ghost use Rattle.peg_index.specs.Chain.{is_packet, number_of, place_of, search, seed_of, LeadBack};
ghost use Rattle.peg_index.specs.Chain.{Chains, IsIndexOf, IsLeast, IsNone};

use peg_name::{Node, OutOfMemory};
use peg_pool::Soup;
use std::alloc::Global;
use std::hash::{FoldHasher, Hasher};
use std::marker::Model;

#[cfg(test)]
mod tests;

/// An index of the packets in flight, by their nodes and bytes. It keeps no bytes: each packet is in
/// one of 131,072 lists, by a hash, and only if no packet before it is the same. So a packet that is
/// sent again and again makes no list longer, and a packet is found as fast late in a run as early.
/// Packets that were made up to have one hash only slow it down.
#[derive(Drop)]
pub struct Index {
    heads: Vec<u32>,
    older: Vec<u32>,
}

impl Model for Index {
    ghost use Rattle.peg_index.specs.Chain.{Chains};

    ghost Value = { Chains };

    ghost use Rattle.peg_index.specs.Fields.{chains_of};

    ghost view = { chains_of };
}

#[tactic(auto, unfolding(crate::specs::Chain::is_packet))]
fn is_same(to: &Node, held: &[u8], node: &Node, bytes: &[u8]) -> bool
    ensures { result ≡ is_packet (to.now, held.now) node.now bytes.now }
{
    to == node && held == bytes
}

// A number for a node, since the same bytes go to many.
fn seed(node: &Node) -> u64
    ensures seed { result ≡ seed_of node.now }
    ensures small { result < 262144 }
{
    match node {
        Node::Client(id) => 4 * u64::from(id.0),
        Node::Server(id) => 4 * u64::from(id.0) + 1,
        Node::Switch(id) => 4 * u64::from(id.0) + 2,
        Node::Controller => 3,
    }
}

// The list that a packet is in.
#[tactic(auto, unfolding(crate::specs::Chain::place_of))]
fn place(node: &Node, bytes: &[u8]) -> usize
    ensures place { result ≡ place_of node.now bytes.now }
    ensures less { result < 131072 }
{
    let mut hasher = FoldHasher::default();
    hasher.write(bytes);
    ((hasher.finish() % 131_072 + seed(node)) % 131_072) as usize
}

// Walks along a list to the packet with the node and the bytes.
fn walk(older: &[u32], packets: &Soup, head: u32, node: &Node, bytes: &[u8]) -> Option<u32>
    requires back { LeadBack older.now }
    requires within { length older.now ≤ length packets.now.items }
    requires head { head ≤ length older.now }
    ensures { result ≡ search (length older.now) packets.now.items older.now
        head node.now bytes.now }
{
    let mut link = head;
    while link != 0 {
        let number = link - 1;
        let (to, held) = packets.get(number);
        if is_same(&to, held, node, bytes) {
            return Some(number);
        }
        link = older[number as usize];
    }
    None
}

/// For those who find a packet: its number is that of the first one with just this node and these
/// bytes, and where there is no number there is no such packet.
#[tactic(auto, using(crate::proofs::First::none))]
pub fn says_the_least()
    ensures least { (packets : List (Node × List ℕ)) → (to : Node) → (bytes : List ℕ) → (number : ℕ)
        → number_of packets to bytes ≡ Some number → IsLeast packets to bytes number }
    ensures none { (packets : List (Node × List ℕ)) → (to : Node) → (bytes : List ℕ)
        → number_of packets to bytes ≡ None → IsNone packets to bytes }
{}

/// For those who keep packets as their bytes: the number is the one that the book gives the packet.
pub fn numbers_as_the_book_does()
    ensures { (format : Format) (packets : List (Node × Packet)) (to : Node) (bytes : List ℕ)
        → book.number_of format packets to bytes ≡ number_of (spelled format packets) to bytes }
{}

/// For those who send more packets: an index of the first ones is one of all of them.
pub fn stays_an_index()
    ensures { (packets now : List (Node × List ℕ)) → (c : Chains)
        → take (length packets) now ≡ packets → IsIndexOf packets c → IsIndexOf now c }
{}

impl Index {
    /// The index of no packets yet. It takes memory for the lists.
    pub fn make(alloc: Global) -> Result<Index, OutOfMemory>
        ensures none { IfOk result (λ index. index.older ≡ []) }
        ensures index { IfOk result
            (λ index. (packets : List (Node × List ℕ)) → IsIndexOf packets index) }
    {
        let mut heads = Vec::new(alloc);
        heads.resize(131_072, 0)?;
        Ok(Index {
            heads,
            older: Vec::new(alloc),
        })
    }

    /// Makes room for `n` more packets. It succeeds where there is room already.
    pub fn reserve(&mut self, n: usize) -> Result<(), OutOfMemory>
        ensures room { OnOk result (n ≤ self.new.spare) }
        ensures heads { self.new.heads ≡ self.old.heads }
        ensures older { self.new.older ≡ self.old.older }
        ensures succeeds { n ≤ self.old.spare → IsOk result }
        ensures later { self.old.spare ≤ self.new.spare }
    {
        self.older.reserve(n)?;
        Ok(())
    }

    /// How many packets it knows.
    pub fn len(&self) -> usize
        ensures { result ≡ length self.now.older }
    {
        self.older.len()
    }

    /// Adds the next of the packets. It succeeds where there is spare room. After `OutOfMemory`
    /// nothing was added.
    pub fn add(&mut self, packets: &Soup) -> Result<(), OutOfMemory>
        requires index { IsIndexOf packets.now.items self.old }
        requires more { length self.old.older < length packets.now.items }
        ensures index { IsIndexOf packets.now.items self.new }
        ensures ok { OnOk result (length self.new.older ≡ length self.old.older + 1) }
        ensures err { OnErr result (self.new.older ≡ self.old.older) }
        ensures succeeds { 0 < self.old.spare → IsOk result }
        ensures room { length self.old.older + self.old.spare
            ≤ length self.new.older + self.new.spare }
    {
        self.older.reserve(1)?;
        let _most = packets.len();
        let number = self.older.len() as u32;
        let (to, held) = packets.get(number);
        let at = place(&to, held);
        let head = self.heads[at];
        match walk(self.older.as_slice(), packets, head, &to, held) {
            Some(_) => {
                self.older.push_reserved(0);
                Ok(())
            }
            None => {
                self.older.push_reserved(head);
                self.heads[at] = number + 1;
                Ok(())
            }
        }
    }

    /// Adds all packets that it doesn't know. It succeeds where there is room. After `OutOfMemory`
    /// it may know some of them.
    pub fn catch_up(&mut self, packets: &Soup) -> Result<(), OutOfMemory>
        requires index { IsIndexOf packets.now.items self.old }
        ensures index { IsIndexOf packets.now.items self.new }
        ensures all { OnOk result (length self.new.older ≡ length packets.now.items) }
        ensures succeeds { length packets.now.items ≤ length self.old.older + self.old.spare
            → IsOk result }
        ensures room { length self.old.older + self.old.spare
            ≤ length self.new.older + self.new.spare }
    {
        while self.older.len() < packets.len() as usize {
            self.add(packets)?;
        }
        Ok(())
    }

    /// The least number of a packet to the node with these bytes.
    pub fn find(&self, packets: &Soup, node: &Node, bytes: &[u8]) -> Option<u32>
        requires index { IsIndexOf packets.now.items self.now }
        requires all { length self.now.older ≡ length packets.now.items }
        ensures { result ≡ number_of packets.now.items node.now bytes.now }
    {
        let head = self.heads[place(node, bytes)];
        walk(self.older.as_slice(), packets, head, node, bytes)
    }
}
