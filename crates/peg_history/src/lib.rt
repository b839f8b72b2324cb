//! Histories of operations, the order in which those of a key are printed, and the check of orders.
#![tactic(auto)]

ghost use Rattle.std.specs.Prelude.{◌≡◌, ℕ, ◌+◌, ◌<◌, ◌≤◌, ◌==◌, List, [], ◌∷◌, ◌++◌, length, map};
ghost use Rattle.std.specs.Prelude.{slice_get, slice_index_or, slice_set, Some, None, IfOk, OnOk};
ghost use Rattle.std.specs.Prelude.{OnErr, IsOk, IsNone, IfSome};
ghost use Rattle.peg_model.specs.Order.{order_of, keys_in, tagged};
ghost use Rattle.peg_model.specs.World.{with_answer};
ghost use Rattle.peg_history.specs.Ledger.{Ledger};
ghost use Rattle.peg_history.specs.Contents.{size_of, room_of, IsWithin};
ghost use Rattle.peg_history.specs.Rows.{op_of, answered_bytes};

use contents::{Contents, Span};
use peg_name::{ClientId, Content, Key, Version};
use std::alloc::Global;
use std::marker::Model;

mod checking;
mod contents;
mod group;
mod order;

pub use checking::check;
pub use group::orders_of;
pub use order::order_of;
pub use peg_event::{Act, Op};
pub use peg_name::OutOfMemory;

/// The operations of a run, named by their places from 0. Their contents lie one behind the other.
#[derive(Drop)]
pub struct History {
    rows: Vec<Row>,
    contents: Contents,
}

// An operation, whose content lies elsewhere.
#[derive(Clone, Copy)]
struct Row {
    client: ClientId,
    key: Key,
    act: Act,
    content: Span,
    issued: u64,
    answered: Option<u64>,
}

impl Model for History {
    ghost use Rattle.peg_history.specs.Ledger.{Ledger};

    ghost Value = { Ledger };

    ghost use Rattle.peg_history.specs.Rows.{ledger_of, IsHistory};

    ghost view = { ledger_of };

    ghost invariant = { IsHistory };
}

impl History {
    /// A history of no operation.
    pub fn make(alloc: Global) -> History
        ensures { result.ops ≡ [] }
    {
        History {
            rows: Vec::new(alloc),
            contents: Contents::make(alloc),
        }
    }

    /// Makes room for `n` more operations, and for contents of so many bytes together.
    pub fn reserve(&mut self, n: usize, bytes: usize) -> Result<(), OutOfMemory>
        ensures room { OnOk result (n ≤ self.new.spare) }
        ensures bytes { OnOk result (bytes ≤ self.new.room) }
        ensures same { self.new.ops ≡ self.old.ops }
        ensures later { self.old.spare ≤ self.new.spare }
        ensures bytes_later { self.old.room ≤ self.new.room }
    {
        self.rows.reserve(n)?;
        self.contents.reserve(bytes)
    }

    /// How many more operations there is memory for.
    pub fn spare(&self) -> usize
        ensures { result ≡ self.now.spare }
    {
        self.rows.capacity() - self.rows.len()
    }

    /// For how many more bytes of contents there is memory.
    pub fn room(&self) -> usize
        ensures { result ≡ self.now.room }
    {
        self.contents.room()
    }

    /// Adds an operation, which gets the next place. It succeeds where there is spare room, and room
    /// for its content.
    #[tactic(auto, using(crate::proofs::Shelved::ops_length))]
    pub fn push(&mut self, op: &Op<'_>) -> Result<(), OutOfMemory>
        requires { length self.old.ops < 4000000000 }
        ensures ok { OnOk result (self.new.ops ≡ self.old.ops ++ op.now ∷ []) }
        ensures err { OnErr result (self.new.ops ≡ self.old.ops) }
        ensures succeeds { 0 < self.old.spare → size_of op.now.content ≤ self.old.room
            → IsOk result }
        ensures spare { self.old.spare ≤ self.new.spare + 1 }
        ensures room { self.old.room ≤ self.new.room + size_of op.now.content }
    {
        self.rows.reserve(1)?;
        let content = self.contents.put(&op.content)?;
        self.rows.push_reserved(Row {
            client: op.client,
            key: op.key,
            act: op.act,
            content,
            issued: op.issued,
            answered: op.answered,
        });
        Ok(())
    }

    /// How many operations it has.
    #[tactic(auto, using(crate::proofs::Shelved::ops_length))]
    pub fn len(&self) -> u32
        ensures len { result ≡ length self.now.ops }
        ensures most { result ≤ 4000000000 }
    {
        self.rows.len() as u32
    }

    /// Whether it has no operation.
    #[tactic(auto, using(crate::proofs::Shelved::ops_length))]
    pub fn is_empty(&self) -> bool
        ensures { result ≡ (length self.now.ops == 0) }
    {
        self.rows.is_empty()
    }

    /// The operation at a place.
    #[tactic(auto, using(crate::proofs::Shelved::op_at, crate::proofs::Shelved::span_at, crate::proofs::Shelved::ops_length))]
    pub fn op(&self, place: u32) -> Op<'_>
        requires { place < length self.now.ops }
        ensures { Some result ≡ slice_get self.now.ops place }
    {
        let row = self.rows[place as usize];
        Op {
            client: row.client,
            key: row.key,
            act: row.act,
            content: self.contents.get(&row.content),
            issued: row.issued,
            answered: row.answered,
        }
    }

    /// Answers an operation at a line of the schedule, and gives a read its content, for which there
    /// is room.
    #[tactic(auto, using(crate::proofs::Shelved::op_at, crate::proofs::Shelved::span_at, crate::proofs::Shelved::ops_length))]
    pub fn answer(&mut self, place: u32, at: u64, content: &Content<'_>)
        requires place { place < length self.old.ops }
        requires open { IfSome (slice_get self.old.ops place) (λ op. IsNone op.answered) }
        requires later { IfSome (slice_get self.old.ops place) (λ op. op.issued < at) }
        requires room { size_of content.now ≤ self.old.room }
        ensures answered { IfSome (slice_get self.old.ops place)
            (λ op. self.new.ops ≡ slice_set self.old.ops place (with_answer at content.now op)) }
        ensures spare { self.new.spare ≡ self.old.spare }
    {
        let row = self.rows[place as usize];
        let now = answered(&mut self.contents, &row, at, content);
        self.rows[place as usize] = now;
    }
}

// The row as it is answered: a read gets its content, a write keeps its own.
#[tactic(auto, using(crate::proofs::Shelved::nothing_more))]
fn answered(contents: &mut Contents, row: &Row, at: u64, content: &Content<'_>) -> Row
    requires room { size_of content.now ≤ room_of contents.old }
    requires within { IsWithin (length contents.old.bytes.items) row.now.content }
    ensures more { contents.new.bytes.items
        ≡ contents.old.bytes.items ++ answered_bytes row.now.act content.now }
    ensures is { op_of contents.new.bytes.items result
        ≡ with_answer at content.now (op_of contents.old.bytes.items row.now) }
    ensures within { IsWithin (length contents.new.bytes.items) result.content }
{
    if row.act == Act::Read {
        let content = contents.put(content).unwrap();
        return Row {
            content,
            answered: Some(at),
            ..*row
        };
    }
    Row {
        answered: Some(at),
        ..*row
    }
}

/// Places of operations, in an order.
#[derive(Drop)]
pub struct Ops {
    places: Vec<u32>,
}

impl Model for Ops {
    ghost use Rattle.std.specs.Prelude.{List, ℕ, ◌≤◌, vec_len};

    ghost Value = { List ℕ };

    ghost view = { λ o. o.places.items };

    ghost invariant = { λ o. vec_len o.places ≤ 4000000000 };
}

impl Ops {
    /// No place.
    pub fn make(alloc: Global) -> Ops
        ensures { result ≡ [] }
    {
        Ops {
            places: Vec::new(alloc),
        }
    }

    /// Adds a place at the end.
    pub fn push(&mut self, place: u32) -> Result<(), OutOfMemory>
        requires { length self.old < 4000000000 }
        ensures ok { OnOk result (self.new ≡ self.old ++ place ∷ []) }
        ensures err { OnErr result (self.new ≡ self.old) }
    {
        self.places.push(place)?;
        Ok(())
    }

    /// How many places there are.
    pub fn len(&self) -> u32
        ensures len { result ≡ length self.now }
        ensures most { result ≤ 4000000000 }
    {
        self.places.len() as u32
    }

    /// Whether there is no place.
    pub fn is_empty(&self) -> bool
        ensures { result ≡ (length self.now == 0) }
    {
        self.places.is_empty()
    }

    /// The place at an index.
    pub fn at(&self, i: u32) -> u32
        requires { i < length self.now }
        ensures { Some result ≡ slice_get self.now i }
    {
        self.places[i as usize]
    }

    // The places.
    fn places(&self) -> &[u32]
        ensures { result.now ≡ self.now }
    {
        &self.places
    }
}

/// The order of a key's operations.
#[derive(Drop)]
pub struct KeyOrder {
    pub key: Key,
    pub ops: Ops,
}

/// What the place of an operation in its key's order depends on: lesser tags stand first, then
/// writes, then those that are answered, by their answer places, and last the operation's number.
#[derive(Clone, Copy, Debug, PartialEq, Eq, PartialOrd, Ord)]
struct Entry {
    tag: u64,
    is_read: bool,
    is_open: bool,
    at: u64,
    place: u32,
}
