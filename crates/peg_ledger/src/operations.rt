//! The operations of a run.
ghost use Rattle.std.specs.Prelude.{◌≡◌, ◌<◌, ◌≤◌, ◌++◌, ◌∷◌, [], length, map, true, false, not};
ghost use Rattle.std.specs.Prelude.{OnOk, IsOk, IfOk, IfSome};
ghost use Rattle.std.specs.List.{list_any};
ghost use Rattle.peg_model.specs.World.{is_named, changed_at, answered_as, stamped_as};
ghost use Rattle.peg_history.specs.Contents.{size_of};
ghost use Rattle.peg_history.specs.Groups.{key_orders};
ghost use Rattle.peg_ledger.specs.Kept.{IsOpen, IsFresh};
ghost use Rattle.peg_ledger.specs.After.{issued_after, answered_after, answered_number};
ghost use Rattle.peg_ledger.specs.After.{answered_size, stamped_after};

use crate::Fences;
use indexmap::IndexSet;
use peg_event::{ClientDid, Issue, Op};
use peg_history::{History, KeyOrder, orders_of};
use peg_name::{ClientId, Content, OutOfMemory, Seq, Version};
use std::alloc::Global;
use std::hash::{Hash, Hasher};
use std::marker::Model;

/// What names an operation: its client, and that client's number for it.
#[derive(Clone, Copy, Debug, PartialEq, Eq)]
struct Name {
    client: ClientId,
    seq: Seq,
}

impl Hash for Name {
    ghost use Rattle.std.specs.Prelude.{◌++◌};
    ghost use Rattle.std.specs.Hash as fed;
    ghost use Rattle.std.specs.Cmp.Rules.{hashing};
    ghost use Rattle.std.proofs.Common.{rules};

    ghost hash_input = { λ name. fed.u16 name.client ++ fed.u64 name.seq };

    ghost respects_eq = { Prim.search (hashing, rules) };

    fn hash<H: Hasher>(&self, state: &mut H) {
        self.client.0.hash(state);
        self.seq.0.hash(state);
    }
}

/// The operations of a run, each with its name and its tag. They are found by their names.
#[derive(Drop)]
pub struct Operations {
    history: History,
    names: IndexSet<Name>,
    tags: Vec<Version>,
}

impl Model for Operations {
    ghost use Rattle.std.specs.Prelude.{◌-◌, min, vec_len, vec_capacity};
    ghost use Rattle.indexmap.specs.IndexSet.{spare};
    ghost use Rattle.peg_ledger.specs.Kept.{Kept, operations_of, AreOf};

    ghost Value = { Kept };

    ghost view = { λ o. record {
      operations = operations_of o.history.ops o.names.keys o.tags.items;
      spare = min o.history.spare (min (spare o.names) (vec_capacity o.tags - vec_len o.tags));
      room = o.history.room;
    } };

    ghost invariant = { λ o. AreOf o.history.ops o.names.keys o.tags.items };
}

impl Operations {
    /// No operation.
    pub fn make(alloc: Global) -> Operations
        ensures { result.operations ≡ [] }
    {
        Operations {
            history: History::make(alloc),
            names: IndexSet::new(alloc),
            tags: Vec::new(alloc),
        }
    }

    /// Makes room for one more operation, and for contents of so many bytes together.
    pub fn reserve(&mut self, bytes: usize) -> Result<(), OutOfMemory>
        ensures same { self.new.operations ≡ self.old.operations }
        ensures room { OnOk result (1 ≤ self.new.spare) }
        ensures bytes { OnOk result (bytes ≤ self.new.room) }
    {
        self.history.reserve(1, bytes)?;
        self.names.reserve(1)?;
        self.tags.reserve(1)?;
        Ok(())
    }

    /// Adds an operation of a new name, as it begins. It succeeds where there is room.
    #[tactic(auto, using(crate::proofs::Keeping::length_of, crate::proofs::Keeping::fresh_name, crate::proofs::Keeping::added, crate::proofs::Keeping::named_added, crate::proofs::Keeping::names_length))]
    fn begin(&mut self, op: &Op<'_>, seq: Seq) -> Result<(), OutOfMemory>
        requires few { length self.old.operations < 4000000000 }
        requires room { 1 ≤ self.old.spare }
        requires bytes { size_of op.now.content ≤ self.old.room }
        requires fresh { list_any (is_named op.now.client seq) self.old.operations ≡ false }
        ensures ok { OnOk result (self.new.operations
            ≡ self.old.operations ++ record { op = op.now; seq = seq; tag = 0 } ∷ []) }
        ensures succeeds { IsOk result }
    {
        let client = op.client;
        self.history.push(op)?;
        self.names.insert(Name { client, seq })?;
        self.tags.extend_from_slice(&[Version(0)])?;
        Ok(())
    }

    /// Answers the operation of a name at a place of the schedule, and gives it the origin of the
    /// version as its tag.
    #[tactic(auto, using(crate::proofs::Keeping::in_ops, crate::proofs::Keeping::in_tags, crate::proofs::Keeping::in_numbers, crate::proofs::Keeping::is_unanswered, crate::proofs::Keeping::is_earlier, crate::proofs::Keeping::answered_to, crate::proofs::Keeping::are_answered, crate::proofs::Keeping::none_changed, crate::proofs::Keeping::names_length))]
    fn answer(
        &mut self,
        fences: &Fences,
        client: ClientId,
        seq: Seq,
        place: u64,
        version: Version,
        content: &Content<'_>,
    )
        requires opens { IsOpen client seq place self.old.operations }
        requires bytes { size_of content.now ≤ self.old.room }
        ensures { self.new.operations ≡ changed_at client seq
            (answered_as fences.now.fences place version content.now) self.old.operations }
    {
        if let Some(index) = self.names.get_index_of(&Name { client, seq }) {
            let key = self.history.op(index as u32).key;
            self.history.answer(index as u32, place, content);
            self.tags[index] = fences.origin_of(&key, version);
        }
    }

    /// Gives the operation of a name its version as its tag, unless it is answered.
    #[tactic(auto, using(crate::proofs::Keeping::in_ops, crate::proofs::Keeping::in_tags, crate::proofs::Keeping::in_numbers, crate::proofs::Keeping::stamped_to, crate::proofs::Keeping::answered_stays, crate::proofs::Keeping::are_tagged, crate::proofs::Keeping::none_changed, crate::proofs::Keeping::names_length))]
    fn stamp(&mut self, client: ClientId, seq: Seq, version: Version)
        ensures { self.new.operations ≡ changed_at client seq (stamped_as version)
            self.old.operations }
    {
        if let Some(index) = self.names.get_index_of(&Name { client, seq }) {
            if self.history.op(index as u32).answered.is_none() {
                self.tags[index] = version;
            }
        }
    }

    /// Adds an operation as it begins, where it was sent. It succeeds where there is room, and room
    /// for its content.
    pub fn take_issue(&mut self, op: &Op<'_>, issue: &Issue) -> Result<(), OutOfMemory>
        requires few { length self.old.operations < 4000000000 }
        requires room { 1 ≤ self.old.spare }
        requires bytes { size_of op.now.content ≤ self.old.room }
        requires fresh { IsFresh op.now.client issue.now self.old.operations }
        ensures ok { OnOk result (self.new.operations
            ≡ issued_after op.now issue.now self.old.operations) }
        ensures succeeds { IsOk result }
    {
        match issue {
            Issue::Sent { seq } => self.begin(op, *seq),
            Issue::Busy { .. } | Issue::Spent => Ok(()),
        }
    }

    /// Answers the operation that a client took a reply to at a place of the schedule. There is room
    /// for the content that it gives.
    pub fn take_answer(
        &mut self,
        fences: &Fences,
        client: ClientId,
        place: u64,
        did: &ClientDid<'_>,
    )
        requires opens { IfSome (answered_number did.now)
            (λ seq. IsOpen client seq place self.old.operations) }
        requires bytes { answered_size did.now ≤ self.old.room }
        ensures { self.new.operations
            ≡ answered_after fences.now.fences place client did.now self.old.operations }
    {
        match did {
            ClientDid::Wrote { seq, version } => {
                let contents = [Content::Absent];
                self.answer(fences, client, *seq, place, *version, &contents[0]);
            }
            ClientDid::Read {
                seq,
                version,
                content,
            } => self.answer(fences, client, *seq, place, *version, content),
            ClientDid::Moved { .. } | ClientDid::Ignored => {}
        }
    }

    /// Gives the operation of a write that was stamped its version.
    pub fn take_stamp(&mut self, stamped: Option<(ClientId, Seq, Version)>)
        ensures { self.new.operations ≡ stamped_after stamped self.old.operations }
    {
        if let Some((client, seq, version)) = stamped {
            self.stamp(client, seq, version);
        }
    }

    /// How many operations there are.
    #[tactic(auto, using(crate::proofs::Keeping::length_of))]
    pub fn len(&self) -> u32
        ensures { result ≡ length self.now.operations }
    {
        self.history.len()
    }

    /// The history.
    #[tactic(auto, using(crate::proofs::Keeping::ops_of))]
    pub fn history(&self) -> &History
        ensures { result.now.ops ≡ map (λ o. o.op) self.now.operations }
    {
        &self.history
    }

    /// The order of each key, in the order of first issue.
    #[tactic(auto, using(crate::proofs::Keeping::orders_kept))]
    pub fn orders(&self, alloc: Global) -> Result<Vec<KeyOrder>, OutOfMemory>
        ensures { IfOk result (λ orders. orders.items
            ≡ key_orders (map (λ o. o.op) self.now.operations)
            (map (λ o. o.tag) self.now.operations)) }
    {
        orders_of(alloc, &self.history, &self.tags)
    }
}
