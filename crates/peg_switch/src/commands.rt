//! What the controller asks of an active switch.

ghost use Rattle.std.specs.Prelude.{◌≡◌, ◌+◌, ◌<◌, ◌≤◌, [], ◌∷◌, length, true, false};
ghost use Rattle.std.specs.Prelude.{Some};
ghost use Rattle.peg_name.specs.declared.Node.TheVariants as node;
ghost use Rattle.peg_event.specs.declared.SwitchDid.TheVariants as did;
ghost use Rattle.peg_model.specs.Packet as model;
ghost use Rattle.peg_name.specs.Name.{parts_most};
ghost use Rattle.peg_model.specs.Packet.{in_range, outcome_in_range, is_positive, what_in_range};
ghost use Rattle.peg_model.specs.Rules.{promote, demote, copy_source, fence_of};
ghost use Rattle.peg_model.specs.Switch.{core_of, promotes, demotes, copies, fences, carry_out};
ghost use Rattle.peg_model.specs.Switch.{on_command, acknowledgement, repeats, active_step};
ghost use Rattle.peg_model.specs.Switch.{promoted_outcome, marked_outcome};
ghost use Rattle.peg_model.specs.Datagrams.{are_packets};
ghost use Rattle.peg_model.specs.Switch.{what_in_rack, is_misplaced, Active};
ghost use Rattle.peg_packet.specs.Seen.{what_seen};
ghost use Rattle.peg_packet.specs.Outbox.{posted};
ghost use Rattle.peg_packet.specs.Nodes.{are_in_rack};
ghost use Rattle.peg_switch.specs.Kept.{comes_next};

use crate::Switch;
use peg_event::{CopyFrom, FenceOf, MarkDid, Outcome, Promoted, SwitchDid};
use peg_name::{Node, ServerId};
use peg_packet::{Packet, Post, Rows, What, acknowledge, key_of};

impl Switch {
    /// Carries out the next command, acknowledges the last one again, and skips any other.
    #[tactic(auto, using(crate::proofs::Steps::next_command))]
    pub(crate) fn on_command(&mut self, number: u64, what: &What<'_>, post: &mut Post) -> SwitchDid
        requires format { post.old.format ≡ self.old.rack.format }
        requires room { length post.old.items + parts_most self.old.rack.format ≤ post.old.slots }
        requires active { self.old.mode ≡ Active }
        requires number { is_positive number ≡ true }
        requires range { what_in_range self.old.rack.format (what_seen what.now) ≡ true }
        requires taken { what_in_rack self.old.rack (what_seen what.now) ≡ true }
        requires placed { is_misplaced self.old (model.Command number (what_seen what.now))
            ≡ false }
        ensures answer { result ≡ (on_command self.old number (what_seen what.now)).did }
        ensures after { self.new ≡ (on_command self.old number (what_seen what.now)).state }
        ensures sent { post.new ≡ posted post.old
            (on_command self.old number (what_seen what.now)).sent }
        ensures packets { are_packets self.old.rack.format
            (on_command self.old number (what_seen what.now)).sent ≡ true }
        ensures nodes { are_in_rack self.old.rack
            (on_command self.old number (what_seen what.now)).sent ≡ true }
        ensures few { length (on_command self.old number (what_seen what.now)).sent ≤ parts_most self.old.rack.format }
    {
        let last = self.last;
        if number - 1 == last {
            return self.carry_out(number, what, post);
        }
        if number == last {
            return self.repeat(post);
        }
        SwitchDid::Skipped { number, last }
    }

    /// Carries out a command.
    #[tactic(auto, using(crate::proofs::Steps::next_command))]
    fn carry_out(&mut self, number: u64, what: &What<'_>, post: &mut Post) -> SwitchDid
        requires format { post.old.format ≡ self.old.rack.format }
        requires room { length post.old.items + parts_most self.old.rack.format ≤ post.old.slots }
        requires active { self.old.mode ≡ Active }
        requires number { is_positive number ≡ true }
        requires range { what_in_range self.old.rack.format (what_seen what.now) ≡ true }
        requires taken { what_in_rack self.old.rack (what_seen what.now) ≡ true }
        requires next { comes_next self.old.epoch (what_seen what.now) ≡ true }
        ensures answer { result ≡ (carry_out self.old number (what_seen what.now)).did }
        ensures after { self.new ≡ (carry_out self.old number (what_seen what.now)).state }
        ensures sent { post.new ≡ posted post.old
            (carry_out self.old number (what_seen what.now)).sent }
        ensures packets { are_packets self.old.rack.format
            (carry_out self.old number (what_seen what.now)).sent ≡ true }
        ensures nodes { are_in_rack self.old.rack
            (carry_out self.old number (what_seen what.now)).sent ≡ true }
        ensures few { length (carry_out self.old number (what_seen what.now)).sent ≤ parts_most self.old.rack.format }
    {
        prove!(self.config().servers() > 0);
        match what {
            What::Promote { key } => self.on_promote(number, key, post),
            What::Demote { key } => self.on_demote(number, key, post),
            What::Copy { target, key } => self.on_copy(number, *target, key, post),
            What::Fence { key } => self.on_fence(number, key, post),
            What::Seal { target, .. } => self.seal(number, *target, post),
            What::Clear => self.on_clear(number, post),
        }
    }
}

impl Switch {
    /// Lists a key.
    pub(crate) fn on_promote(&mut self, number: u64, key: &[u8], post: &mut Post) -> SwitchDid
        requires format { post.old.format ≡ self.old.rack.format }
        requires room { length post.old.items < post.old.slots }
        requires number { is_positive number ≡ true }
        requires key { model.is_key key.now ≡ true }
        ensures answer { result
            ≡ (promotes (promote (core_of self.old) key.now number) self.old number).did }
        ensures after { self.new
            ≡ (promotes (promote (core_of self.old) key.now number) self.old number).state }
        ensures sent { post.new ≡ posted post.old
            (promotes (promote (core_of self.old) key.now number) self.old number).sent }
        ensures packets { are_packets self.old.rack.format
            (promotes (promote (core_of self.old) key.now number) self.old number).sent ≡ true }
        ensures nodes { are_in_rack self.old.rack
            (promotes (promote (core_of self.old) key.now number) self.old number).sent ≡ true }
        ensures few { length (promotes (promote (core_of self.old) key.now number) self.old number).sent ≤ 1 }
    {
        let outcome = match self.core.promote(&key_of(key), number) {
            Promoted::Listed => Outcome::Listed(number),
            Promoted::Already { listing } => Outcome::Already(listing),
            Promoted::Full { count } => Outcome::Full(count),
            Promoted::NoVersion { next } => Outcome::NoVersion(next.0),
        };
        self.settle(number, outcome, post)
    }

    /// Marks a key's entry.
    pub(crate) fn on_demote(&mut self, number: u64, key: &[u8], post: &mut Post) -> SwitchDid
        requires format { post.old.format ≡ self.old.rack.format }
        requires room { length post.old.items < post.old.slots }
        requires number { is_positive number ≡ true }
        requires key { model.is_key key.now ≡ true }
        ensures answer { result
            ≡ (demotes (demote (core_of self.old) key.now) self.old number).did }
        ensures after { self.new
            ≡ (demotes (demote (core_of self.old) key.now) self.old number).state }
        ensures sent { post.new ≡ posted post.old
            (demotes (demote (core_of self.old) key.now) self.old number).sent }
        ensures packets { are_packets self.old.rack.format
            (demotes (demote (core_of self.old) key.now) self.old number).sent ≡ true }
        ensures nodes { are_in_rack self.old.rack
            (demotes (demote (core_of self.old) key.now) self.old number).sent ≡ true }
        ensures few { length (demotes (demote (core_of self.old) key.now) self.old number).sent ≤ 1 }
    {
        let outcome = match self.core.demote(&key_of(key)) {
            MarkDid::NotListed => Outcome::NotListed,
            MarkDid::AlreadyMarked { mark } => Outcome::AlreadyMarked(mark.0),
            MarkDid::Marked { mark } => Outcome::Marked(mark.0),
        };
        self.settle(number, outcome, post)
    }

    /// Has a holder copy a key to a server.
    #[tactic(auto, using(crate::proofs::Forwards::copy_goes, crate::proofs::Forwards::ordered_goes))]
    pub(crate) fn on_copy(
        &mut self,
        number: u64,
        target: ServerId,
        key: &[u8],
        post: &mut Post,
    ) -> SwitchDid
        requires format { post.old.format ≡ self.old.rack.format }
        requires room { length post.old.items + 2 ≤ post.old.slots }
        requires number { is_positive number ≡ true }
        requires target { target < self.old.rack.servers }
        requires key { model.is_key key.now ≡ true }
        ensures answer { result ≡ (copies (copy_source (core_of self.old) key.now target)
            self.old number target key.now).did }
        ensures after { self.new ≡ (copies (copy_source (core_of self.old) key.now target)
            self.old number target key.now).state }
        ensures sent { post.new ≡ posted post.old
            (copies (copy_source (core_of self.old) key.now target)
            self.old number target key.now).sent }
        ensures packets { are_packets self.old.rack.format
            (copies (copy_source (core_of self.old) key.now target)
            self.old number target key.now).sent ≡ true }
        ensures nodes { are_in_rack self.old.rack
            (copies (copy_source (core_of self.old) key.now target)
            self.old number target key.now).sent ≡ true }
        ensures few { length (copies (copy_source (core_of self.old) key.now target)
            self.old number target key.now).sent ≤ 2 }
    {
        prove!(self.config().servers() > 0);
        match self.core.copy_source(&key_of(key), target) {
            CopyFrom::NotListed => self.settle(number, Outcome::NotListed, post),
            CopyFrom::Holds => self.settle(number, Outcome::Holds, post),
            CopyFrom::From(server) => {
                let packets = [Packet::CopyOrder {
                    switch: self.id,
                    server,
                    target,
                    key,
                }];
                post.put(Node::Server(server), &packets[0]);
                self.settle(number, Outcome::Ordered(u64::from(server.0)), post)
            }
        }
    }

    /// Has a key's home hold its content at the version of its listing.
    #[tactic(auto, using(crate::proofs::Forwards::fence_goes))]
    pub(crate) fn on_fence(&mut self, number: u64, key: &[u8], post: &mut Post) -> SwitchDid
        requires format { post.old.format ≡ self.old.rack.format }
        requires room { length post.old.items + 2 ≤ post.old.slots }
        requires number { is_positive number ≡ true }
        requires key { model.is_key key.now ≡ true }
        ensures answer { result
            ≡ (fences (fence_of (core_of self.old) key.now) self.old number key.now).did }
        ensures after { self.new
            ≡ (fences (fence_of (core_of self.old) key.now) self.old number key.now).state }
        ensures sent { post.new ≡ posted post.old
            (fences (fence_of (core_of self.old) key.now) self.old number key.now).sent }
        ensures packets { are_packets self.old.rack.format
            (fences (fence_of (core_of self.old) key.now) self.old number key.now).sent ≡ true }
        ensures nodes { are_in_rack self.old.rack
            (fences (fence_of (core_of self.old) key.now) self.old number key.now).sent ≡ true }
        ensures few { length (fences (fence_of (core_of self.old) key.now) self.old number key.now).sent ≤ 2 }
    {
        prove!(self.config().servers() > 0);
        match self.core.fence_of(&key_of(key)) {
            FenceOf::NotListed => self.settle(number, Outcome::NotListed, post),
            FenceOf::NoBase => self.settle(number, Outcome::NoBase, post),
            FenceOf::At { home, base } => {
                let packets = [Packet::Fence {
                    switch: self.id,
                    server: home,
                    version: base,
                    key,
                }];
                post.put(Node::Server(home), &packets[0]);
                self.settle(number, Outcome::Fenced(base.0), post)
            }
        }
    }

    /// Empties the counts.
    pub(crate) fn on_clear(&mut self, number: u64, post: &mut Post) -> SwitchDid
        requires format { post.old.format ≡ self.old.rack.format }
        requires room { length post.old.items < post.old.slots }
        requires number { is_positive number ≡ true }
        ensures answer { result ≡ (carry_out self.old number model.Clear).did }
        ensures after { self.new ≡ (carry_out self.old number model.Clear).state }
        ensures sent { post.new ≡ posted post.old (carry_out self.old number model.Clear).sent }
        ensures packets { are_packets self.old.rack.format
            (carry_out self.old number model.Clear).sent ≡ true }
        ensures nodes { are_in_rack self.old.rack
            (carry_out self.old number model.Clear).sent ≡ true }
        ensures few { length (carry_out self.old number model.Clear).sent ≤ 1 }
    {
        self.counts.clear();
        self.settle(number, Outcome::Cleared, post)
    }

    /// Keeps the outcome of a command and tells it to the controller.
    fn settle(&mut self, number: u64, outcome: Outcome, post: &mut Post) -> SwitchDid
        requires format { post.old.format ≡ self.old.rack.format }
        requires room { length post.old.items < post.old.slots }
        requires number { is_positive number ≡ true }
        requires outcome { outcome_in_range self.old.rack.format outcome ≡ true }
        ensures answer { result ≡ did.Applied number outcome }
        ensures after { self.new ≡ record self.old { last = number; kept = Some outcome } }
        ensures sent { post.new ≡ posted post.old (acknowledgement number outcome ∷ []) }
        ensures packets { are_packets self.old.rack.format (acknowledgement number outcome ∷ [])
            ≡ true }
        ensures nodes { are_in_rack self.old.rack (acknowledgement number outcome ∷ [])
            ≡ true }
        ensures few { length (acknowledgement number outcome ∷ []) ≤ 1 }
    {
        self.last = number;
        self.kept = Some(outcome);
        tell(number, outcome, post);
        SwitchDid::Applied { number, outcome }
    }
}

impl Switch {
    /// Tells the controller again what the last command came to.
    pub(crate) fn repeat(&self, post: &mut Post) -> SwitchDid
        requires format { post.old.format ≡ self.now.rack.format }
        requires room { length post.old.items < post.old.slots }
        ensures answer { result ≡ (repeats self.now).did }
        ensures sent { post.new ≡ posted post.old (repeats self.now).sent }
        ensures packets { are_packets self.now.rack.format (repeats self.now).sent ≡ true }
        ensures nodes { are_in_rack self.now.rack (repeats self.now).sent ≡ true }
        ensures few { length (repeats self.now).sent ≤ 1 }
    {
        if let Some(outcome) = self.kept {
            tell(self.last, outcome, post);
        }
        SwitchDid::Repeated { number: self.last }
    }

    /// Tells the controller how often keys were asked for.
    #[tactic(auto, using(crate::proofs::Forwards::reported))]
    pub(crate) fn on_survey(&self, post: &mut Post) -> SwitchDid
        requires format { post.old.format ≡ self.now.rack.format }
        requires room { length post.old.items < post.old.slots }
        ensures answer { result ≡ (active_step self.now model.Survey 0).did }
        ensures sent { post.new ≡ posted post.old (active_step self.now model.Survey 0).sent }
        ensures packets { are_packets self.now.rack.format
            (active_step self.now model.Survey 0).sent ≡ true }
        ensures nodes { are_in_rack self.now.rack
            (active_step self.now model.Survey 0).sent ≡ true }
        ensures few { length (active_step self.now model.Survey 0).sent ≤ 1 }
    {
        prove!(self.config().hot() <= 12);
        let rows = self.counts.rows();
        let mut room = [0; 588];
        let packets = [Packet::Report {
            epoch: self.epoch,
            total: self.counts.total(),
            rows: Rows::write(rows, &mut room),
        }];
        post.put(Node::Controller, &packets[0]);
        SwitchDid::Reported {
            rows: rows.len() as u8,
        }
    }
}

// Tells the controller what a command came to.
#[tactic(auto, using(crate::proofs::Forwards::acknowledged))]
pub(crate) fn tell(number: u64, outcome: Outcome, post: &mut Post)
    requires room { length post.old.items < post.old.slots }
    requires number { is_positive number ≡ true }
    requires outcome { outcome_in_range post.old.format outcome ≡ true }
    ensures sent { post.new ≡ posted post.old (acknowledgement number outcome ∷ []) }
    ensures packets { are_packets post.old.format (acknowledgement number outcome ∷ []) ≡ true }
{
    let packets = [acknowledge(number, outcome)];
    post.put(Node::Controller, &packets[0]);
}
