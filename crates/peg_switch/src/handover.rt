//! How a switch hands its state over, and takes that of another.

ghost use Rattle.std.specs.Prelude.{◌≡◌, ◌+◌, ◌<◌, ◌≤◌, ◌^◌, [], ◌∷◌, length, true, false, map};
ghost use Rattle.std.specs.Prelude.{slice_index_or, Some};
ghost use Rattle.peg_name.specs.Name.{parts_most};
ghost use Rattle.peg_name.specs.declared.Node.TheVariants as node;
ghost use Rattle.peg_event.specs.declared.Outcome.TheVariants as outcome;
ghost use Rattle.peg_event.specs.declared.SwitchDid.TheVariants as did;
ghost use Rattle.peg_model.specs.Words.{below};
ghost use Rattle.peg_model.specs.Packet.{Part, in_range, is_positive};
ghost use Rattle.peg_model.specs.Counts.{no_counts};
ghost use Rattle.peg_model.specs.Handover.{parts};
ghost use Rattle.peg_model.specs.Switch.{sealed, part_packets, switch_step, acknowledgement};
ghost use Rattle.peg_model.specs.Switch.{is_active, Active, Idle, Sealed};
ghost use Rattle.peg_parts.specs.Taking.{take_part};
ghost use Rattle.peg_model.specs.Datagrams.{are_packets};
ghost use Rattle.peg_packet.specs.Seen.{seen};
ghost use Rattle.peg_packet.specs.Outbox.{posted};
ghost use Rattle.peg_packet.specs.Nodes.{are_in_rack};
ghost use Rattle.peg_switch.specs.Kept.{each_part};
ghost use Rattle.peg_switch.specs.Modes.{idle_packet, sealed_packet, taken_in, IsNumbered};

use crate::commands::tell;
use crate::{Mode, Switch};
use peg_event::{Outcome, SwitchDid};
use peg_grammar::reads_back_what_is_spelled;
use peg_name::{Node, SwitchId};
use peg_packet::{Packet, Post};
use peg_parts::{Parts, Taken, takes_parts_as_the_book_does};

impl Switch {
    /// Stops forwarding, and hands the state to the target.
    pub(crate) fn seal(&mut self, number: u64, target: SwitchId, post: &mut Post) -> SwitchDid
        requires format { post.old.format ≡ self.old.rack.format }
        requires room { length post.old.items + parts_most self.old.rack.format ≤ post.old.slots }
        requires number { is_positive number ≡ true }
        requires active { self.old.mode ≡ Active }
        requires target { target < self.old.rack.switches }
        requires epoch { self.old.epoch + 1 < 2 ^ 64 }
        ensures answer { result ≡ (sealed self.old number target).did }
        ensures after { self.new ≡ (sealed self.old number target).state }
        ensures sent { post.new ≡ posted post.old (sealed self.old number target).sent }
        ensures packets { are_packets self.old.rack.format
            (sealed self.old number target).sent ≡ true }
        ensures nodes { are_in_rack self.old.rack
            (sealed self.old number target).sent ≡ true }
        ensures few { length (sealed self.old number target).sent ≤ parts_most self.old.rack.format }
    {
        self.mode = Mode::Sealed { target };
        self.last = number;
        self.kept = None;
        self.send_parts(target, post);
        SwitchDid::Sealed {
            epoch: self.epoch + 1,
            target,
        }
    }

    /// Takes a packet that is for this switch after it was sealed: the target may ask for the parts
    /// again, and the switch may be the target of another handover.
    #[tactic(auto, unfolding(peg_model::specs::Packet::in_range))]
    pub(crate) fn hand_over(
        &mut self,
        target: SwitchId,
        packet: &Packet<'_>,
        post: &mut Post,
    ) -> SwitchDid
        requires format { post.old.format ≡ self.old.rack.format }
        requires room { length post.old.items + parts_most self.old.rack.format ≤ post.old.slots }
        requires sealed { self.old.mode ≡ Sealed target }
        requires range { in_range self.old.rack.format (seen packet.now) ≡ true }
        ensures answer { result ≡ (sealed_packet self.old target (seen packet.now)).did }
        ensures after { self.new ≡ (sealed_packet self.old target (seen packet.now)).state }
        ensures sent { post.new ≡ posted post.old (sealed_packet self.old target (seen packet.now)).sent }
        ensures packets { are_packets self.old.rack.format
            (sealed_packet self.old target (seen packet.now)).sent ≡ true }
        ensures nodes { are_in_rack self.old.rack
            (sealed_packet self.old target (seen packet.now)).sent ≡ true }
        ensures few { length (sealed_packet self.old target (seen packet.now)).sent ≤ parts_most self.old.rack.format }
    {
        match packet {
            Packet::Part {
                epoch,
                index,
                count,
                bytes,
            } => self.on_part(*epoch, *index, *count, bytes, post),
            Packet::Command { number, .. } if *number == self.last => {
                self.send_parts(target, post);
                SwitchDid::Repeated { number: self.last }
            }
            Packet::Command { number, .. } => SwitchDid::Skipped {
                number: *number,
                last: self.last,
            },
            _ => SwitchDid::NotActive { epoch: self.epoch },
        }
    }

    /// Sends the parts of the state to the target.
    fn send_parts(&mut self, target: SwitchId, post: &mut Post)
        requires format { post.old.format ≡ self.old.rack.format }
        requires room { length post.old.items + parts_most self.old.rack.format ≤ post.old.slots }
        requires sealed { self.old.mode ≡ Sealed target }
        requires last { 1 ≤ self.old.last }
        ensures same { self.new ≡ self.old }
        ensures sent { post.new ≡ posted post.old (part_packets self.old target) }
        ensures packets { are_packets self.old.rack.format (part_packets self.old target) ≡ true }
        ensures nodes { are_in_rack self.old.rack (part_packets self.old target) ≡ true }
        ensures few { length (part_packets self.old target) ≤ parts_most self.old.rack.format }
    {
        let (stamper, directory) = (self.core.stamper(), self.core.directory());
        self.parts.seal(stamper, directory, self.last);
        send_each(&self.parts, target, self.epoch + 1, post);
    }
}

impl Switch {
    /// Takes a packet that is for this switch while it is idle.
    #[tactic(auto, unfolding(peg_model::specs::Packet::in_range))]
    pub(crate) fn collect(&mut self, packet: &Packet<'_>, post: &mut Post) -> SwitchDid
        requires format { post.old.format ≡ self.old.rack.format }
        requires room { length post.old.items < post.old.slots }
        requires idle { self.old.mode ≡ Idle }
        requires range { in_range self.old.rack.format (seen packet.now) ≡ true }
        ensures answer { result ≡ (idle_packet self.old (seen packet.now)).did }
        ensures after { self.new ≡ (idle_packet self.old (seen packet.now)).state }
        ensures sent { post.new ≡ posted post.old (idle_packet self.old (seen packet.now)).sent }
        ensures packets { are_packets self.old.rack.format
            (idle_packet self.old (seen packet.now)).sent ≡ true }
        ensures nodes { are_in_rack self.old.rack
            (idle_packet self.old (seen packet.now)).sent ≡ true }
        ensures few { length (idle_packet self.old (seen packet.now)).sent ≤ 1 }
    {
        match packet {
            Packet::Part {
                epoch,
                index,
                count,
                bytes,
            } => self.on_part(*epoch, *index, *count, bytes, post),
            _ => SwitchDid::NotActive { epoch: self.epoch },
        }
    }

    /// Takes a part of a state, and is active with that state once it is whole.
    #[tactic(auto, unfolding(peg_model::specs::Packet::in_range))]
    fn on_part(
        &mut self,
        epoch: u64,
        index: u8,
        count: u8,
        bytes: &[u8],
        post: &mut Post,
    ) -> SwitchDid
        requires format { post.old.format ≡ self.old.rack.format }
        requires room { length post.old.items < post.old.slots }
        requires inactive { is_active self.old.mode ≡ false }
        requires range { in_range self.old.rack.format (Part epoch index count bytes.now) ≡ true }
        ensures answer { result ≡ (switch_step self.old (Part epoch index count bytes.now) 0).did }
        ensures after { self.new
            ≡ (switch_step self.old (Part epoch index count bytes.now) 0).state }
        ensures sent { post.new ≡ posted post.old
            (switch_step self.old (Part epoch index count bytes.now) 0).sent }
        ensures packets { are_packets self.old.rack.format
            (switch_step self.old (Part epoch index count bytes.now) 0).sent ≡ true }
        ensures nodes { are_in_rack self.old.rack
            (switch_step self.old (Part epoch index count bytes.now) 0).sent ≡ true }
        ensures few { length (switch_step self.old (Part epoch index count bytes.now) 0).sent ≤ 1 }
    {
        takes_parts_as_the_book_does();
        match self.take_in(epoch, index, count, bytes) {
            Taken::Old => SwitchDid::OldPart { epoch },
            Taken::Malformed => SwitchDid::OutOfPlace,
            Taken::Repeated => SwitchDid::HasPart { index },
            Taken::More { held } => SwitchDid::Collected { held, count },
            Taken::Whole { last } => self.begin_epoch(epoch, last, post),
        }
    }

    /// Takes a part in, and the state that it completes.
    fn take_in(&mut self, epoch: u64, index: u8, count: u8, bytes: &[u8]) -> Taken
        requires index { index < count }
        requires few { count ≤ parts_most self.old.rack.format }
        requires short { length bytes.now ≤ 512 }
        ensures answer { result ≡ (take_part self.old.rack self.old.epoch self.old.collected epoch
            index count bytes.now).answer }
        ensures after { self.new ≡ taken_in self.old (take_part self.old.rack self.old.epoch
            self.old.collected epoch index count bytes.now) }
        ensures last { IsNumbered result }
    {
        reads_back_what_is_spelled();
        self.core.take_part(&mut self.collector, self.epoch, epoch, index, count, bytes)
    }

    /// Is active from here on, with the core that it has, and tells the controller.
    fn begin_epoch(&mut self, epoch: u64, last: u64, post: &mut Post) -> SwitchDid
        requires format { post.old.format ≡ self.old.rack.format }
        requires room { length post.old.items < post.old.slots }
        requires epoch { 2 ≤ epoch }
        requires last { 1 ≤ last }
        ensures answer { result ≡ did.Activated epoch }
        ensures after { self.new ≡ record self.old {
          mode = Active;
          epoch = epoch;
          counts = no_counts;
          last = last;
          kept = Some (outcome.Activated epoch);
        } }
        ensures sent { post.new
            ≡ posted post.old (acknowledgement last (outcome.Activated epoch) ∷ []) }
        ensures packets { are_packets self.old.rack.format
            (acknowledgement last (outcome.Activated epoch) ∷ []) ≡ true }
        ensures nodes { are_in_rack self.old.rack
            (acknowledgement last (outcome.Activated epoch) ∷ []) ≡ true }
        ensures few { length (acknowledgement last (outcome.Activated epoch) ∷ []) ≤ 1 }
    {
        let activated = Outcome::Activated(epoch);
        self.mode = Mode::Active;
        self.epoch = epoch;
        self.counts.clear();
        self.last = last;
        self.kept = Some(activated);
        tell(last, activated, post);
        SwitchDid::Activated { epoch }
    }
}

// Sends each part to the target, in order.
#[tactic(auto, using(crate::proofs::Counting::part_each))]
fn send_each(state: &Parts, target: SwitchId, epoch: u64, post: &mut Post)
    requires format { post.old.format ≡ state.now.rack.format }
    requires room { length post.old.items + parts_most state.now.rack.format ≤ post.old.slots }
    requires epoch { 2 ≤ epoch }
    requires target { target < state.now.rack.switches }
    ensures sent { post.new ≡ posted post.old (each_part state.now.bytes target epoch) }
    ensures packets { are_packets state.now.rack.format (each_part state.now.bytes target epoch)
        ≡ true }
    ensures nodes { are_in_rack state.now.rack (each_part state.now.bytes target epoch)
        ≡ true }
    ensures few { length (each_part state.now.bytes target epoch) ≤ parts_most state.now.rack.format }
{
    let count = state.count();
    for index in 0..count {
        let packets = [Packet::Part {
            epoch,
            index,
            count,
            bytes: state.part(index),
        }];
        post.put(Node::Switch(target), &packets[0]);
    }
}
