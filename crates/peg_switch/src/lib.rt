//! The switch that every packet passes: it stamps writes, sends requests to servers, notes what
//! replies say and hands them on, counts how often each key is asked for, obeys the controller, and
//! hands its whole state to another switch.
#![tactic(auto)]

ghost use Rattle.std.specs.Prelude.{◌≡◌, ℕ, ◌==◌, ◌+◌, ◌<◌, ◌≤◌, [], ◌∷◌, length, true, false};
ghost use Rattle.std.specs.Prelude.{nat_lt, IfOk};
ghost use Rattle.peg_name.specs.Name.{parts_most};
ghost use Rattle.peg_model.specs.Packet.{in_range, what_in_range, spelling, are_distinct};
ghost use Rattle.peg_model.specs.Packet.{is_positive, Command};
ghost use Rattle.peg_model.specs.Rules.{base_of};
ghost use Rattle.peg_model.specs.Switch.{new_switch, switch_step, switch_takes, active_step};
ghost use Rattle.peg_model.specs.Switch.{is_misplaced, what_in_rack, Active, Idle, Sealed};
ghost use Rattle.peg_model.specs.Datagrams.{switch_on_bytes, are_packets};
ghost use Rattle.peg_packet.specs.Seen.{seen, what_seen};
ghost use Rattle.peg_packet.specs.Outbox.{posted};
ghost use Rattle.peg_packet.specs.Nodes.{are_in_rack};
ghost use Rattle.peg_switch.specs.Seen.{mode_seen};

use peg_event::Outcome;
pub use peg_event::SwitchDid;
use peg_grammar::{fits_a_datagram, takes_a_state_over};
use peg_hot::Counts;
use peg_name::{Config, Format, Key, Node, OutOfMemory, SwitchId, Version};
use peg_packet::{Packet, Post, What, decode};
use peg_parts::{Collector, Parts};
pub use peg_rules::Allowed;
use peg_rules::Core;
use std::alloc::Global;
use std::marker::Model;

mod choices;
mod commands;
mod handover;
mod requests;

/// Whether a switch forwards: not yet, or it does, or no longer, since it handed its state to the
/// target.
#[derive(Clone, Copy, Debug)]
enum Mode {
    Idle,
    Active,
    Sealed { target: SwitchId },
}

/// A switch of a rack. Switch 0 is active at epoch 1, and the others are idle at epoch 0. All its
/// memory is taken when it is made.
#[derive(Drop)]
pub struct Switch {
    id: SwitchId,
    mode: Mode,
    epoch: u64,
    core: Core,
    counts: Counts,
    last: u64,
    kept: Option<Outcome>,
    parts: Parts,
    collector: Collector,
}

/// The most packets that one step sends, those of a handover: 32, and 64 in the second format.
pub fn most_packets(format: Format) -> usize
    ensures most { result ≡ parts_most format }
    ensures few { result ≤ 64 }
{
    usize::from(format.most_parts())
}

impl Model for Switch {
    ghost use Rattle.std.specs.Prelude.{◌≡◌, ◌<◌, true, length};
    ghost use Rattle.peg_model.specs.Switch.{Switch as TheSwitch};
    ghost use Rattle.peg_switch.specs.Seen.{mode_seen};
    ghost use Rattle.peg_switch.specs.Kept.{answers, may_hand_over};

    ghost Value = { TheSwitch };

    ghost view = { λ s. record {
      rack = s.core.rack;
      id = s.id;
      mode = mode_seen s.mode;
      epoch = s.epoch;
      stamps = s.core.stamps;
      entries = s.core.entries;
      counts = s.counts.counts;
      last = s.last;
      kept = s.kept;
      collected = s.collector.collected;
    } };

    ghost invariant = { λ s.
        (s.id < s.core.rack.switches) × (s.counts.most ≡ s.core.rack.hot)
        × (answers s.core.rack.format s.last s.kept ≡ true)
        × (may_hand_over s.core.rack (mode_seen s.mode) s.epoch ≡ true)
        × (s.parts.rack ≡ s.core.rack) × (s.collector.rack ≡ s.core.rack) };
}

impl Switch {
    /// A switch of the rack that has forwarded nothing yet. The keys are those that the rack lists
    /// from the start on: they are distinct, and there is room for them.
    pub fn make(
        alloc: Global,
        config: &Config,
        id: SwitchId,
        keys: &[Key],
    ) -> Result<Switch, OutOfMemory>
        requires id { id < config.now.switches }
        requires distinct { are_distinct keys.now ≡ true }
        requires few { length keys.now ≤ config.now.listed }
        ensures { IfOk result (λ s. s ≡ new_switch config.now keys.now id) }
    {
        let is_first = id.0 == 0;
        let (mode, epoch) = if is_first {
            (Mode::Active, 1)
        } else {
            (Mode::Idle, 0)
        };
        Ok(Switch {
            id,
            mode,
            epoch,
            core: Core::make(alloc, config, if is_first { keys } else { &[] })?,
            counts: Counts::make(alloc, config.hot() as u8)?,
            last: 0,
            kept: None,
            parts: Parts::make(alloc, config)?,
            collector: Collector::make(alloc, config)?,
        })
    }

    /// The rack that it is a switch of.
    pub fn config(&self) -> &Config
        ensures { result.now ≡ self.now.rack }
    {
        self.core.config()
    }

    /// The version that the key's listing took; none where it is not listed.
    pub fn base_of(&self, key: &Key) -> Option<Version>
        ensures { result ≡ base_of self.now.entries key.now }
    {
        self.core.directory().base_of(key)
    }
}

impl Switch {
    /// Takes any bytes, with the pick by which it chooses among servers. The outbox has room for
    /// `most_packets`, and no step sends more. Each packet that is sent goes to a node of the rack.
    /// With each of these answers the switch is as before and nothing is sent, and the first that
    /// fits is given:
    /// - `Malformed` where no packet is spelled by the bytes;
    /// - `OutOfPlace` where the packet is of the other format, of a kind that is not for a switch, or
    ///   names a node that the rack hasn't; at an active switch for the next command where it seals
    ///   towards the switch itself or in another epoch than the next, and for a part of a later epoch,
    ///   or of its own where it took no command; at another for a part that does not fit those that it
    ///   holds, or would complete what is no state;
    /// - `NotActive` at an idle or sealed switch for what an active one forwards or answers, and at an
    ///   idle one for a command;
    /// - `Skipped` for a command of another number than the last and, at an active switch, the next;
    ///   `OldPart` and `HasPart` for a part of an earlier epoch and one that is held;
    /// - `Stale` and `Exhausted` by the stamps, and `VoidSkipped` where the void is not of its client's
    ///   last stamp.
    pub fn step(&mut self, bytes: &[u8], pick: u64, post: &mut Post) -> SwitchDid
        requires format { post.old.format ≡ self.old.rack.format }
        requires room { length post.old.items + parts_most self.old.rack.format ≤ post.old.slots }
        ensures answer { result ≡ (switch_on_bytes self.old bytes.now pick).did }
        ensures after { self.new ≡ (switch_on_bytes self.old bytes.now pick).state }
        ensures sent { post.new ≡ posted post.old (switch_on_bytes self.old bytes.now pick).sent }
        ensures packets { are_packets self.old.rack.format
            (switch_on_bytes self.old bytes.now pick).sent ≡ true }
        ensures nodes { are_in_rack self.old.rack
            (switch_on_bytes self.old bytes.now pick).sent ≡ true }
        ensures few { length (switch_on_bytes self.old bytes.now pick).sent ≤ parts_most self.old.rack.format }
        ensures rack { self.new.rack ≡ self.old.rack }
        ensures id { self.new.id ≡ self.old.id }
    {
        let Some((format, packet)) = decode(bytes) else {
            return SwitchDid::Malformed;
        };
        if format != self.config().format() {
            return SwitchDid::OutOfPlace;
        }
        self.take(bytes, &packet, pick, post)
    }
}

impl Switch {
    /// Takes a packet of the rack's format that `decode` has read from the bytes, as `step` does.
    #[tactic(auto, using(crate::proofs::Lasting::rack_stays, crate::proofs::Lasting::id_stays, crate::proofs::Steps::not_taken, crate::proofs::Steps::unsent, crate::proofs::Steps::idle_does, crate::proofs::Steps::sealed_does))]
    pub fn take(
        &mut self,
        bytes: &[u8],
        packet: &Packet<'_>,
        pick: u64,
        post: &mut Post,
    ) -> SwitchDid
        requires format { post.old.format ≡ self.old.rack.format }
        requires room { length post.old.items + parts_most self.old.rack.format ≤ post.old.slots }
        requires range { in_range self.old.rack.format (seen packet.now) ≡ true }
        requires spelled { bytes.now ≡ spelling self.old.rack.format (seen packet.now) }
        ensures answer { result ≡ (switch_step self.old (seen packet.now) pick).did }
        ensures after { self.new ≡ (switch_step self.old (seen packet.now) pick).state }
        ensures sent { post.new ≡ posted post.old
            (switch_step self.old (seen packet.now) pick).sent }
        ensures packets { are_packets self.old.rack.format
            (switch_step self.old (seen packet.now) pick).sent ≡ true }
        ensures nodes { are_in_rack self.old.rack
            (switch_step self.old (seen packet.now) pick).sent ≡ true }
        ensures few { length (switch_step self.old (seen packet.now) pick).sent ≤ parts_most self.old.rack.format }
        ensures rack { self.new.rack ≡ self.old.rack }
        ensures id { self.new.id ≡ self.old.id }
    {
        if !self.takes(packet) {
            return SwitchDid::OutOfPlace;
        }
        takes_a_state_over();
        match &self.mode {
            Mode::Active => self.pass(bytes, packet, pick, post),
            Mode::Idle => self.collect(packet, post),
            Mode::Sealed { target } => {
                let target = *target;
                self.hand_over(target, packet, post)
            }
        }
    }
}

impl Switch {
    /// Whether the packet's kind is for a switch and its numbers are in the rack.
    fn takes(&self, packet: &Packet<'_>) -> bool
        ensures { result ≡ switch_takes self.now.rack (seen packet.now) }
    {
        let rack = self.config();
        match packet {
            Packet::Read { client, .. } | Packet::Write { client, .. } => rack.has_client(*client),
            Packet::ReadReply { header, .. }
            | Packet::WriteReply { header, .. }
            | Packet::Void { header, .. } => {
                rack.has_client(header.client)
                    && rack.has_server(header.server)
                    && rack.has_switch(header.switch)
            }
            Packet::Held { server, .. } => rack.has_server(*server),
            Packet::Command { what, .. } => self.has_nodes_of(what),
            Packet::Part { .. } | Packet::Survey => true,
            _ => false,
        }
    }

    /// Whether the nodes that a command names are in the rack.
    fn has_nodes_of(&self, what: &What<'_>) -> bool
        ensures { result ≡ what_in_rack self.now.rack (what_seen what.now) }
    {
        match what {
            What::Copy { target, .. } => self.config().has_server(*target),
            What::Seal { target, .. } => self.config().has_switch(*target),
            _ => true,
        }
    }

    /// Whether the packet is out of place at an active switch, though it is for a switch.
    #[tactic(auto, unfolding(peg_model::specs::Packet::in_range))]
    fn is_misplaced(&self, packet: &Packet<'_>) -> bool
        requires active { self.now.mode ≡ Active }
        requires range { in_range self.now.rack.format (seen packet.now) ≡ true }
        ensures { result ≡ is_misplaced self.now (seen packet.now) }
    {
        match packet {
            Packet::Command { number, what } => self.is_misplaced_seal(*number, what),
            Packet::Part { epoch, .. } => {
                self.epoch < *epoch || (*epoch == self.epoch && self.last == 0)
            }
            _ => false,
        }
    }

    /// Whether the command is the next one and seals towards this switch, or in another epoch than
    /// the next.
    fn is_misplaced_seal(&self, number: u64, what: &What<'_>) -> bool
        requires active { self.now.mode ≡ Active }
        requires number { is_positive number ≡ true }
        requires range { what_in_range self.now.rack.format (what_seen what.now) ≡ true }
        ensures { result ≡ is_misplaced self.now (Command number (what_seen what.now)) }
    {
        match what {
            What::Seal { target, epoch } => {
                number - 1 == self.last && (*target == self.id || epoch - 1 != self.epoch)
            }
            _ => false,
        }
    }

    /// Takes a packet that is for this switch while it is active.
    #[tactic(auto, using(crate::proofs::Steps::active_does, crate::proofs::Steps::misplaced, crate::proofs::Steps::unsent))]
    fn pass(&mut self, bytes: &[u8], packet: &Packet<'_>, pick: u64, post: &mut Post) -> SwitchDid
        requires format { post.old.format ≡ self.old.rack.format }
        requires room { length post.old.items + parts_most self.old.rack.format ≤ post.old.slots }
        requires active { self.old.mode ≡ Active }
        requires range { in_range self.old.rack.format (seen packet.now) ≡ true }
        requires spelled { bytes.now ≡ spelling self.old.rack.format (seen packet.now) }
        requires taken { switch_takes self.old.rack (seen packet.now) ≡ true }
        ensures answer { result ≡ (switch_step self.old (seen packet.now) pick).did }
        ensures after { self.new ≡ (switch_step self.old (seen packet.now) pick).state }
        ensures sent { post.new ≡ posted post.old
            (switch_step self.old (seen packet.now) pick).sent }
        ensures packets { are_packets self.old.rack.format
            (switch_step self.old (seen packet.now) pick).sent ≡ true }
        ensures nodes { are_in_rack self.old.rack
            (switch_step self.old (seen packet.now) pick).sent ≡ true }
        ensures few { length (switch_step self.old (seen packet.now) pick).sent ≤ parts_most self.old.rack.format }
    {
        if self.is_misplaced(packet) {
            return SwitchDid::OutOfPlace;
        }
        self.serve(bytes, packet, pick, post)
    }

    /// Serves a packet that is in place at this active switch.
    #[tactic(auto, unfolding(peg_model::specs::Packet::in_range))]
    fn serve(&mut self, bytes: &[u8], packet: &Packet<'_>, pick: u64, post: &mut Post) -> SwitchDid
        requires format { post.old.format ≡ self.old.rack.format }
        requires room { length post.old.items + parts_most self.old.rack.format ≤ post.old.slots }
        requires active { self.old.mode ≡ Active }
        requires range { in_range self.old.rack.format (seen packet.now) ≡ true }
        requires spelled { bytes.now ≡ spelling self.old.rack.format (seen packet.now) }
        requires taken { switch_takes self.old.rack (seen packet.now) ≡ true }
        requires placed { is_misplaced self.old (seen packet.now) ≡ false }
        ensures answer { result ≡ (active_step self.old (seen packet.now) pick).did }
        ensures after { self.new ≡ (active_step self.old (seen packet.now) pick).state }
        ensures sent { post.new ≡ posted post.old
            (active_step self.old (seen packet.now) pick).sent }
        ensures packets { are_packets self.old.rack.format
            (active_step self.old (seen packet.now) pick).sent ≡ true }
        ensures nodes { are_in_rack self.old.rack
            (active_step self.old (seen packet.now) pick).sent ≡ true }
        ensures few { length (active_step self.old (seen packet.now) pick).sent ≤ parts_most self.old.rack.format }
    {
        prove!(self.config().servers() > 0);
        match packet {
            Packet::Read { client, seq, key } => self.on_read(*client, *seq, key, pick, post),
            Packet::Write {
                client,
                seq,
                key,
                content,
            } => self.on_write(*client, *seq, key, *content, pick, post),
            Packet::ReadReply {
                header,
                version,
                key,
                ..
            }
            | Packet::WriteReply {
                header,
                version,
                key,
            } => {
                fits_a_datagram();
                post.forward(Node::Client(header.client), bytes);
                self.on_reply(header, *version, key)
            }
            Packet::Void {
                header,
                version,
                ..
            } => self.on_void(header.client, header.seq, *version),
            Packet::Held {
                server,
                version,
                key,
            } => self.on_held(*server, *version, key),
            Packet::Command { number, what } => self.on_command(*number, what, post),
            Packet::Part { epoch, .. } if *epoch == self.epoch => self.repeat(post),
            Packet::Part { epoch, .. } => SwitchDid::OldPart { epoch: *epoch },
            Packet::Survey => self.on_survey(post),
            _ => SwitchDid::OutOfPlace,
        }
    }
}
