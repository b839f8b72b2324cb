//! What a controller sends.

ghost use Rattle.std.specs.Prelude.{◌≡◌, ◌+◌, ◌-◌, ◌<◌, ◌≤◌, ◌^◌, ◌∷◌, [], Some, length, true};
ghost use Rattle.peg_name.specs.declared.Node.TheVariants as node;
ghost use Rattle.peg_model.specs.Packet as model;
ghost use Rattle.peg_model.specs.Packet.{in_range};
ghost use Rattle.peg_model.specs.Controller.{what_of, command_packet, announces, announced};
ghost use Rattle.peg_model.specs.Datagrams.{are_packets};
ghost use Rattle.peg_packet.specs.Nodes.{are_in_rack};
ghost use Rattle.peg_packet.specs.Seen.{what_seen};
ghost use Rattle.peg_packet.specs.Outbox.{posted};
ghost use Rattle.peg_control.specs.Fits.{is_keyed};
ghost use Rattle.peg_control.specs.Orders.{pending_packets};

use crate::Controller;
use peg_event::{Command, Outcome};
use peg_name::{ClientId, Config, Node, SwitchId};
use peg_packet::{Packet, Post, What};

impl Controller {
    /// Sends the pending command to the active switch.
    pub(crate) fn send(&self, command: &Command, post: &mut Post)
        requires pending { self.now.pending ≡ Some command.now }
        requires format { post.old.format ≡ self.now.rack.format }
        requires room { length post.old.items < post.old.slots }
        ensures sent { post.new ≡ posted post.old (command_packet self.now command.now ∷ []) }
        ensures packets { are_packets self.now.rack.format
            (command_packet self.now command.now ∷ []) ≡ true }
        ensures nodes { are_in_rack self.now.rack
            (command_packet self.now command.now ∷ []) ≡ true }
    {
        prove!(self.config.servers() <= 64);
        let packets = [Packet::Command {
            number: self.orders.last(),
            what: what_of(self.epoch, command),
        }];
        post.put(Node::Switch(self.switch), &packets[0]);
    }

    /// Sends the pending command, if there is one.
    pub(crate) fn send_pending(&self, post: &mut Post)
        requires format { post.old.format ≡ self.now.rack.format }
        requires room { length post.old.items < post.old.slots }
        ensures sent { post.new ≡ posted post.old (pending_packets self.now) }
        ensures packets { are_packets self.now.rack.format (pending_packets self.now) ≡ true }
        ensures nodes { are_in_rack self.now.rack (pending_packets self.now) ≡ true }
    {
        if let Some(command) = self.orders.pending() {
            self.send(&command, post);
        }
    }

    /// Tells every client which switch is the active one.
    pub(crate) fn announce(&self, post: &mut Post)
        requires format { post.old.format ≡ self.now.rack.format }
        requires room { length post.old.items + self.now.rack.clients ≤ post.old.slots }
        ensures sent { post.new
            ≡ posted post.old (announces self.now.rack self.now.epoch self.now.switch) }
        ensures packets { are_packets self.now.rack.format
            (announces self.now.rack self.now.epoch self.now.switch) ≡ true }
        ensures nodes { are_in_rack self.now.rack
            (announces self.now.rack self.now.epoch self.now.switch) ≡ true }
    {
        prove!(self.config.switches() <= 4);
        prove!(self.orders.last() < u64::MAX);
        tell_all(&self.config, self.epoch, self.switch, post);
    }

    pub(crate) fn announce_if_activated(&self, outcome: &Outcome, post: &mut Post)
        requires format { post.old.format ≡ self.now.rack.format }
        requires room { length post.old.items + self.now.rack.clients ≤ post.old.slots }
        ensures sent { post.new ≡ posted post.old
            (announced self.now.rack self.now outcome.now) }
        ensures packets { are_packets self.now.rack.format
            (announced self.now.rack self.now outcome.now) ≡ true }
        ensures nodes { are_in_rack self.now.rack
            (announced self.now.rack self.now outcome.now) ≡ true }
    {
        if let Outcome::Activated(_) = outcome {
            self.announce(post);
        }
    }
}

/// What a command says to a switch. A handover names the next epoch.
fn what_of(epoch: u64, command: &Command) -> What<'_>
    requires { epoch < 2 ^ 64 - 1 }
    ensures is { what_seen result ≡ what_of epoch command.now }
    ensures keyed { is_keyed command.now ≡ true }
{
    match command {
        Command::Promote { key } => What::Promote { key: key.bytes() },
        Command::Demote { key } => What::Demote { key: key.bytes() },
        Command::Copy { key, target } => What::Copy {
            target: *target,
            key: key.bytes(),
        },
        Command::Fence { key } => What::Fence { key: key.bytes() },
        Command::Handover { target } => What::Seal {
            target: *target,
            epoch: epoch + 1,
        },
        Command::Clear => What::Clear,
    }
}

/// Tells every client, in rising order, which switch is the active one.
#[tactic(auto, using(crate::proofs::Sending::are_announces))]
fn tell_all(config: &Config, epoch: u64, switch: SwitchId, post: &mut Post)
    requires room { length post.old.items + config.now.clients ≤ post.old.slots }
    requires range { in_range post.old.format (model.Announce epoch switch) ≡ true }
    ensures sent { post.new ≡ posted post.old (announces config.now epoch switch) }
    ensures packets { are_packets post.old.format (announces config.now epoch switch) ≡ true }
{
    let packets = [Packet::Announce { epoch, switch }];
    for client in 0..config.clients() {
        post.put(Node::Client(ClientId(client as u16)), &packets[0]);
    }
}
