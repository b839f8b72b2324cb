//! What a controller orders.

ghost use Rattle.std.specs.Prelude.{◌≡◌, ◌≤◌, ◌<◌, length, true};
ghost use Rattle.peg_event.specs.declared.Command.TheVariants as command;
ghost use Rattle.peg_model.specs.Controller.{order_command, no_such, is_handover_to};
ghost use Rattle.peg_model.specs.Datagrams.{are_packets};
ghost use Rattle.peg_packet.specs.Nodes.{are_in_rack};
ghost use Rattle.peg_packet.specs.Outbox.{posted};

use crate::{Controller, Order};
use peg_event::Command;
use peg_name::{Config, Key, ServerId, SwitchId};
use peg_packet::Post;

impl Controller {
    /// Orders a command: it gets the next number and goes to the active switch, one packet at most.
    /// `Busy` where a command is pending, else `Spent` where no number is left: the last one is then
    /// 18446744073709551614; else `NoSuch` where the rack hasn't the server of a copy or the switch
    /// of a handover, and else `SameSwitch` where a handover is to the active switch. Then nothing
    /// changes.
    #[tactic(auto, using(crate::proofs::Nodes::few_ordered))]
    pub fn order(&mut self, command: &Command, post: &mut Post) -> Order
        requires format { post.old.format ≡ self.old.rack.format }
        requires room { length post.old.items < post.old.slots }
        ensures answer { result ≡ (order_command self.old command.now).did }
        ensures after { self.new ≡ (order_command self.old command.now).state }
        ensures sent { post.new ≡ posted post.old (order_command self.old command.now).sent }
        ensures packets { are_packets self.old.rack.format
            (order_command self.old command.now).sent ≡ true }
        ensures nodes { are_in_rack self.old.rack (order_command self.old command.now).sent ≡ true }
        ensures few { length (order_command self.old command.now).sent ≤ 1 }
        ensures rack { self.new.rack ≡ self.old.rack }
    {
        let last = self.orders.last();
        if self.orders.is_pending() {
            return Order::Busy { pending: last };
        }
        if last == u64::MAX - 1 {
            return Order::Spent { last };
        }
        if let Some(target) = no_such(&self.config, command) {
            return Order::NoSuch { target };
        }
        if is_handover_to(self.switch, command) {
            return Order::SameSwitch {
                switch: self.switch,
            };
        }
        self.orders.begin(command);
        self.send(command, post);
        Order::Sent { number: last + 1 }
    }

    /// Orders `Command::Promote`, as `order` does: the key is to be listed.
    pub fn promote(&mut self, key: &Key, post: &mut Post) -> Order
        requires format { post.old.format ≡ self.old.rack.format }
        requires room { length post.old.items < post.old.slots }
        ensures answer { result ≡ (order_command self.old (command.Promote key.now)).did }
        ensures after { self.new ≡ (order_command self.old (command.Promote key.now)).state }
        ensures sent { post.new ≡ posted post.old
            (order_command self.old (command.Promote key.now)).sent }
        ensures packets { are_packets self.old.rack.format
            (order_command self.old (command.Promote key.now)).sent ≡ true }
        ensures nodes { are_in_rack self.old.rack
            (order_command self.old (command.Promote key.now)).sent ≡ true }
        ensures few { length (order_command self.old (command.Promote key.now)).sent ≤ 1 }
        ensures rack { self.new.rack ≡ self.old.rack }
    {
        self.order(&Command::Promote { key: *key }, post)
    }

    /// Orders `Command::Demote`, as `order` does: the key's entry is to be marked.
    pub fn demote(&mut self, key: &Key, post: &mut Post) -> Order
        requires format { post.old.format ≡ self.old.rack.format }
        requires room { length post.old.items < post.old.slots }
        ensures answer { result ≡ (order_command self.old (command.Demote key.now)).did }
        ensures after { self.new ≡ (order_command self.old (command.Demote key.now)).state }
        ensures sent { post.new ≡ posted post.old
            (order_command self.old (command.Demote key.now)).sent }
        ensures packets { are_packets self.old.rack.format
            (order_command self.old (command.Demote key.now)).sent ≡ true }
        ensures nodes { are_in_rack self.old.rack
            (order_command self.old (command.Demote key.now)).sent ≡ true }
        ensures few { length (order_command self.old (command.Demote key.now)).sent ≤ 1 }
        ensures rack { self.new.rack ≡ self.old.rack }
    {
        self.order(&Command::Demote { key: *key }, post)
    }

    /// Orders `Command::Copy`, as `order` does: the key is to be copied to a server. It is `NoSuch`
    /// where the rack hasn't that server.
    pub fn copy(&mut self, key: &Key, target: u8, post: &mut Post) -> Order
        requires format { post.old.format ≡ self.old.rack.format }
        requires room { length post.old.items < post.old.slots }
        ensures answer { result ≡ (order_command self.old (command.Copy key.now target)).did }
        ensures after { self.new ≡ (order_command self.old (command.Copy key.now target)).state }
        ensures sent { post.new ≡ posted post.old
            (order_command self.old (command.Copy key.now target)).sent }
        ensures packets { are_packets self.old.rack.format
            (order_command self.old (command.Copy key.now target)).sent ≡ true }
        ensures nodes { are_in_rack self.old.rack
            (order_command self.old (command.Copy key.now target)).sent ≡ true }
        ensures few { length (order_command self.old (command.Copy key.now target)).sent ≤ 1 }
        ensures rack { self.new.rack ≡ self.old.rack }
    {
        let target = ServerId(target);
        self.order(&Command::Copy { key: *key, target }, post)
    }

    /// Orders `Command::Fence`, as `order` does: the key's home is to hold the content at the version
    /// of the key's promotion.
    pub fn fence(&mut self, key: &Key, post: &mut Post) -> Order
        requires format { post.old.format ≡ self.old.rack.format }
        requires room { length post.old.items < post.old.slots }
        ensures answer { result ≡ (order_command self.old (command.Fence key.now)).did }
        ensures after { self.new ≡ (order_command self.old (command.Fence key.now)).state }
        ensures sent { post.new ≡ posted post.old
            (order_command self.old (command.Fence key.now)).sent }
        ensures packets { are_packets self.old.rack.format
            (order_command self.old (command.Fence key.now)).sent ≡ true }
        ensures nodes { are_in_rack self.old.rack
            (order_command self.old (command.Fence key.now)).sent ≡ true }
        ensures few { length (order_command self.old (command.Fence key.now)).sent ≤ 1 }
        ensures rack { self.new.rack ≡ self.old.rack }
    {
        self.order(&Command::Fence { key: *key }, post)
    }

    /// Orders `Command::Handover`, as `order` does: the active switch is to hand its state over to
    /// another. It is `NoSuch` where the rack hasn't that switch, and `SameSwitch` where it is the
    /// active one.
    pub fn handover(&mut self, target: u8, post: &mut Post) -> Order
        requires format { post.old.format ≡ self.old.rack.format }
        requires room { length post.old.items < post.old.slots }
        ensures answer { result ≡ (order_command self.old (command.Handover target)).did }
        ensures after { self.new ≡ (order_command self.old (command.Handover target)).state }
        ensures sent { post.new ≡ posted post.old
            (order_command self.old (command.Handover target)).sent }
        ensures packets { are_packets self.old.rack.format
            (order_command self.old (command.Handover target)).sent ≡ true }
        ensures nodes { are_in_rack self.old.rack
            (order_command self.old (command.Handover target)).sent ≡ true }
        ensures few { length (order_command self.old (command.Handover target)).sent ≤ 1 }
        ensures rack { self.new.rack ≡ self.old.rack }
    {
        let target = SwitchId(target);
        self.order(&Command::Handover { target }, post)
    }

    /// Orders `Command::Clear`, as `order` does: the active switch is to empty its counts.
    pub fn clear(&mut self, post: &mut Post) -> Order
        requires format { post.old.format ≡ self.old.rack.format }
        requires room { length post.old.items < post.old.slots }
        ensures answer { result ≡ (order_command self.old command.Clear).did }
        ensures after { self.new ≡ (order_command self.old command.Clear).state }
        ensures sent { post.new ≡ posted post.old (order_command self.old command.Clear).sent }
        ensures packets { are_packets self.old.rack.format
            (order_command self.old command.Clear).sent ≡ true }
        ensures nodes { are_in_rack self.old.rack
            (order_command self.old command.Clear).sent ≡ true }
        ensures few { length (order_command self.old command.Clear).sent ≤ 1 }
        ensures rack { self.new.rack ≡ self.old.rack }
    {
        self.order(&Command::Clear, post)
    }
}

/// The target of a copy or a handover that the rack hasn't.
fn no_such(config: &Config, command: &Command) -> Option<u8>
    ensures { result ≡ no_such config.now command.now }
{
    match command {
        Command::Copy { target, .. } if !config.has_server(*target) => Some(target.0),
        Command::Handover { target } if !config.has_switch(*target) => Some(target.0),
        _ => None,
    }
}

fn is_handover_to(switch: SwitchId, command: &Command) -> bool
    ensures { result ≡ is_handover_to switch command.now }
{
    match command {
        Command::Handover { target } => *target == switch,
        _ => false,
    }
}
