//! The controller of a rack: it orders numbered commands, one at a time, follows their
//! acknowledgements, and plans which keys the switch is to list.
#![tactic(auto)]

ghost use Rattle.std.specs.Prelude.{◌≡◌, ◌≤◌, ◌<◌, ◌+◌, IfOk, length, true};
ghost use Rattle.std.specs.Option.{option_map};
ghost use Rattle.peg_model.specs.Packet.{in_range};
ghost use Rattle.peg_model.specs.Controller.{new_controller, retry_command, survey, make_plan};
ghost use Rattle.peg_model.specs.Controller.{controller_step};
ghost use Rattle.peg_model.specs.Datagrams.{controller_on_bytes, are_packets};
ghost use Rattle.peg_packet.specs.Nodes.{are_in_rack};
ghost use Rattle.peg_packet.specs.Seen.{seen};
ghost use Rattle.peg_packet.specs.Outbox.{posted};

use known::Known;
use orders::Orders;
pub use peg_event::{ControlDid, Order, Plan, Retry};
use peg_name::{Config, Key, Node, OutOfMemory, SwitchId};
use peg_packet::{Packet, Post, decode, outcome_of};
use report::Report;
use std::alloc::Global;
use std::marker::Model;

mod commands;
mod known;
mod orders;
mod outcomes;
mod plans;
mod report;
mod send;

/// What a controller knows of its rack: the active switch and its epoch, the listed keys and the
/// last report; and the commands that it orders. Its room is taken when it is made, so no later
/// call takes memory. Each packet that it sends goes to a node of the rack, and each switch that it
/// announces is one of the rack.
#[derive(Drop)]
pub struct Controller {
    config: Config,
    orders: Orders,
    switch: SwitchId,
    epoch: u64,
    known: Known,
    has_report: bool,
    report: Report,
}

impl Model for Controller {
    ghost use Rattle.std.specs.Prelude.{if◌then◌else◌, Some, None};
    ghost use Rattle.peg_model.specs.Controller.{Controller as TheController};
    ghost use Rattle.peg_control.specs.Fits.{IsController};

    ghost Value = { TheController };

    ghost view = { λ c. record {
      rack = c.config;
      last = c.orders.last;
      pending = c.orders.pending;
      switch = c.switch;
      epoch = c.epoch;
      known = c.known;
      report = if c.has_report then Some c.report else None;
      queue = c.orders.queue;
    } };

    ghost invariant = { λ c. IsController (record {
      rack = c.config;
      last = c.orders.last;
      pending = c.orders.pending;
      switch = c.switch;
      epoch = c.epoch;
      known = c.known;
      report = if c.has_report then Some c.report else None;
      queue = c.orders.queue;
    }) };
}

impl Controller {
    /// A controller of the rack that has ordered nothing. Switch 0 is active in epoch 1, and these
    /// keys are listed, of which there are at most as many as the rack lists. `OutOfMemory` where
    /// there is no memory for the most keys, commands and rows that it may ever keep.
    pub fn make(alloc: Global, config: &Config, keys: &[Key]) -> Result<Controller, OutOfMemory>
        requires { length keys.now ≤ config.now.listed }
        ensures { IfOk result (λ c. c ≡ new_controller config.now keys.now) }
    {
        prove!(config.listed() <= 64 && config.switches() >= 1);
        Ok(Controller {
            config: *config,
            orders: Orders::make(alloc)?,
            switch: SwitchId(0),
            epoch: 1,
            known: Known::make(alloc, keys)?,
            has_report: false,
            report: Report::make(alloc)?,
        })
    }

    /// The rack that it is the controller of.
    pub fn config(&self) -> &Config
        ensures { result.now ≡ self.now.rack }
    {
        &self.config
    }

    /// The number of the pending command.
    pub fn pending(&self) -> Option<u64>
        ensures { result ≡ option_map (λ _. self.now.last) self.now.pending }
    {
        self.orders.pending().map(|_| self.orders.last())
    }

    /// The epoch of the active switch, from 1 on.
    pub fn epoch(&self) -> u64
        ensures { result ≡ self.now.epoch }
    {
        self.epoch
    }

    /// The active switch.
    pub fn current(&self) -> SwitchId
        ensures { result ≡ self.now.switch }
    {
        self.switch
    }
}

impl Controller {
    /// Sends the pending command again; where none is pending, tells every client of the rack again
    /// which switch is the active one.
    #[tactic(auto, using(crate::proofs::Nodes::few_retried))]
    pub fn retry(&mut self, post: &mut Post) -> Retry
        requires format { post.old.format ≡ self.old.rack.format }
        requires room { length post.old.items + self.old.rack.clients ≤ post.old.slots }
        ensures answer { result ≡ (retry_command self.old).did }
        ensures after { self.new ≡ (retry_command self.old).state }
        ensures sent { post.new ≡ posted post.old (retry_command self.old).sent }
        ensures packets { are_packets self.old.rack.format (retry_command self.old).sent ≡ true }
        ensures nodes { are_in_rack self.old.rack (retry_command self.old).sent ≡ true }
        ensures few { length (retry_command self.old).sent ≤ self.old.rack.clients }
        ensures rack { self.new.rack ≡ self.old.rack }
    {
        prove!(self.config.clients() >= 1);
        let Some(command) = self.orders.pending() else {
            self.announce(post);
            return Retry::Announced { epoch: self.epoch };
        };
        self.send(&command, post);
        Retry::Command {
            number: self.orders.last(),
        }
    }

    /// Asks the active switch for a report.
    #[tactic(auto, unfolding(peg_model::specs::Packet::in_range))]
    pub fn survey(&mut self, post: &mut Post)
        requires format { post.old.format ≡ self.old.rack.format }
        requires room { length post.old.items < post.old.slots }
        ensures after { self.new ≡ (survey self.old).state }
        ensures sent { post.new ≡ posted post.old (survey self.old).sent }
        ensures packets { are_packets self.old.rack.format (survey self.old).sent ≡ true }
        ensures nodes { are_in_rack self.old.rack (survey self.old).sent ≡ true }
        ensures few { length (survey self.old).sent ≤ 1 }
        ensures rack { self.new.rack ≡ self.old.rack }
    {
        let packets = [Packet::Survey];
        post.put(Node::Switch(self.switch), &packets[0]);
    }

    /// Orders by the last report: a demotion of each known key that it has no row of, or one of a
    /// count below `demote_below`, and then a promotion of each key that isn't known and surely was
    /// asked for `promote_at` times, the hottest first; 64 commands at most. The first is sent, and
    /// the others wait for its acknowledgement. `Busy` where a command is pending, else `Spent`
    /// where fewer than 64 numbers are left, else `NoReport` where none was taken; then nothing
    /// changes.
    #[tactic(auto, using(crate::proofs::Nodes::few_planned))]
    pub fn plan(&mut self, promote_at: u64, demote_below: u64, post: &mut Post) -> Plan
        requires format { post.old.format ≡ self.old.rack.format }
        requires room { length post.old.items < post.old.slots }
        ensures answer { result ≡ (make_plan self.old promote_at demote_below).did }
        ensures after { self.new ≡ (make_plan self.old promote_at demote_below).state }
        ensures sent { post.new ≡ posted post.old
            (make_plan self.old promote_at demote_below).sent }
        ensures packets { are_packets self.old.rack.format
            (make_plan self.old promote_at demote_below).sent ≡ true }
        ensures nodes { are_in_rack self.old.rack
            (make_plan self.old promote_at demote_below).sent ≡ true }
        ensures few { length (make_plan self.old promote_at demote_below).sent ≤ 1 }
        ensures rack { self.new.rack ≡ self.old.rack }
    {
        let last = self.orders.last();
        if self.orders.is_pending() {
            return Plan::Busy { pending: last };
        }
        if last > u64::MAX - 65 {
            return Plan::Spent { last };
        }
        if !self.has_report {
            return Plan::NoReport;
        }
        prove!(self.config.listed() <= 64);
        let (demotes, promotes) = plans::wait_all(
            &mut self.orders,
            &self.known,
            &self.report,
            promote_at,
            demote_below,
        );
        self.orders.begin_next();
        self.send_pending(post);
        Plan::Planned {
            demotes: demotes as u64,
            promotes: promotes as u64,
        }
    }
}

impl Controller {
    /// Takes any bytes. An acknowledgement of the pending command ends that one, and the next one
    /// that waits is sent; a handover that is done is announced to every client first. Each packet
    /// goes to a node of the rack, and there is one more than clients at most. A report takes the
    /// place of the last one. It is `Malformed` where no packet is spelled by the bytes;
    /// `OutOfPlace` where the packet is of the other format or of another kind; `Ignored` where the
    /// number isn't that of the pending command; and `OutOfPlace` where the outcome can't be that of
    /// the pending command, or lists a key where as many are known as the rack lists. Then nothing
    /// changes.
    #[tactic(auto, unfolding(peg_model::specs::Controller::controller_step), using(crate::proofs::Nodes::few_on_bytes))]
    pub fn step(&mut self, bytes: &[u8], post: &mut Post) -> ControlDid
        requires format { post.old.format ≡ self.old.rack.format }
        requires room { length post.old.items + self.old.rack.clients < post.old.slots }
        ensures answer { result ≡ (controller_on_bytes self.old bytes.now).did }
        ensures after { self.new ≡ (controller_on_bytes self.old bytes.now).state }
        ensures sent { post.new ≡ posted post.old (controller_on_bytes self.old bytes.now).sent }
        ensures packets { are_packets self.old.rack.format
            (controller_on_bytes self.old bytes.now).sent ≡ true }
        ensures nodes { are_in_rack self.old.rack
            (controller_on_bytes self.old bytes.now).sent ≡ true }
        ensures few { length (controller_on_bytes self.old bytes.now).sent
            ≤ self.old.rack.clients + 1 }
        ensures rack { self.new.rack ≡ self.old.rack }
    {
        let Some((format, packet)) = decode(bytes) else {
            return ControlDid::Malformed;
        };
        if format != self.config.format() {
            return ControlDid::OutOfPlace;
        }
        self.take(&packet, post)
    }

    #[tactic(auto, unfolding(peg_model::specs::Controller::controller_step, peg_model::specs::Packet::in_range))]
    fn take(&mut self, packet: &Packet<'_>, post: &mut Post) -> ControlDid
        requires format { post.old.format ≡ self.old.rack.format }
        requires room { length post.old.items + self.old.rack.clients < post.old.slots }
        requires range { in_range self.old.rack.format (seen packet.now) ≡ true }
        ensures answer { result ≡ (controller_step self.old (seen packet.now)).did }
        ensures after { self.new ≡ (controller_step self.old (seen packet.now)).state }
        ensures sent { post.new ≡ posted post.old
            (controller_step self.old (seen packet.now)).sent }
        ensures packets { are_packets self.old.rack.format
            (controller_step self.old (seen packet.now)).sent ≡ true }
        ensures nodes { are_in_rack self.old.rack
            (controller_step self.old (seen packet.now)).sent ≡ true }
        ensures rack { self.new.rack ≡ self.old.rack }
    {
        match packet {
            Packet::CommandAck {
                number,
                outcome,
                value,
            } => self.acknowledge(*number, &outcome_of(*outcome, *value), post),
            Packet::Report { rows, .. } => {
                self.report.take(rows);
                self.has_report = true;
                ControlDid::HasReport {
                    rows: rows.len() as u8,
                }
            }
            _ => ControlDid::OutOfPlace,
        }
    }
}
