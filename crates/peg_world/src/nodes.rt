//! The nodes of a rack, of which one acts at a time, and the outbox that they share.
ghost use Rattle.std.specs.Prelude.{◌≡◌, ◌≤◌, ◌<◌, ◌+◌, ◌++◌, [], length, map, true, slice_get, Some};
ghost use Rattle.std.specs.Prelude.{IfOk, OnOk, OnErr, IsOk};
ghost use Rattle.std.specs.List.{AllByRecursion};
ghost use Rattle.peg_name.specs.Name.{parts_most};
ghost use Rattle.peg_client.specs.Fits.{ask_fits};
ghost use Rattle.peg_model.specs.Packet.{are_distinct};
ghost use Rattle.peg_model.specs.Reading.{packet_of};
ghost use Rattle.peg_model.specs.Rules.{base_of};
ghost use Rattle.peg_model.specs.Client as client;
ghost use Rattle.peg_model.specs.Server.{server_step};
ghost use Rattle.peg_model.specs.Switch.{switch_step};
ghost use Rattle.peg_model.specs.Controller as controller;
ghost use Rattle.peg_packet.specs.Nodes.{announces_in};
ghost use Rattle.peg_world.specs.Acting.{acting, client_at, server_at, switch_at, packet_read};
ghost use Rattle.peg_world.specs.Acting.{client_acts, server_acts, switch_acts, controller_acts};
ghost use Rattle.peg_world.specs.Sound.{packet_in, IsFlown};

use crate::making;
use peg_client::{Ask, Client, Issue};
use peg_control::{ControlDid, Controller, Order, Plan, Retry};
use peg_event::{ClientDid, Command, ServerDid, SwitchDid};
use peg_grammar::reads_back_what_is_spelled;
use peg_name::{ClientId, Config, Key, OutOfMemory, Seq, ServerId, SwitchId, Version};
use peg_packet::Post;
use peg_pool::Soup;
use peg_server::Server;
use peg_switch::{Switch, most_packets};
use std::alloc::Global;
use std::marker::Model;

/// The nodes of a rack, and what the one that acted last sent. It is taken out before one acts
/// again.
#[derive(Drop)]
pub(crate) struct Nodes {
    config: Config,
    clients: Vec<Client>,
    servers: Vec<Server>,
    switches: Vec<Switch>,
    controller: Controller,
    post: Post,
}

impl Model for Nodes {
    ghost use Rattle.peg_world.specs.Acting.{Acting};

    ghost Value = { Acting };

    ghost use Rattle.peg_world.specs.Sound.{acting_of, IsActing};

    ghost view = { acting_of };

    ghost invariant = { IsActing };
}

impl Nodes {
    /// The nodes at the rack line.
    pub(crate) fn make(alloc: Global, config: &Config, keys: &[Key]) -> Result<Nodes, OutOfMemory>
        requires distinct { are_distinct keys.now ≡ true }
        requires few { length keys.now ≤ config.now.listed }
        ensures { IfOk result (λ nodes. nodes ≡ acting config.now keys.now) }
    {
        let slots = config.clients() as usize + 1;
        Ok(Nodes {
            config: *config,
            clients: making::clients(alloc, config)?,
            servers: making::servers(alloc, config)?,
            switches: making::switches(alloc, config, keys)?,
            controller: Controller::make(alloc, config, keys)?,
            post: Post::make(alloc, config.format(), slots.max(64))?,
        })
    }

    /// The configuration of the rack.
    pub(crate) fn config(&self) -> &Config
        ensures { result.now ≡ self.now.rack }
    {
        &self.config
    }
}

impl Nodes {
    /// A client's operation is to begin.
    pub(crate) fn issue(&mut self, id: ClientId, key: &Key, ask: &Ask<'_>) -> Issue
        requires id { id < self.old.rack.clients }
        requires empty { self.old.sent ≡ [] }
        requires ask { ask_fits self.old.rack.format ask.now ≡ true }
        ensures held { slice_get self.old.clients id ≡ Some (client_at self.old id) }
        ensures named { (client_at self.old id).id ≡ id }
        ensures answer { result
            ≡ (client.begin_operation (client_at self.old id) key.now ask.now).did }
        ensures after { self.new ≡ client_acts self.old
            (client.begin_operation (client_at self.old id) key.now ask.now) }
        ensures few { length self.new.sent ≤ 1 }
    {
        reads_back_what_is_spelled();
        self.clients[id.0 as usize].issue(key, ask, &mut self.post)
    }
}

impl Nodes {
    /// A client's request is to be sent again.
    pub(crate) fn resend(&mut self, id: ClientId) -> Option<Seq>
        requires id { id < self.old.rack.clients }
        requires empty { self.old.sent ≡ [] }
        ensures held { slice_get self.old.clients id ≡ Some (client_at self.old id) }
        ensures named { (client_at self.old id).id ≡ id }
        ensures answer { result ≡ (client.resend (client_at self.old id)).did }
        ensures after { self.new ≡ client_acts self.old (client.resend (client_at self.old id)) }
        ensures few { length self.new.sent ≤ 1 }
    {
        reads_back_what_is_spelled();
        self.clients[id.0 as usize].resend(&mut self.post)
    }

    /// A client's operation is to be given up.
    pub(crate) fn give_up(&mut self, id: ClientId) -> Option<Seq>
        requires id { id < self.old.rack.clients }
        requires empty { self.old.sent ≡ [] }
        ensures held { slice_get self.old.clients id ≡ Some (client_at self.old id) }
        ensures named { (client_at self.old id).id ≡ id }
        ensures answer { result ≡ (client.give_up (client_at self.old id)).did }
        ensures after { self.new ≡ client_acts self.old (client.give_up (client_at self.old id)) }
        ensures few { self.new.sent ≡ [] }
    {
        self.clients[id.0 as usize].give_up()
    }

    /// A packet of the rack is handed to a client.
    pub(crate) fn client<'a>(&mut self, id: ClientId, bytes: &'a [u8]) -> ClientDid<'a>
        requires id { id < self.old.rack.clients }
        requires empty { self.old.sent ≡ [] }
        requires reads { packet_of bytes.now
            ≡ Some (self.old.rack.format, packet_read bytes.now) }
        requires in_rack { announces_in self.old.rack (packet_read bytes.now) ≡ true }
        ensures held { slice_get self.old.clients id ≡ Some (client_at self.old id) }
        ensures named { (client_at self.old id).id ≡ id }
        ensures answer { result
            ≡ (client.client_step (client_at self.old id) (packet_read bytes.entry.now)).did }
        ensures after { self.new ≡ client_acts self.old
            (client.client_step (client_at self.old id) (packet_read bytes.entry.now)) }
        ensures few { self.new.sent ≡ [] }
    {
        self.clients[id.0 as usize].step(bytes)
    }

    /// A packet of the rack is handed to a server.
    pub(crate) fn server(&mut self, id: ServerId, bytes: &[u8]) -> Result<ServerDid, OutOfMemory>
        requires id { id < self.old.rack.servers }
        requires empty { self.old.sent ≡ [] }
        requires reads { packet_of bytes.now
            ≡ Some (self.old.rack.format, packet_read bytes.now) }
        ensures answer { IfOk result (λ did. did
            ≡ (server_step (server_at self.old id) (packet_read bytes.now)).did) }
        ensures after { OnOk result (self.new ≡ server_acts self.old
            (server_step (server_at self.old id) (packet_read bytes.now))) }
        ensures few { OnOk result (length self.new.sent ≤ 1) }
        ensures err { OnErr result (self.new ≡ self.old) }
    {
        reads_back_what_is_spelled();
        self.servers[id.0 as usize].step(bytes, &mut self.post)
    }

    /// A packet of the rack is handed to a switch.
    pub(crate) fn switch(&mut self, id: SwitchId, bytes: &[u8], pick: u64) -> SwitchDid
        requires id { id < self.old.rack.switches }
        requires empty { self.old.sent ≡ [] }
        requires reads { packet_of bytes.now
            ≡ Some (self.old.rack.format, packet_read bytes.now) }
        ensures answer { result
            ≡ (switch_step (switch_at self.old id) (packet_read bytes.now) pick).did }
        ensures after { self.new ≡ switch_acts self.old
            (switch_step (switch_at self.old id) (packet_read bytes.now) pick) }
        ensures few { length self.new.sent ≤ parts_most self.old.rack.format }
        ensures held { switch_at self.new id
            ≡ (switch_step (switch_at self.old id) (packet_read bytes.now) pick).state }
    {
        reads_back_what_is_spelled();
        prove!(most_packets(self.config.format()) <= 64);
        self.switches[id.0 as usize].step(bytes, pick, &mut self.post)
    }

    /// The version that a key's listing took at a switch.
    pub(crate) fn base_of(&self, id: SwitchId, key: &Key) -> Option<Version>
        requires id { id < self.now.rack.switches }
        ensures { result ≡ base_of (switch_at self.now id).entries key.now }
    {
        self.switches[id.0 as usize].base_of(key)
    }
}

impl Nodes {
    /// A packet of the rack is handed to the controller.
    pub(crate) fn controller(&mut self, bytes: &[u8]) -> ControlDid
        requires empty { self.old.sent ≡ [] }
        requires reads { packet_of bytes.now
            ≡ Some (self.old.rack.format, packet_read bytes.now) }
        ensures answer { result
            ≡ (controller.controller_step self.old.controller (packet_read bytes.now)).did }
        ensures after { self.new ≡ controller_acts self.old
            (controller.controller_step self.old.controller (packet_read bytes.now)) }
        ensures few { length self.new.sent ≤ self.old.rack.clients + 1 }
    {
        reads_back_what_is_spelled();
        self.controller.step(bytes, &mut self.post)
    }

    /// The controller is to order a command.
    pub(crate) fn order(&mut self, command: &Command) -> Order
        requires empty { self.old.sent ≡ [] }
        ensures answer { result
            ≡ (controller.order_command self.old.controller command.now).did }
        ensures after { self.new ≡ controller_acts self.old
            (controller.order_command self.old.controller command.now) }
        ensures few { length self.new.sent ≤ 1 }
    {
        reads_back_what_is_spelled();
        self.controller.order(command, &mut self.post)
    }

    /// The controller is to send again what may be lost.
    pub(crate) fn retry(&mut self) -> Retry
        requires empty { self.old.sent ≡ [] }
        ensures answer { result ≡ (controller.retry_command self.old.controller).did }
        ensures after { self.new
            ≡ controller_acts self.old (controller.retry_command self.old.controller) }
        ensures few { length self.new.sent ≤ self.old.rack.clients + 1 }
    {
        reads_back_what_is_spelled();
        self.controller.retry(&mut self.post)
    }

    /// The controller is to ask for a report.
    pub(crate) fn survey(&mut self)
        requires empty { self.old.sent ≡ [] }
        ensures after { self.new
            ≡ controller_acts self.old (controller.survey self.old.controller) }
        ensures few { length self.new.sent ≤ 1 }
    {
        reads_back_what_is_spelled();
        self.controller.survey(&mut self.post);
    }

    /// The controller is to plan by its last report.
    pub(crate) fn plan(&mut self, promote_at: u64, demote_below: u64) -> Plan
        requires empty { self.old.sent ≡ [] }
        ensures answer { result
            ≡ (controller.make_plan self.old.controller promote_at demote_below).did }
        ensures after { self.new ≡ controller_acts self.old
            (controller.make_plan self.old.controller promote_at demote_below) }
        ensures few { length self.new.sent ≤ 1 }
    {
        reads_back_what_is_spelled();
        self.controller
            .plan(promote_at, demote_below, &mut self.post)
    }
}

impl Nodes {
    /// How many packets the node that acted sent.
    pub(crate) fn sent(&self) -> usize
        ensures { result ≡ length self.now.sent }
    {
        self.post.len()
    }

    /// Puts what was sent into flight. It succeeds where there is room.
    #[tactic(auto, using(crate::proofs::Flying::count_of, crate::proofs::Flying::flight_after, crate::proofs::Flying::flown_after, crate::proofs::Each::take_more, crate::proofs::Each::take_all))]
    pub(crate) fn send(&mut self, soup: &mut Soup) -> Result<(), OutOfMemory>
        requires room { length self.old.sent ≤ soup.old.spare }
        requires format { soup.old.format ≡ self.old.rack.format }
        ensures format_after { soup.new.format ≡ soup.old.format }
        ensures after { self.new ≡ record self.old { sent = [] } }
        ensures sent { map packet_in soup.new.items ≡ map packet_in soup.old.items ++ self.old.sent }
        ensures flown { AllByRecursion (IsFlown self.old.rack) soup.old.items
            → AllByRecursion (IsFlown self.old.rack) soup.new.items }
        ensures succeeds { IsOk result }
    {
        for i in 0..self.post.len() {
            let (to, bytes) = self.post.item(i);
            soup.push(to, bytes)?;
        }
        self.post.clear();
        Ok(())
    }
}
