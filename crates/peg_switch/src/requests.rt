//! Requests and replies, at an active switch.

ghost use Rattle.std.specs.Prelude.{◌≡◌, ◌<◌, ◌≤◌, [], ◌∷◌, length, true};
ghost use Rattle.peg_name.specs.declared.Node.TheVariants as node;
ghost use Rattle.peg_event.specs.declared.SwitchDid.TheVariants as did;
ghost use Rattle.peg_model.specs.Packet as model;
ghost use Rattle.peg_model.specs.Packet.{in_range};
ghost use Rattle.peg_model.specs.Rules.{on_void, on_report, read_request, write_request};
ghost use Rattle.peg_model.specs.Switch.{forwards_read, forwards_write, takes_void, core_of};
ghost use Rattle.peg_model.specs.Switch.{counted, with_core, on_reply, on_held};
ghost use Rattle.peg_model.specs.Datagrams.{are_packets};
ghost use Rattle.peg_packet.specs.Seen.{content_seen};
ghost use Rattle.peg_packet.specs.Outbox.{posted};
ghost use Rattle.peg_packet.specs.Nodes.{are_in_rack};

use crate::Switch;
use peg_event::{Forward, SwitchDid};
use peg_name::{ClientId, Node, Seq, ServerId, Version};
use peg_packet::{Header, Packet, Post, key_of};

impl Switch {
    /// The header of what goes on to a server from this switch.
    fn header(&self, client: ClientId, seq: Seq, server: ServerId) -> Header
        ensures { result ≡ record {
          client = client;
          seq = seq;
          server = server;
          switch = self.now.id;
        } }
    {
        Header {
            client,
            seq,
            server,
            switch: self.id,
        }
    }

    /// Counts a read and sends it to the server that the rules name.
    #[tactic(auto, using(crate::proofs::Forwards::read_goes_on))]
    pub(crate) fn on_read(
        &mut self,
        client: ClientId,
        seq: Seq,
        key: &[u8],
        pick: u64,
        post: &mut Post,
    ) -> SwitchDid
        requires format { post.old.format ≡ self.old.rack.format }
        requires room { length post.old.items < post.old.slots }
        requires client { client < self.old.rack.clients }
        requires seq { 1 ≤ seq }
        requires key { model.is_key key.now ≡ true }
        requires range { in_range self.old.rack.format (model.Read client seq key.now) ≡ true }
        ensures answer { result ≡ (forwards_read (read_request (core_of self.old) key.now pick)
            self.old client seq key.now).did }
        ensures after { self.new ≡ (forwards_read (read_request (core_of self.old) key.now pick)
            self.old client seq key.now).state }
        ensures sent { post.new ≡ posted post.old (forwards_read
            (read_request (core_of self.old) key.now pick) self.old client seq key.now).sent }
        ensures packets { are_packets self.old.rack.format (forwards_read
            (read_request (core_of self.old) key.now pick) self.old client seq key.now).sent
            ≡ true }
        ensures nodes { are_in_rack self.old.rack (forwards_read
            (read_request (core_of self.old) key.now pick) self.old client seq key.now).sent
            ≡ true }
        ensures few { length (forwards_read
            (read_request (core_of self.old) key.now pick) self.old client seq key.now).sent ≤ 1 }
    {
        prove!(self.config().servers() > 0);
        let name = key_of(key);
        match self.core.on_request(false, &name, client, seq, pick) {
            Forward::To { server, .. } => {
                let header = self.header(client, seq, server);
                let packets = [Packet::ToServerRead { header, key }];
                post.put(Node::Server(server), &packets[0]);
                self.counts.see(&name);
                SwitchDid::Read { server, key: name }
            }
            Forward::Stale { last } => SwitchDid::Stale { last },
            Forward::Exhausted { next } => SwitchDid::Exhausted { next },
        }
    }

    /// Stamps a write, counts it and sends it to the server that the rules name.
    #[tactic(auto, using(crate::proofs::Forwards::write_goes_on))]
    pub(crate) fn on_write(
        &mut self,
        client: ClientId,
        seq: Seq,
        key: &[u8],
        content: Option<&[u8]>,
        pick: u64,
        post: &mut Post,
    ) -> SwitchDid
        requires format { post.old.format ≡ self.old.rack.format }
        requires room { length post.old.items < post.old.slots }
        requires client { client < self.old.rack.clients }
        requires seq { 1 ≤ seq }
        requires key { model.is_key key.now ≡ true }
        requires range { in_range self.old.rack.format
            (model.Write client seq key.now (content_seen content)) ≡ true }
        ensures answer { result ≡ (forwards_write
            (write_request (core_of self.old) key.now client seq pick)
            self.old client seq key.now (content_seen content.entry)).did }
        ensures after { self.new ≡ (forwards_write
            (write_request (core_of self.old) key.now client seq pick)
            self.old client seq key.now (content_seen content.entry)).state }
        ensures sent { post.new ≡ posted post.old (forwards_write
            (write_request (core_of self.old) key.now client seq pick)
            self.old client seq key.now (content_seen content.entry)).sent }
        ensures packets { are_packets self.old.rack.format (forwards_write
            (write_request (core_of self.old) key.now client seq pick)
            self.old client seq key.now (content_seen content.entry)).sent ≡ true }
        ensures nodes { are_in_rack self.old.rack (forwards_write
            (write_request (core_of self.old) key.now client seq pick)
            self.old client seq key.now (content_seen content.entry)).sent ≡ true }
        ensures few { length (forwards_write
            (write_request (core_of self.old) key.now client seq pick)
            self.old client seq key.now (content_seen content.entry)).sent ≤ 1 }
    {
        prove!(self.config().servers() > 0);
        let name = key_of(key);
        match self.core.on_request(true, &name, client, seq, pick) {
            Forward::To { server, version } => {
                let header = self.header(client, seq, server);
                send_write(&header, version, key, content, post);
                self.counts.see(&name);
                SwitchDid::Wrote {
                    server,
                    key: name,
                    version,
                }
            }
            Forward::Stale { last } => SwitchDid::Stale { last },
            Forward::Exhausted { next } => SwitchDid::Exhausted { next },
        }
    }

    /// Notes what a reply says, before it goes on to its client.
    pub(crate) fn on_reply(&mut self, header: &Header, version: Version, key: &[u8]) -> SwitchDid
        requires server { header.now.server < self.old.rack.servers }
        requires key { model.is_key key.now ≡ true }
        ensures answer { result ≡ (on_reply self.old header.now.client header.now.seq version
            header.now.server key.now model.Survey).did }
        ensures after { self.new ≡ (on_reply self.old header.now.client header.now.seq version
            header.now.server key.now model.Survey).state }
    {
        let note = self.core.on_reply(header.server, &key_of(key), version);
        SwitchDid::Answered {
            client: header.client,
            seq: header.seq,
            version,
            note,
        }
    }

    /// Notes that a server holds a version.
    pub(crate) fn on_held(&mut self, server: ServerId, version: Version, key: &[u8]) -> SwitchDid
        requires server { server < self.old.rack.servers }
        requires key { model.is_key key.now ≡ true }
        ensures answer { result ≡ (on_held self.old server version key.now).did }
        ensures after { self.new ≡ (on_held self.old server version key.now).state }
    {
        let note = self.core.on_reply(server, &key_of(key), version);
        SwitchDid::Noted {
            server,
            version,
            note,
        }
    }

    /// Takes back the stamp of a write that never acts.
    pub(crate) fn on_void(&mut self, client: ClientId, seq: Seq, version: Version) -> SwitchDid
        requires client { client < self.old.rack.clients }
        ensures answer { result ≡ (takes_void (on_void (core_of self.old) client seq version)
            self.old client seq version).did }
        ensures after { self.new ≡ (takes_void (on_void (core_of self.old) client seq version)
            self.old client seq version).state }
    {
        if self.core.on_void(client, seq, version) {
            SwitchDid::Voided {
                client,
                seq,
                version,
            }
        } else {
            SwitchDid::VoidSkipped { client, seq }
        }
    }
}

// Sends a stamped write to its server, with what the request lends.
fn send_write<'a>(
    header: &Header,
    version: Version,
    key: &'a [u8],
    content: Option<&'a [u8]>,
    post: &mut Post,
)
    requires room { length post.old.items < post.old.slots }
    requires range { in_range post.old.format
        (model.ToServerWrite header.now.client header.now.seq version header.now.server
        header.now.switch key.now (content_seen content)) ≡ true }
    ensures { post.new ≡ posted post.old
        ((
          node.Server header.now.server,
          model.ToServerWrite header.now.client header.now.seq version header.now.server
              header.now.switch key.now (content_seen content.entry),
        ) ∷ []) }
{
    let packets = [Packet::ToServerWrite {
        header: *header,
        version,
        key,
        content,
    }];
    post.put(Node::Server(header.server), &packets[0]);
}
