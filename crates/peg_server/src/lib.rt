//! A server: it keeps for each key the content of the greatest version that it was given, answers
//! reads and writes through the switch that they name, hands copies to other servers, and takes the
//! fences of the keys that are at home here.
#![tactic(auto)]

ghost use Rattle.std.specs.Prelude.{◌≡◌, ℕ, ◌==◌, ◌<◌, ◌≤◌, [], ◌∷◌, ◌++◌, OnErr, OnOk, IfOk};
ghost use Rattle.std.specs.Prelude.{true, length, nat_lt};
ghost use Rattle.peg_name.specs.Name.{home_of};
ghost use Rattle.peg_model.specs.Server.{new_server, server_step, server_takes, serve};
ghost use Rattle.peg_model.specs.Packet as model;
ghost use Rattle.peg_model.specs.Packet.{in_range, is_content, is_key, is_client, is_positive};
ghost use Rattle.peg_model.specs.Packet.{is_switch, is_server};
ghost use Rattle.peg_model.specs.Datagrams.{server_on_bytes, are_packets};
ghost use Rattle.peg_packet.specs.Nodes.{are_in_rack};
ghost use Rattle.peg_packet.specs.Seen.{seen};
ghost use Rattle.peg_packet.specs.Outbox.{posted};

pub use peg_event::{Apply, FenceDid, ServerDid, WriteDid};
use peg_name::{Config, Content, Key, OutOfMemory, ServerId, SwitchId, Version, home};
use peg_packet::{Header, Packet, Post, content_of, decode, key_of};
use peg_store::Store;
use std::alloc::Global;
use std::marker::Model;

mod send;

/// A server of a rack, and what it keeps.
#[derive(Drop)]
pub struct Server {
    config: Config,
    id: ServerId,
    store: Store,
}

impl Model for Server {
    ghost use Rattle.std.specs.Prelude.{◌≡◌, ◌<◌, true};
    ghost use Rattle.peg_model.specs.Server.{Server as TheServer};
    ghost use Rattle.peg_server.specs.Fits.{store_fits};

    ghost Value = { TheServer };

    ghost view = { λ s. record { rack = s.config; id = s.id; store = s.store } };

    ghost invariant = { λ s.
        (s.id < s.config.servers) × (store_fits s.config.format s.store ≡ true) };
}

impl Server {
    /// A server of the rack that holds nothing yet.
    pub fn make(alloc: Global, config: &Config, id: ServerId) -> Server
        requires { id < config.now.servers }
        ensures { result ≡ new_server config.now id }
    {
        Server {
            config: *config,
            id,
            store: Store::make(alloc),
        }
    }

    /// The rack that it is a server of.
    pub fn config(&self) -> &Config
        ensures { result.now ≡ self.now.rack }
    {
        &self.config
    }

    /// Takes any bytes. `Malformed` where no packet is spelled by them, and `OutOfPlace` where the
    /// packet is of the other format or is not for this server; then, and after `OutOfMemory`, the
    /// server is as before and nothing is sent. One packet is sent at most, to a node of the rack.
    #[tactic(auto, unfolding(peg_model::specs::Server::server_step), using(crate::proofs::Nodes::few_on_bytes))]
    pub fn step(&mut self, bytes: &[u8], post: &mut Post) -> Result<ServerDid, OutOfMemory>
        requires format { post.old.format ≡ self.old.rack.format }
        requires room { length post.old.items < post.old.slots }
        ensures answer { IfOk result (λ did. did ≡ (server_on_bytes self.old bytes.now).did) }
        ensures after { OnOk result (self.new ≡ (server_on_bytes self.old bytes.now).state) }
        ensures sent { OnOk result (post.new ≡ posted post.old
            (server_on_bytes self.old bytes.now).sent) }
        ensures packets { OnOk result (are_packets self.old.rack.format
            (server_on_bytes self.old bytes.now).sent ≡ true) }
        ensures nodes { OnOk result (are_in_rack self.old.rack
            (server_on_bytes self.old bytes.now).sent ≡ true) }
        ensures few { OnOk result (length (server_on_bytes self.old bytes.now).sent ≤ 1) }
        ensures rack { self.new.rack ≡ self.old.rack }
        ensures id { self.new.id ≡ self.old.id }
        ensures err { OnErr result (self.new ≡ self.old) }
        ensures err_sent { OnErr result (post.new ≡ post.old) }
    {
        let Some((format, packet)) = decode(bytes) else {
            return Ok(ServerDid::Malformed);
        };
        if format != self.config.format() || !self.takes(&packet) {
            return Ok(ServerDid::OutOfPlace);
        }
        self.serve(&packet, post)
    }
}

impl Server {
    /// Whether the packet is for this server: it is the one named, the other numbers are in the
    /// rack, an order to copy is to another server, and a fence is of a key at home here.
    #[tactic(auto, unfolding(peg_model::specs::Packet::in_range))]
    fn takes(&self, packet: &Packet<'_>) -> bool
        requires { in_range self.now.rack.format (seen packet.now) ≡ true }
        ensures { result ≡ server_takes self.now.rack self.now.id (seen packet.now) }
    {
        let rack = &self.config;
        match packet {
            Packet::ToServerRead { header, .. } | Packet::ToServerWrite { header, .. } => {
                header.server == self.id
                    && rack.has_client(header.client)
                    && rack.has_switch(header.switch)
            }
            Packet::CopyOrder {
                switch,
                server,
                target,
                ..
            } => {
                *server == self.id
                    && rack.has_switch(*switch)
                    && rack.has_server(*target)
                    && !(*target == self.id)
            }
            Packet::CopyData { switch, server, .. } => {
                *server == self.id && rack.has_switch(*switch)
            }
            Packet::Fence {
                switch,
                server,
                key,
                ..
            } => *server == self.id && rack.has_switch(*switch) && self.is_home(key),
            _ => false,
        }
    }

    fn is_home(&self, key: &[u8]) -> bool
        requires { is_key key.now ≡ true }
        ensures { result ≡ (home_of self.now.rack.servers key.now == self.now.id) }
    {
        home(&self.config, &key_of(key)) == self.id
    }

    /// Serves a packet that is for this server. What it sends goes to nodes of the rack.
    #[tactic(auto, unfolding(peg_model::specs::Packet::in_range), using(crate::proofs::Nodes::served_in_rack))]
    fn serve(&mut self, packet: &Packet<'_>, post: &mut Post) -> Result<ServerDid, OutOfMemory>
        requires format { post.old.format ≡ self.old.rack.format }
        requires room { length post.old.items < post.old.slots }
        requires range { in_range self.old.rack.format (seen packet.now) ≡ true }
        requires taken { server_takes self.old.rack self.old.id (seen packet.now) ≡ true }
        ensures answer { IfOk result (λ did. did ≡ (serve self.old (seen packet.now)).did) }
        ensures after { OnOk result (self.new ≡ (serve self.old (seen packet.now)).state) }
        ensures sent { OnOk result (post.new ≡ posted post.old
            (serve self.old (seen packet.now)).sent) }
        ensures packets { OnOk result (are_packets self.old.rack.format
            (serve self.old (seen packet.now)).sent ≡ true) }
        ensures nodes { OnOk result (are_in_rack self.old.rack
            (serve self.old (seen packet.now)).sent ≡ true) }
        ensures rack { self.new.rack ≡ self.old.rack }
        ensures id { self.new.id ≡ self.old.id }
        ensures err { OnErr result (self.new ≡ self.old) }
        ensures err_sent { OnErr result (post.new ≡ post.old) }
    {
        match packet {
            Packet::ToServerRead { header, key } => Ok(self.on_read(header, &key_of(key), post)),
            Packet::ToServerWrite {
                header,
                version,
                key,
                content,
            } => {
                let content = content_of(self.config.format(), *content);
                self.on_write(header, *version, &key_of(key), &content, post)
            }
            Packet::CopyOrder {
                switch,
                target,
                key,
                ..
            } => Ok(self.on_copy_order(*switch, *target, &key_of(key), post)),
            Packet::CopyData {
                switch,
                version,
                key,
                content,
                ..
            } => {
                let content = content_of(self.config.format(), *content);
                self.on_copy_data(*switch, *version, &key_of(key), &content, post)
            }
            Packet::Fence {
                switch,
                version,
                key,
                ..
            } => self.on_fence(*switch, *version, &key_of(key), post),
            _ => Ok(ServerDid::OutOfPlace),
        }
    }

    /// Answers a read with the held version and content.
    #[tactic(auto, using(crate::proofs::Replies::read_reply_in_range, crate::proofs::Keeping::held_sendable))]
    fn on_read(&self, header: &Header, key: &Key, post: &mut Post) -> ServerDid
        requires format { post.old.format ≡ self.now.rack.format }
        requires room { length post.old.items < post.old.slots }
        requires server { header.now.server ≡ self.now.id }
        requires range { in_range self.now.rack.format (model.ToServerRead
            header.now.client header.now.seq header.now.server header.now.switch key.now) ≡ true }
        ensures answer { result ≡ (serve self.now (model.ToServerRead
            header.now.client header.now.seq header.now.server header.now.switch key.now)).did }
        ensures sent { post.new ≡ posted post.old (serve self.now (model.ToServerRead
            header.now.client header.now.seq header.now.server header.now.switch key.now)).sent }
        ensures packets { are_packets self.now.rack.format (serve self.now (model.ToServerRead
            header.now.client header.now.seq header.now.server header.now.switch key.now)).sent
            ≡ true }
    {
        let (version, content) = self.store.read(key);
        send::read_reply(header, version, key, &content, post);
        ServerDid::Read { key: *key, version }
    }

    /// Keeps a write, and answers it with its own version, or voids it, or does neither.
    #[tactic(auto, using(crate::proofs::Replies::write_reply_in_range, crate::proofs::Replies::void_in_range, crate::proofs::Keeping::fits_applied))]
    fn on_write(
        &mut self,
        header: &Header,
        version: Version,
        key: &Key,
        content: &Content<'_>,
        post: &mut Post,
    ) -> Result<ServerDid, OutOfMemory>
        requires format { post.old.format ≡ self.old.rack.format }
        requires room { length post.old.items < post.old.slots }
        requires server { header.now.server ≡ self.old.id }
        requires version { 1 ≤ version }
        requires content { is_content self.old.rack.format content.now ≡ true }
        requires range { in_range self.old.rack.format
            (model.ToServerWrite header.now.client header.now.seq version
            header.now.server header.now.switch key.now content.now) ≡ true }
        ensures answer { IfOk result (λ did. did ≡ (serve self.old
            (model.ToServerWrite header.now.client header.now.seq version
            header.now.server header.now.switch key.now content.now)).did) }
        ensures after { OnOk result (self.new ≡ (serve self.old
            (model.ToServerWrite header.now.client header.now.seq version
            header.now.server header.now.switch key.now content.now)).state) }
        ensures sent { OnOk result (post.new ≡ posted post.old
            (serve self.old
            (model.ToServerWrite header.now.client header.now.seq version
            header.now.server header.now.switch key.now content.now)).sent) }
        ensures packets { OnOk result (are_packets self.old.rack.format
            (serve self.old
            (model.ToServerWrite header.now.client header.now.seq version
            header.now.server header.now.switch key.now content.now)).sent
            ≡ true) }
        ensures rack { self.new.rack ≡ self.old.rack }
        ensures id { self.new.id ≡ self.old.id }
        ensures err { OnErr result (self.new ≡ self.old) }
        ensures err_sent { OnErr result (post.new ≡ post.old) }
    {
        Ok(match self.store.write(key, version, content)? {
            WriteDid::Applied => {
                send::write_reply(header, version, key, post);
                ServerDid::Applied { key: *key, version }
            }
            WriteDid::Kept { held } => {
                send::write_reply(header, version, key, post);
                ServerDid::Kept { key: *key, held }
            }
            WriteDid::Void { floor } => {
                send::void(header, version, key, post);
                ServerDid::Void {
                    key: *key,
                    version,
                    floor,
                }
            }
            WriteDid::Barred { old } => ServerDid::Barred {
                key: *key,
                version,
                old,
            },
        })
    }

    /// Holds the content of a key at the version of a fence, and reports that version.
    #[tactic(auto, using(crate::proofs::Replies::held_of_fence_in_range, crate::proofs::Keeping::fits_fenced))]
    fn on_fence(
        &mut self,
        switch: SwitchId,
        version: Version,
        key: &Key,
        post: &mut Post,
    ) -> Result<ServerDid, OutOfMemory>
        requires format { post.old.format ≡ self.old.rack.format }
        requires room { length post.old.items < post.old.slots }
        requires version { 1 ≤ version }
        requires range { in_range self.old.rack.format
            (model.Fence switch self.old.id version key.now) ≡ true }
        ensures answer { IfOk result (λ did. did
            ≡ (serve self.old (model.Fence switch self.old.id version key.now)).did) }
        ensures after { OnOk result (self.new
            ≡ (serve self.old (model.Fence switch self.old.id version key.now)).state) }
        ensures sent { OnOk result (post.new ≡ posted post.old
            (serve self.old (model.Fence switch self.old.id version key.now)).sent) }
        ensures packets { OnOk result (are_packets self.old.rack.format
            (serve self.old (model.Fence switch self.old.id version key.now)).sent ≡ true) }
        ensures rack { self.new.rack ≡ self.old.rack }
        ensures id { self.new.id ≡ self.old.id }
        ensures err { OnErr result (self.new ≡ self.old) }
        ensures err_sent { OnErr result (post.new ≡ post.old) }
    {
        let id = self.id;
        let did = self.store.fence(key, version)?;
        send::held(id, version, switch, key, post);
        Ok(match did {
            FenceDid::Fenced { held } => ServerDid::Fenced {
                key: *key,
                version,
                held,
            },
            FenceDid::Kept { held } => ServerDid::Kept { key: *key, held },
        })
    }

    /// Keeps a copy, and reports its version.
    #[tactic(auto, using(crate::proofs::Replies::held_of_copy_in_range, crate::proofs::Keeping::fits_applied))]
    fn on_copy_data(
        &mut self,
        switch: SwitchId,
        version: Version,
        key: &Key,
        content: &Content<'_>,
        post: &mut Post,
    ) -> Result<ServerDid, OutOfMemory>
        requires format { post.old.format ≡ self.old.rack.format }
        requires room { length post.old.items < post.old.slots }
        requires version { 1 ≤ version }
        requires content { is_content self.old.rack.format content.now ≡ true }
        requires range { in_range self.old.rack.format
            (model.CopyData switch self.old.id version key.now content.now) ≡ true }
        ensures answer { IfOk result (λ did. did ≡ (serve self.old
            (model.CopyData switch self.old.id version key.now content.now)).did) }
        ensures after { OnOk result (self.new ≡ (serve self.old
            (model.CopyData switch self.old.id version key.now content.now)).state) }
        ensures sent { OnOk result (post.new ≡ posted post.old
            (serve self.old (model.CopyData switch self.old.id version key.now content.now)).sent) }
        ensures packets { OnOk result (are_packets self.old.rack.format
            (serve self.old (model.CopyData switch self.old.id version key.now content.now)).sent
            ≡ true) }
        ensures rack { self.new.rack ≡ self.old.rack }
        ensures id { self.new.id ≡ self.old.id }
        ensures err { OnErr result (self.new ≡ self.old) }
        ensures err_sent { OnErr result (post.new ≡ post.old) }
    {
        let id = self.id;
        let did = self.store.apply(key, version, content)?;
        send::held(id, version, switch, key, post);
        Ok(match did {
            Apply::Applied => ServerDid::Applied { key: *key, version },
            Apply::Kept { held } => ServerDid::Kept { key: *key, held },
        })
    }

    /// Sends what it holds of a key to another server, or nothing where it holds nothing.
    #[tactic(auto, using(crate::proofs::Replies::copied_in_range, crate::proofs::Keeping::held_content))]
    fn on_copy_order(
        &self,
        switch: SwitchId,
        target: ServerId,
        key: &Key,
        post: &mut Post,
    ) -> ServerDid
        requires format { post.old.format ≡ self.now.rack.format }
        requires room { length post.old.items < post.old.slots }
        requires range { in_range self.now.rack.format
            (model.CopyOrder switch self.now.id target key.now) ≡ true }
        ensures answer { result
            ≡ (serve self.now (model.CopyOrder switch self.now.id target key.now)).did }
        ensures sent { post.new ≡ posted post.old
            (serve self.now (model.CopyOrder switch self.now.id target key.now)).sent }
        ensures packets { are_packets self.now.rack.format
            (serve self.now (model.CopyOrder switch self.now.id target key.now)).sent ≡ true }
    {
        let (version, content) = self.store.read(key);
        if version.0 == 0 {
            return ServerDid::HasNone { key: *key };
        }
        send::copy(switch, target, version, key, &content, post);
        ServerDid::Copied {
            key: *key,
            version,
            target,
        }
    }
}
