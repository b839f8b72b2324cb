//! A client: at most one operation is pending, and the first reply to it answers it.
#![tactic(auto)]

ghost use Rattle.std.specs.Prelude.{◌≡◌, ℕ, ◌≤◌, ◌<◌, [], ◌∷◌, ◌++◌, Option, Some, None, true};
ghost use Rattle.std.specs.Prelude.{◌==◌, ◌&&◌, length, IfSome, List};
ghost use Rattle.std.specs.Str.{bytes_eq};
ghost use Rattle.std.specs.Option.{option_map};
ghost use Rattle.peg_name.specs.Name.{IsKey};
ghost use Rattle.peg_name.specs.declared.Node.TheVariants as node;
ghost use Rattle.peg_model.specs.Packet as model;
ghost use Rattle.peg_model.specs.Packet.{in_range, is_client};
ghost use Rattle.peg_model.specs.Client.{new_client, begin_operation, resend, give_up, client_step};
ghost use Rattle.peg_model.specs.Client.{request_of, awaits_read, awaits_write, is_read};
ghost use Rattle.peg_model.specs.Datagrams.{client_on_bytes, are_packets};
ghost use Rattle.peg_packet.specs.Seen.{seen};
ghost use Rattle.peg_packet.specs.Outbox.{posted};
ghost use Rattle.peg_client.specs.Fits.{ask_fits, pending_fits};
ghost use Rattle.peg_client.specs.Waits.{ask_of, pending_of, IsShort};

use peg_event::ClientDid;
pub use peg_event::{Ask, Issue};
use peg_name::{ClientId, Content, Format, Key, Node, Seq, SwitchId};
use peg_packet::{Packet, Post, content_of, decode};
use std::marker::Model;

#[cfg(test)]
mod tests;

/// A client's next sequence number, its pending operation, and the switch that it takes to be
/// active. It keeps the one value that it may have to send again.
#[derive(Debug, Drop)]
pub struct Client {
    format: Format,
    id: ClientId,
    next: Seq,
    pending: Option<Waiting>,
    switch: SwitchId,
    epoch: u64,
    value: [u8; 1024],
}

// The pending operation. The value that it writes begins the client's bytes.
#[derive(Clone, Copy, Debug)]
struct Waiting {
    seq: Seq,
    key: Key,
    kind: Kind,
}

#[derive(Clone, Copy, Debug)]
enum Kind {
    Read,
    Delete,
    Write { len: usize },
}

impl Model for Client {
    ghost use Rattle.peg_model.specs.Client.{Client as TheClient};

    ghost Value = { TheClient };

    ghost use Rattle.peg_client.specs.Waits.{client_of, IsClient};

    ghost view = { client_of };

    ghost invariant = { IsClient };
}

impl Client {
    /// A client of a rack of this format that has issued nothing; its first operation gets the
    /// number `first`.
    pub fn new(format: Format, id: ClientId, first: Seq) -> Client
        requires id { is_client format id ≡ true }
        requires first { 1 ≤ first }
        ensures { result ≡ new_client format id first }
    {
        Client {
            format,
            id,
            next: first,
            pending: None,
            switch: SwitchId(0),
            epoch: 1,
            value: [0; 1024],
        }
    }

    /// The format of the packets that it sends and takes.
    pub fn format(&self) -> Format
        ensures { result ≡ self.now.format }
    {
        self.format
    }

    /// Begins an operation and sends its request. It is `Busy` exactly where one is pending, else
    /// `Spent` exactly where the sequence numbers are used up; then nothing changes.
    pub fn issue(&mut self, key: &Key, ask: &Ask<'_>, post: &mut Post) -> Issue
        requires format { post.old.format ≡ self.old.format }
        requires room { length post.old.items < post.old.slots }
        requires ask { ask_fits self.old.format ask.now ≡ true }
        ensures answer { result ≡ (begin_operation self.old key.now ask.now).did }
        ensures after { self.new ≡ (begin_operation self.old key.now ask.now).state }
        ensures sent { post.new ≡ posted post.old (begin_operation self.old key.now ask.now).sent }
        ensures packets { are_packets self.old.format
            (begin_operation self.old key.now ask.now).sent ≡ true }
    {
        if let Some(pending) = &self.pending {
            return Issue::Busy { seq: pending.seq };
        }
        if self.next.0 == u64::MAX {
            return Issue::Spent;
        }
        let seq = self.next;
        self.next = Seq(seq.0 + 1);
        self.pending = Some(Waiting {
            seq,
            key: *key,
            kind: keep(ask, &mut self.value),
        });
        self.send(post);
        Issue::Sent { seq }
    }

    /// Sends the request of the pending operation again, to the switch that is now taken to be
    /// active. `None` exactly where nothing is pending.
    pub fn resend(&mut self, post: &mut Post) -> Option<Seq>
        requires format { post.old.format ≡ self.old.format }
        requires room { length post.old.items < post.old.slots }
        ensures answer { result ≡ (resend self.old).did }
        ensures after { self.new ≡ (resend self.old).state }
        ensures sent { post.new ≡ posted post.old (resend self.old).sent }
        ensures packets { are_packets self.old.format (resend self.old).sent ≡ true }
    {
        let Some(pending) = &self.pending else {
            return None;
        };
        self.send(post);
        Some(pending.seq)
    }

    /// Sends the request of the pending operation, if there is one.
    fn send(&self, post: &mut Post)
        requires format { post.old.format ≡ self.now.format }
        requires room { length post.old.items < post.old.slots }
        ensures sent { post.new ≡ posted post.old (resend self.now).sent }
        ensures packets { are_packets self.now.format (resend self.now).sent ≡ true }
    {
        if let Some(packet) = self.request() {
            post.put(Node::Switch(self.switch), &packet);
        }
    }

    /// The request of the pending operation.
    fn request(&self) -> Option<Packet<'_>>
        ensures is { option_map seen result
            ≡ option_map (λ p. request_of self.now.id p.seq p.key p.ask) self.now.pending }
        ensures in_range { IfSome result (λ packet.
            in_range self.now.format (seen packet) ≡ true) }
    {
        match &self.pending {
            Some(waiting) => Some(request_for(self.format, self.id, &self.value, waiting)),
            None => None,
        }
    }

    /// Gives the pending operation up: no reply answers it any more. `None` exactly where nothing
    /// is pending.
    pub fn give_up(&mut self) -> Option<Seq>
        ensures answer { result ≡ (give_up self.old).did }
        ensures after { self.new ≡ (give_up self.old).state }
    {
        let Some(pending) = &self.pending else {
            return None;
        };
        let seq = pending.seq;
        self.pending = None;
        Some(seq)
    }

    /// Takes any bytes. A reply of the kind, number and key of the pending operation answers it,
    /// and an announcement of a later epoch names the active switch; all else is ignored.
    #[tactic(auto, unfolding(peg_model::specs::Client::client_step))]
    pub fn step<'a>(&mut self, bytes: &'a [u8]) -> ClientDid<'a>
        ensures answer { result ≡ (client_on_bytes self.old bytes.entry.now).did }
        ensures after { self.new ≡ (client_on_bytes self.old bytes.entry.now).state }
    {
        let Some((format, packet)) = decode(bytes) else {
            return ClientDid::Ignored;
        };
        if format != self.format {
            return ClientDid::Ignored;
        }
        self.take(&packet)
    }

    #[tactic(auto, unfolding(peg_model::specs::Client::client_step, peg_model::specs::Packet::in_range))]
    fn take<'a>(&mut self, packet: &Packet<'a>) -> ClientDid<'a>
        requires { in_range self.old.format (seen packet.now) ≡ true }
        ensures answer { result ≡ (client_step self.old (seen packet.now)).did }
        ensures after { self.new ≡ (client_step self.old (seen packet.now)).state }
    {
        match packet {
            Packet::ReadReply {
                header,
                version,
                key,
                content,
            } => {
                if !self.awaits_read(header.client, header.seq, key) {
                    return ClientDid::Ignored;
                }
                let content = content_of(self.format, *content);
                self.pending = None;
                ClientDid::Read {
                    seq: header.seq,
                    version: *version,
                    content,
                }
            }
            Packet::WriteReply {
                header,
                version,
                key,
            } => {
                if !self.awaits_write(header.client, header.seq, key) {
                    return ClientDid::Ignored;
                }
                self.pending = None;
                ClientDid::Wrote {
                    seq: header.seq,
                    version: *version,
                }
            }
            Packet::Announce { epoch, switch } => self.move_to(*epoch, *switch),
            _ => ClientDid::Ignored,
        }
    }

    #[tactic(auto, unfolding(peg_model::specs::Client::client_step))]
    fn move_to<'a>(&mut self, epoch: u64, switch: SwitchId) -> ClientDid<'a>
        ensures answer { result ≡ (client_step self.old (model.Announce epoch switch)).did }
        ensures after { self.new ≡ (client_step self.old (model.Announce epoch switch)).state }
    {
        if epoch <= self.epoch {
            return ClientDid::Ignored;
        }
        self.epoch = epoch;
        self.switch = switch;
        ClientDid::Moved { switch, epoch }
    }

    fn awaits_read(&self, client: ClientId, seq: Seq, key: &[u8]) -> bool
        ensures { result ≡ awaits_read self.now client seq key.now }
    {
        match &self.pending {
            Some(waiting) if is_read(waiting.kind) => {
                matches(self.id, waiting, client, seq, key)
            }
            _ => false,
        }
    }

    fn awaits_write(&self, client: ClientId, seq: Seq, key: &[u8]) -> bool
        ensures { result ≡ awaits_write self.now client seq key.now }
    {
        match &self.pending {
            Some(waiting) if !is_read(waiting.kind) => {
                matches(self.id, waiting, client, seq, key)
            }
            _ => false,
        }
    }
}

// Keeps the value that is written, and says what is asked for.
fn keep(ask: &Ask<'_>, value: &mut [u8; 1024]) -> Kind
    ensures kept { ask_of value.new result ≡ ask.now }
    ensures short { IsShort result }
{
    match ask {
        Ask::Read => Kind::Read,
        Ask::Write(Content::Absent) => Kind::Delete,
        Ask::Write(Content::Present(written)) => {
            let bytes = written.bytes();
            value[..bytes.len()].copy_from_slice(bytes);
            Kind::Write { len: bytes.len() }
        }
    }
}

fn is_read(kind: Kind) -> bool
    ensures { (value : List ℕ) → result ≡ is_read (ask_of value kind) }
{
    match kind {
        Kind::Read => true,
        Kind::Delete | Kind::Write { .. } => false,
    }
}

// The request of a pending operation, whose value begins these bytes.
#[tactic(auto, using(crate::proofs::Requests::request_in_range))]
fn request_for<'a>(
    format: Format,
    id: ClientId,
    value: &'a [u8; 1024],
    waiting: &'a Waiting,
) -> Packet<'a>
    requires client { is_client format id ≡ true }
    requires fits { pending_fits format (Some (pending_of value.now waiting.now)) ≡ true }
    requires short { IsShort waiting.now.kind }
    ensures is { seen result ≡ request_of id waiting.entry.now.seq waiting.entry.now.key
        (ask_of value.entry.now waiting.entry.now.kind) }
    ensures in_range { in_range format (request_of id waiting.entry.now.seq waiting.entry.now.key
        (ask_of value.entry.now waiting.entry.now.kind)) ≡ true }
{
    let seq = number_of(waiting);
    let key = waiting.key.bytes();
    match waiting.kind {
        Kind::Read => Packet::Read {
            client: id,
            seq,
            key,
        },
        Kind::Delete => Packet::Write {
            client: id,
            seq,
            key,
            content: None,
        },
        Kind::Write { len } => Packet::Write {
            client: id,
            seq,
            key,
            content: Some(&value[..len]),
        },
    }
}

/// Whether the numbers and the key are those of the pending operation.
fn matches(id: ClientId, waiting: &Waiting, client: ClientId, seq: Seq, key: &[u8]) -> bool
    ensures { result
        ≡ (client == id && seq == waiting.now.seq && bytes_eq key.now waiting.now.key) }
{
    client == id && seq == waiting.seq && key == waiting.key.bytes()
}

fn number_of(waiting: &Waiting) -> Seq
    ensures { result ≡ waiting.now.seq }
{
    waiting.seq
}
