//! What a line says, lent from what the world keeps.
ghost use Rattle.std.specs.Prelude.{◌≡◌, ◌≤◌, ℕ, Option, true};
ghost use Rattle.peg_model.specs.Packet.{in_range};
ghost use Rattle.peg_model.specs.World as book;
ghost use Rattle.peg_packet.specs.Seen.{seen};
ghost use Rattle.peg_ledger.specs.After.{answered_size};
ghost use Rattle.peg_world.specs.Midway.{packet_at};
ghost use Rattle.peg_world.specs.Telling.{number_in, content_in, did_told, said_told, without};
ghost use Rattle.peg_world.specs.Telling.{IsTold, IsControl};

use crate::machine::Machine;
use peg_event::{ClientDid, Event, Said};
use peg_name::{Content, Format};
use peg_packet::{Packet, content_of, decode};

impl Machine {
    /// The packet that an event delivers, by its number, if there is one.
    pub(crate) fn delivered(&self, event: &Event<'_>) -> Option<u64>
        ensures { result ≡ number_in event.now self.now.world }
    {
        match event {
            Event::Deliver { packet, .. } if *packet < u64::from(self.packets()) => Some(*packet),
            _ => None,
        }
    }

    /// The content that the packet of a number gives a reader: absent where it gives none.
    fn content(&self, number: u64) -> Content<'_>
        ensures { result ≡ content_in (packet_at self.now.world number) }
    {
        if number >= u64::from(self.packets()) {
            return Content::Absent;
        }
        let (_to, bytes) = self.soup.get(number as u32);
        match decode(bytes) {
            Some((format, packet)) => content_in(format, &packet),
            None => Content::Absent,
        }
    }
}

#[tactic(auto, unfolding(peg_model::specs::Packet::in_range))]
fn content_in<'a>(format: Format, packet: &Packet<'a>) -> Content<'a>
    requires { in_range format (seen packet.now) ≡ true }
    ensures { result ≡ content_in (seen packet.now) }
{
    match packet {
        Packet::ReadReply { content, .. } => content_of(format, *content),
        _ => Content::Absent,
    }
}

/// What is said, with the content of an answered read lent from the packet that gave it.
pub(crate) fn said_of<'a>(
    machine: &'a Machine,
    number: Option<u64>,
    said: &'a Said<'static>,
) -> Said<'a>
    ensures { result ≡ said_told number machine.now.world said.now }
{
    match said {
        Said::Rack => Said::Rack,
        Said::End => Said::End,
        Said::Forged => Said::Forged,
        Said::NoSuchPacket { number, count } => Said::NoSuchPacket {
            number: *number,
            count: *count,
        },
        Said::Switch { switch, did } => Said::Switch {
            switch: *switch,
            did: *did,
        },
        Said::Server { server, did } => Said::Server {
            server: *server,
            did: *did,
        },
        Said::Client { client, did } => Said::Client {
            client: *client,
            did: did_of(machine, number, did),
        },
        Said::Controller { did } => Said::Controller { did: *did },
        _ => told_of(said),
    }
}

fn did_of<'a>(
    machine: &'a Machine,
    number: Option<u64>,
    did: &'a ClientDid<'static>,
) -> ClientDid<'a>
    ensures { result ≡ did_told number machine.now.world did.now }
{
    match did {
        ClientDid::Wrote { seq, version } => ClientDid::Wrote {
            seq: *seq,
            version: *version,
        },
        ClientDid::Read {
            seq,
            version,
            content,
        } => ClientDid::Read {
            seq: *seq,
            version: *version,
            content: match number {
                Some(number) => machine.content(number),
                None => content.again(),
            },
        },
        ClientDid::Moved { switch, epoch } => ClientDid::Moved {
            switch: *switch,
            epoch: *epoch,
        },
        ClientDid::Ignored => ClientDid::Ignored,
    }
}

// What is said of an operation that was to begin, to be sent again or to be given up, or of what the
// controller was told.
fn told_of<'a>(said: &Said<'_>) -> Said<'a>
    requires { IsTold said.now }
    ensures { (number : Option ℕ) (w : book.World) → result ≡ said_told number w said.now }
{
    match said {
        Said::Read { client, seq } => Said::Read {
            client: *client,
            seq: *seq,
        },
        Said::Write { client, seq } => Said::Write {
            client: *client,
            seq: *seq,
        },
        Said::Delete { client, seq } => Said::Delete {
            client: *client,
            seq: *seq,
        },
        Said::Busy { client, seq } => Said::Busy {
            client: *client,
            seq: *seq,
        },
        Said::Spent { client } => Said::Spent { client: *client },
        Said::Resend { client, seq } => Said::Resend {
            client: *client,
            seq: *seq,
        },
        Said::GiveUp { client, seq } => Said::GiveUp {
            client: *client,
            seq: *seq,
        },
        Said::NothingOpen { client } => Said::NothingOpen { client: *client },
        _ => control_of(said),
    }
}

// What is said of what the controller was told.
fn control_of<'a>(said: &Said<'_>) -> Said<'a>
    requires { IsControl said.now }
    ensures { (number : Option ℕ) (w : book.World) → result ≡ said_told number w said.now }
{
    match said {
        Said::Orders { number, command } => Said::Orders {
            number: *number,
            command: *command,
        },
        Said::ControlBusy { pending } => Said::ControlBusy { pending: *pending },
        Said::ControlSpent { last } => Said::ControlSpent { last: *last },
        Said::NoSuch { target } => Said::NoSuch { target: *target },
        Said::SameSwitch { switch } => Said::SameSwitch { switch: *switch },
        Said::Retries { number } => Said::Retries { number: *number },
        Said::Announces { epoch } => Said::Announces { epoch: *epoch },
        Said::Surveys => Said::Surveys,
        Said::Plans { demotes, promotes } => Said::Plans {
            demotes: *demotes,
            promotes: *promotes,
        },
        Said::NoReport => Said::NoReport,
        _ => unreachable!(),
    }
}

/// What a client did, without the content that it was given.
pub(crate) fn without<'a>(did: &ClientDid<'_>) -> ClientDid<'a>
    ensures { result ≡ without did.now }
{
    match did {
        ClientDid::Wrote { seq, version } => ClientDid::Wrote {
            seq: *seq,
            version: *version,
        },
        ClientDid::Read { seq, version, .. } => ClientDid::Read {
            seq: *seq,
            version: *version,
            content: Content::Absent,
        },
        ClientDid::Moved { switch, epoch } => ClientDid::Moved {
            switch: *switch,
            epoch: *epoch,
        },
        ClientDid::Ignored => ClientDid::Ignored,
    }
}

/// How many bytes the content has that a client was given.
pub(crate) fn size_of(did: &ClientDid<'_>) -> usize
    ensures size { result ≡ answered_size did.now }
    ensures most { result ≤ 1024 }
{
    match did {
        ClientDid::Read {
            content: Content::Present(value),
            ..
        } => value.bytes().len(),
        _ => 0,
    }
}
