//! Packets of the rack: what the bytes of a datagram spell, how a packet is spelled, and the
//! outbox that a node puts its packets in.
#![tactic(auto)]

ghost use Rattle.std.specs.Prelude.{◌≡◌};

use peg_name::{ClientId, Seq, ServerId, SwitchId, Version};

mod codes;
mod commands;
mod outcomes;
mod owned;
mod parts;
mod post;
mod puts;
mod range;
mod read;
mod report;
mod row;
mod rows;
mod write;

pub use outcomes::{acknowledge, outcome_of};
pub use owned::{bytes_of, content_of, key_of};
pub use post::Post;
pub use range::is_in_range;
pub use read::decode;
pub use rows::Rows;
pub use write::encode;

/// What a command says to a switch. A key has 1 to 32 bytes.
#[derive(Clone, Copy)]
pub enum What<'a> {
    /// List the key.
    Promote { key: &'a [u8] },
    /// Mark the key's entry, to be removed by a reply to a write.
    Demote { key: &'a [u8] },
    /// Have a listed key copied to a server, which is below 16, and in the second format below 64.
    Copy { target: ServerId, key: &'a [u8] },
    /// Hand the state over to a switch, which is below 4, in an epoch of at least 2.
    Seal { target: SwitchId, epoch: u64 },
    /// Empty the counts of how often each key was asked for.
    Clear,
    /// Have the home of a listed key hold its content at the version of its promotion.
    Fence { key: &'a [u8] },
}

/// What a packet between a switch and a server begins with: the client and the number of its
/// operation, the server that it goes to or comes from, and the switch at the other end.
#[derive(Clone, Copy)]
pub struct Header {
    pub client: ClientId,
    pub seq: Seq,
    pub server: ServerId,
    pub switch: SwitchId,
}

impl Header {
    /// That of a client's request, which names no server and no switch.
    fn of_request(client: ClientId, seq: Seq) -> Header
        ensures { result ≡ record { client = client; seq = seq; server = 0; switch = 0 } }
    {
        Header {
            client,
            seq,
            server: ServerId(0),
            switch: SwitchId(0),
        }
    }
}

/// A packet. Its key, value, part and rows are lent, from the datagram it was read from or from
/// the node that sends it. A content of `None` is absent. A field that its kind fixes at 0 is left
/// out.
///
/// In range are sequence numbers and command numbers of at least 1, switches below 4 and keys of
/// 1 to 32 bytes; in the first format clients below 256, servers below 16 and values of at most
/// 512 bytes, and in the second clients below 1,024, servers below 64 and values of at most 1,024
/// bytes. A version is at least 1; that of a `ReadReply` may be 0, and the content is absent then.
/// What else a kind asks is said with it, and `is_in_range` answers for the whole.
#[derive(Clone, Copy)]
pub enum Packet<'a> {
    /// From a client to a switch.
    Read {
        client: ClientId,
        seq: Seq,
        key: &'a [u8],
    },
    /// From a client to a switch. Without a content it deletes, in the second format alone.
    Write {
        client: ClientId,
        seq: Seq,
        key: &'a [u8],
        content: Option<&'a [u8]>,
    },
    /// From a switch to a server.
    ToServerRead {
        header: Header,
        key: &'a [u8],
    },
    /// From a switch to a server.
    ToServerWrite {
        header: Header,
        version: Version,
        key: &'a [u8],
        content: Option<&'a [u8]>,
    },
    /// From a server to a switch, and on to the client.
    ReadReply {
        header: Header,
        version: Version,
        key: &'a [u8],
        content: Option<&'a [u8]>,
    },
    /// From a server to a switch, and on to the client.
    WriteReply {
        header: Header,
        version: Version,
        key: &'a [u8],
    },
    /// From the controller to a switch.
    Command {
        number: u64,
        what: What<'a>,
    },
    /// From a switch to the controller: what the command came to, as the outcome's number and
    /// value, which have to spell one.
    CommandAck {
        number: u64,
        outcome: u8,
        value: u64,
    },
    /// From a switch to the server that is to copy a key to another.
    CopyOrder {
        switch: SwitchId,
        server: ServerId,
        target: ServerId,
        key: &'a [u8],
    },
    /// From a server to the target of a copy.
    CopyData {
        switch: SwitchId,
        server: ServerId,
        version: Version,
        key: &'a [u8],
        content: Option<&'a [u8]>,
    },
    /// From a server to a switch: the version of a key that it holds.
    Held {
        server: ServerId,
        version: Version,
        key: &'a [u8],
    },
    /// From a switch to the one that takes over: a part of its state, of 1 to 512 bytes, and of
    /// 512 but for the last. The epoch is at least 2, the count at most 32, and 64 in the second
    /// format, and the index below it.
    Part {
        epoch: u64,
        index: u8,
        count: u8,
        bytes: &'a [u8],
    },
    /// From the controller to a client: the switch of an epoch, which is at least 1.
    Announce {
        epoch: u64,
        switch: SwitchId,
    },
    /// From the controller to a switch.
    Survey,
    /// From a switch to the controller: the most asked keys, at most 12 and each once.
    Report {
        epoch: u64,
        total: u64,
        rows: Rows<'a>,
    },
    /// From a switch to a key's home: hold the content at this version.
    Fence {
        switch: SwitchId,
        server: ServerId,
        version: Version,
        key: &'a [u8],
    },
    /// From a server to a switch: a write came too late at its version.
    Void {
        header: Header,
        version: Version,
        key: &'a [u8],
    },
}
