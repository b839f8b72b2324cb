//! Plain values that the other crates exchange: the events of a schedule, what each node did with
//! what it was handed, the answers of the nodes' calls, and the operations of a history.
#![tactic(auto)]

use peg_name::{ClientId, Content, Key, Node, Seq, ServerId, SwitchId, Value, Version};

mod answers;
mod history;
mod junk;
#[cfg(test)]
mod tests;

pub use answers::{
    Apply, Ask, CopyFrom, FenceDid, FenceOf, Forward, Issue, Listing, MarkDid, Order, Pending,
    Plan, Promoted, Retry, Stamp, Stored, WriteDid,
};
pub use history::{Act, Fault, Op, Verdict};
pub use junk::Junk;
pub use peg_name::Note;

// ---- events

/// One event of a schedule: a client begins an operation, sends it again or gives it up; a packet in
/// flight, by its number, or junk is handed to its node, with the pick by which a switch chooses
/// among servers; or the controller is asked for something.
#[derive(Debug, PartialEq, Eq, Drop)]
pub enum Event<'a> {
    Read {
        client: ClientId,
        key: Key,
    },
    Write {
        client: ClientId,
        key: Key,
        value: Value<'a>,
    },
    Delete {
        client: ClientId,
        key: Key,
    },
    Resend {
        client: ClientId,
    },
    GiveUp {
        client: ClientId,
    },
    Deliver {
        packet: u64,
        pick: u64,
    },
    Junk {
        to: Node,
        bytes: Junk<'a>,
    },
    Promote {
        key: Key,
    },
    Demote {
        key: Key,
    },
    Copy {
        key: Key,
        target: u8,
    },
    Fence {
        key: Key,
    },
    Handover {
        target: u8,
    },
    Clear,
    Retry,
    Survey,
    Plan {
        promote_at: u64,
        demote_below: u64,
    },
}

// ---- what each node did

/// What a command came to at the switch: the number of the listing; the versions of a mark, of a
/// base or that is next; the entries there are; the server that copies; or the epoch.
#[derive(Clone, Copy, Debug, PartialEq, Eq)]
pub enum Outcome {
    Listed(u64),
    Already(u64),
    Full(u64),
    Marked(u64),
    NotListed,
    AlreadyMarked(u64),
    Ordered(u64),
    Holds,
    Activated(u64),
    Cleared,
    Fenced(u64),
    NoBase,
    NoVersion(u64),
}

/// What a switch did with what it was handed.
#[derive(Clone, Copy, Debug, PartialEq, Eq)]
pub enum SwitchDid {
    Read {
        server: ServerId,
        key: Key,
    },
    Wrote {
        server: ServerId,
        key: Key,
        version: Version,
    },
    Answered {
        client: ClientId,
        seq: Seq,
        version: Version,
        note: Note,
    },
    Noted {
        server: ServerId,
        version: Version,
        note: Note,
    },
    Voided {
        client: ClientId,
        seq: Seq,
        version: Version,
    },
    VoidSkipped {
        client: ClientId,
        seq: Seq,
    },
    Applied {
        number: u64,
        outcome: Outcome,
    },
    Repeated {
        number: u64,
    },
    Skipped {
        number: u64,
        last: u64,
    },
    Sealed {
        epoch: u64,
        target: SwitchId,
    },
    Collected {
        held: u8,
        count: u8,
    },
    HasPart {
        index: u8,
    },
    OldPart {
        epoch: u64,
    },
    Activated {
        epoch: u64,
    },
    Reported {
        rows: u8,
    },
    NotActive {
        epoch: u64,
    },
    Stale {
        last: Seq,
    },
    Exhausted {
        next: Version,
    },
    Malformed,
    OutOfPlace,
}

/// What a server did.
#[derive(Clone, Copy, Debug, PartialEq, Eq)]
pub enum ServerDid {
    Read {
        key: Key,
        version: Version,
    },
    Applied {
        key: Key,
        version: Version,
    },
    Kept {
        key: Key,
        held: Version,
    },
    Copied {
        key: Key,
        version: Version,
        target: ServerId,
    },
    HasNone {
        key: Key,
    },
    Fenced {
        key: Key,
        version: Version,
        held: Version,
    },
    Void {
        key: Key,
        version: Version,
        floor: Version,
    },
    Barred {
        key: Key,
        version: Version,
        old: Version,
    },
    Malformed,
    OutOfPlace,
}

/// What a client did.
#[derive(Debug, PartialEq, Eq, Drop)]
pub enum ClientDid<'a> {
    Wrote {
        seq: Seq,
        version: Version,
    },
    Read {
        seq: Seq,
        version: Version,
        content: Content<'a>,
    },
    Moved {
        switch: SwitchId,
        epoch: u64,
    },
    Ignored,
}

/// What the controller did with what it was handed.
#[derive(Clone, Copy, Debug, PartialEq, Eq)]
pub enum ControlDid {
    Took { number: u64, outcome: Outcome },
    HasReport { rows: u8 },
    Ignored,
    Malformed,
    OutOfPlace,
}

// ---- what a line of a schedule reports

/// A command as the controller orders it.
#[derive(Clone, Copy, Debug, PartialEq, Eq)]
pub enum Command {
    Promote { key: Key },
    Demote { key: Key },
    Copy { key: Key, target: ServerId },
    Fence { key: Key },
    Handover { target: SwitchId },
    Clear,
}

/// The outcome of a schedule line, with a text for each.
#[derive(Debug, PartialEq, Eq, Drop)]
pub enum Said<'a> {
    Rack,
    End,
    Forged,
    Read {
        client: ClientId,
        seq: Seq,
    },
    Write {
        client: ClientId,
        seq: Seq,
    },
    Delete {
        client: ClientId,
        seq: Seq,
    },
    Busy {
        client: ClientId,
        seq: Seq,
    },
    Spent {
        client: ClientId,
    },
    Resend {
        client: ClientId,
        seq: Seq,
    },
    GiveUp {
        client: ClientId,
        seq: Seq,
    },
    NothingOpen {
        client: ClientId,
    },
    NoSuchPacket {
        number: u64,
        count: u32,
    },
    Switch {
        switch: SwitchId,
        did: SwitchDid,
    },
    Server {
        server: ServerId,
        did: ServerDid,
    },
    Client {
        client: ClientId,
        did: ClientDid<'a>,
    },
    Controller {
        did: ControlDid,
    },
    Orders {
        number: u64,
        command: Command,
    },
    ControlBusy {
        pending: u64,
    },
    ControlSpent {
        last: u64,
    },
    NoSuch {
        target: u8,
    },
    SameSwitch {
        switch: SwitchId,
    },
    Retries {
        number: u64,
    },
    Announces {
        epoch: u64,
    },
    Surveys,
    Plans {
        demotes: u64,
        promotes: u64,
    },
    NoReport,
}

/// The outcome of a line, and the first and last number of the packets that it sent.
#[derive(Debug, PartialEq, Eq, Drop)]
pub struct Line<'a> {
    pub said: Said<'a>,
    pub sent: Option<(u32, u32)>,
}
